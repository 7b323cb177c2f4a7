//! Reads a protocol that is written out.

ghost use Rattle.std.specs.Prelude.{◌≡◌, IfOk, IfErr, OnErr};
ghost use Rattle.hem_syntax.specs.Lawful.{IsProtocol};
ghost use Rattle.hem_grammar.specs.Draft.{grammar, protocol_of};
ghost use Rattle.hem_text.specs.Faults.{IsFirstFault};
ghost use Rattle.hem_parser.specs.ProtocolReading.{begin, ReadsWritten};

use crate::draft::{Draft, nothing};
use crate::firsts::start;
use hem_syntax::{KindPart, Protocol};
use hem_text::{Cursor, TextError, read_part};
use std::alloc::Global;

/// The protocol that has been read.
fn protocol_of(draft: Draft) -> Protocol
    requires { IsProtocol (protocol_of draft) }
    ensures { result ≡ protocol_of draft }
{
    let leaf = KindPart {
        fields: draft.fields,
        dir: draft.dir,
        rules: draft.rules,
    };
    Protocol::make(
        draft.name,
        draft.statuses,
        draft.messages,
        draft.rule_names,
        [draft.root, draft.mid, leaf],
    )
}

/// Reads the protocol that is written out from the cursor on, and moves the cursor past it. An answer `Text` is the
/// first fault. After an error the cursor stays where it was.
pub fn written(alloc: Global, cursor: &mut Cursor<'_>) -> Result<Protocol, TextError>
    ensures ok { IfOk result (ReadsWritten cursor.old.tokens cursor.new.tokens) }
    ensures text { IfErr result (IsFirstFault grammar begin cursor.old.tokens cursor.old.end) }
    ensures end { cursor.new.end ≡ cursor.old.end }
    ensures stays { OnErr result (cursor.new ≡ cursor.old) }
{
    match read_part(alloc, cursor, nothing(alloc), start()) {
        Ok(draft) => Ok(protocol_of(draft)),
        Err(e) => Err(e),
    }
}
