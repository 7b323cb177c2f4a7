//! The reader of histories.

ghost use Rattle.std.specs.Prelude.{◌≡◌, IfOk, IfErr, OnErr};
ghost use Rattle.hem_text.specs.Grammars.{state};
ghost use Rattle.hem_text.specs.Faults.{IsFirstFault};
ghost use Rattle.hem_history.specs.Grammar.{start, grammar, nothing};
ghost use Rattle.hem_history.specs.HistoryReading.{ReadsHistory};

use crate::draft::{nothing, start};
use hem_base::Firing;
use hem_syntax::Protocol;
use hem_text::{Cursor, TextError, read_part};
use std::alloc::Global;

/// Reads the history that begins at the cursor, over the rule names of the protocol, and moves the cursor past it. A
/// firing may name a rule of any kind, and whether it is possible isn't asked. An answer `Text` is the first fault. After
/// an error the cursor stays where it was.
pub fn read_history(
    alloc: Global,
    cursor: &mut Cursor<'_>,
    p: &Protocol,
) -> Result<Vec<Firing>, TextError>
    ensures ok { IfOk result (λ v. ReadsHistory p.now cursor.old.tokens cursor.new.tokens v.items) }
    ensures text { IfErr result (IsFirstFault grammar (state (nothing p.now) start) cursor.old.tokens cursor.old.end) }
    ensures end { cursor.new.end ≡ cursor.old.end }
    ensures stays { OnErr result (cursor.new ≡ cursor.old) }
{
    let begin = nothing(alloc, p);
    match read_part(alloc, cursor, begin, start()) {
        Ok(draft) => Ok(draft.firings.into_vec()),
        Err(e) => Err(e),
    }
}
