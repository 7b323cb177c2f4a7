//! The reader of modules.

ghost use Rattle.std.specs.Prelude.{IfOk, IfErr, OnErr, ◌≡◌};
ghost use Rattle.hem_text.specs.Grammars.{state};
ghost use Rattle.hem_text.specs.Faults.{IsFirstFault};
ghost use Rattle.hem_modtext.specs.Grammar.{start};
ghost use Rattle.hem_modtext.specs.Draft.{grammar, nothing, modules_of};
ghost use Rattle.hem_modtext.specs.ModulesReading.{ReadsModules};

use crate::draft::Draft;
use crate::language::start;
use hem_module::Modules;
use hem_text::{Cursor, TextError, read_part};
use std::alloc::Global;

impl Draft {
    /// The modules that were read.
    fn into_modules(self) -> Modules
        ensures { result ≡ modules_of self }
    {
        Modules::make(self.name, self.regs, self.queues, self.rules)
    }
}

/// Reads the modules that begin at the cursor, and moves the cursor past them. An answer `Text` is the first fault. After
/// an error the cursor stays where it was.
pub fn read_modules(alloc: Global, cursor: &mut Cursor<'_>) -> Result<Modules, TextError>
    ensures ok { IfOk result (ReadsModules cursor.old.tokens cursor.new.tokens) }
    ensures text { IfErr result (IsFirstFault grammar (state nothing start) cursor.old.tokens cursor.old.end) }
    ensures end { cursor.new.end ≡ cursor.old.end }
    ensures stays { OnErr result (cursor.new ≡ cursor.old) }
{
    let begin = Draft::new(alloc);
    match read_part(alloc, cursor, begin, start()) {
        Ok(draft) => Ok(draft.into_modules()),
        Err(e) => Err(e),
    }
}
