//! What the tokens of modules say.

ghost use Rattle.std.specs.Prelude.{◌≡◌, ◌∷◌, ◌++◌, [], Some, None, true, IsTrue, not, option_map, length, slice_get, OnOk, OnErr, ◌-◌, ◌<◌, slice_set, slice_index_or as get_or};
ghost use Rattle.hem_text.specs.Spelling.{is_name};
ghost use Rattle.hem_syntax.specs.Names.{with_last};
ghost use Rattle.hem_module.specs.declared.rules.ModAtom.TheVariants as atom;
ghost use Rattle.hem_modtext.specs.Draft.{is_short, is_declared, is_register, is_queue, register_of, queue_of, with_number, with_id, as_differing, with_sent_id, with_value, with_further};

use crate::draft::{Draft, name_of};
use hem_base::{List, MsgId, OutOfMemory};
use hem_module::{Act, ModAtom, ModClause, ModValue};
use hem_text::Lexeme;

/// The test with this number.
pub(crate) fn with_number(atom: ModAtom, number: u64) -> ModAtom
    ensures { result ≡ with_number atom number }
{
    match atom {
        ModAtom::Is(register, _) => ModAtom::Is(register, number),
        ModAtom::Not(register, _) => ModAtom::Not(register, number),
        ModAtom::Head(queue, id) => ModAtom::Head(queue, id),
    }
}

/// The test with this id.
pub(crate) fn with_id(atom: ModAtom, id: u32) -> ModAtom
    ensures { result ≡ with_id atom id }
{
    match atom {
        ModAtom::Head(queue, _) => ModAtom::Head(queue, MsgId(id)),
        ModAtom::Is(register, number) => ModAtom::Is(register, number),
        ModAtom::Not(register, number) => ModAtom::Not(register, number),
    }
}

/// The test that the register differs.
fn as_differing(atom: ModAtom) -> ModAtom
    ensures { result ≡ as_differing atom }
{
    match atom {
        ModAtom::Is(register, number) => ModAtom::Not(register, number),
        ModAtom::Not(register, number) => ModAtom::Not(register, number),
        ModAtom::Head(queue, id) => ModAtom::Head(queue, id),
    }
}

/// The act that sends this id.
pub(crate) fn with_sent_id(act: Act, id: u32) -> Act
    ensures { result ≡ with_sent_id act id }
{
    match act {
        Act::Enq(queue, _, value) => Act::Enq(queue, MsgId(id), value),
        Act::Deq(queue) => Act::Deq(queue),
        Act::Set(register, value) => Act::Set(register, value),
    }
}

/// The act with this value.
pub(crate) fn with_value(act: Act, value: ModValue) -> Act
    ensures { result ≡ with_value act value }
{
    match act {
        Act::Set(register, _) => Act::Set(register, value),
        Act::Enq(queue, id, _) => Act::Enq(queue, id, value),
        Act::Deq(queue) => Act::Deq(queue),
    }
}

/// Puts a test at the end of a clause that is there. Where memory is wanted the clauses stay as they were.
#[tactic(auto, using(crate::proofs::Lists::set_get_same))]
fn push_test(clauses: &mut List<ModClause>, at: usize, atom: ModAtom) -> Result<(), OutOfMemory>
    requires { at < length clauses.old }
    ensures ok { OnOk result (clauses.new ≡ slice_set clauses.old at (record { atoms = (get_or clauses.old at (record { atoms = [] })).atoms ++ atom ∷ [] })) }
    ensures err { OnErr result (clauses.new ≡ clauses.old) }
{
    let clause = clauses.at_mut(at);
    clause.atoms.push(atom)
}

/// Puts a test at the end of the last clause, where there is one. Where memory is wanted the clauses stay as they were.
pub(crate) fn push_further(clauses: &mut List<ModClause>, atom: ModAtom) -> Result<(), OutOfMemory>
    ensures ok { OnOk result (clauses.new ≡ with_further clauses.old atom) }
    ensures err { OnErr result (clauses.new ≡ clauses.old) }
{
    let len = clauses.len();
    if len > 0 {
        push_test(clauses, len - 1, atom)
    } else {
        Ok(())
    }
}

impl Draft {
    pub(crate) fn set_name(&mut self, token: &Lexeme<'_>)
        requires name { IsTrue (is_name token.now) }
        requires short { IsTrue (is_short token.now.text) }
        ensures { self.new ≡ record self.old { name = token.now.text } }
    {
        let name = name_of(token.text());
        self.name = name;
    }

    pub(crate) fn add_register(&mut self, token: &Lexeme<'_>) -> Result<(), OutOfMemory>
        requires name { IsTrue (is_name token.now) }
        requires short { IsTrue (is_short token.now.text) }
        requires fresh { IsTrue (not (is_declared self.old token.now.text)) }
        ensures ok { OnOk result (self.new ≡ record self.old { regs = self.old.regs ++ (token.now.text, 0) ∷ [] }) }
        ensures err { OnErr result (self.new ≡ self.old) }
    {
        let name = name_of(token.text());
        self.regs.push(name, 0)?;
        Ok(())
    }

    /// Lets the last register hold this number at the start.
    pub(crate) fn set_start(&mut self, number: u64)
        ensures { self.new ≡ record self.old { regs = with_last self.old.regs number } }
    {
        self.regs.set_last(number);
    }

    pub(crate) fn add_queue(&mut self, token: &Lexeme<'_>) -> Result<(), OutOfMemory>
        requires name { IsTrue (is_name token.now) }
        requires short { IsTrue (is_short token.now.text) }
        requires fresh { IsTrue (not (is_declared self.old token.now.text)) }
        ensures ok { OnOk result (self.new ≡ record self.old { queues = self.old.queues ++ token.now.text ∷ [] }) }
        ensures err { OnErr result (self.new ≡ self.old) }
    {
        let name = name_of(token.text());
        self.queues.push(name)?;
        Ok(())
    }

    pub(crate) fn set_object(&mut self, object: u32)
        ensures { self.new ≡ record self.old { object = object } }
    {
        self.object = object;
    }

    pub(crate) fn set_rule_name(&mut self, token: &Lexeme<'_>)
        requires name { IsTrue (is_name token.now) }
        requires short { IsTrue (is_short token.now.text) }
        ensures { self.new ≡ record self.old { rule_name = token.now.text } }
    {
        let name = name_of(token.text());
        self.rule_name = name;
    }

    pub(crate) fn set_child(&mut self, child: u32)
        ensures { self.new ≡ record self.old { from = Some child } }
    {
        self.from = Some(child);
    }

    pub(crate) fn set_spontaneous(&mut self)
        ensures { self.new ≡ record self.old { spontaneous = true } }
    {
        self.spontaneous = true;
    }

    /// Adds the clause that never holds.
    pub(crate) fn add_never(&mut self) -> Result<(), OutOfMemory>
        ensures ok { OnOk result (self.new ≡ record self.old { clauses = self.old.clauses ++ record { atoms = [] } ∷ [] }) }
        ensures err { OnErr result (self.new ≡ self.old) }
    {
        let atoms = List::new(self.alloc);
        self.clauses.push(ModClause { atoms })
    }

    /// Begins a test of a register.
    pub(crate) fn test_register(&mut self, token: &Lexeme<'_>)
        requires { IsTrue (is_register self.old token.now) }
        ensures { self.new ≡ record self.old { atom = Some (atom.Is (register_of self.old token.now.text) 0) } }
    {
        let register = self.register_of(token.text());
        self.atom = Some(ModAtom::Is(register, 0));
    }

    pub(crate) fn set_differs(&mut self)
        ensures { self.new ≡ record self.old { atom = option_map as_differing self.old.atom } }
    {
        self.atom = self.atom.map(as_differing);
    }

    /// Begins a test of a queue's head.
    pub(crate) fn test_head(&mut self, token: &Lexeme<'_>)
        requires { IsTrue (is_queue self.old token.now) }
        ensures { self.new ≡ record self.old { atom = Some (atom.Head (queue_of self.old token.now.text) (record { 0 = 0 })) } }
    {
        let queue = self.queue_of(token.text());
        self.atom = Some(ModAtom::Head(queue, MsgId(0)));
    }
}
