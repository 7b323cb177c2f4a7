//! What the tokens say that finish a test, an action or a rule.

ghost use Rattle.std.specs.List.{list_any};
ghost use Rattle.indexmap.specs.IndexSet.{spare};
ghost use Rattle.std.specs.Prelude.{◌≡◌, ◌<◌, ◌∷◌, ◌++◌, [], Some, None, true, false, IsTrue, not, option_map, OnOk, OnErr};
ghost use Rattle.hem_syntax.specs.Names.{set_last};
ghost use Rattle.hem_module.specs.Lawful.{has_atom, has_act, has_value};
ghost use Rattle.hem_module.specs.declared.rules.Act.TheVariants as act;
ghost use Rattle.hem_module.specs.declared.rules.ModValue.TheVariants as number;
ghost use Rattle.hem_modtext.specs.Draft.{is_register, is_queue, is_twice, register_of, queue_of, with_number, with_id, with_sent_id, with_value, add_test, finish_test, finish_action, finish_rule, with_further, same_key};
ghost use Rattle.hem_modtext.specs.Sound.{counts_in};

use crate::draft::{Draft, copy_of, name_of};
use crate::effects::{push_further, with_id, with_number, with_sent_id, with_value};
use crate::key::RuleKey;
use crate::tokens::TestRole;
use hem_base::{List, MsgId, OutOfMemory};
use hem_module::{Act, Action, ModAtom, ModClause, ModRule, ModValue};
use hem_text::Lexeme;
use indexmap::IndexSet;
use std::alloc::Global;
use std::mem;

impl Draft {
    /// Adds a clause of this test.
    fn add_first(&mut self, atom: ModAtom) -> Result<(), OutOfMemory>
        requires { IsTrue (has_atom (counts_in self.old) atom) }
        ensures ok { OnOk result (self.new ≡ record self.old { clauses = self.old.clauses ++ record { atoms = atom ∷ [] } ∷ []; atom = None }) }
        ensures err { OnErr result (self.new ≡ self.old) }
    {
        let mut atoms = List::new(self.alloc);
        atoms.push(atom)?;
        self.clauses.push(ModClause { atoms })?;
        self.atom = None;
        Ok(())
    }

    /// Adds a test to the last clause, if there is one.
    fn add_further(&mut self, atom: ModAtom) -> Result<(), OutOfMemory>
        requires { IsTrue (has_atom (counts_in self.old) atom) }
        ensures ok { OnOk result (self.new ≡ record self.old { clauses = with_further self.old.clauses atom; atom = None }) }
        ensures err { OnErr result (self.new ≡ self.old) }
    {
        push_further(&mut self.clauses, atom)?;
        self.atom = None;
        Ok(())
    }

    /// Adds a test to the condition of the action.
    fn add_condition(&mut self, atom: ModAtom) -> Result<(), OutOfMemory>
        requires { IsTrue (has_atom (counts_in self.old) atom) }
        ensures ok { OnOk result (self.new ≡ record self.old { cond = self.old.cond ++ atom ∷ []; atom = None }) }
        ensures err { OnErr result (self.new ≡ self.old) }
    {
        self.cond.push(atom)?;
        self.atom = None;
        Ok(())
    }

    /// Adds a test that is finished, where it is used.
    fn add_test(&mut self, role: TestRole, atom: ModAtom) -> Result<(), OutOfMemory>
        requires { IsTrue (has_atom (counts_in self.old) atom) }
        ensures ok { OnOk result (self.new ≡ add_test self.old role atom) }
        ensures err { OnErr result (self.new ≡ self.old) }
    {
        match role {
            TestRole::First => self.add_first(atom),
            TestRole::Further => self.add_further(atom),
            TestRole::Condition => self.add_condition(atom),
        }
    }

    /// Finishes the test that is being read, if one is, with this number.
    pub(crate) fn number_test(&mut self, role: TestRole, number: u64) -> Result<(), OutOfMemory>
        ensures ok { OnOk result (self.new ≡ finish_test self.old role (option_map (λ a. with_number a number) self.old.atom)) }
        ensures err { OnErr result (self.new ≡ self.old) }
    {
        match self.atom {
            Some(atom) => self.add_test(role, with_number(atom, number)),
            None => Ok(()),
        }
    }

    /// Finishes the test that is being read, if one is, with this id.
    pub(crate) fn id_test(&mut self, role: TestRole, id: u32) -> Result<(), OutOfMemory>
        ensures ok { OnOk result (self.new ≡ finish_test self.old role (option_map (λ a. with_id a id) self.old.atom)) }
        ensures err { OnErr result (self.new ≡ self.old) }
    {
        match self.atom {
            Some(atom) => self.add_test(role, with_id(atom, id)),
            None => Ok(()),
        }
    }

    /// Adds an action that is finished. Where memory is wanted, what was read stays as it was.
    fn add_action(&mut self, act: Act) -> Result<(), OutOfMemory>
        requires { IsTrue (has_act (counts_in self.old) act) }
        ensures ok { OnOk result (self.new ≡ finish_action self.old (Some act)) }
        ensures err { OnErr result (self.new ≡ self.old) }
    {
        push_action(self.alloc, &mut self.actions, &mut self.cond, act)?;
        self.act = None;
        Ok(())
    }

    /// Adds the action that lets a queue lose its head.
    pub(crate) fn add_loss(&mut self, token: &Lexeme<'_>) -> Result<(), OutOfMemory>
        requires { IsTrue (is_queue self.old token.now) }
        ensures ok { OnOk result (self.new ≡ finish_action self.old (Some (act.Deq (queue_of self.old token.now.text)))) }
        ensures err { OnErr result (self.new ≡ self.old) }
    {
        let queue = self.queue_of(token.text());
        self.add_action(Act::Deq(queue))
    }

    /// Begins a write of a register.
    pub(crate) fn write_register(&mut self, token: &Lexeme<'_>)
        requires { IsTrue (is_register self.old token.now) }
        ensures { self.new ≡ record self.old { act = Some (act.Set (register_of self.old token.now.text) (number.Number 0)) } }
    {
        let register = self.register_of(token.text());
        self.act = Some(Act::Set(register, ModValue::Number(0)));
    }

    /// Begins a message to a queue.
    pub(crate) fn send_to(&mut self, token: &Lexeme<'_>)
        requires { IsTrue (is_queue self.old token.now) }
        ensures { self.new ≡ record self.old { act = Some (act.Enq (queue_of self.old token.now.text) (record { 0 = 0 }) (number.Number 0)) } }
    {
        let queue = self.queue_of(token.text());
        self.act = Some(Act::Enq(queue, MsgId(0), ModValue::Number(0)));
    }

    /// Lets the message have this id.
    pub(crate) fn set_sent_id(&mut self, id: u32)
        ensures { self.new ≡ record self.old { act = option_map (λ a. with_sent_id a id) self.old.act } }
    {
        self.act = match self.act {
            Some(act) => Some(with_sent_id(act, id)),
            None => None,
        };
    }

    /// Finishes the action that is being read, if one is, with this value.
    fn value_action(&mut self, value: ModValue) -> Result<(), OutOfMemory>
        requires { IsTrue (has_value (counts_in self.old) value) }
        ensures ok { OnOk result (self.new ≡ finish_action self.old (option_map (λ a. with_value a value) self.old.act)) }
        ensures err { OnErr result (self.new ≡ self.old) }
    {
        match self.act {
            Some(act) => self.add_action(with_value(act, value)),
            None => Ok(()),
        }
    }

    pub(crate) fn number_value(&mut self, value: u64) -> Result<(), OutOfMemory>
        ensures ok { OnOk result (self.new ≡ finish_action self.old (option_map (λ a. with_value a (number.Number value)) self.old.act)) }
        ensures err { OnErr result (self.new ≡ self.old) }
    {
        self.value_action(ModValue::Number(value))
    }

    pub(crate) fn register_value(&mut self, token: &Lexeme<'_>) -> Result<(), OutOfMemory>
        requires { IsTrue (is_register self.old token.now) }
        ensures ok { OnOk result (self.new ≡ finish_action self.old (option_map (λ a. with_value a (number.Reg (register_of self.old token.now.text))) self.old.act)) }
        ensures err { OnErr result (self.new ≡ self.old) }
    {
        let register = self.register_of(token.text());
        self.value_action(ModValue::Reg(register))
    }

    pub(crate) fn head_value(&mut self, token: &Lexeme<'_>) -> Result<(), OutOfMemory>
        requires { IsTrue (is_queue self.old token.now) }
        ensures ok { OnOk result (self.new ≡ finish_action self.old (option_map (λ a. with_value a (number.Front (queue_of self.old token.now.text))) self.old.act)) }
        ensures err { OnErr result (self.new ≡ self.old) }
    {
        let queue = self.queue_of(token.text());
        self.value_action(ModValue::Front(queue))
    }

    /// Finishes the rule that is being read. Where memory is wanted, what was read stays as it was.
    #[tactic(auto, using(crate::proofs::Lists::set_of))]
    pub(crate) fn end_rule(&mut self) -> Result<(), OutOfMemory>
        requires { IsTrue (not (is_twice self.old)) }
        ensures ok { OnOk result (self.new ≡ finish_rule self.old) }
        ensures err { OnErr result (self.new ≡ self.old) }
    {
        let key = self.key_with(self.from);
        let name = copy_of(&self.rule_name);
        make_room(&mut self.keys)?;
        self.rules.push(no_rule(self.alloc))?;
        let rule = ModRule {
            object: self.object,
            name,
            from: self.from,
            spontaneous: self.spontaneous,
            clauses: taken(self.alloc, &mut self.clauses),
            actions: taken(self.alloc, &mut self.actions),
        };
        set_last(&mut self.rules, rule);
        add_key(&mut self.keys, key);
        self.from = None;
        self.spontaneous = false;
        Ok(())
    }
}

/// A rule of which nothing is read.
fn no_rule(alloc: Global) -> ModRule
    ensures { result ≡ record { object = 0; name = 109 ∷ []; from = None; spontaneous = false; clauses = []; actions = [] } }
{
    ModRule {
        object: 0,
        name: name_of(b"m"),
        from: None,
        spontaneous: false,
        clauses: List::new(alloc),
        actions: List::new(alloc),
    }
}

/// Puts an action at the end, with the tests of its condition, which are taken out of their list. Where memory is wanted
/// both lists stay as they were.
#[tactic(auto, using(crate::proofs::Lists::set_of))]
fn push_action(
    alloc: Global,
    actions: &mut List<Action>,
    cond: &mut List<ModAtom>,
    act: Act,
) -> Result<(), OutOfMemory>
    ensures more { OnOk result (actions.new ≡ actions.old ++ record { cond = cond.old; act = act } ∷ []) }
    ensures none { OnOk result (cond.new ≡ []) }
    ensures same { OnErr result (actions.new ≡ actions.old) }
    ensures left { OnErr result (cond.new ≡ cond.old) }
{
    let cond_later = List::new(alloc);
    actions.push(Action {
        cond: cond_later,
        act,
    })?;
    let cond = taken(alloc, cond);
    set_last(actions, Action { cond, act });
    Ok(())
}

/// Writes the last item of a list anew.
fn set_last<T: Drop>(list: &mut List<T>, item: T)
    ensures { list.new ≡ set_last list.old item }
{
    let len = list.len();
    if len > 0 {
        *list.at_mut(len - 1) = item;
    }
}

/// Takes all out of a list.
fn taken<T: Drop>(alloc: Global, list: &mut List<T>) -> List<T>
    ensures all { result ≡ list.old }
    ensures none { list.new ≡ [] }
{
    mem::replace(list, List::new(alloc))
}

/// Makes room for one key more. Where it takes too much memory nothing changes.
fn make_room(keys: &mut IndexSet<RuleKey>) -> Result<(), OutOfMemory>
    ensures same { keys.new.keys ≡ keys.old.keys }
    ensures room { OnOk result (0 < spare keys.new) }
{
    keys.reserve(1)?;
    Ok(())
}

/// Adds a key that isn't there yet, where there is room.
fn add_key(keys: &mut IndexSet<RuleKey>, key: RuleKey)
    requires room { 0 < spare keys.old }
    requires fresh { list_any (same_key key) keys.old.keys ≡ false }
    ensures { keys.new.keys ≡ keys.old.keys ++ key ∷ [] }
{
    match keys.insert(key) {
        Ok(_) => {}
        // There is room, so this isn't refused.
        Err(_) => {}
    }
}
