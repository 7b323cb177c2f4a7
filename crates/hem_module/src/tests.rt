//! A step of a rule that can fire, and of one that can't.

ghost use Rattle.std.specs.Prelude.{◌≡◌, [], ◌∷◌, length, codes, IfOk, IsTrue};
ghost use Rattle.hem_module.specs.Lawful.{has_clause, has_rule};

use crate::{
    Act, Action, ModAtom, ModClause, ModFault, ModRule, ModState, ModValue, Modules, mod_can,
    mod_step,
};
use hem_base::{List, Message, MsgId, Name, OutOfMemory};
use hem_syntax::{Named, Names};
use std::alloc::Global;
use std::test::Fail;

/// The name `a`.
fn name_a() -> Name
    ensures { result ≡ codes "a" }
{
    Name::from_slice(b"a").unwrap()
}

/// The name `b`.
fn name_b() -> Name
    ensures { result ≡ codes "b" }
{
    Name::from_slice(b"b").unwrap()
}

/// The test that the head of the queue 0 has the id 7.
fn clause(alloc: Global) -> Result<ModClause, OutOfMemory>
    ensures { IfOk result (λ c. IsTrue (has_clause (record { regs = 1; queues = 1 }) c)) }
{
    let mut atoms = List::new(alloc);
    atoms.push(ModAtom::Head(0, MsgId(7)))?;
    Ok(ModClause { atoms })
}

/// An act that is always done.
fn always(alloc: Global, act: Act) -> Action
    ensures { result ≡ record { cond = []; act = act } }
{
    Action {
        cond: List::new(alloc),
        act,
    }
}

/// A rule that takes the head of the queue 0, where its id is 7, and writes its value into the register 0.
fn rule(alloc: Global) -> Result<ModRule, OutOfMemory>
    ensures name { IfOk result (λ r. r.name ≡ codes "a") }
    ensures there { IfOk result (λ r. IsTrue (has_rule (record { regs = 1; queues = 1 }) r)) }
{
    let mut clauses = List::new(alloc);
    clauses.push(clause(alloc)?)?;
    let mut actions = List::new(alloc);
    actions.push(always(alloc, Act::Deq(0)))?;
    actions.push(always(alloc, Act::Set(0, ModValue::Front(0))))?;
    Ok(ModRule {
        object: 0,
        name: name_a(),
        from: None,
        spontaneous: false,
        clauses,
        actions,
    })
}

/// A register that holds 0 at the start.
fn registers(alloc: Global) -> Result<Named<u64>, OutOfMemory>
    ensures { IfOk result (λ regs. regs ≡ (codes "a", 0) ∷ []) }
{
    let mut regs = Named::new(alloc);
    regs.push(name_a(), 0)?;
    Ok(regs)
}

/// A queue.
fn queues(alloc: Global) -> Result<Names, OutOfMemory>
    ensures { IfOk result (λ queues. queues ≡ codes "b" ∷ []) }
{
    let mut queues = Names::new(alloc);
    queues.push(name_b())?;
    Ok(queues)
}

/// Modules of a register, a queue and that rule.
fn modules(alloc: Global) -> Result<Modules, OutOfMemory>
    ensures { IfOk result (λ m. length m.rules ≡ 1) }
{
    let rule = rule(alloc)?;
    let regs = registers(alloc)?;
    let queues = queues(alloc)?;
    let mut rules = List::new(alloc);
    rules.push(rule)?;
    Ok(Modules::make(name_a(), regs, queues, rules))
}

/// The state in which the register holds 0 and the queue this message.
fn holding(alloc: Global, message: Message) -> Result<ModState, OutOfMemory> {
    let mut regs = List::new(alloc);
    regs.push(0)?;
    let mut s = ModState::with_registers(alloc, regs);
    s.push_queue(alloc, &[message])?;
    Ok(s)
}

/// Whether the rule fires.
fn fires(alloc: Global, m: &Modules, s: &mut ModState) -> Result<bool, OutOfMemory>
    requires { length m.now.rules ≡ 1 }
{
    match mod_step(alloc, m, 0, s) {
        Ok(()) => Ok(true),
        Err(ModFault::NotEnabled) => Ok(false),
        Err(ModFault::OutOfMemory) => Err(OutOfMemory),
    }
}

/// Whether the register holds this number and the queue these messages.
fn holds(s: &ModState, number: u64, messages: &[Message]) -> bool {
    s.regs() == [number].as_slice() && s.queue(0) == messages
}

/// Whether the rule can fire and fires where this message is the queue's, as wanted, and leaves what is wanted.
fn leaves(
    alloc: Global,
    m: &Modules,
    message: Message,
    wanted: bool,
    number: u64,
    messages: &[Message],
) -> Result<bool, OutOfMemory>
    requires { length m.now.rules ≡ 1 }
{
    let mut s = holding(alloc, message)?;
    let can = mod_can(m, 0, &s);
    let fired = fires(alloc, m, &mut s)?;
    Ok(can == wanted && fired == wanted && holds(&s, number, messages))
}

/// A message of this id with the value 5.
fn five(id: u32) -> Message {
    Message {
        id: MsgId(id),
        value: 5,
    }
}

/// Whether the rule fires where the head has its id, and not where it has another.
fn fires_where_it_can(alloc: Global, m: &Modules) -> Result<bool, OutOfMemory>
    requires { length m.now.rules ≡ 1 }
{
    let taken = leaves(alloc, m, five(7), true, 5, &[])?;
    let left = leaves(alloc, m, five(6), false, 0, &[five(6)])?;
    Ok(taken && left)
}

/// The same of those modules.
fn answers(alloc: Global) -> Result<bool, OutOfMemory> {
    let m = modules(alloc)?;
    fires_where_it_can(alloc, &m)
}

#[test]
fn a_rule_fires_where_its_clause_holds(rt: HostRuntime) -> Result<(), Fail> {
    assert!(rt; answers(rt.alloc())?);
    Ok(())
}
