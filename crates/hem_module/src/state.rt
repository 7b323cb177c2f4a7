//! The states of modules.

ghost use Rattle.std.specs.Prelude.{◌≡◌, ◌<◌, ◌∷◌, ◌++◌, length, map, [], slice_get, unwrap_or, IfOk, OnOk, OnErr};
ghost use Rattle.std.specs.List.{list_any, list_all};
ghost use Rattle.std.specs.Option.{option_map};
ghost use Rattle.hem_module.specs.Step.{head_of, amount_in, test_holds};
ghost use Rattle.hem_module.specs.Places.{test_of, amount_of};
ghost use Rattle.hem_module.specs.States.{queue_in, item_of, held_of, fed, start_of};

use crate::changes::push_at;
use crate::modules::Modules;
use crate::queue::Queue;
use crate::rules::{ModAtom, ModValue};
use hem_base::{List, Message, OutOfMemory};
use hem_syntax::{Named, Names};
use std::alloc::Global;
use std::marker::Model;

/// A state of modules: the number that each register holds, and the messages that each queue holds.
#[derive(Debug, Drop)]
pub struct ModState {
    pub(crate) regs: List<u64>,
    pub(crate) queues: List<Queue>,
}

impl Model for ModState {
    ghost use Rattle.hem_module.specs.States.{State};

    ghost Value = { State };

    ghost view = { λ s. record { regs = s.regs; queues = s.queues } };
}

/// What the register at a place holds at the start. One that isn't there holds 0.
fn start_number(regs: &Named<u64>, place: usize) -> u64
    ensures { result ≡ unwrap_or (option_map (λ r. r.1) (slice_get regs.now place)) 0 }
{
    regs.value(place).copied().unwrap_or(0)
}

/// What the registers hold at the start.
#[tactic(auto, using(crate::proofs::Lists::map_take_more))]
fn start_numbers(alloc: Global, regs: &Named<u64>) -> Result<List<u64>, OutOfMemory>
    ensures { IfOk result (λ numbers. numbers ≡ map (λ r. r.1) regs.now) }
{
    let mut numbers = List::new(alloc);
    for place in 0..regs.len() {
        numbers.push(start_number(regs, place))?;
    }
    Ok(numbers)
}

/// As many empty queues.
fn empty_queues(alloc: Global, names: &Names) -> Result<List<Queue>, OutOfMemory>
    ensures { IfOk result (λ queues. queues ≡ map (λ q. []) names.now) }
{
    let names = names.as_slice();
    let mut queues = List::new(alloc);
    for _name in names {
        queues.push(Queue::new(alloc))?;
    }
    Ok(queues)
}

impl ModState {
    /// The state at the start: each register as the modules say, and each queue empty.
    pub fn start(alloc: Global, m: &Modules) -> Result<ModState, OutOfMemory>
        ensures { IfOk result (λ s. s ≡ start_of m.now) }
    {
        let regs = start_numbers(alloc, m.regs())?;
        let queues = empty_queues(alloc, m.queues())?;
        Ok(ModState { regs, queues })
    }

    /// The state with these registers and no queue. It takes no memory.
    pub fn with_registers(alloc: Global, regs: List<u64>) -> ModState
        ensures { result ≡ record { regs = regs; queues = [] } }
    {
        ModState {
            regs,
            queues: List::new(alloc),
        }
    }

    /// Puts a queue behind the others that holds these messages, head first. Where memory is wanted the state stays as
    /// it was.
    pub fn push_queue(&mut self, alloc: Global, messages: &[Message]) -> Result<(), OutOfMemory>
        ensures ok { OnOk result (self.new ≡ record self.old { queues = self.old.queues ++ messages.now ∷ [] }) }
        ensures err { OnErr result (self.new ≡ self.old) }
    {
        self.queues.push(Queue::from_slice(alloc, messages)?)
    }

    /// What the registers hold, in text order.
    pub fn regs(&self) -> &[u64]
        ensures { result.now ≡ self.now.regs }
    {
        self.regs.as_slice()
    }

    /// How many queues there are.
    pub fn queue_count(&self) -> usize
        ensures { result ≡ length self.now.queues }
    {
        self.queues.len()
    }

    /// What a queue holds, head first. One that isn't there holds nothing.
    pub fn queue(&self, queue: usize) -> &[Message]
        ensures { result.now ≡ queue_in self.now queue }
    {
        match self.queues.get(queue) {
            Some(queue) => queue.as_slice(),
            None => &[],
        }
    }

    /// Puts a message at the end of a queue. Where memory is wanted the state stays as it was.
    pub fn feed(&mut self, queue: usize, item: Message) -> Result<(), OutOfMemory>
        requires { queue < length self.old.queues }
        ensures ok { OnOk result (self.new ≡ fed self.old queue item) }
        ensures err { OnErr result (self.new ≡ self.old) }
    {
        push_at(&mut self.queues, queue, item)
    }

    /// The head of a queue, where it has one.
    pub(crate) fn head(&self, queue: usize) -> Option<Message>
        ensures { option_map item_of result ≡ head_of (held_of self.now) queue }
    {
        self.queue(queue).first().copied()
    }

    /// What a register holds. One that isn't there holds 0.
    pub(crate) fn register(&self, register: usize) -> u64
        ensures { result ≡ (held_of self.now).reg register }
    {
        self.regs.get(register).copied().unwrap_or(0)
    }

    /// The number that a value means.
    pub(crate) fn number(&self, value: ModValue) -> u64
        ensures { result ≡ amount_in (held_of self.now) (amount_of value) }
    {
        match value {
            ModValue::Number(number) => number,
            ModValue::Reg(register) => self.register(register),
            ModValue::Front(queue) => match self.head(queue) {
                Some(message) => message.value,
                None => 0,
            },
        }
    }

    /// Whether a test holds.
    pub(crate) fn holds(&self, atom: ModAtom) -> bool
        ensures { result ≡ test_holds (held_of self.now) (test_of atom) }
    {
        match atom {
            ModAtom::Is(register, number) => self.register(register) == number,
            ModAtom::Not(register, number) => self.register(register) != number,
            ModAtom::Head(queue, id) => match self.head(queue) {
                Some(message) => message.id == id,
                None => false,
            },
        }
    }

    /// Whether one of these tests holds.
    pub(crate) fn any_holds(&self, atoms: &[ModAtom]) -> bool
        ensures { result ≡ list_any (λ t. test_holds (held_of self.now) (test_of t)) atoms.now }
    {
        atoms.iter().any(|atom| self.holds(*atom))
    }

    /// Whether all of these tests hold.
    pub(crate) fn all_hold(&self, atoms: &[ModAtom]) -> bool
        ensures { result ≡ list_all (λ t. test_holds (held_of self.now) (test_of t)) atoms.now }
    {
        atoms.iter().all(|atom| self.holds(*atom))
    }
}
