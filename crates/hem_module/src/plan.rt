//! What the actions of a rule do, read from the state before the step.

ghost use Rattle.std.specs.Prelude.{◌≡◌, [], ◌++◌, map, IfOk, OnOk};
ghost use Rattle.hem_module.specs.Step.{is_done};
ghost use Rattle.hem_module.specs.Places.{deed_of, action_of};
ghost use Rattle.hem_module.specs.States.{held_of};
ghost use Rattle.hem_module.specs.Plans.{write_by, sent_by, lost_by, writes_of, sends_of, losses_of, with_queues};

use crate::rules::{Act, Action};
use crate::state::ModState;
use hem_base::{Message, OutOfMemory};
use indexmap::IndexSet;
use std::alloc::Global;

/// A number that is written to a register.
#[derive(Clone, Copy, Debug)]
pub(crate) struct Write {
    pub(crate) register: usize,
    pub(crate) number: u64,
}

/// A message that goes to the end of a queue.
#[derive(Clone, Copy, Debug)]
pub(crate) struct Sent {
    pub(crate) queue: usize,
    pub(crate) message: Message,
}

/// What actions do: the writes and the messages in text order, and the queues that lose their heads, each once.
#[derive(Drop)]
pub(crate) struct Plan {
    pub(crate) writes: Vec<Write>,
    pub(crate) losses: IndexSet<usize>,
    pub(crate) sends: Vec<Sent>,
}

/// Whether an action is done.
fn is_done(s: &ModState, action: &Action) -> bool
    ensures { result ≡ is_done (held_of s.now) (action_of action.now) }
{
    s.all_hold(action.cond.as_slice())
}

impl Plan {
    /// Notes what an act does.
    fn add(&mut self, s: &ModState, act: Act) -> Result<(), OutOfMemory>
        ensures writes { OnOk result (self.new.writes.items ≡ self.old.writes.items ++ write_by (held_of s.now) (deed_of act)) }
        ensures sends { OnOk result (self.new.sends.items ≡ self.old.sends.items ++ sent_by (held_of s.now) (deed_of act)) }
        ensures losses { OnOk result (self.new.losses.keys ≡ with_queues self.old.losses.keys (lost_by (held_of s.now) (deed_of act))) }
    {
        match act {
            Act::Deq(queue) => {
                if s.head(queue).is_some() {
                    self.losses.insert(queue)?;
                }
            }
            Act::Set(register, value) => {
                let number = s.number(value);
                self.writes.push(Write { register, number })?;
            }
            Act::Enq(queue, id, value) => {
                let message = Message {
                    id,
                    value: s.number(value),
                };
                self.sends.push(Sent { queue, message })?;
            }
        }
        Ok(())
    }

    /// What these actions do.
    pub(crate) fn of(alloc: Global, actions: &[Action], s: &ModState) -> Result<Plan, OutOfMemory>
        ensures writes { IfOk result (λ p. p.writes.items ≡ writes_of (held_of s.now) (map action_of actions.now)) }
        ensures sends { IfOk result (λ p. p.sends.items ≡ sends_of (held_of s.now) (map action_of actions.now)) }
        ensures losses { IfOk result (λ p. p.losses.keys ≡ with_queues [] (losses_of (held_of s.now) (map action_of actions.now))) }
    {
        let mut plan = Plan {
            writes: Vec::new(alloc),
            losses: IndexSet::new(alloc),
            sends: Vec::new(alloc),
        };
        for action in actions {
            if is_done(s, action) {
                plan.add(s, action.act)?;
            }
        }
        Ok(plan)
    }
}
