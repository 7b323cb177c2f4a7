//! Modules.

ghost use Rattle.std.specs.Prelude.{◌≡◌};
ghost use Rattle.hem_module.specs.Modules.{Modules as Written};
ghost use Rattle.hem_module.specs.Lawful.{IsModules};

use crate::rules::ModRule;
use hem_base::{List, Name};
use hem_syntax::{Named, Names};
use std::marker::Model;

/// Modules that may be written: guarded rules over registers and queues.
#[derive(Debug, Drop)]
pub struct Modules {
    name: Name,
    /// The registers, each with the number that it holds at the start.
    regs: Named<u64>,
    queues: Names,
    rules: List<ModRule>,
}

impl Model for Modules {
    ghost use Rattle.hem_module.specs.Modules.{Modules as Written};
    ghost use Rattle.hem_module.specs.Lawful.{IsModules};

    ghost Value = { Written };

    ghost view = { λ m. record { name = m.name; regs = m.regs; queues = m.queues; rules = m.rules } };

    ghost invariant = { λ m. IsModules (record { name = m.name; regs = m.regs; queues = m.queues; rules = m.rules }) };
}

impl Modules {
    /// The modules of these parts. It takes no memory.
    pub fn make(name: Name, regs: Named<u64>, queues: Names, rules: List<ModRule>) -> Modules
        requires { IsModules (record { name = name; regs = regs; queues = queues; rules = rules }) }
        ensures { result ≡ record { name = name; regs = regs; queues = queues; rules = rules } }
    {
        Modules {
            name,
            regs,
            queues,
            rules,
        }
    }

    pub fn name(&self) -> &Name
        ensures { result.now ≡ self.now.name }
    {
        &self.name
    }

    /// The names of the registers, each with the number that it holds at the start, in text order.
    pub fn regs(&self) -> &Named<u64>
        ensures { result.now ≡ self.now.regs }
    {
        &self.regs
    }

    /// The names of the queues, in text order.
    pub fn queues(&self) -> &Names
        ensures { result.now ≡ self.now.queues }
    {
        &self.queues
    }

    /// The rules, in text order.
    pub fn rules(&self) -> &[ModRule]
        ensures rules { result.now ≡ self.now.rules }
        ensures lawful { IsModules self.now }
    {
        self.rules.as_slice()
    }
}
