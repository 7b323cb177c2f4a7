//! Protocols that are disciplined.

ghost use Rattle.std.specs.Prelude.{◌≡◌};
ghost use Rattle.hem_check.specs.Discipline.{IsDisciplined};

use hem_syntax::Protocol;
use std::marker::Model;

/// A protocol of which each rule meets all eight clauses of the discipline.
#[derive(Drop)]
pub struct Accepted {
    protocol: Protocol,
}

impl Model for Accepted {
    ghost use Rattle.hem_syntax.specs.Protocol.{Protocol as Described};
    ghost use Rattle.hem_check.specs.Discipline.{IsDisciplined};

    ghost Value = { Described };

    ghost view = { λ a. a.protocol };

    ghost invariant = { λ a. IsDisciplined a.protocol };
}

impl Accepted {
    /// The disciplined protocol as such. It takes no memory.
    pub(crate) fn make(protocol: Protocol) -> Accepted
        requires { IsDisciplined protocol }
        ensures { result ≡ protocol }
    {
        Accepted { protocol }
    }

    /// The protocol, which is disciplined.
    pub fn protocol(&self) -> &Protocol
        ensures same { result.now ≡ self.now }
        ensures disciplined { IsDisciplined result.now }
    {
        &self.protocol
    }
}
