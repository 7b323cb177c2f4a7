//! Firings that were made.

use hem_base::Firing;
use hem_fire::{Heads, Outs};
use std::marker::Model;

/// A firing that was made, with the heads that it took, and what it took and sent.
#[derive(Drop)]
pub struct Event {
    /// The firing.
    pub firing: Firing,
    /// The heads that it took: of each list the message that it took there, and `None` where it took none.
    pub took: Heads,
    /// What it took and sent.
    pub outs: Outs,
}

impl Model for Event {
    ghost use Rattle.hem_system.specs.Events.{Event as Made};

    ghost Value = { Made };

    ghost view = { λ e. record { firing = e.firing; took = e.took; outs = e.outs } };
}
