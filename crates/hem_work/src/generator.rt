//! The generator of draws.

ghost use Rattle.std.specs.Prelude.{◌≡◌};
ghost use Rattle.hem_work.specs.Generator.{next_number, number_after, draw_of};

use std::marker::Model;

/// The generator of draws, seen as its number. From a number x it steps to (x * 25173 + 13849) mod 65536.
#[derive(Debug, Drop)]
pub struct Generator {
    number: u32,
}

impl Model for Generator {
    ghost use Rattle.std.specs.Prelude.{ℕ, ◌<◌};

    ghost Value = { ℕ };

    ghost view = { λ g. g.number };

    ghost invariant = { λ g. g.number < 65536 };
}

impl Generator {
    /// The generator of a seed, of which it takes the rest modulo 65536.
    pub fn new(seed: u64) -> Generator
        ensures { result ≡ number_after seed 0 }
    {
        Generator {
            number: (seed % 65536) as u32,
        }
    }

    /// Makes a step, and answers the draw of the new number: its sixteenth part.
    pub fn draw(&mut self) -> u32
        ensures step { self.new ≡ next_number self.old }
        ensures draw { result ≡ draw_of (next_number self.old) }
    {
        self.number = (self.number * 25173 + 13849) % 65536;
        self.number / 16
    }
}
