//! Numbers that look drawn by lot, the same ones for the same seed.
//!
//! A device and a tree in memory draw by them what a crash leaves.
#![tactic(auto)]

ghost use Rattle.std.specs.Prelude.{◌≡◌};
ghost use Rattle.draws.specs.State.{next_state, upper_half};

use std::marker::Model;

/// A generator: a linear congruence of 64 bits, of whose states the upper halves are drawn.
#[derive(Debug, Drop)]
pub struct Draws {
    state: u64,
}

impl Model for Draws {
    ghost use Rattle.std.specs.Prelude.{ℕ};

    ghost Value = { ℕ };

    ghost view = { λ d. d.state };
}

impl Draws {
    /// The generator with this seed.
    pub fn new(seed: u64) -> Self
        ensures { result ≡ seed }
    {
        Draws { state: seed }
    }

    /// Draws the next number.
    pub fn draw(&mut self) -> u32
        ensures state { self.new ≡ next_state self.old }
        ensures drawn { result ≡ upper_half self.new }
    {
        self.state = self
            .state
            .wrapping_mul(6364136223846793005)
            .wrapping_add(1442695040888963407);
        (self.state >> 32) as u32
    }
}

#[cfg(test)]
mod tests;
