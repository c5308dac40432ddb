//! The generator of a drill.

ghost use Rattle.std.specs.Prelude.{◌≡◌, ◌≤◌, ℕ};
ghost use Rattle.lt_drill.specs.States.{next_state, answer_at};

use std::marker::Model;

/// The multiplier and the increment are those of Knuth's MMIX (The Art of Computer Programming, volume 2, 3.3.4).
const MULTIPLIER: u64 = 6_364_136_223_846_793_005;

const INCREMENT: u64 = 1_442_695_040_888_963_407;

/// A linear congruential generator modulo 2^64. It is seen as its number.
#[derive(Drop)]
pub struct Draws {
    state: u64,
}

impl Model for Draws {
    ghost Value = { ℕ };

    ghost view = { λ draws. draws.state };
}

impl Draws {
    /// The generator whose number is the seed.
    pub fn new(seed: u64) -> Draws
        ensures { result ≡ seed }
    {
        Draws { state: seed }
    }

    /// Takes the next number x, and answers the remainder of `x / 2^33`, rounded down, on division by `below`.
    pub fn next(&mut self, below: u64) -> u64
        requires { 1 ≤ below }
        ensures state { self.new ≡ next_state self.old }
        ensures answer { result ≡ answer_at self.new below }
    {
        self.state = self.state.wrapping_mul(MULTIPLIER).wrapping_add(INCREMENT);
        (self.state >> 33) % below
    }
}
