// What a seat has of the word.
ghost use Rattle.std.specs.Prelude.{ℕ, List};
ghost use Rattle.std.specs.Borrow.{ftrue};

use std::marker::Model;

/// The parts of the word that a seat has, and the numbers that it has drawn. No value of it is made.
pub struct Claimed {
    pub ghost parts: { ℕ },
    pub ghost drawn: { List ℕ },
}

impl Model for Claimed {
    ghost also_owns = { λ _. ftrue };
}
