//! The nodes that are open at a place of the structure block.

ghost use Rattle.std.specs.Prelude.{◌≡◌, ◌<◌, ◌∷◌, [], length, drop, MatchOption};
ghost use Rattle.dt_model.specs.Limits.{most_bodies};

use dt_names::limits::MOST_BODIES;
use std::marker::Model;

/// A number for each open node. It is seen as those numbers, the innermost node's first.
#[derive(Drop)]
pub struct OpenNodes {
    numbers: [usize; MOST_BODIES],
    top: usize,
}

impl Model for OpenNodes {
    ghost use Rattle.std.specs.Prelude.{List, ℕ, ◌≤◌, drop};
    ghost use Rattle.dt_model.specs.Limits.{most_bodies};

    ghost Value = { List ℕ };

    ghost view = { λ s. drop s.top s.numbers };

    ghost invariant = { λ s. s.top ≤ most_bodies };
}

impl OpenNodes {
    /// None is open.
    pub fn new() -> OpenNodes
        ensures { result ≡ [] }
    {
        OpenNodes {
            numbers: [0; MOST_BODIES],
            top: MOST_BODIES,
        }
    }

    /// The same nodes.
    pub fn copy(&self) -> OpenNodes
        ensures { result ≡ self.now }
    {
        OpenNodes {
            numbers: self.numbers,
            top: self.top,
        }
    }

    /// A node begins.
    pub fn push(&mut self, number: usize)
        requires { length self.old < most_bodies }
        ensures { self.new ≡ number ∷ self.old }
    {
        self.top -= 1;
        self.numbers[self.top] = number;
    }

    /// The innermost node ends, if one is open.
    pub fn pop(&mut self)
        ensures { self.new ≡ drop 1 self.old }
    {
        if self.top < MOST_BODIES {
            self.top += 1;
        }
    }

    /// How many are open.
    pub fn len(&self) -> usize
        ensures { result ≡ length self.now }
    {
        MOST_BODIES - self.top
    }

    /// The number of the innermost node.
    pub fn innermost(&self) -> Option<usize>
        ensures { MatchOption result (self.now ≡ []) (λ number. self.now ≡ number ∷ drop 1 self.now) }
    {
        if self.top == MOST_BODIES {
            return None;
        }
        Some(self.numbers[self.top])
    }
}
