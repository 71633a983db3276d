//! What the hashes of names hang on.

use std::hash::{BuildHasher, DefaultHasher, FoldHasher, Hasher};

/// What a call's tables hash their keys behind: a number that comes of all names and numbers that the call's inputs bring to tables. So whoever
/// picks some whose hashes are alike changes the hashes with them. No answer hangs on it, but only how long it takes.
#[derive(Clone, Copy)]
pub struct Seed {
    initial: FoldHasher,
}

impl Seed {
    /// The seed of no input, for a tree that is made of nothing.
    pub fn fixed() -> Seed {
        Seed {
            initial: FoldHasher::default(),
        }
    }

    /// The seed of an input: SipHash-1-3 of its bytes.
    pub fn of(input: &[u8]) -> Seed {
        let mut hasher = DefaultHasher::new();
        hasher.write(input);
        Seed::from(hasher.finish())
    }

    /// The seed of all these inputs.
    pub fn of_all(inputs: &[&[u8]]) -> Seed {
        let mut seed = Seed::fixed();
        for input in inputs {
            seed = seed.with(Seed::of(input));
        }
        seed
    }

    /// The seed of inputs that have this one, and of one more input that has another.
    pub fn with(self, other: Seed) -> Seed {
        let mut hasher = DefaultHasher::new();
        hasher.write_u64(self.initial.finish());
        hasher.write_u64(other.initial.finish());
        Seed::from(hasher.finish())
    }
}

impl From<u64> for Seed {
    /// Of a number that SipHash gave of the inputs, as [`Seed::of`] does: of any other, whoever knows it can pick keys whose hashes are alike.
    fn from(number: u64) -> Seed {
        let mut initial = FoldHasher::default();
        initial.write_u64(number);
        Seed { initial }
    }
}

impl BuildHasher for Seed {
    type Hasher = FoldHasher;

    ghost build_hasher = { λ s. s.initial };

    fn build_hasher(&self) -> FoldHasher {
        self.initial
    }
}
