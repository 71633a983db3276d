//! Names as keys of tables.

use std::hash::{Hash, Hasher};

/// The bytes of a name, as the key of a table. They are hashed at once, where those of a slice would be hashed one after another.
#[derive(Clone, Copy, PartialEq, Eq)]
pub struct NameKey<'a> {
    pub bytes: &'a [u8],
}

impl<'a> Hash for NameKey<'a> {
    ghost use Rattle.std.specs.Cmp.Lexicographic.{bytes_decides};
    ghost use Rattle.std.specs.Hash.{on_Alike, same_Alike};
    ghost use Rattle.std.specs.Prelude.{[], ◌∷◌};

    ghost hash_input = { λ k. k.bytes.now ∷ [] };

    ghost respects_eq = { (on_Alike (λ k. k.bytes.now) (same_Alike (λ bytes. bytes ∷ []) bytes_decides)).fed };

    fn hash<H: Hasher>(&self, state: &mut H) {
        state.write(self.bytes);
    }
}
