//! Laws of what is answered.

ghost use Rattle.std.specs.Prelude.{◌≡◌, ℕ, List, Option};
ghost use Rattle.dt_model.specs.Checks.{BlobFault, IsFirstFault};
ghost use Rattle.dt_model.specs.Format.{Reads, IsWithin};
ghost use Rattle.dt_model.specs.Tree.{Reading};
ghost use Rattle.dt_read.specs.Checked.{placed_of};
ghost use Rattle.dt_trees.specs.Placed.{reading_of};

use dt_model_format::{blob_has_no_fault, first_fault_is_one};

/// Bytes are read as one tree at most. Where they are read as one within the limits they have no fault, and else one first
/// fault at most, at one place. So there is one answer to them, and one refusal.
pub fn one_answer()
    ensures read { (bytes : List ℕ) (t u : Reading) → Reads bytes t → Reads bytes u → t ≡ u }
    ensures only { (bytes : List ℕ) (t : Reading) (f : BlobFault) (at : Option ℕ) → Reads bytes t → IsWithin bytes t →
        IsFirstFault bytes f at → ⊥ }
    ensures fault { (bytes : List ℕ) (f g : BlobFault) (at place : Option ℕ) → IsFirstFault bytes f at →
        IsFirstFault bytes g place → (f ≡ g) × (at ≡ place) }
{
    blob_has_no_fault();
    first_fault_is_one();
}

/// The tree of a blob's bytes, with the places of its nodes, is the one that they are read as.
pub fn placed_is_read()
    ensures { (bytes : List ℕ) (t : Reading) → Reads bytes t → IsWithin bytes t → reading_of (placed_of bytes) ≡ t }
{}
