//! Laws of what is written.

ghost use Rattle.std.specs.Prelude.{◌≡◌, ◌≤◌, ℕ, true, List, Option, is_some, length};
ghost use Rattle.std.specs.List.{flat_map};
ghost use Rattle.dt_model.specs.Limits.{most_bytes};
ghost use Rattle.dt_model.specs.Lists.{IsIn};
ghost use Rattle.dt_model.specs.Names.{Name};
ghost use Rattle.dt_model.specs.Checks.{BlobFault, IsFirstFault};
ghost use Rattle.dt_model.specs.Tree.{Reading};
ghost use Rattle.dt_model.specs.Valid.{IsValid, IsWithinLimits};
ghost use Rattle.dt_model.specs.Format.{HoldsName, Reads, IsWithin};
ghost use Rattle.dt_model_format.specs.Strings.{terminated, place_in};
ghost use Rattle.dt_names.specs.Fault.{IsExclusive, IsOneRefusal};
ghost use Rattle.dt_write.specs.Refusals.{WhyNoBytes};
ghost use Rattle.dt_write.specs.Written.{names_of, offset_of, strings_block, written};
ghost use Rattle.dt_write.specs.Sharing.{IsInFirst};

use dt_model_format::blob_has_no_fault;

/// The blob of each tree that a blob may hold is read as the tree and as no other, and is within the limits where the tree
/// is: then it has no fault, so that a reader that answers a blob's first fault takes it.
pub fn written_reads()
    ensures reads { (t : Reading) → IsValid t → length (written t) ≤ most_bytes → Reads (written t) t }
    ensures within { (t : Reading) → IsValid t → IsWithinLimits t → length (written t) ≤ most_bytes → IsWithin (written t) t }
    ensures only { (t u : Reading) → IsValid t → length (written t) ≤ most_bytes → Reads (written t) u → u ≡ t }
    ensures taken { (t : Reading) (f : BlobFault) (at : Option ℕ) → IsValid t → IsWithinLimits t → length (written t) ≤ most_bytes →
        IsFirstFault (written t) f at → ⊥ }
{
    blob_has_no_fault();
}

/// The blob of a tree is written, or is refused for one reason, and not both, unless memory is wanted.
pub fn one_outcome()
    ensures written { (t : Reading) →
        IsExclusive (length (written t) ≤ most_bytes) (λ kind. WhyNoBytes kind (length (written t))) }
    ensures not_written { (t : Reading) → IsOneRefusal (λ kind. WhyNoBytes kind (length (written t))) }
{}

/// Names share their bytes: each name of a tree's properties begins in the first stored name, in the order of first use, that ends
/// with it, and the strings hold it there. No strings that hold all these names are shorter, those of whole names among them.
pub fn names_share_bytes()
    ensures first { (t : Reading) (name : Name) → IsValid t → IsIn name (names_of t) →
        IsInFirst (names_of t) name (offset_of (names_of t) name) }
    ensures held { (t : Reading) (name : Name) → IsValid t → IsIn name (names_of t) →
        HoldsName (strings_block (names_of t)) (offset_of (names_of t) name) name }
    ensures shortest { (t : Reading) (strings : List ℕ) → IsValid t →
        ((name : Name) → IsIn name (names_of t) → is_some (place_in strings name) ≡ true) → length (strings_block (names_of t)) ≤ length strings }
    ensures not_longer { (t : Reading) → length (strings_block (names_of t)) ≤ length (flat_map terminated (names_of t)) }
{}
