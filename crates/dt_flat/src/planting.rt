//! Laws of arenas in which a whole tree is made, for the crates that copy trees.

ghost use Rattle.std.specs.Prelude.{◌≡◌, List, [], length};
ghost use Rattle.dt_model.specs.Tree.{Reading};
ghost use Rattle.dt_model.specs.Valid.{IsValid, IsWithinLimits};
ghost use Rattle.dt_flat.specs.Arena.{reading};
ghost use Rattle.dt_flat.specs.Planted.{arena_of, MayMake, HasOwnNumbers};

/// The arena of a tree that a blob may hold is read as that tree.
pub fn planted_reads()
    ensures { (t : Reading) → IsValid t → reading (arena_of t) ≡ t }
{}

/// Nothing but memory is in the way of making such a tree within the limits, where no two nodes have one number. (A number
/// is four bytes, so two nodes have it only where they have one value; but a tree's values may have other items than bytes.)
pub fn may_be_planted()
    ensures { (t : Reading) → IsValid t → IsWithinLimits t → HasOwnNumbers t.properties t.children →
        MayMake t.properties t.children }
{}
