//! Phandles: each in range, and no two equal.

ghost use Rattle.std.specs.Prelude.{◌↔◌, ◌++◌, ◌∷◌, ◌<◌, ◌^◌, [], IsTrue, length};
ghost use Rattle.dt_read.specs.Marks.{last_mark, marks_of};
ghost use Rattle.dt_read.specs.Phandle.{phandles_in, ArePhandles};

use crate::distinct::are_distinct;
use crate::keys::{Keys, Wanted};
use crate::structure::Structure;
use dt_names::phandle_of;

/// Whether the phandles of a tree are right.
pub(crate) fn are_phandles(
    structure: &Structure,
    seed: u64,
    words: &mut [u64],
    held: &mut usize,
) -> bool
    requires some { 0 < length words.old }
    requires few { length words.old < 2 ^ 32 }
    ensures { IsTrue result ↔ ArePhandles (phandles_in (marks_of structure.now ++ last_mark ∷ [])) }
{
    let mut count = 0usize;
    for key in Keys::of(structure, Wanted::Phandles) {
        if phandle_of(key.bytes).is_none() {
            return false;
        }
        count += 1;
    }
    if count < 2 {
        return true;
    }
    are_distinct(
        &Keys::of(structure, Wanted::Phandles),
        seed,
        count,
        words,
        held,
    )
}
