//! New numbers for the nodes of a blob.

ghost use Rattle.std.specs.Prelude.{◌≡◌, ◌+◌, ◌*◌, ◌<◌, ◌≤◌, ◌||◌, true, false, ℕ, length, get_or, nat_eq};
ghost use Rattle.dt_model.specs.Limits.{most_nodes};
ghost use Rattle.dt_model.specs.Numbers.{numbers_of};
ghost use Rattle.dt_overlay_base.specs.Known.{IsNext};
ghost use Rattle.dt_trees.specs.Placed.{reading_of};

use crate::phandles::is_phandle;
use dt_names::limits::MOST_NODES;
use dt_names::phandle_of;
use dt_read::{Blob, Step};

/// Marks a number, where it is among so many behind another.
fn mark(taken: &mut [bool], last: u32, number: u32)
    ensures long { length taken.new ≡ length taken.old }
    ensures marked { (k : ℕ) → k < length taken.old → get_or taken.new k false ≡ (get_or taken.old k false || nat_eq (last + 1 + k) number) }
{
    if number > last {
        let at = (number - last - 1) as usize;
        if at < taken.len() {
            taken[at] = true;
        }
    }
}

/// How many are marked in front.
fn first_free(taken: &[bool]) -> usize
    ensures front { (k : ℕ) → k < result → get_or taken.now k false ≡ true }
    ensures free { result < length taken.now → get_or taken.now result false ≡ false }
    ensures within { result ≤ length taken.now }
{
    let mut free = 0;
    while free < taken.len() && taken[free] {
        free += 1;
    }
    free
}

/// The least number above another that no node has as its `phandle`, by one walk. The numbers that nodes have are marked, as far as they are among the
/// next 65,536. Where all of these are taken, there is no further node, and the number behind them is free.
pub(crate) fn free_number(blob: &Blob<'_>, last: u32) -> u32
    requires { last ≤ 2 * most_nodes }
    ensures { IsNext (numbers_of (reading_of blob.now)) last result }
{
    blob.validity();
    let mut taken = [false; MOST_NODES];
    for step in blob.steps() {
        if let Step::Property { name, value } = step {
            if is_phandle(name) {
                if let Some(number) = phandle_of(value) {
                    mark(&mut taken, last, number);
                }
            }
        }
    }
    last + 1 + first_free(&taken) as u32
}
