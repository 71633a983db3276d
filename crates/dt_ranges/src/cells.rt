//! Numbers of several cells.

ghost use Rattle.std.specs.Prelude.{◌≡◌, ◌+◌, ◌*◌, ◌≤◌, length};
ghost use Rattle.dt_resolve_model.specs.Answers.{answer};
ghost use Rattle.dt_resolve_model.specs.World.{quads_of};
ghost use Rattle.dt_resolve_model.specs.Regions.{cells_at, joined};

use dt_view::cell_at;

/// Cells as one number, the highest first.
pub(crate) fn number(bytes: &[u8], cells: usize) -> u128
    requires few { cells ≤ 4 }
    requires whole { length bytes.now ≡ 4 * cells }
    ensures { joined (quads_of bytes.now) ≡ answer result }
{
    let mut number: u128 = 0;
    for i in 0..cells {
        number = number * 0x1_0000_0000 + u128::from(cell_at(bytes, i));
    }
    number
}

/// Some cells after some others as one number.
pub(crate) fn part_at(bytes: &[u8], from: u32, cells: u32) -> u128
    requires few { cells ≤ 4 }
    requires there { 4 * (from + cells) ≤ length bytes.now }
    ensures { joined (cells_at from cells (quads_of bytes.now)) ≡ answer result }
{
    let first = 4 * from as usize;
    number(&bytes[first..first + 4 * cells as usize], cells as usize)
}
