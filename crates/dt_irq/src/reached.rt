//! Where an interrupt, or another specifier, arrives.

ghost use Rattle.std.specs.Prelude.{◌≡◌, ◌-◌, ◌≤◌, ◌/◌, ◌++◌, length, replicate};
ghost use Rattle.dt_irq.specs.Cells.{numbers_of};

use dt_names::NodeId;
use dt_view::cell_at;

/// The most cells of a specifier.
pub(crate) const MOST_CELLS: usize = 8;

/// The most maps of a route.
pub(crate) const MOST_HOPS: usize = 64;

/// The node to which a specifier comes, which is an interrupt's controller or another provider, the specifier there, which is the first `len` of the
/// cells, with zeros behind them, and how many maps it went through (Devicetree Specification v0.4, 2.4 and 2.5).
#[derive(Clone, Copy, PartialEq, Eq)]
pub struct Route {
    pub controller: NodeId,
    pub cells: [u32; MOST_CELLS],
    pub len: usize,
    pub hops: usize,
}

/// The cells of a specifier, with zeros behind them.
pub(crate) fn cells_of(specifier: &[u8]) -> [u32; MOST_CELLS]
    requires { length specifier.now ≤ 32 }
    ensures { result ≡ numbers_of specifier.now ++ replicate (8 - length specifier.now / 4) 0 }
{
    let mut cells = [0; MOST_CELLS];
    for i in 0..specifier.len() / 4 {
        cells[i] = cell_at(specifier, i);
    }
    cells
}
