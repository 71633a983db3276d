//! Hops of interrupts through the maps of nexus nodes (Devicetree Specification v0.4, 2.4.3).

ghost use Rattle.std.specs.Prelude.{◌≡◌, ◌+◌, ◌*◌, ◌/◌, ◌≤◌, ◌++◌, length, IfOk};
ghost use Rattle.dt_trees.specs.Placed.{path_at};
ghost use Rattle.dt_resolve_model.specs.Answers.{told_as};
ghost use Rattle.dt_resolve_model.specs.World.{quads_of, value_of_bytes};
ghost use Rattle.dt_resolve_model.specs.Interrupts.{hop, led};
ghost use Rattle.dt_irq.specs.Cells.{numbers_of};
ghost use Rattle.dt_irq.specs.Seen.{interrupt_in, IsSpecified};
ghost use Rattle.dt_view.specs.Worlds.{world_of};

use crate::rows::{first_match, mask_of};
use crate::spaces::{Space, interrupt_cells};
use arrayvec::ArrayVec;
use dt_names::{Fault, FaultKind, NodeId};
use dt_view::{TreeView, address_cells, cell_at, first_cells};

/// The most cells that a row of an interrupt map is compared by: four of an address, eight of a specifier.
const MOST_COMPARED: usize = 12;

/// An interrupt on its way: the node that it has come to, the unit address and the specifier there.
#[derive(Clone, Copy)]
pub(crate) struct Interrupt<'v> {
    pub node: NodeId,
    pub unit: &'v [u8],
    pub specifier: &'v [u8],
}

/// Puts cells behind those of a key.
fn append(key: &mut ArrayVec<u32, MOST_COMPARED>, cells: &[u8])
    requires { length key.old.items + length cells.now / 4 ≤ 12 }
    ensures { key.new.items ≡ key.old.items ++ numbers_of cells.now }
{
    for i in 0..cells.len() / 4 {
        key.push(cell_at(cells, i));
    }
}

/// Where the first row leads whose cells are those at hand, for a nexus with so many cells of an address and of a specifier.
fn led<'v, V: TreeView>(
    view: &'v V,
    at: &Interrupt<'v>,
    map: &'v [u8],
    address: usize,
    specifier: usize,
) -> Result<Interrupt<'v>, Fault>
    requires node { IsSpecified (V.tree view.now) at.now.node at.now.specifier.now }
    requires unit { 4 * address ≤ length at.now.unit.now }
    requires address { address ≤ 4 }
    requires specifier { specifier ≤ 8 }
    ensures is { told_as (interrupt_in (V.tree view.now)) result
        ≡ led (world_of (V.tree view.now)) (path_at (V.tree view.now) at.now.node) (quads_of at.now.unit.now)
        (quads_of at.now.specifier.now) (value_of_bytes map.now) address specifier }
    ensures there { IfOk result (λ i. IsSpecified (V.tree view.now) i.node i.specifier.now) }
{
    let width = address + specifier;
    let mask = mask_of(view.value(at.node, b"interrupt-map-mask"), width)?;
    let mut key = ArrayVec::new();
    append(&mut key, first_cells(at.unit, address));
    append(&mut key, at.specifier);
    let row = first_match(view, Space::Interrupts, width, key.as_slice(), mask, map)?;
    Ok(Interrupt {
        node: row.parent,
        unit: row.unit,
        specifier: row.specifier,
    })
}

/// A hop by the map of the node that an interrupt has come to.
pub(crate) fn hop<'v, V: TreeView>(
    view: &'v V,
    at: &Interrupt<'v>,
    map: &'v [u8],
) -> Result<Interrupt<'v>, Fault>
    requires { IsSpecified (V.tree view.now) at.now.node at.now.specifier.now }
    ensures is { told_as (interrupt_in (V.tree view.now)) result ≡ hop (world_of (V.tree view.now)) (interrupt_in (V.tree view.now) at.now)
        (value_of_bytes map.now) }
    ensures there { IfOk result (λ i. IsSpecified (V.tree view.now) i.node i.specifier.now) }
{
    let address = address_cells(view, at.node, 2)? as usize;
    let specifier = interrupt_cells(view, at.node)?;
    if at.unit.len() / 4 < address {
        return Err(Fault::of(FaultKind::NoUnitAddress));
    }
    led(view, at, map, address, specifier)
}
