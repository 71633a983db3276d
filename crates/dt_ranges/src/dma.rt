//! Regions that devices reach by DMA (Devicetree Specification v0.4, 2.3.9).

ghost use Rattle.std.specs.Prelude.{◌≡◌};
ghost use Rattle.dt_trees.specs.Placed.{path_at, IsNode};
ghost use Rattle.dt_resolve_model.specs.Answers.{told};
ghost use Rattle.dt_resolve_model.specs.Regions.{dma_region};
ghost use Rattle.dt_view.specs.Worlds.{world_of};

use crate::translating::{Bus, fits, region_at};
use dt_names::{Fault, FaultKind, NodeId};
use dt_resolve_model::Region;
use dt_view::{TreeView, cells};

/// The region of the root's bus that a device reaches where it puts an address on its bus for DMA (Devicetree Specification v0.4, 2.3.9): the address
/// there and the size, both in bytes, and whether the whole of it is mapped without a break. The address goes up bus by bus, each time by the first
/// entry of `dma-ranges` that holds it. Takes no memory; of a `Blob` each bus costs a walk up to it.
///
/// # Errors
///
/// `NoReg`: the root, which is on no bus. `BadCells`: the counts of a bus, or the length of `dma-ranges`. `Overflow`: the node's bus has no cells for the
/// address. And of each bus on the way up `PciBus`, which comes first, `NoRanges`, where it has no `dma-ranges`, `NotMapped`, and `Overflow`, where the
/// bus above has no cells for the address. The first of these on the way; none has a place.
pub fn dma_region<V: TreeView>(
    view: &V,
    node: NodeId,
    address: u128,
    size: u128,
) -> Result<Region, Fault>
    requires { IsNode (V.tree view.now) node }
    ensures { told result ≡ dma_region (world_of (V.tree view.now)) (path_at (V.tree view.now) node) address size }
{
    let Some(bus) = view.parent(node) else {
        return Err(Fault::of(FaultKind::NoReg));
    };
    let own = cells(view, bus)?;
    if !fits(address, own.address) {
        return Err(Fault::of(FaultKind::Overflow));
    }
    let bus = Bus {
        node: bus,
        cells: own,
    };
    region_at(view, b"dma-ranges", bus, address, size)
}
