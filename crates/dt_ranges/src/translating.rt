//! Addresses through the buses above a node (Devicetree Specification v0.4, 2.3).

ghost use Rattle.std.specs.Prelude.{◌≡◌, ℕ, ◌+◌, ◌*◌, ◌^◌, ◌≤◌, ◌&&◌, nat_le, nat_lt, true, length, MatchResult};
ghost use Rattle.dt_trees.specs.Placed.{path_at, IsNode};
ghost use Rattle.dt_resolve_model.specs.Answers.{Answer, answer, refused, told};
ghost use Rattle.dt_resolve_model.specs.World.{value_of_bytes, quads_of};
ghost use Rattle.dt_resolve_model.specs.Regions.{entries, fitting, fitted, mapped_by, mapped, risen, finished, translated, region_at};
ghost use Rattle.dt_ranges.specs.Buses.{IsBus};
ghost use Rattle.dt_view.specs.Worlds.{world_of};

use crate::cells::part_at;
use dt_names::{Fault, FaultKind, NodeId};
use dt_resolve_model::{BusAddress, BusCells, RangeCells, Region};
use dt_view::{TreeView, cells, cells_after, is_pci};

/// Whether an address is one of that many cells.
pub(crate) fn fits(address: u128, cells: u32) -> bool
    requires { cells ≤ 4 }
    ensures { result ≡ nat_lt address (2 ^ (32 * cells)) }
{
    match cells {
        0 => address == 0,
        1 => address < 0x1_0000_0000,
        2 => address < 0x1_0000_0000_0000_0000,
        3 => address < 0x1_0000_0000_0000_0000_0000_0000,
        _ => true,
    }
}

/// The address at a distance from a range's begin; `Overflow` where that many cells don't hold it.
fn raised(begin: u128, distance: u128, whole: bool, cells: u32) -> Result<BusAddress, Fault>
    requires { cells ≤ 4 }
    ensures { told result ≡ fitting cells (record { address = begin + distance; whole = whole }) }
{
    match begin.checked_add(distance) {
        Some(address) => {
            if fits(address, cells) {
                Ok(BusAddress { address, whole })
            } else {
                Err(Fault::of(FaultKind::Overflow))
            }
        }
        None => Err(Fault::of(FaultKind::Overflow)),
    }
}

/// Whether a size is mapped as a whole by what is left of a range.
fn stays_whole(whole: bool, size: u128, left: u128) -> bool
    ensures { result ≡ (whole && nat_le size left) }
{
    whole && size <= left
}

/// Maps an address by the first of some ranges that holds it.
fn by_ranges(
    widths: RangeCells,
    size: u128,
    at: BusAddress,
    ranges: &[u8],
    count: usize,
) -> Result<BusAddress, Fault>
    requires child { widths.child ≤ 4 }
    requires above { widths.above ≤ 4 }
    requires long { widths.length ≤ 4 }
    requires whole { length ranges.now ≡ count * (4 * (widths.child + widths.above + widths.length)) }
    ensures { told result ≡ fitted widths.above (mapped_by widths size at (entries count (widths.child + widths.above + widths.length) (quads_of ranges.now))) }
{
    let width = widths.child + widths.above + widths.length;
    let mut rest = ranges;
    for done in 0..count {
        let begin = part_at(rest, 0, widths.child);
        let length = part_at(rest, widths.child + widths.above, widths.length);
        if begin <= at.address && at.address - begin < length {
            let distance = at.address - begin;
            let target = part_at(rest, widths.child, widths.above);
            let whole = stays_whole(at.whole, size, length - distance);
            return raised(target, distance, whole, widths.above);
        }
        rest = cells_after(rest, width as usize);
    }
    Err(Fault::of(FaultKind::NotMapped))
}

/// Maps an address by the ranges of a bus, which are identity where there are none.
fn mapped(
    widths: RangeCells,
    size: u128,
    at: BusAddress,
    ranges: &[u8],
) -> Result<BusAddress, Fault>
    requires child { widths.child ≤ 4 }
    requires above { widths.above ≤ 4 }
    requires long { widths.length ≤ 4 }
    ensures { told result ≡ fitted widths.above (mapped widths size at (value_of_bytes ranges.now)) }
{
    if ranges.is_empty() {
        return raised(at.address, 0, at.whole, widths.above);
    }
    let width = 4 * (widths.child + widths.above + widths.length) as usize;
    if width == 0 || ranges.len() % width != 0 {
        return Err(Fault::of(FaultKind::BadCells));
    }
    by_ranges(widths, size, at, ranges, ranges.len() / width)
}

/// A bus, and the cells of an address and of a size on it.
#[derive(Clone, Copy)]
pub(crate) struct Bus {
    pub node: NodeId,
    pub cells: BusCells,
}

/// An address on a bus.
#[derive(Clone, Copy)]
struct OnBus {
    bus: Bus,
    at: BusAddress,
}

/// Maps an address of a bus to one of the bus above.
fn risen<V: TreeView>(
    view: &V,
    name: &[u8],
    above: NodeId,
    size: u128,
    from: OnBus,
) -> Result<OnBus, Fault>
    requires upper { IsNode (V.tree view.now) above }
    requires lower { IsBus (V.tree view.now) from.bus }
    ensures { MatchResult result
        (λ to. IsBus (V.tree view.now) to.bus × (to.bus.node ≡ above) × (risen (world_of (V.tree view.now)) name.now
        (path_at (V.tree view.now) above) (path_at (V.tree view.now) from.bus.node) size from.at ≡ answer to.at))
        (λ fault. risen (world_of (V.tree view.now)) name.now
        (path_at (V.tree view.now) above) (path_at (V.tree view.now) from.bus.node) size from.at ≡ refused fault) }
{
    let OnBus { bus, at } = from;
    if is_pci(view, bus.node) {
        return Err(Fault::of(FaultKind::PciBus));
    }
    let Some(ranges) = view.value(bus.node, name) else {
        return Err(Fault::of(FaultKind::NoRanges));
    };
    let up = cells(view, above)?;
    let widths = RangeCells {
        child: bus.cells.address,
        above: up.address,
        length: bus.cells.size,
    };
    let at = mapped(widths, size, at, ranges)?;
    let bus = Bus {
        node: above,
        cells: up,
    };
    Ok(OnBus { bus, at })
}

/// The region of an address and a size on a bus.
pub(crate) fn region_at<V: TreeView>(
    view: &V,
    name: &[u8],
    bus: Bus,
    address: u128,
    size: u128,
) -> Result<Region, Fault>
    requires { IsBus (V.tree view.now) bus }
    ensures { told result ≡ region_at (world_of (V.tree view.now)) name.now (path_at (V.tree view.now) bus.node) address size }
{
    let at = BusAddress {
        address,
        whole: true,
    };
    let mut here = OnBus { bus, at };
    while let Some(above) = view.parent(here.bus.node) {
        here = risen(view, name, above, size, here)?;
    }
    if is_pci(view, here.bus.node) {
        return Err(Fault::of(FaultKind::PciBus));
    }
    Ok(Region {
        address: here.at.address,
        size,
        whole: here.at.whole,
    })
}
