//! The regions of a node's `reg`, entry by entry (Devicetree Specification v0.4, 2.3.6).

ghost use Rattle.std.specs.Prelude.{◌≡◌, ℕ, ◌+◌, ◌<◌, ◌⊎◌, IfOk, IfErr, IfSome, MatchOption};
ghost use Rattle.dt_model.specs.Path.{Path};
ghost use Rattle.dt_names.specs.declared.fault.FaultKind.TheVariants.{BadCells, NoReg};
ghost use Rattle.dt_trees.specs.Placed.{path_at, IsNode};
ghost use Rattle.dt_resolve_model.specs.Answers.{refuse, refused, told};
ghost use Rattle.dt_resolve_model.specs.Regions.{region};
ghost use Rattle.dt_ranges.specs.Left.{AreLeft, IsLeft, entries_left};
ghost use Rattle.dt_view.specs.Worlds.{world_of};

use crate::cells::part_at;
use crate::translating::{Bus, region_at};
use dt_names::{Fault, FaultKind, NodeId};
use dt_resolve_model::Region;
use dt_view::{TreeView, cells, cells_after};

/// The regions of a node's `reg` that are left. What a node and its bus have is looked up once, so that all entries are read in one pass.
#[derive(Clone, Copy)]
pub struct Regions<'v> {
    bus: Bus,
    rest: &'v [u8],
    count: usize,
}

impl<'v> Regions<'v> {
    /// The regions of a node's `reg`, from its first entry on.
    ///
    /// # Errors
    ///
    /// `NoReg`: the root, or a node without `reg`. `BadCells`: the counts of the node's bus, or the length of `reg`. Each entry, had it one, would
    /// be refused so.
    pub fn of<V: TreeView>(view: &'v V, node: NodeId) -> Result<Regions<'v>, Fault>
        requires { IsNode (V.tree view.now) node }
        ensures left { IfOk result (AreLeft (V.tree view.now) (path_at (V.tree view.now) node) 0) }
        ensures refused { IfErr result (λ fault. (i : ℕ) → region (world_of (V.tree view.now)) (path_at (V.tree view.now) node) i ≡ refused fault) }
        ensures kind { IfErr result (λ fault. (fault.kind ≡ NoReg) ⊎ (fault.kind ≡ BadCells)) }
    {
        // Most nodes have no `reg`, and of a blob the node above costs two walks.
        let Some(reg) = view.value(node, b"reg") else {
            return Err(Fault::of(FaultKind::NoReg));
        };
        let Some(bus) = view.parent(node) else {
            return Err(Fault::of(FaultKind::NoReg));
        };
        let own = cells(view, bus)?;
        let width = 4 * (own.address + own.size) as usize;
        if width == 0 || reg.len() % width != 0 {
            return Err(Fault::of(FaultKind::BadCells));
        }
        let bus = Bus {
            node: bus,
            cells: own,
        };
        Ok(Regions {
            bus,
            rest: reg,
            count: reg.len() / width,
        })
    }

    /// The region that has so many before it; None where it isn't there.
    fn nth<V: TreeView>(&self, view: &V, index: u64) -> Option<Result<Region, Fault>>
        requires { IsLeft (V.tree view.now) self.now }
        ensures is { (p : Path) (i : ℕ) → AreLeft (V.tree view.now) p i self.now
            → MatchOption result (region (world_of (V.tree view.now)) p (i + index) ≡ refuse NoReg)
            (λ r. region (world_of (V.tree view.now)) p (i + index) ≡ told r) }
        ensures there { IfSome result (λ _. index < self.now.count) }
    {
        if index >= self.count as u64 {
            return None;
        }
        let width = (self.bus.cells.address + self.bus.cells.size) as usize;
        let entry = cells_after(self.rest, index as usize * width);
        let address = part_at(entry, 0, self.bus.cells.address);
        let size = part_at(entry, self.bus.cells.address, self.bus.cells.size);
        Some(region_at(view, b"ranges", self.bus, address, size))
    }

    /// The next region, or why there is none at that entry; None behind the last entry.
    pub fn next<V: TreeView>(&mut self, view: &V) -> Option<Result<Region, Fault>>
        requires { IsLeft (V.tree view.now) self.old }
        ensures is { (p : Path) (i : ℕ) → AreLeft (V.tree view.now) p i self.old
            → MatchOption result ((region (world_of (V.tree view.now)) p i ≡ refuse NoReg) × AreLeft (V.tree view.now) p i self.new)
            (λ r. (region (world_of (V.tree view.now)) p i ≡ told r) × AreLeft (V.tree view.now) p (i + 1) self.new) }
        ensures fewer { IfSome result (λ _. entries_left self.new < entries_left self.old) }
    {
        let Some(region) = self.nth(view, 0) else {
            return None;
        };
        let width = (self.bus.cells.address + self.bus.cells.size) as usize;
        self.rest = cells_after(self.rest, width);
        self.count -= 1;
        Some(region)
    }
}

/// The region of the root's bus that an entry of a node's `reg` is (Devicetree Specification v0.4, 2.3.6 and 2.3.8): the address that the CPU
/// uses and the size, both in bytes, and whether the whole of it is mapped there without a break. The address goes up bus by bus, each time by
/// the first entry of `ranges` that holds it. Takes no memory; of a `Blob` each bus costs a walk up to it.
///
/// # Errors
///
/// `NoReg`: the root, a node without `reg`, or without that entry. `BadCells`: the counts of a bus, or the length of `reg` or of `ranges`. And of
/// each bus on the way up `PciBus`, which comes first, `NoRanges`, `NotMapped`, and `Overflow`, where the bus above has no cells for the address.
/// The first of these on the way; none has a place.
pub fn region<V: TreeView>(view: &V, node: NodeId, index: u64) -> Result<Region, Fault>
    requires { IsNode (V.tree view.now) node }
    ensures { told result ≡ region (world_of (V.tree view.now)) (path_at (V.tree view.now) node) index }
{
    match Regions::of(view, node)?.nth(view, index) {
        Some(region) => region,
        None => Err(Fault::of(FaultKind::NoReg)),
    }
}
