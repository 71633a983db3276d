//! Routes, from the node that sends an interrupt to its controller (Devicetree Specification v0.4, 2.4).

ghost use Rattle.std.specs.Prelude.{◌≡◌, ◌+◌, ◌<◌, ℕ, IfOk, IfErr, IfSome, OnOk, MatchOption};
ghost use Rattle.dt_model.specs.Path.{Path};
ghost use Rattle.dt_names.specs.declared.fault.FaultKind.TheVariants.{NoInterrupts};
ghost use Rattle.dt_trees.specs.Placed.{path_at, IsNode};
ghost use Rattle.dt_resolve_model.specs.Answers.{answer, refuse, refused, told_as};
ghost use Rattle.dt_resolve_model.specs.World.{quads_of};
ghost use Rattle.dt_resolve_model.specs.Interrupts.{IsRoute, interrupt_at, most_hops, routed};
ghost use Rattle.dt_irq.specs.Cells.{unit_at};
ghost use Rattle.dt_irq.specs.RoutesLeft.{AreLeft, IsLeft, length_left};
ghost use Rattle.dt_irq.specs.Seen.{interrupt_in, route_in, HasArrived, IsSpecified};
ghost use Rattle.dt_view.specs.Worlds.{world_of};

use crate::hops::{Interrupt, hop};
use crate::lists::Entries;
use crate::reached::{MOST_HOPS, Route, cells_of};
use crate::sending::sent_at;
use crate::spaces::Space;
use dt_names::{Fault, FaultKind, NodeId};
use dt_view::TreeView;

/// The route of an interrupt that was sent to a node.
fn routed<'v, V: TreeView>(view: &'v V, sent: Interrupt<'v>) -> Result<Route, Fault>
    requires { IsSpecified (V.tree view.now) sent.node sent.specifier.now }
    ensures is { told_as (route_in (V.tree view.now)) result ≡ routed (world_of (V.tree view.now)) most_hops 0 (interrupt_in (V.tree view.now) sent.entry) }
    ensures arrived { IfOk result (HasArrived (V.tree view.now)) }
{
    let mut at = sent;
    let mut hops = 0;
    loop {
        if view.value(at.node, b"interrupt-controller").is_some() {
            return Ok(Route {
                controller: at.node,
                cells: cells_of(at.specifier),
                len: at.specifier.len() / 4,
                hops,
            });
        }
        let Some(map) = view.value(at.node, b"interrupt-map") else {
            return Err(Fault::of(FaultKind::BadMap));
        };
        if hops == MOST_HOPS {
            return Err(Fault::of(FaultKind::Loop));
        }
        at = hop(view, &at, map)?;
        hops += 1;
    }
}

/// The bytes of a node's `reg`, whose whole cells are its unit address; none where it is absent.
fn unit_of<V: TreeView>(view: &V, node: NodeId) -> &[u8]
    requires { IsNode (V.tree view.now) node }
    ensures { unit_at (world_of (V.tree view.now)) (path_at (V.tree view.now) node) ≡ answer (quads_of result.now) }
{
    match view.value(node, b"reg") {
        Some(reg) => reg,
        None => &[],
    }
}

/// The interrupts of a node that are left, as routes. What the node and its interrupt parent have is looked up once, so that all entries are
/// read in one pass.
#[derive(Clone, Copy)]
pub struct Routes<'v> {
    entries: Entries<'v>,
    unit: &'v [u8],
}

impl<'v> Routes<'v> {
    /// The routes of a node, from its first interrupt on.
    ///
    /// # Errors
    ///
    /// That of each of its interrupts: `NoInterrupts` of a node without `interrupts` and `interrupts-extended`, one on the way to the interrupt
    /// parent, or `BadCells` of a list that isn't whole entries.
    pub fn of<V: TreeView>(view: &'v V, node: NodeId) -> Result<Routes<'v>, Fault>
        requires { IsNode (V.tree view.now) node }
        ensures left { IfOk result (AreLeft (V.tree view.now) (path_at (V.tree view.now) node) 0) }
        ensures refused { IfErr result (λ fault. (i : ℕ) → IsRoute (world_of (V.tree view.now)) (path_at (V.tree view.now) node) i (refused fault)) }
    {
        let entries = Entries::of(view, node)?;
        let unit = unit_of(view, node);
        Ok(Routes { entries, unit })
    }

    /// The next route, or why the interrupt has none; None behind the last one.
    pub fn next<V: TreeView>(&mut self, view: &'v V) -> Option<Result<Route, Fault>>
        requires { IsLeft (V.tree view.now) self.old }
        ensures is { (p : Path) (i : ℕ) → AreLeft (V.tree view.now) p i self.old
            → MatchOption result (IsRoute (world_of (V.tree view.now)) p i (refuse NoInterrupts) × AreLeft (V.tree view.now) p i self.new)
            (λ r. IsRoute (world_of (V.tree view.now)) p i (told_as (route_in (V.tree view.now)) r) × AreLeft (V.tree view.now) p (i + 1) self.new) }
        ensures arrived { IfSome result (λ r. IfOk r (HasArrived (V.tree view.now))) }
        ensures shorter { IfSome result (λ r. OnOk r (length_left self.new < length_left self.old)) }
    {
        let Some(sent) = self.entries.next(view) else {
            return None;
        };
        match sent {
            Ok(sent) => Some(routed(
                view,
                Interrupt {
                    node: sent.node,
                    unit: self.unit,
                    specifier: sent.specifier,
                },
            )),
            Err(fault) => Some(Err(fault)),
        }
    }
}

/// The route of the interrupt of a node that an index names (Devicetree Specification v0.4, 2.4): through the entry of `interrupts-extended` or,
/// where that is absent, of `interrupts` at the interrupt parent, and from there through interrupt maps to the first node with
/// `interrupt-controller`. Takes no memory; of a `Blob` each phandle and each parent costs a walk up to its node.
///
/// # Errors
///
/// `NoInterrupts`: a node without both, or without that entry. `NoParent`: no `#interrupt-cells` up to the root. `Loop`: interrupt parents in a
/// circle, or a 65th map. `UnknownPhandle`: a phandle of no node. `BadCells`: a count of cells, an `interrupt-parent` that isn't four bytes, a
/// list that is cut. `BadMap`: a nexus without a map, a row that is cut, a mask of another length. `NoMapEntry`: no row fits. `NoUnitAddress`: a
/// nexus wants more cells of an address than the sender's `reg` has. The first of these on the way; none has a place.
pub fn route<V: TreeView>(view: &V, node: NodeId, index: u64) -> Result<Route, Fault>
    requires { IsNode (V.tree view.now) node }
    ensures is { IsRoute (world_of (V.tree view.now)) (path_at (V.tree view.now) node) index (told_as (route_in (V.tree view.now)) result) }
    ensures arrived { IfOk result (HasArrived (V.tree view.now)) }
{
    let sent = Entries::of(view, node)?.nth(view, index)?;
    let unit = unit_of(view, node);
    routed(
        view,
        Interrupt {
            node: sent.node,
            unit,
            specifier: sent.specifier,
        },
    )
}

/// The route of the interrupt that begins at a byte of a node's `interrupts-extended`, as `route` goes, whatever is before it. So a caller can go on
/// behind an entry that it passes over, such as the phandle 0 of an entry that isn't used.
///
/// # Errors
///
/// `NoInterrupts`: a node without `interrupts-extended`, or no cell begins at that byte. `BadCells`: a count of cells, a list that is cut behind that
/// byte or ends in a part of a cell. Others as those of `route`, of this entry alone.
pub fn interrupt_at<V: TreeView>(view: &V, node: NodeId, at: u64) -> Result<Route, Fault>
    requires { IsNode (V.tree view.now) node }
    ensures is { told_as (route_in (V.tree view.now)) result ≡ interrupt_at (world_of (V.tree view.now)) (path_at (V.tree view.now) node) at }
    ensures arrived { IfOk result (HasArrived (V.tree view.now)) }
{
    let Some(list) = view.value(node, b"interrupts-extended") else {
        return Err(Fault::of(FaultKind::NoInterrupts));
    };
    let sent = sent_at(view, Space::Interrupts, list, at)?;
    let unit = unit_of(view, node);
    routed(
        view,
        Interrupt {
            node: sent.node,
            unit,
            specifier: sent.specifier,
        },
    )
}
