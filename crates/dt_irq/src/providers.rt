//! Routes of specifiers to their providers (Devicetree Specification v0.4, 2.5).

ghost use Rattle.std.specs.Prelude.{◌≡◌, ◌+◌, ◌-◌, ◌*◌, ◌/◌, ◌<◌, ◌≤◌, ◌⊎◌, ◌++◌, length, drop, replicate, IfOk};
ghost use Rattle.dt_trees.specs.Placed.{path_at, IsNode};
ghost use Rattle.dt_resolve_model.specs.Answers.{told_as};
ghost use Rattle.dt_resolve_model.specs.World.{value_of_bytes};
ghost use Rattle.dt_resolve_model.specs.Interrupts.{most_hops};
ghost use Rattle.dt_resolve_model.specs.Specifiers.{provided, provider_hop, specifier_at, specifier_route};
ghost use Rattle.dt_irq.specs.Cells.{numbers_of};
ghost use Rattle.dt_irq.specs.Merging.{first_merged, merged_numbers, number_passed};
ghost use Rattle.dt_irq.specs.Seen.{end_of, route_in, sent_in, HasArrived, IsSpecified};
ghost use Rattle.dt_view.specs.Worlds.{world_of};

use crate::reached::{MOST_CELLS, MOST_HOPS, Route, cells_of};
use crate::rows::{first_match, mask_of};
use crate::sending::{Sent, entry_sent, sent_at};
use crate::spaces::{Space, value_named};
use dt_names::{Fault, FaultKind, NodeId};
use dt_view::{TreeView, cell_at};

/// A cell of a row through which the cell at hand passes in the bits of a mask.
fn passed(row: u32, at_hand: u32, mask: u32) -> u32
    ensures { result ≡ number_passed row at_hand mask }
{
    match mask {
        0 => row,
        u32::MAX => at_hand,
        _ => row & (u32::MAX - mask) | at_hand & mask,
    }
}

/// The same of the cell at a place; behind the specifier at hand, and without a mask, a row's cell stays.
fn passed_at(row: u32, at_hand: &[u32], mask: &[u8], index: usize) -> u32
    requires { (length mask.now ≡ 0) ⊎ (length mask.now ≡ 4 * length at_hand.now) }
    ensures { result ≡ first_merged row (drop index at_hand.now) (drop index (numbers_of mask.now)) }
{
    if mask.is_empty() {
        return row;
    }
    if index >= at_hand.len() {
        return row;
    }
    passed(row, at_hand[index], cell_at(mask, index))
}

/// The specifier that a row leads to, with zeros behind it: its own, through which that at hand passes cell by cell.
fn merged(row: &[u8], at_hand: &[u32], mask: &[u8]) -> [u32; MOST_CELLS]
    requires row { length row.now ≤ 32 }
    requires mask { (length mask.now ≡ 0) ⊎ (length mask.now ≡ 4 * length at_hand.now) }
    ensures { result ≡ merged_numbers (numbers_of row.now) at_hand.now (numbers_of mask.now) ++ replicate (8 - length row.now / 4) 0 }
{
    let mut cells = [0; MOST_CELLS];
    for i in 0..row.len() / 4 {
        cells[i] = passed_at(cell_at(row, i), at_hand, mask, i);
    }
    cells
}

/// A route with one hop more, by the map of the node that it has come to.
fn onward<V: TreeView>(view: &V, kind: &[u8], so_far: &Route, map: &[u8]) -> Result<Route, Fault>
    requires arrived { HasArrived (V.tree view.now) so_far.now }
    requires few { so_far.now.hops < 64 }
    ensures is { told_as (end_of (V.tree view.now)) result ≡ provider_hop (world_of (V.tree view.now)) kind.now
        (end_of (V.tree view.now) so_far.now) (value_of_bytes map.now) }
    ensures arrived { IfOk result (HasArrived (V.tree view.now)) }
    ensures hops { IfOk result (λ route. route.hops ≡ so_far.now.hops + 1) }
{
    let nexus = so_far.controller;
    let at_hand = &so_far.cells[..so_far.len];
    let width = at_hand.len();
    let mask = mask_of(value_named(view, nexus, b"", kind, b"-map-mask"), width)?;
    let pass = mask_of(
        value_named(view, nexus, b"", kind, b"-map-pass-thru"),
        width,
    )?;
    let row = first_match(view, Space::Kind(kind), width, at_hand, mask, map)?;
    Ok(Route {
        controller: row.parent,
        cells: merged(row.specifier, at_hand, pass),
        len: row.specifier.len() / 4,
        hops: so_far.hops + 1,
    })
}

/// The route of a specifier that was sent to a node.
fn provided<V: TreeView>(view: &V, kind: &[u8], sent: Sent<'_>) -> Result<Route, Fault>
    requires { IsSpecified (V.tree view.now) sent.node sent.specifier.now }
    ensures is { told_as (route_in (V.tree view.now)) result ≡ provided (world_of (V.tree view.now)) kind.now most_hops 0
        (sent_in (V.tree view.now) sent.entry) }
    ensures arrived { IfOk result (HasArrived (V.tree view.now)) }
{
    let mut route = Route {
        controller: sent.node,
        cells: cells_of(sent.specifier),
        len: sent.specifier.len() / 4,
        hops: 0,
    };
    while let Some(map) = value_named(view, route.controller, b"", kind, b"-map") {
        if route.hops == MOST_HOPS {
            return Err(Fault::of(FaultKind::Loop));
        }
        route = onward(view, kind, &route, map)?;
    }
    Ok(route)
}

/// The route of the specifier that an index names in a property of a node, which is a list of phandles with specifiers of a kind, such as `gpio` or
/// `clock` (Devicetree Specification v0.4, 2.5): each has as many cells as `#KIND-cells` of its node says, and from there goes through `KIND-map` by the
/// first row that is equal to it under `KIND-map-mask`, and that gives its own bits where `KIND-map-pass-thru` has none, up to a node without a map. The
/// controller is that node, the provider. Takes no memory; of a `Blob` each phandle costs a walk up to its node.
///
/// # Errors
///
/// `NoInterrupts`: a node without the property, or without that entry. `UnknownPhandle`: a phandle of no node. `BadCells`: a count of cells that is absent
/// or not from 0 to 8, a list that is cut. `BadMap`: a row that is cut, a mask or a pass-thru of another length than the specifier's. `NoMapEntry`: no row
/// fits. `Loop`: a 65th map. The first of these on the way, each entry before the one that is asked for among it; none has a place.
pub fn specifier_route<V: TreeView>(
    view: &V,
    node: NodeId,
    property: &[u8],
    kind: &[u8],
    index: u64,
) -> Result<Route, Fault>
    requires { IsNode (V.tree view.now) node }
    ensures is { told_as (route_in (V.tree view.now)) result ≡ specifier_route (world_of (V.tree view.now))
        (path_at (V.tree view.now) node) property.now kind.now index }
    ensures arrived { IfOk result (HasArrived (V.tree view.now)) }
{
    let Some(list) = view.value(node, property) else {
        return Err(Fault::of(FaultKind::NoInterrupts));
    };
    let sent = entry_sent(view, Space::Kind(kind), list, index)?;
    provided(view, kind, sent)
}

/// The route of the specifier that begins at a byte of a property of a node, as `specifier_route` goes, whatever is before it. So a caller can go on
/// behind an entry that it passes over, such as the phandle 0 of an entry that isn't used.
///
/// # Errors
///
/// `NoInterrupts`: a node without the property, or no cell begins at that byte. `BadCells`: a count of cells that is absent or not from 0 to 8, a list
/// that is cut behind that byte or ends in a part of a cell. Others as those of `specifier_route`, of this entry alone.
pub fn specifier_at<V: TreeView>(
    view: &V,
    node: NodeId,
    property: &[u8],
    kind: &[u8],
    at: u64,
) -> Result<Route, Fault>
    requires { IsNode (V.tree view.now) node }
    ensures is { told_as (route_in (V.tree view.now)) result ≡ specifier_at (world_of (V.tree view.now))
        (path_at (V.tree view.now) node) property.now kind.now at }
    ensures arrived { IfOk result (HasArrived (V.tree view.now)) }
{
    let Some(list) = view.value(node, property) else {
        return Err(Fault::of(FaultKind::NoInterrupts));
    };
    let sent = sent_at(view, Space::Kind(kind), list, at)?;
    provided(view, kind, sent)
}
