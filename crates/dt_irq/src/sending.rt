//! Phandles with specifiers, as `interrupts-extended` and the properties of providers' users list them (Devicetree Specification v0.4, 2.4.1.4 and 2.5).

ghost use Rattle.std.specs.Prelude.{◌≡◌, ◌<◌, length, None, IfOk, if◌then◌else◌};
ghost use Rattle.dt_trees.specs.Placed.{path_at, IsNode};
ghost use Rattle.dt_resolve_model.specs.World.{quads_of, value_of_bytes};
ghost use Rattle.dt_resolve_model.specs.Interrupts.{cells_from, entry_sent, first_entry, is_ragged, sent_at};
ghost use Rattle.dt_resolve_model.specs.Answers.{told_as};
ghost use Rattle.dt_irq.specs.Seen.{entry_in, sent_in, IsSpecified};
ghost use Rattle.dt_irq.specs.Spaces.{count_in};
ghost use Rattle.dt_view.specs.Worlds.{world_of};

use crate::parents::node_of;
use crate::spaces::Space;
use dt_names::{Fault, FaultKind, NodeId};
use dt_view::{TreeView, cell_at, cells_after, first_cells};

/// A specifier at a node.
#[derive(Clone, Copy)]
pub(crate) struct Sent<'v> {
    pub node: NodeId,
    pub specifier: &'v [u8],
}

/// An entry of a list of phandles with specifiers, and what is behind it.
#[derive(Clone, Copy)]
pub(crate) struct Entry<'v> {
    pub sent: Sent<'v>,
    pub rest: &'v [u8],
}

/// The fault at the end of a list, behind its last whole cell: one where nothing is left, and one where bytes are.
pub(crate) fn at_the_end(rest: &[u8], nothing: FaultKind, cut: FaultKind) -> Fault
    requires { length rest.now < 4 }
    ensures kind { result.kind ≡ (if is_ragged (value_of_bytes rest.now) then cut else nothing) }
    ensures place { result.at ≡ None }
{
    if rest.is_empty() {
        Fault::of(nothing)
    } else {
        Fault::of(cut)
    }
}

/// The first entry of a list.
pub(crate) fn first_entry<'v, V: TreeView>(
    view: &V,
    space: Space<'_>,
    list: &'v [u8],
) -> Result<Entry<'v>, Fault>
    ensures is { told_as (entry_in (V.tree view.now)) result
        ≡ first_entry (world_of (V.tree view.now)) (count_in space.entry (world_of (V.tree view.now))) (is_ragged (value_of_bytes list.now))
        (quads_of list.now) }
    ensures there { IfOk result (λ e. IsSpecified (V.tree view.now) e.sent.node e.sent.specifier.now) }
    ensures ragged { IfOk result (λ e. is_ragged (value_of_bytes e.rest.now) ≡ is_ragged (value_of_bytes list.now)) }
    ensures shorter { IfOk result (λ e. length e.rest.now < length list.now) }
{
    if list.len() < 4 {
        return Err(at_the_end(list, FaultKind::NoInterrupts, FaultKind::BadCells));
    }
    let node = node_of(view, cell_at(list, 0))?;
    let count = space.specifier_cells(view, node)?;
    let cells = cells_after(list, 1);
    if cells.len() / 4 < count {
        return Err(Fault::of(FaultKind::BadCells));
    }
    let specifier = first_cells(cells, count);
    Ok(Entry {
        sent: Sent { node, specifier },
        rest: cells_after(cells, count),
    })
}

/// The entry of a list that an index names, those before it read in order. Apart, so that its stack is given back before the way goes on.
#[inline(never)]
pub(crate) fn entry_sent<'v, V: TreeView>(
    view: &V,
    space: Space<'_>,
    list: &'v [u8],
    index: u64,
) -> Result<Sent<'v>, Fault>
    ensures is { told_as (sent_in (V.tree view.now)) result
        ≡ entry_sent (world_of (V.tree view.now)) (count_in space.entry (world_of (V.tree view.now)))
        (is_ragged (value_of_bytes list.now)) index (quads_of list.now) }
    ensures there { IfOk result (λ s. IsSpecified (V.tree view.now) s.node s.specifier.now) }
{
    let mut rest = list;
    for _passed in 0..index {
        rest = first_entry(view, space, rest)?.rest;
    }
    Ok(first_entry(view, space, rest)?.sent)
}

/// A list from a byte on: its cells where one begins there, else only what is behind its last whole cell.
fn list_from(list: &[u8], at: u64) -> &[u8]
    ensures cells { quads_of result.now ≡ cells_from at (quads_of list.now) }
    ensures ragged { is_ragged (value_of_bytes result.now) ≡ is_ragged (value_of_bytes list.now) }
{
    let cells = list.len() / 4;
    if at % 4 == 0 && at / 4 < cells as u64 {
        return cells_after(list, (at / 4) as usize);
    }
    cells_after(list, cells)
}

/// The entry that begins at a byte of a list, whatever is before it. Apart, as `entry_sent`.
#[inline(never)]
pub(crate) fn sent_at<'v, V: TreeView>(
    view: &V,
    space: Space<'_>,
    list: &'v [u8],
    at: u64,
) -> Result<Sent<'v>, Fault>
    ensures is { told_as (sent_in (V.tree view.now)) result
        ≡ sent_at (world_of (V.tree view.now)) (count_in space.entry (world_of (V.tree view.now))) at (value_of_bytes list.now) }
    ensures there { IfOk result (λ s. IsSpecified (V.tree view.now) s.node s.specifier.now) }
{
    Ok(first_entry(view, space, list_from(list, at))?.sent)
}
