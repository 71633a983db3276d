//! Interrupt parents (Devicetree Specification v0.4, 2.4.1).

ghost use Rattle.std.specs.Prelude.{◌≡◌, IfOk, IfSome, option_map};
ghost use Rattle.dt_trees.specs.Placed.{path_at, reading_of, IsNode};
ghost use Rattle.dt_resolve_model.specs.Answers.{told_as};
ghost use Rattle.dt_resolve_model.specs.World.{figure, node_of_figure};
ghost use Rattle.dt_resolve_model.specs.Interrupts.{step_of, IsInterruptParent};
ghost use Rattle.dt_view.specs.Worlds.{world_of};

use dt_names::{Fault, FaultKind, NodeId};
use dt_view::{TreeView, one_cell};

/// The node that has a number as its phandle. `UnknownPhandle` where no node has it.
pub(crate) fn node_of<V: TreeView>(view: &V, phandle: u32) -> Result<NodeId, Fault>
    ensures is { told_as (path_at (V.tree view.now)) result ≡ node_of_figure (reading_of (V.tree view.now)) (figure phandle) }
    ensures node { IfOk result (IsNode (V.tree view.now)) }
{
    match view.by_phandle(phandle) {
        Some(node) => Ok(node),
        None => Err(Fault::of(FaultKind::UnknownPhandle)),
    }
}

/// The node one step nearer to the interrupt parent: the one that `interrupt-parent` names, else the one above.
fn nearer<V: TreeView>(view: &V, node: NodeId) -> Result<Option<NodeId>, Fault>
    requires { IsNode (V.tree view.now) node }
    ensures is { told_as (option_map (path_at (V.tree view.now))) result ≡ step_of (world_of (V.tree view.now)) (path_at (V.tree view.now) node) }
    ensures node { IfOk result (λ next. IfSome next (IsNode (V.tree view.now))) }
{
    let Some(value) = view.value(node, b"interrupt-parent") else {
        return Ok(view.parent(node));
    };
    let next = node_of(view, one_cell(value)?)?;
    Ok(Some(next))
}

/// The interrupt parent of a node: the first node with `#interrupt-cells` on the way along `interrupt-parent`, or where that is absent, up the
/// tree. `NoParent` above the root, `Loop` where the way never ends, and the faults of the properties on the way.
pub(crate) fn interrupt_parent<V: TreeView>(view: &V, node: NodeId) -> Result<NodeId, Fault>
    requires { IsNode (V.tree view.now) node }
    ensures is { IsInterruptParent (world_of (V.tree view.now)) (path_at (V.tree view.now) node) (told_as (path_at (V.tree view.now)) result) }
    ensures node { IfOk result (IsNode (V.tree view.now)) }
{
    view.validity();
    let mut here = node;
    // Where a node that was passed comes again, the way is a circle.
    let mut passed = node;
    for steps in 0..view.node_count() {
        let Some(next) = nearer(view, here)? else {
            return Err(Fault::of(FaultKind::NoParent));
        };
        if view.value(next, b"#interrupt-cells").is_some() {
            return Ok(next);
        }
        if next == passed {
            return Err(Fault::of(FaultKind::Loop));
        }
        here = next;
        if steps.is_power_of_two() {
            passed = here;
        }
    }
    Err(Fault::of(FaultKind::Loop))
}
