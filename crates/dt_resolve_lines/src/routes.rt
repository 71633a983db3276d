//! The lines of a node's routes.

ghost use Rattle.std.specs.Prelude.{◌≡◌, ◌++◌, [], cond, OnOk, IfErr};
ghost use Rattle.dt_trees.specs.Placed.{path_at, reading_of, IsNode};
ghost use Rattle.dt_resolve_model.specs.Answers.{answer, refused};
ghost use Rattle.dt_text_writer.specs.Written.{Puts, FailsAt};
ghost use Rattle.dt_irq.specs.RoutesLeft.{AreLeft};
ghost use Rattle.dt_irq.specs.Seen.{route_in, HasArrived};
ghost use Rattle.dt_resolve_lines.specs.Lines.{line, route_words};
ghost use Rattle.dt_resolve_lines.specs.AllLines.{is_no_interrupts, routes_told, AreFrom, AreBegun};
ghost use Rattle.dt_resolve_lines.specs.Given.{PutsLines, FailsAtLines};

use crate::words::{put_fault, put_place, put_route};
use dt_irq::{Route, Routes};
use dt_names::{Fault, FaultKind, NodeId, Sink};
use dt_text_writer::Writer;
use dt_view::TreeView;

/// Writes the line of an interrupt that has a route.
fn put_line<V: TreeView, S: Sink>(
    view: &V,
    writer: &mut Writer<'_, S>,
    node: NodeId,
    index: u64,
    route: &Route,
) -> Result<(), Fault>
    requires node { IsNode (V.tree view.now) node }
    requires route { HasArrived (V.tree view.now) route.now }
    ensures written { OnOk result (Puts S.taken (line route_words (path_at (V.tree view.now) node) index
        (answer (route_in (V.tree view.now) route.now))) writer.old writer.new) }
    ensures refused { IfErr result (λ failure. FailsAt S.taken failure (line route_words (path_at (V.tree view.now) node) index
        (answer (route_in (V.tree view.now) route.now))) writer.old writer.new) }
{
    put_place(view, writer, node, index)?;
    put_route(view, writer, route)
}

/// Whether the fault is that of an interrupt that isn't there.
fn is_behind(fault: &Fault) -> bool
    ensures { result ≡ is_no_interrupts fault.now.kind }
{
    matches!(fault.kind, FaultKind::NoInterrupts)
}

/// Writes the line of an interrupt that has none. Behind a node's interrupts there is no line.
fn put_last<V: TreeView, S: Sink>(
    view: &V,
    writer: &mut Writer<'_, S>,
    node: NodeId,
    index: u64,
    fault: Fault,
) -> Result<(), Fault>
    requires { IsNode (V.tree view.now) node }
    ensures written { OnOk result (Puts S.taken
        (cond (is_no_interrupts fault.kind) [] (line route_words (path_at (V.tree view.now) node) index (refused fault))) writer.old writer.new) }
    ensures refused { IfErr result (λ failure. FailsAt S.taken failure
        (cond (is_no_interrupts fault.kind) [] (line route_words (path_at (V.tree view.now) node) index (refused fault))) writer.old writer.new) }
{
    if is_behind(&fault) {
        return Ok(());
    }
    put_place(view, writer, node, index)?;
    put_fault(writer, fault)
}

/// Writes the lines of a node's interrupts.
fn put_entries<V: TreeView, S: Sink>(
    view: &V,
    writer: &mut Writer<'_, S>,
    node: NodeId,
    routes: Routes<'_>,
) -> Result<(), Fault>
    requires node { IsNode (V.tree view.now) node }
    requires routes { AreLeft (V.tree view.now) (path_at (V.tree view.now) node) 0 routes }
    ensures written { OnOk result (PutsLines S.taken
        (AreFrom (routes_told (reading_of (V.tree view.now)) (path_at (V.tree view.now) node)) 0) writer.old writer.new) }
    ensures refused { IfErr result (λ failure. FailsAtLines S.taken
        (AreBegun (routes_told (reading_of (V.tree view.now)) (path_at (V.tree view.now) node)) 0) failure writer.old writer.new) }
{
    let mut entries = routes;
    let mut index = 0;
    while let Some(entry) = entries.next(view) {
        match entry {
            Ok(route) => put_line(view, writer, node, index, &route)?,
            Err(fault) => return put_last(view, writer, node, index, fault),
        }
        index += 1;
    }
    Ok(())
}

/// Writes the lines of a node's routes.
pub(crate) fn put_routes<V: TreeView, S: Sink>(
    view: &V,
    writer: &mut Writer<'_, S>,
    node: NodeId,
) -> Result<(), Fault>
    requires { IsNode (V.tree view.now) node }
    ensures written { OnOk result (PutsLines S.taken
        (AreFrom (routes_told (reading_of (V.tree view.now)) (path_at (V.tree view.now) node)) 0) writer.old writer.new) }
    ensures refused { IfErr result (λ failure. FailsAtLines S.taken
        (AreBegun (routes_told (reading_of (V.tree view.now)) (path_at (V.tree view.now) node)) 0) failure writer.old writer.new) }
{
    match Routes::of(view, node) {
        Ok(routes) => put_entries(view, writer, node, routes),
        Err(fault) => put_last(view, writer, node, 0, fault),
    }
}
