//! The lines of a node's regions.

ghost use Rattle.std.specs.Prelude.{◌≡◌, ◌++◌, OnOk, IfErr};
ghost use Rattle.dt_trees.specs.Placed.{path_at, reading_of, IsNode};
ghost use Rattle.dt_resolve_model.specs.Answers.{told};
ghost use Rattle.dt_text_writer.specs.Written.{Puts, FailsAt};
ghost use Rattle.dt_resolve_lines.specs.Lines.{line, region_words};
ghost use Rattle.dt_resolve_lines.specs.AllLines.{is_fault, is_bad_cells, is_no_reg, regions_told, AreFrom, AreBegun};
ghost use Rattle.dt_resolve_lines.specs.Given.{PutsLines, FailsAtLines};
ghost use Rattle.dt_ranges.specs.Left.{AreLeft};

use crate::words::{put_fault, put_place, put_region};
use dt_names::{Fault, FaultKind, NodeId, Sink};
use dt_ranges::Regions;
use dt_resolve_model::Region;
use dt_text_writer::Writer;
use dt_view::TreeView;

/// Writes the line of a node's entry.
fn put_line<V: TreeView, S: Sink>(
    view: &V,
    writer: &mut Writer<'_, S>,
    node: NodeId,
    index: u64,
    region: &Result<Region, Fault>,
) -> Result<(), Fault>
    requires { IsNode (V.tree view.now) node }
    ensures written { OnOk result (Puts S.taken (line region_words (path_at (V.tree view.now) node) index (told region.now)) writer.old writer.new) }
    ensures refused { IfErr result (λ fault. FailsAt S.taken fault (line region_words (path_at (V.tree view.now) node) index
        (told region.now)) writer.old writer.new) }
{
    put_place(view, writer, node, index)?;
    match *region {
        Ok(region) => put_region(writer, region),
        Err(fault) => put_fault(writer, fault),
    }
}

/// Whether an entry's answer ends a node's lines, and has none itself.
fn is_silent(region: &Result<Region, Fault>) -> bool
    ensures { result ≡ is_fault is_no_reg (told region.now) }
{
    match *region {
        Ok(_) => false,
        Err(fault) => matches!(fault.kind, FaultKind::NoReg),
    }
}

/// Whether an entry's answer ends a node's lines behind its own.
fn is_last(region: &Result<Region, Fault>) -> bool
    ensures { result ≡ is_fault is_bad_cells (told region.now) }
{
    match *region {
        Ok(_) => false,
        Err(fault) => matches!(fault.kind, FaultKind::BadCells),
    }
}

/// Writes the lines of a node's entries.
fn put_entries<V: TreeView, S: Sink>(
    view: &V,
    writer: &mut Writer<'_, S>,
    node: NodeId,
    regions: Regions<'_>,
) -> Result<(), Fault>
    requires node { IsNode (V.tree view.now) node }
    requires regions { AreLeft (V.tree view.now) (path_at (V.tree view.now) node) 0 regions }
    ensures written { OnOk result (PutsLines S.taken
        (AreFrom (regions_told (reading_of (V.tree view.now)) (path_at (V.tree view.now) node)) 0) writer.old writer.new) }
    ensures refused { IfErr result (λ fault. FailsAtLines S.taken
        (AreBegun (regions_told (reading_of (V.tree view.now)) (path_at (V.tree view.now) node)) 0) fault writer.old writer.new) }
{
    let mut entries = regions;
    let mut index = 0;
    while let Some(region) = entries.next(view) {
        if is_silent(&region) {
            return Ok(());
        }
        put_line(view, writer, node, index, &region)?;
        if is_last(&region) {
            return Ok(());
        }
        index += 1;
    }
    Ok(())
}

/// Writes the lines of a node's regions.
pub(crate) fn put_regions<V: TreeView, S: Sink>(
    view: &V,
    writer: &mut Writer<'_, S>,
    node: NodeId,
) -> Result<(), Fault>
    requires { IsNode (V.tree view.now) node }
    ensures written { OnOk result (PutsLines S.taken
        (AreFrom (regions_told (reading_of (V.tree view.now)) (path_at (V.tree view.now) node)) 0) writer.old writer.new) }
    ensures refused { IfErr result (λ fault. FailsAtLines S.taken
        (AreBegun (regions_told (reading_of (V.tree view.now)) (path_at (V.tree view.now) node)) 0) fault writer.old writer.new) }
{
    match Regions::of(view, node) {
        Ok(regions) => put_entries(view, writer, node, regions),
        Err(fault) => match fault.kind {
            FaultKind::NoReg => Ok(()),
            _ => put_line(view, writer, node, 0, &Err(fault)),
        },
    }
}
