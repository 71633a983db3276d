//! The cells that objects list.

use crate::outcome::{Lines, Outcome, Stop};
use dt_marks_read::{ListedCell, fixups, local_fixups};
use dt_names::NodeId;
use dt_read::{Blob, Step};
use std::alloc::{AllocError, Global};

/// `fixups` prints the cells of an object that wait for labels, each behind its label, and `local-fixups` those that hold
/// numbers of the object's own nodes: the path of the node, the property and the offset, in order, and last the fault where
/// the list is off.
pub fn call(alloc: Global, name: &str, input: &[u8], out: &mut Outcome) -> Result<(), Stop> {
    let blob = Blob::check(input)?;
    let lines = out.lines();
    match name {
        "fixups" => put_fixups(lines, alloc, &blob)?,
        _ => put_local_fixups(lines, alloc, &blob)?,
    }
    if lines.is_empty() {
        lines.put("none\n");
    }
    Ok(())
}

fn put_fixups(lines: &mut Lines, alloc: Global, blob: &Blob<'_>) -> Result<(), AllocError> {
    for listed in fixups(blob) {
        match listed {
            Ok((label, cell)) => {
                lines.name(label);
                lines.put(" ");
                put_cell(lines, alloc, blob, cell)?;
            }
            Err(fault) => write!(lines, "{fault}"),
        }
        lines.put("\n");
    }
    Ok(())
}

fn put_local_fixups(lines: &mut Lines, alloc: Global, blob: &Blob<'_>) -> Result<(), AllocError> {
    for listed in local_fixups(blob) {
        match listed {
            Ok(cell) => put_cell(lines, alloc, blob, cell)?,
            Err(fault) => write!(lines, "{fault}"),
        }
        lines.put("\n");
    }
    Ok(())
}

/// Puts the path of a cell's node, its property and its offset.
fn put_cell(
    lines: &mut Lines,
    alloc: Global,
    blob: &Blob<'_>,
    cell: ListedCell<'_>,
) -> Result<(), AllocError> {
    put_path(lines, alloc, blob, cell.node)?;
    lines.put(" ");
    lines.name(cell.property);
    let offset = cell.offset;
    write!(lines, " {offset}");
    Ok(())
}

/// Puts the path of the node at a place of a blob.
fn put_path(
    lines: &mut Lines,
    alloc: Global,
    blob: &Blob<'_>,
    node: NodeId,
) -> Result<(), AllocError> {
    let mut open_names = Vec::new(alloc);
    for step in blob.steps() {
        match step {
            Step::Open { node: opened, name } => {
                open_names.push(name)?;
                if opened == node {
                    break;
                }
            }
            Step::Property { .. } => {}
            Step::Close => {
                open_names.pop();
            }
        }
    }
    put_names(lines, open_names.get(1..).unwrap_or(&[]));
    Ok(())
}

/// Puts the path of these names.
fn put_names(lines: &mut Lines, names: &[&[u8]]) {
    if names.is_empty() {
        lines.put("/");
    }
    for name in names {
        lines.put("/");
        lines.name(name);
    }
}
