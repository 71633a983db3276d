//! The rows of maps, of interrupts and of other specifiers (Devicetree Specification v0.4, 2.4.3 and 2.5.1).

ghost use Rattle.std.specs.Prelude.{◌≡◌, ◌+◌, ◌*◌, ◌≤◌, ◌⊎◌, length, drop, option_map, IfOk};
ghost use Rattle.std.specs.Option.{option_copied};
ghost use Rattle.dt_resolve_model.specs.Answers.{answer, told_as};
ghost use Rattle.dt_resolve_model.specs.World.{quads_of, value_of_bytes};
ghost use Rattle.dt_resolve_model.specs.Interrupts.{equal_under, first_match, is_ragged, map_row, mask_of};
ghost use Rattle.dt_irq.specs.Cells.{agree, numbers_of, quads};
ghost use Rattle.dt_irq.specs.Seen.{row_in, IsSpecified};
ghost use Rattle.dt_irq.specs.Spaces.{widths_in};
ghost use Rattle.dt_view.specs.Worlds.{world_of};

use crate::parents::node_of;
use crate::sending::at_the_end;
use crate::spaces::Space;
use dt_names::{Fault, FaultKind, NodeId};
use dt_view::{TreeView, cell_at, cells_after, first_cells};

/// A map's row: what is compared, where it leads, and the number of its cells.
#[derive(Clone, Copy)]
pub(crate) struct MapRow<'v> {
    pub compared: &'v [u8],
    pub parent: NodeId,
    pub unit: &'v [u8],
    pub specifier: &'v [u8],
    pub size: usize,
}

/// The row that some cells begin with; so many of them are compared.
fn map_row<'v, V: TreeView>(
    view: &V,
    space: Space<'_>,
    width: usize,
    cells: &'v [u8],
) -> Result<MapRow<'v>, Fault>
    requires { width ≤ 12 }
    ensures is { told_as (row_in (V.tree view.now)) result ≡ map_row (world_of (V.tree view.now))
        (widths_in space.entry (world_of (V.tree view.now))) width (quads_of cells.now) }
    ensures there { IfOk result (λ r. IsSpecified (V.tree view.now) r.parent r.specifier.now) }
    ensures compared { IfOk result (λ r. length r.compared.now ≡ 4 * width) }
    ensures size { IfOk result (λ r. 4 * r.size ≤ length cells.now) }
    ensures some { IfOk result (λ r. 1 ≤ r.size) }
{
    if cells.len() < 4 * (width + 1) {
        return Err(Fault::of(FaultKind::BadMap));
    }
    let parent = node_of(view, cell_at(cells, width))?;
    let own = space.row_cells(view, parent)?;
    let behind = cells_after(cells, width + 1);
    if behind.len() / 4 < own.address + own.specifier {
        return Err(Fault::of(FaultKind::BadMap));
    }
    Ok(MapRow {
        compared: first_cells(cells, width),
        parent,
        unit: first_cells(behind, own.address),
        specifier: first_cells(cells_after(behind, own.address), own.specifier),
        size: width + 1 + own.address + own.specifier,
    })
}

/// Whether two cells are equal in the bits of a mask's cell at a place; an empty mask is all ones.
fn agree(left: u32, right: u32, mask: &[u8], index: usize) -> bool
    requires { (length mask.now ≡ 0) ⊎ (4 * (index + 1) ≤ length mask.now) }
    ensures { result ≡ agree left right (drop index (numbers_of mask.now)) }
{
    if mask.is_empty() {
        return left == right;
    }
    let bits = cell_at(mask, index);
    left & bits == right & bits
}

/// Whether what a row compares is equal to a key in the bits of a mask; an empty mask is all ones.
fn are_equal(compared: &[u8], key: &[u32], mask: &[u8]) -> bool
    requires { (length mask.now ≡ 0) ⊎ (length mask.now ≡ length compared.now) }
    ensures { result ≡ equal_under (numbers_of compared.now) key.now (numbers_of mask.now) }
{
    let count = compared.len() / 4;
    if key.len() != count {
        return false;
    }
    for i in 0..count {
        if !agree(cell_at(compared, i), key[i], mask, i) {
            return false;
        }
    }
    true
}

/// The first row of a map that is equal to a key under a mask; so many cells are compared.
pub(crate) fn first_match<'v, V: TreeView>(
    view: &V,
    space: Space<'_>,
    width: usize,
    key: &[u32],
    mask: &[u8],
    map: &'v [u8],
) -> Result<MapRow<'v>, Fault>
    requires width { width ≤ 12 }
    requires mask { (length mask.now ≡ 0) ⊎ (length mask.now ≡ 4 * width) }
    ensures is { told_as (row_in (V.tree view.now)) result
        ≡ first_match (world_of (V.tree view.now)) (widths_in space.entry (world_of (V.tree view.now)))
        (is_ragged (value_of_bytes map.now)) width (quads key.now) (quads_of mask.now) 0 (quads_of map.now) }
    ensures there { IfOk result (λ r. IsSpecified (V.tree view.now) r.parent r.specifier.now) }
{
    let mut rest = map;
    while rest.len() >= 4 {
        let row = map_row(view, space, width, rest)?;
        if are_equal(row.compared, key, mask) {
            return Ok(row);
        }
        rest = cells_after(rest, row.size);
    }
    Err(at_the_end(rest, FaultKind::NoMapEntry, FaultKind::BadMap))
}

/// The bits of so many cells that a nexus has in a property, empty where it has none. `BadMap` where it has another number of cells.
pub(crate) fn mask_of(value: Option<&[u8]>, width: usize) -> Result<&[u8], Fault>
    requires { width ≤ 12 }
    ensures is { told_as (λ mask. quads_of mask.now) result ≡ mask_of width (option_map value_of_bytes (option_copied value.entry)) }
    ensures long { IfOk result (λ mask. (length mask.now ≡ 0) ⊎ (length mask.now ≡ 4 * width)) }
{
    let Some(mask) = value else {
        return Ok(&[]);
    };
    if mask.len() != 4 * width {
        return Err(Fault::of(FaultKind::BadMap));
    }
    Ok(mask)
}
