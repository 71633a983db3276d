//! The cells of an object that texts name.

ghost use Rattle.std.specs.Prelude.{◌≡◌, ◌<◌, None, MatchOption};
ghost use Rattle.std.specs.Option.{option_copied};
ghost use Rattle.dt_model.specs.Object.{Cell, IsCellText};
ghost use Rattle.dt_model.specs.Tree.{value_in};
ghost use Rattle.dt_overlay_texts.specs.Cells.{cell_told, HasTold};
ghost use Rattle.dt_trees.specs.Placed.{reading_of, IsAt};

use crate::cuts::cut;
use crate::laws::texts_are_one;
use crate::reading::{CellText, cell_text, has_cell};
use dt_names::{NodeId, PathRef};
use dt_trees::{TreeView, node_of};

/// The value of the property whose cell a text names, wherever in it the cell is.
fn value_of<'a, V: TreeView>(object: &'a V, text: &[u8]) -> Option<&'a [u8]>
    ensures { (c : Cell) → IsCellText text.now c → option_copied result ≡ value_in (reading_of (V.tree object.now)) c.path c.property }
{
    object.validity();
    let (path, rest) = cut(text, b':')?;
    let (property, _) = cut(rest, b':')?;
    let path = PathRef::new(path)?;
    let node = node_of(object, &path)?;
    object.value(node, property)
}

/// The node of the cell that a text names, and the cell. None where it is no such text, or the object has no such cell. Takes no memory.
pub fn cell_at<'a, V: TreeView>(object: &V, text: &'a [u8]) -> Option<(NodeId, CellText<'a>)>
    ensures { MatchOption result ((c : Cell) → ¬ HasTold (reading_of (V.tree object.now)) text.now c)
        (λ found. HasTold (reading_of (V.tree object.now)) text.now (cell_told found.1)
        × IsAt (V.tree object.now) found.1.path found.0) }
{
    texts_are_one();
    object.validity();
    let Some(cell) = cell_text(text) else {
        // An offset of 2^64 or more isn't within a value.
        let _ = value_of(object, text);
        return None;
    };
    let node = node_of(object, &cell.path)?;
    let value = object.value(node, cell.property)?;
    if !has_cell(value, cell.offset) {
        return None;
    }
    Some((node, cell))
}
