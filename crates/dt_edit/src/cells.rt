//! A cell of a property's value, patched where it lies.

ghost use Rattle.std.specs.Prelude.{◌↔◌, ℕ, IsTrue};
ghost use Rattle.dt_edit.specs.Editable.{HasCellAt, IsEditable, MayPatchIn};
ghost use Rattle.dt_edit.specs.Plans.{IsPatched};
ghost use Rattle.dt_read.specs.Checked.{IsBlob, placed_of};
ghost use Rattle.dt_trees.specs.Placed.{IsNode};

use crate::layout::layout_of;
use crate::moving::put_word;
use crate::phandles::may_set;
use dt_read::{NodeId, property_cut, value_span};

/// How far behind its token's first byte a value begins: behind PROP, the length, and the offset of the name (Devicetree Specification v0.4, 5.4.1).
const VALUE_AT: usize = 12;

/// Whether the value of a node's property of a name has four bytes at an offset. Takes no memory.
pub fn has_cell(bytes: &[u8], node: NodeId, name: &[u8], offset: usize) -> bool
    requires blob { IsBlob bytes.now }
    requires node { IsNode (placed_of bytes.now) node }
    ensures { IsTrue result ↔ HasCellAt bytes.now node name.now offset }
{
    match value_span(bytes, node, name) {
        Some(span) => offset <= span.len && span.len - offset >= 4,
        None => false,
    }
}

/// Whether a cell of a node's property may hold a number. A phandle is one cell, so the number is all of its value.
pub(crate) fn may_patch(bytes: &[u8], node: NodeId, name: &[u8], number: u32) -> bool
    requires blob { IsBlob bytes.now }
    requires node { IsNode (placed_of bytes.now) node }
    ensures { (offset : ℕ) → HasCellAt bytes.now node name.now offset → IsTrue result ↔ MayPatchIn bytes.now node name.now offset number }
{
    may_set(bytes, node, name, &number.to_be_bytes())
}

/// Writes a number into a cell of a node's property, the highest byte first.
pub(crate) fn patch(bytes: &mut [u8], node: NodeId, name: &[u8], offset: usize, number: u32)
    requires editable { IsEditable bytes.old }
    requires node { IsNode (placed_of bytes.old) node }
    requires cell { HasCellAt bytes.old node name.now offset }
    ensures { IsPatched bytes.old bytes.new node name.now offset number }
{
    let layout = layout_of(bytes);
    let cut = property_cut(bytes, node, name);
    put_word(
        bytes,
        layout.structure_at + cut.at + VALUE_AT + offset,
        number,
    );
}
