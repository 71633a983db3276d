//! The cells that an object lists.

ghost use Rattle.std.specs.Prelude.{◌≡◌};
ghost use Rattle.std.specs.Option.{option_map};
ghost use Rattle.dt_marks_read.specs.FixupsLeft.{cell_in};
ghost use Rattle.dt_marks_read.specs.ListedViews.{listed_view};

use dt_names::NodeId;
use dt_overlay_texts::cell_at;
use dt_read::Blob;

/// A cell that an object lists: the node, the name of the node's property, and the offset in the property's value.
#[derive(Clone, Copy)]
pub struct ListedCell<'a> {
    pub node: NodeId,
    pub property: &'a [u8],
    pub offset: usize,
}

/// The cell that a text names; None if it is no such text, or the blob has no such cell. Takes no memory.
pub(crate) fn told_cell<'a>(blob: &Blob<'_>, text: &'a [u8]) -> Option<ListedCell<'a>>
    ensures { option_map listed_view result ≡ cell_in blob.now text.now }
{
    blob.validity();
    let (node, cell) = cell_at(blob, text)?;
    Some(ListedCell {
        node,
        property: cell.property,
        offset: cell.offset,
    })
}
