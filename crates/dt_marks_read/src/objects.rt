//! What an object's bookkeeping nodes list.

ghost use Rattle.dt_marks_read.specs.Listed.{AreFixupsOf, AreLocalFixupsOf};

use crate::listed_fixups::Fixups;
use crate::listed_locals::LocalFixups;
use dt_read::{Blob, OpenNodes};

/// The cells that an object's node `__fixups__` lists: each of its properties is named by a label, and holds one or more texts
/// `path:property:offset`, each with a NUL behind it, of cells that wait for the number of the label's node (dtc's notes on
/// overlay objects). `BadFixup`: a value isn't such texts, or the object has no such cell; it has no place. Takes no memory.
pub fn fixups<'a>(blob: &'a Blob<'a>) -> Fixups<'a>
    ensures { AreFixupsOf blob.now result }
{
    blob.validity();
    match blob.child(blob.root(), b"__fixups__".as_slice()) {
        Some(node) => Fixups::new(blob, Some(blob.props(node))),
        None => Fixups::new(blob, None),
    }
}

/// The cells that an object's node `__local_fixups__` lists: it and those below it mirror nodes of the object, and each of their
/// properties holds 32-bit offsets into the value of the property of that name of its node's counterpart (dtc's notes on overlay
/// objects). They come in preorder. `BadLocalFixup`: a node or a property has no counterpart, or an offset is outside its value;
/// it has no place. Takes no memory.
pub fn local_fixups<'a>(blob: &'a Blob<'a>) -> LocalFixups<'a>
    ensures { AreLocalFixupsOf blob.now result }
{
    blob.validity();
    let root = blob.root();
    let mut open_nodes = OpenNodes::new();
    match blob.child(root, b"__local_fixups__".as_slice()) {
        Some(mirror) => {
            open_nodes.push(root);
            LocalFixups::new(blob, blob.steps_in(mirror), open_nodes)
        }
        None => LocalFixups::new(blob, blob.steps(), open_nodes),
    }
}
