//! Whether a property may have a value.

ghost use Rattle.std.specs.Prelude.{◌≡◌, ◌↔◌, codes, IsTrue};
ghost use Rattle.dt_edit.specs.Editable.{reading_in, path_in};
ghost use Rattle.dt_overlay_base.specs.Targets.{MaySetAt};
ghost use Rattle.dt_read.specs.Checked.{IsBlob, placed_of};
ghost use Rattle.dt_trees.specs.Placed.{IsNode};

use dt_names::{Seed, phandle_of};
use dt_read::{Blob, NodeId};
use dt_view::TreeView;

/// Whether a property's name is `phandle`.
pub(crate) fn is_phandle(name: &[u8]) -> bool
    ensures { IsTrue result ↔ (name.now ≡ codes "phandle") }
{
    name == b"phandle".as_slice()
}

/// Whether a property of a node may be set to a value: as a `phandle` it is a number in range that no other node has (Devicetree Specification v0.4,
/// 2.3.3).
pub(crate) fn may_set(bytes: &[u8], node: NodeId, name: &[u8], value: &[u8]) -> bool
    requires blob { IsBlob bytes.now }
    requires node { IsNode (placed_of bytes.now) node }
    ensures { IsTrue result ↔ MaySetAt (reading_in bytes.now) (path_in bytes.now node) name.now value.now }
{
    if !is_phandle(name) {
        return true;
    }
    let Some(number) = phandle_of(value) else {
        return false;
    };
    let blob = Blob::of(bytes, Seed::fixed());
    match TreeView::by_phandle(&blob, number) {
        Some(other) => other == node,
        None => true,
    }
}
