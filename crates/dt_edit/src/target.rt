//! A blob in memory of its own takes an overlay. It has no index: each node is found by a walk.

ghost use Rattle.dt_edit.specs.Buffers.{Follows, HasRoom};
ghost use Rattle.dt_edit.specs.BufferLaws.{follows_own, follows_on};
ghost use Rattle.dt_edit.specs.Editable.{reading_in, IsEditable};
ghost use Rattle.dt_overlay_laws.specs.Objects.{HasCells};

use crate::finding::{node_at, node_of, path_of};
use crate::numbers::free_number;
use crate::owned::{BlobBuf, add_in, patch_in, set_in};
use dt_names::{Fault, NodeName, Path, PropName, Seed};
use dt_overlay_base::Target;
use dt_view::TreeView;
use std::alloc::Global;

/// What is true of each blob: its phandles are the cells of their numbers. Does nothing.
fn phandles_are_cells(bytes: &[u8])
    requires { IsEditable bytes.now }
    ensures { HasCells (reading_in bytes.now) }
{
    let _ = bytes;
}

impl Target for BlobBuf {
    ghost reading = { reading_in };

    ghost has_room = { HasRoom };

    ghost follows = { Follows };

    ghost follows_refl = { follows_own };

    ghost follows_trans = { follows_on };

    fn validity(&self) {
        BlobBuf::validity(self);
        phandles_are_cells(self.as_bytes());
    }

    fn seed(&self) -> Seed {
        self.seed
    }

    fn find(&self, path: &Path) -> bool {
        node_of(&self.blob(), path).is_some()
    }

    fn prop(&self, path: &Path, name: &[u8]) -> Option<&[u8]> {
        let blob = self.blob();
        let node = node_of(&blob, path)?;
        blob.value(node, name)
    }

    fn by_phandle(&self, alloc: Global, number: u32) -> Result<Option<Path>, Fault> {
        let blob = self.blob();
        blob.validity();
        match TreeView::by_phandle(&blob, number) {
            Some(node) => Ok(Some(path_of(alloc, &blob, node)?)),
            None => Ok(None),
        }
    }

    fn free_above(&self, last: u32) -> u32 {
        free_number(&self.blob(), last)
    }

    fn set_prop(&mut self, path: &Path, name: &PropName<'_>, value: &[u8]) -> Result<(), Fault> {
        let node = node_at(&self.bytes, path);
        set_in(&mut self.bytes, node, name, value)
    }

    fn add_node(&mut self, parent: &Path, name: &NodeName<'_>) -> Result<(), Fault> {
        let node = node_at(&self.bytes, parent);
        add_in(&mut self.bytes, node, name)?;
        Ok(())
    }

    fn patch_cell(
        &mut self,
        path: &Path,
        name: &PropName<'_>,
        offset: usize,
        number: u32,
    ) -> Result<(), Fault> {
        let node = node_at(&self.bytes, path);
        patch_in(&mut self.bytes, node, name, offset, number)
    }
}
