//! What steps change: a blob in a lent buffer, a blob in memory of its own, and a tree in memory.

ghost use Rattle.std.specs.Prelude.{◌<◌, length, IfOk};

use crate::blobs::tree_of;
use crate::outcome::{Lines, Stop};
use crate::reading::put_tree;
use dt_edit::{BlobBuf, add_node, has_cell, open_into, patch_cell, set_prop};
use dt_flat::FlatTree;
use dt_names::{Fault, FaultKind, NodeId, NodeName, PropName, Seed};
use dt_read::Blob;
use dt_view::node_at;
use dt_write::write_blob;
use std::alloc::Global;
use std::marker::Model;

/// What steps change. A step names its node by a path, which is looked up anew.
pub trait Edited {
    /// Sets a property of a node.
    fn set(&mut self, path: &[u8], name: &[u8], value: &[u8]) -> Result<(), Stop>;

    /// Adds a child to a node.
    fn add(&mut self, path: &[u8], name: &[u8]) -> Result<(), Stop>;

    /// Writes a number into a cell of a property. Where there is no such cell, the step is `Malformed`.
    fn patch(&mut self, alloc: Global, path: &[u8], name: &[u8], cell: Cell) -> Result<(), Stop>;

    /// Puts the lines of the tree: of bytes, of what they are read as once they are checked anew.
    fn put(&self, alloc: Global, lines: &mut Lines) -> Result<(), Stop>;

    /// How many bytes the blob has, where it is one.
    fn size(&self) -> Option<usize>;
}

/// Where a number is written in a value.
#[derive(Clone, Copy)]
pub struct Cell {
    pub offset: usize,
    pub number: u32,
}

/// A blob in a buffer that is lent.
#[derive(Drop)]
pub struct Lent {
    buffer: Vec<u8>,
}

impl Model for Lent {
    ghost use Rattle.std.specs.Prelude.{List, ℕ};
    ghost use Rattle.dt_edit.specs.Editable.{IsEditable};

    ghost Value = { List ℕ };

    ghost view = { λ l. l.buffer.items };

    ghost invariant = { λ l. IsEditable l.buffer.items };
}

impl Lent {
    /// A copy of a blob in a buffer of so many bytes.
    pub fn new(alloc: Global, blob: &[u8], size: usize) -> Result<Lent, Stop> {
        drop(Blob::check(blob)?);
        let mut buffer = Vec::new(alloc);
        buffer.resize(size, 0)?;
        match open_into(blob, &mut buffer) {
            Ok(()) => Ok(Lent { buffer }),
            Err(fault) => {
                drop(buffer);
                Err(Stop::from(fault))
            }
        }
    }

    /// The blob, without what is behind it.
    pub fn blob(&self, alloc: Global) -> Result<Vec<u8>, Stop> {
        let blob = self
            .buffer
            .get(..size_of(&self.buffer))
            .ok_or(Stop::Malformed)?;
        Ok(Vec::from_slice(alloc, blob)?)
    }
}

/// How long a blob is that can be edited.
fn size_of(bytes: &[u8]) -> usize {
    match dt_bytes::be32(bytes, 4) {
        Some(size) => size as usize,
        None => 0,
    }
}

/// Puts the lines of what bytes are read as.
fn put_blob(alloc: Global, bytes: &[u8], lines: &mut Lines) -> Result<(), Stop> {
    let tree = tree_of(alloc, bytes)?;
    put_tree(lines, alloc, &tree);
    // Let go of by hand: what goes at an exit by itself is proved there field by field.
    drop(tree);
    Ok(())
}

impl Edited for Lent {
    fn set(&mut self, path: &[u8], name: &[u8], value: &[u8]) -> Result<(), Stop> {
        let node = node_at(&Blob::of(&self.buffer, Seed::fixed()), path)?;
        Ok(set_prop(&mut self.buffer, node, &PropName::new(name)?, value)?)
    }

    fn add(&mut self, path: &[u8], name: &[u8]) -> Result<(), Stop> {
        let node = node_at(&Blob::of(&self.buffer, Seed::fixed()), path)?;
        add_node(&mut self.buffer, node, &NodeName::new(name)?)?;
        Ok(())
    }

    fn patch(&mut self, alloc: Global, path: &[u8], name: &[u8], cell: Cell) -> Result<(), Stop> {
        let node = node_at(&Blob::of(&self.buffer, Seed::fixed()), path)?;
        let name = PropName::new(name)?;
        if !has_cell(&self.buffer, node, name.as_bytes(), cell.offset) {
            return Err(Stop::Malformed);
        }
        Ok(patch_cell(&mut self.buffer, node, &name, cell.offset, cell.number)?)
    }

    fn put(&self, alloc: Global, lines: &mut Lines) -> Result<(), Stop> {
        put_blob(alloc, &self.buffer, lines)
    }

    fn size(&self) -> Option<usize> {
        Some(size_of(&self.buffer))
    }
}

impl Edited for BlobBuf {
    fn set(&mut self, path: &[u8], name: &[u8], value: &[u8]) -> Result<(), Stop> {
        let node = node_at(&self.blob(), path)?;
        Ok(self.set_prop(node, &PropName::new(name)?, value)?)
    }

    fn add(&mut self, path: &[u8], name: &[u8]) -> Result<(), Stop> {
        let node = node_at(&self.blob(), path)?;
        self.add_node(node, &NodeName::new(name)?)?;
        Ok(())
    }

    fn patch(&mut self, alloc: Global, path: &[u8], name: &[u8], cell: Cell) -> Result<(), Stop> {
        self.validity();
        let node = node_at(&self.blob(), path)?;
        let name = PropName::new(name)?;
        if !has_cell(self.as_bytes(), node, name.as_bytes(), cell.offset) {
            return Err(Stop::Malformed);
        }
        Ok(self.patch_cell(node, &name, cell.offset, cell.number)?)
    }

    fn put(&self, alloc: Global, lines: &mut Lines) -> Result<(), Stop> {
        put_blob(alloc, self.as_bytes(), lines)
    }

    fn size(&self) -> Option<usize> {
        Some(self.as_bytes().len())
    }
}

/// The node of a path.
fn node_in(tree: &FlatTree, path: &[u8]) -> Result<NodeId, Fault>
    ensures { IfOk result (λ node. node < length tree.now.slots) }
{
    let node = node_at(tree, path)?;
    if node < tree.node_count() {
        Ok(node)
    } else {
        Err(Fault::of(FaultKind::NoNode))
    }
}

impl Edited for FlatTree {
    fn set(&mut self, path: &[u8], name: &[u8], value: &[u8]) -> Result<(), Stop> {
        let node = node_in(self, path)?;
        Ok(self.set_prop(node, &PropName::new(name)?, value)?)
    }

    fn add(&mut self, path: &[u8], name: &[u8]) -> Result<(), Stop> {
        let node = node_in(self, path)?;
        self.add_node(node, &NodeName::new(name)?)?;
        Ok(())
    }

    fn patch(&mut self, alloc: Global, path: &[u8], name: &[u8], cell: Cell) -> Result<(), Stop> {
        let node = node_in(self, path)?;
        let name = PropName::new(name)?;
        let value = self.value(node, name.as_bytes()).ok_or(Stop::Malformed)?;
        let mut value = Vec::from_slice(alloc, value)?;
        if !dt_bytes::put32(&mut value, cell.offset, cell.number) {
            return Err(Stop::Malformed);
        }
        Ok(self.set_prop(node, &name, &value)?)
    }

    fn put(&self, alloc: Global, lines: &mut Lines) -> Result<(), Stop> {
        let blob = write_blob(alloc, self)?;
        put_blob(alloc, &blob, lines)
    }

    fn size(&self) -> Option<usize> {
        None
    }
}
