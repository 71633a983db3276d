//! Values of an object's properties, with numbers written into their cells.

ghost use Rattle.std.specs.Prelude.{◌≡◌, [], ◌∷◌, ◌++◌, List, Some, None, option_map, unwrap_or, OnOk, IfOk};
ghost use Rattle.dt_model.specs.Applied.{Write as ModelWrite};
ghost use Rattle.dt_model.specs.Tree.{value_in};
ghost use Rattle.dt_overlay_landing.specs.Values.{Keeps, value_kept, AreKept, MayWrite, MayWriteAll};
ghost use Rattle.dt_trees.specs.Placed.{path_at, reading_of, IsNode};

use dt_bytes::put32;
use dt_names::{NodeId, Seed};
use dt_overlay_object::Write;
use dt_trees::TreeView;
use std::alloc::{AllocError, Global};
use std::collections::HashMap;
use std::marker::Model;

/// The values of an object's properties into which numbers were written, by their nodes and names.
#[derive(Drop)]
pub(crate) struct Values<'o> {
    alloc: Global,
    map: HashMap<(NodeId, &'o [u8]), Vec<u8>, Seed>,
}

impl<'o> Model for Values<'o> {
    ghost use Rattle.std.specs.Prelude.{List};
    ghost use Rattle.dt_overlay_landing.specs.Values.{Kept, values_kept};

    ghost Value = { List Kept };

    ghost view = { λ a. values_kept a.map.entries };
}

impl<'o> Values<'o> {
    /// No value. Names will be hashed behind the seed.
    pub fn new(alloc: Global, seed: Seed) -> Self
        ensures { result ≡ [] }
    {
        Values {
            alloc,
            map: HashMap::with_hasher(alloc, seed),
        }
    }

    /// The allocator behind the values.
    pub fn alloc(&self) -> Global {
        self.alloc
    }

    /// The value of a node's property, where a number was written into it.
    pub fn get<'a>(&'a self, node: NodeId, name: &'a [u8]) -> Option<&'a [u8]>
        ensures { option_map (λ value. value.now) result ≡ value_kept self.now node name.now }
    {
        match self.map.get(&(node, name)) {
            Some(value) => Some(value.as_slice()),
            None => None,
        }
    }

    fn take(&mut self, node: NodeId, name: &'o [u8]) -> Option<Vec<u8>>
        ensures value { option_map (λ value. value.items) result ≡ value_kept self.old node name.now }
        ensures others { Keeps self.old self.new node name.now None }
    {
        self.map.remove(&(node, name))
    }

    fn put(&mut self, node: NodeId, name: &'o [u8], value: Vec<u8>) -> Result<(), AllocError>
        ensures { OnOk result (Keeps self.old self.new node name.now (Some value.items)) }
    {
        self.map.insert((node, name), value)?;
        Ok(())
    }

    /// The value that a node's property has so far, which is kept no more.
    fn take_value<V: TreeView>(
        &mut self,
        object: &V,
        node: NodeId,
        name: &'o [u8],
    ) -> Result<Vec<u8>, AllocError>
        requires { IsNode (V.tree object.now) node }
        ensures value { IfOk result (λ value. value.items ≡ unwrap_or (value_kept self.old node name.now)
            (unwrap_or (value_in (reading_of (V.tree object.now)) (path_at (V.tree object.now) node) name.now) [])) }
        ensures others { Keeps self.old self.new node name.now None }
    {
        if let Some(value) = self.take(node, name) {
            return Ok(value);
        }
        let value = object.value(node, name);
        Vec::from_slice(self.alloc, value.unwrap_or(b"".as_slice()))
    }

    /// A number is written. A `phandle` keeps its value here: it gets its node's new number where it lands.
    fn write<V: TreeView>(&mut self, object: &V, write: &Write<'o>) -> Result<(), AllocError>
        requires { (written : List ModelWrite) × (w : ModelWrite) × MayWrite (V.tree object.now) self.old written write.now w }
        ensures { (written : List ModelWrite) (w : ModelWrite) → MayWrite (V.tree object.now) self.old written write.now w →
            OnOk result (AreKept (V.tree object.now) self.new (written ++ w ∷ [])) }
    {
        object.validity();
        if write.property == b"phandle".as_slice() {
            return Ok(());
        }
        let mut value = self.take_value(object, write.node, write.property)?;
        put32(&mut value, write.offset, write.number);
        self.put(write.node, write.property, value)
    }

    /// Writes numbers into the object's cells, one after another, the highest byte first; but into no `phandle`.
    ///
    /// # Errors
    ///
    /// Where memory is refused.
    pub fn write_all<V: TreeView>(
        &mut self,
        object: &V,
        writes: &[Write<'o>],
    ) -> Result<(), AllocError>
        requires { (written : List ModelWrite) × (more : List ModelWrite) × MayWriteAll (V.tree object.now) self.old written writes.now more }
        ensures { (written more : List ModelWrite) → MayWriteAll (V.tree object.now) self.old written writes.now more →
            OnOk result (AreKept (V.tree object.now) self.new (written ++ more)) }
    {
        for write in writes {
            self.write(object, write)?;
        }
        Ok(())
    }
}
