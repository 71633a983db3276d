//! The nodes of a tree, each with what it has.

ghost use Rattle.std.specs.Prelude.{◌≡◌, ◌<◌, ◌≤◌, ◌+◌, ◌∷◌, ℕ, List, [], None, Some, length, IfOk, OnOk, OnErr, option_map};
ghost use Rattle.dt_model.specs.Applied.{with_cell};
ghost use Rattle.dt_model.specs.Limits.{most_names};
ghost use Rattle.dt_model.specs.Tree.{value_of};
ghost use Rattle.dt_flat.specs.Arena.{Slot, named_children, children, child_of, children_behind, first_node};
ghost use Rattle.dt_flat.specs.Arena.{with_child, with_property, properties, name_of, depth_of, parent_of};
ghost use Rattle.dt_flat.specs.Refusals.{IsChildAdded};

use crate::NodeId;
use crate::children::Children;
use crate::names::NameTable;
use crate::nodes::{Branch, NodeTable};
use crate::properties::{PropertyTable, Props};
use dt_names::Seed;
use std::alloc::{AllocError, Global};
use std::marker::Model;

/// All nodes by their numbers. The root is 0, and is in no table, so that a tree of a root alone takes no memory.
#[derive(Drop)]
pub(crate) struct Places {
    seed: Seed,
    names: NameTable,
    nodes: NodeTable,
    properties: PropertyTable,
}

impl Model for Places {
    ghost use Rattle.std.specs.Prelude.{List};
    ghost use Rattle.dt_flat.specs.Arena.{Slot};
    ghost use Rattle.dt_flat.specs.Rows.{slots_kept, owned, AreRows};

    ghost Value = { List Slot };

    ghost view = { λ a. slots_kept a.names (owned a.names a.properties) a.nodes };

    ghost invariant = { λ a. AreRows a.names a.nodes a.properties };
}

impl Places {
    /// A root alone. All names will be hashed behind the seed.
    pub fn new(alloc: Global, seed: Seed) -> Self
        ensures { result ≡ record { parent = 0; depth = 0; name = []; properties = [] } ∷ [] }
    {
        Places {
            seed,
            names: NameTable::new(alloc, seed),
            nodes: NodeTable::new(alloc, seed),
            properties: PropertyTable::new(alloc, seed),
        }
    }

    /// What names are hashed behind.
    pub fn seed(&self) -> Seed {
        self.seed
    }

    /// Makes room for so many nodes and properties more, but not for their names and the bytes of their values.
    pub fn reserve(&mut self, nodes: usize, properties: usize) -> Result<(), AllocError>
        ensures { self.new ≡ self.old }
    {
        self.nodes.reserve(nodes)?;
        self.properties.reserve(nodes, properties)
    }

    /// The number of the root.
    pub fn root(&self) -> NodeId
        ensures { result ≡ 0 }
    {
        0
    }

    /// How many nodes there are.
    pub fn len(&self) -> usize
        ensures { result ≡ length self.now }
    {
        1 + self.nodes.len()
    }

    /// The number of the node above a node; the root is its own.
    pub fn parent(&self, node: NodeId) -> NodeId
        requires { node < length self.now }
        ensures { result ≡ parent_of self.now node }
    {
        let nodes = &self.nodes;
        if node == 0 {
            return 0;
        }
        nodes.at(node).parent
    }

    /// How many names the path of a node has.
    pub fn depth(&self, node: NodeId) -> usize
        requires { node < length self.now }
        ensures { result ≡ depth_of self.now node }
    {
        let nodes = &self.nodes;
        if node == 0 {
            return 0;
        }
        nodes.at(node).depth
    }

    /// The name of a node; the root's is empty.
    pub fn name(&self, node: NodeId) -> &[u8]
        requires { node < length self.now }
        ensures { result.now ≡ name_of self.now node }
    {
        let nodes = &self.nodes;
        if node == 0 {
            return b"";
        }
        self.names.at(nodes.at(node).name)
    }

    /// The child of a name.
    pub fn child(&self, node: NodeId, name: &[u8]) -> Option<NodeId>
        requires { node < length self.now }
        ensures { result ≡ child_of (named_children self.now node) name.now }
    {
        self.names.validity();
        let name = self.names.find(name)?;
        self.nodes.child(node, name)
    }

    /// The child behind that of a name.
    pub fn behind(&self, node: NodeId, name: &[u8]) -> Option<NodeId>
        requires { node < length self.now }
        ensures { result ≡ first_node (children_behind name.now (named_children self.now node)) }
    {
        let child = self.child(node, name)?;
        let next = self.nodes.next(child);
        if next == 0 { None } else { Some(next) }
    }

    /// The children of a node in order.
    pub fn children(&self, node: NodeId) -> Children<'_>
        requires { node < length self.now }
        ensures { result ≡ children self.now node }
    {
        Children {
            ranks: self.nodes.of(node),
        }
    }

    /// The value of the property of a name.
    pub fn value(&self, node: NodeId, name: &[u8]) -> Option<&[u8]>
        requires { node < length self.now }
        ensures { option_map (λ value. value.now) result ≡ value_of (properties self.now node) name.now }
    {
        self.names.validity();
        let name = self.names.find(name)?;
        self.properties.get(node, name)
    }

    /// The properties of a node in order.
    pub fn props(&self, node: NodeId) -> Props<'_>
        requires { node < length self.now }
        ensures { result ≡ properties self.now node }
    {
        self.properties.of(&self.names, node)
    }

    /// Adds a child at the end, to a parent that isn't too deep, unless it has one of that name; answers whether it was added.
    pub fn add(&mut self, parent: NodeId, name: &[u8]) -> Result<bool, AllocError>
        requires parent { parent < length self.old }
        requires shallow { depth_of self.old parent < most_names }
        ensures added { IfOk result (IsChildAdded parent name.now self.old self.new) }
        ensures absent { OnErr result (child_of (named_children self.old parent) name.now ≡ None) }
        ensures err { OnErr result (self.new ≡ self.old) }
    {
        let depth = self.depth(parent) + 1;
        let name = self.names.add(name)?;
        self.names.validity();
        self.nodes.add(Branch {
            parent,
            name,
            depth,
        })
    }

    /// Adds a child at the end, to a parent that has none of that name and isn't too deep.
    pub fn plant_child(&mut self, parent: NodeId, name: &[u8]) -> Result<(), AllocError>
        requires parent { parent < length self.old }
        requires fresh { child_of (named_children self.old parent) name.now ≡ None }
        requires shallow { depth_of self.old parent < most_names }
        ensures ok { OnOk result (self.new ≡ with_child self.old parent name.now) }
        ensures err { OnErr result (self.new ≡ self.old) }
    {
        let depth = self.depth(parent) + 1;
        let name = self.names.add(name)?;
        self.names.validity();
        self.nodes.plant(Branch {
            parent,
            name,
            depth,
        })?;
        Ok(())
    }

    /// Gives a node a property of a name that none of its properties has.
    pub fn plant_property(
        &mut self,
        node: NodeId,
        name: &[u8],
        value: &[u8],
    ) -> Result<(), AllocError>
        requires node { node < length self.old }
        requires fresh { value_of (properties self.old node) name.now ≡ None }
        ensures ok { OnOk result (self.new ≡ with_property self.old node name.now value.now) }
        ensures err { OnErr result (self.new ≡ self.old) }
    {
        let name = self.names.add(name)?;
        self.names.validity();
        self.properties.plant(node, name, value)?;
        Ok(())
    }

    /// Makes each child and each property found by hashes from now on.
    pub fn index(&mut self) -> Result<(), AllocError>
        ensures { self.new ≡ self.old }
    {
        self.nodes.index()?;
        self.properties.index()
    }

    /// Sets a property of a node.
    pub fn set(&mut self, node: NodeId, name: &[u8], value: &[u8]) -> Result<(), AllocError>
        requires { node < length self.old }
        ensures ok { OnOk result (self.new ≡ with_property self.old node name.now value.now) }
        ensures err { OnErr result (self.new ≡ self.old) }
    {
        let name = self.names.add(name)?;
        self.names.validity();
        self.properties.set(node, name, value)?;
        Ok(())
    }

    /// Writes a number, the highest byte first, at an offset of the value of a property.
    pub fn patch(&mut self, node: NodeId, name: &[u8], offset: usize, number: u32)
        requires node { node < length self.old }
        requires cell { (value : List ℕ) × (value_of (properties self.old node) name.now ≡ Some value)
            × (offset + 4 ≤ length value) }
        ensures { (value : List ℕ) → value_of (properties self.old node) name.now ≡ Some value →
            self.new ≡ with_property self.old node name.now (with_cell value offset number) }
    {
        self.names.validity();
        let Some(name) = self.names.find(name) else {
            unreachable!();
        };
        self.properties.patch(node, name, offset, number);
    }
}
