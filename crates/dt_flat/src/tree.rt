//! Ordered trees with byte values.

ghost use Rattle.std.specs.Prelude.{◌≡◌, ◌↔◌, ◌<◌, ◌≤◌, ◌+◌, ◌-◌, ◌^◌, ◌++◌, ◌∷◌, [], ℕ, List, None, Some};
ghost use Rattle.std.specs.Prelude.{length, map, All, IsOk, OnOk, OnErr, IfOk, IfErr, IfSome, option_map, codes};
ghost use Rattle.dt_model.specs.Applied.{with_cell};
ghost use Rattle.dt_model.specs.Path.{Path as Names};
ghost use Rattle.dt_model.specs.Tree.{value_of};
ghost use Rattle.dt_model.specs.Valid.{AreDistinct, IsValid, IsWithinLimits};
ghost use Rattle.dt_flat.specs.Numbers.{holder, given};
ghost use Rattle.dt_flat.specs.Refusals.{WhyNoNode, WhyNotReserved, WhyNotSet, MayAdd, MaySet};
ghost use Rattle.dt_flat.specs.Arena.{Arena, IsRooted, root_alone, children, named_children, child_of, children_behind, first_node};
ghost use Rattle.dt_flat.specs.Arena.{with_child, with_property, properties, name_of, parent_of, node_from, number_of_value, phandle_at, reading};
ghost use Rattle.dt_flat.specs.Sound.{AreCells};
ghost use Rattle.dt_names.specs.declared.fault.FaultKind.TheVariants.{NoMemory};
ghost use Rattle.dt_names.specs.Fault.{IsNoMemory};

use crate::NodeId;
use crate::children::Children;
use crate::phandles::Phandles;
use crate::places::Places;
use crate::properties::Props;
use crate::ways::path_of;
use dt_names::limits::{MOST_NAMES, MOST_NODES};
use dt_names::{Fault, FaultKind, NodeName, Path, PropName, Seed};
use std::alloc::{AllocError, Global};
use std::marker::Model;

/// A tree of nodes, in which nothing is ever taken away. It is seen as the list of its nodes in the order in which they
/// were made, each with its parent, its depth, its name and its properties.
#[derive(Drop)]
pub struct FlatTree {
    boot_cpu: u32,
    reservations: Vec<(u64, u64)>,
    places: Places,
    phandles: Phandles,
}

impl Model for FlatTree {
    ghost use Rattle.dt_flat.specs.Arena.{Arena};

    ghost Value = { Arena };

    ghost use Rattle.dt_flat.specs.Sound.{IsSoundArena};

    ghost view = { λ a. record { boot_cpu = a.boot_cpu; reservations = a.reservations.items; slots = a.places } };

    ghost invariant = { λ a. IsSoundArena (record { boot_cpu = a.boot_cpu; reservations = a.reservations.items; slots = a.places }) a.phandles };
}

/// The number that a value of the property `phandle` has, None where it isn't one cell.
fn number_of(value: &[u8]) -> Option<u32>
    ensures { result ≡ number_of_value (Some value.now) }
{
    if value.len() != 4 {
        return None;
    }
    Some(u32::from_be_bytes([value[0], value[1], value[2], value[3]]))
}

/// Sets the property `phandle` of a node, which gives it a number in the place of the one before.
fn put_number(
    places: &mut Places,
    phandles: &mut Phandles,
    node: NodeId,
    number: u32,
    value: &[u8],
) -> Result<(), AllocError>
    requires node { node < length places.old }
    requires small { number < 2 ^ 32 - 1 }
    ensures ok { OnOk result (places.new ≡ with_property places.old node (codes "phandle") value.now) }
    ensures given { OnOk result ((n : ℕ) → holder phandles.new n ≡ given phandles.old (phandle_at places.old node) number node n) }
    ensures places { OnErr result (places.new ≡ places.old) }
    ensures phandles { OnErr result (phandles.new.entries ≡ phandles.old.entries) }
{
    let name = b"phandle".as_slice();
    let Some(before) = places.value(node, name) else {
        phandles.reserve()?;
        places.plant_property(node, name, value)?;
        phandles.give(None, number, node);
        return Ok(());
    };
    let before = number_of(before);
    phandles.reserve()?;
    places.set(node, name, value)?;
    phandles.give(before, number, node);
    Ok(())
}

impl FlatTree {
    /// A tree of a root alone, without reservations. Takes no memory.
    pub fn new(alloc: Global, boot_cpu: u32) -> FlatTree
        ensures { result ≡ root_alone boot_cpu }
    {
        FlatTree::seeded(alloc, Seed::fixed(), boot_cpu)
    }

    /// A tree of a root alone, as [`FlatTree::new`] makes it, into which names and numbers of strangers will come: they are hashed behind the
    /// seed of all inputs that bring them. Takes no memory.
    pub fn seeded(alloc: Global, seed: Seed, boot_cpu: u32) -> FlatTree
        ensures { result ≡ root_alone boot_cpu }
    {
        FlatTree {
            boot_cpu,
            reservations: Vec::new(alloc),
            places: Places::new(alloc, seed),
            phandles: Phandles::new(alloc, seed),
        }
    }

    /// What the tree's names and numbers are hashed behind.
    pub fn seed(&self) -> Seed {
        self.places.seed()
    }

    /// Makes room at once for so many nodes and properties more, for whoever knows their count. The tree is unchanged, also at a fault.
    ///
    /// # Errors
    ///
    /// `NoMemory`, without a place.
    pub fn make_room(&mut self, nodes: usize, properties: usize) -> Result<(), Fault>
        ensures same { self.new ≡ self.old }
        ensures refused { IfErr result IsNoMemory }
    {
        self.places.reserve(nodes, properties)?;
        Ok(())
    }

    /// Adds a memory reservation at the end (Devicetree Specification v0.4, 5.3).
    ///
    /// # Errors
    ///
    /// `OutOfRange` where both numbers are 0, which would end the list; and `NoMemory`. None has a place. At a fault the tree is
    /// unchanged.
    pub fn reserve(&mut self, address: u64, size: u64) -> Result<(), Fault>
        ensures ok { OnOk result
            (self.new ≡ record self.old { reservations = self.old.reservations ++ (address, size) ∷ [] }) }
        ensures some { IsOk result → ¬ ((address ≡ 0) × (size ≡ 0)) }
        ensures err { OnErr result (self.new ≡ self.old) }
        ensures refused { IfErr result (λ fault. WhyNotReserved fault.kind address size × (fault.at ≡ None)) }
    {
        if address == 0 && size == 0 {
            return Err(Fault::of(FaultKind::OutOfRange));
        }
        self.reservations.push((address, size))?;
        Ok(())
    }

    /// Adds a child at the end of a node's children, and answers its number.
    ///
    /// # Errors
    ///
    /// In this order: `Duplicate` where the node has a child of that name; `Limit` where the tree has 65,536 nodes, or the path of
    /// the node 64 names; and `NoMemory`. None has a place. At a fault the tree is unchanged.
    pub fn add_node(&mut self, parent: NodeId, name: &NodeName<'_>) -> Result<NodeId, Fault>
        requires { parent < length self.old.slots }
        ensures ok { IfOk result (λ node. (node ≡ length self.old.slots)
            × (self.new ≡ record self.old { slots = with_child self.old.slots parent name.now })) }
        ensures may { IsOk result → MayAdd self.old.slots parent name.now }
        ensures err { OnErr result (self.new ≡ self.old) }
        ensures refused { IfErr result
            (λ fault. WhyNoNode fault.kind self.old.slots parent name.now × (fault.at ≡ None)) }
    {
        let name = name.as_bytes();
        let node = self.places.len();
        if node >= MOST_NODES || self.places.depth(parent) >= MOST_NAMES {
            let is_there = self.places.child(parent, name).is_some();
            return Err(Fault::of(if is_there {
                FaultKind::Duplicate
            } else {
                FaultKind::Limit
            }));
        }
        if !self.places.add(parent, name)? {
            return Err(Fault::of(FaultKind::Duplicate));
        }
        Ok(node)
    }

    /// Adds a child at the end of a node's children, as [`FlatTree::add_node`] does, and answers its number, where it is known that
    /// nothing but memory is in its way: nothing is looked up.
    ///
    /// # Errors
    ///
    /// `NoMemory`, without a place. The tree is unchanged then.
    pub fn plant_node(&mut self, parent: NodeId, name: &NodeName<'_>) -> Result<NodeId, Fault>
        requires there { parent < length self.old.slots }
        requires may { MayAdd self.old.slots parent name.now }
        ensures ok { IfOk result (λ node. (node ≡ length self.old.slots)
            × (self.new ≡ record self.old { slots = with_child self.old.slots parent name.now })) }
        ensures err { OnErr result (self.new ≡ self.old) }
        ensures refused { IfErr result IsNoMemory }
    {
        let node = self.places.len();
        self.places.plant_child(parent, name.as_bytes())?;
        Ok(node)
    }

    /// Sets a property of a node, as [`FlatTree::set_prop`] does, where it is known that the node has none of that name: nothing is looked up
    /// but a `phandle`.
    ///
    /// # Errors
    ///
    /// Those of `set_prop`. At a fault the tree is unchanged.
    pub fn plant_prop(
        &mut self,
        node: NodeId,
        name: &PropName<'_>,
        value: &[u8],
    ) -> Result<(), Fault>
        requires there { node < length self.old.slots }
        requires fresh { value_of (properties self.old.slots node) name.now ≡ None }
        ensures ok { OnOk result
            (self.new ≡ record self.old { slots = with_property self.old.slots node name.now value.now }) }
        ensures allowed { IsOk result → MaySet self.old.slots node name.now value.now }
        ensures err { OnErr result (self.new ≡ self.old) }
        ensures refused { IfErr result
            (λ fault. WhyNotSet fault.kind self.old.slots node name.now value.now × (fault.at ≡ None)) }
    {
        let name = name.as_bytes();
        if name != b"phandle".as_slice() {
            self.places.plant_property(node, name, value)?;
            return Ok(());
        }
        self.set_phandle(node, value)
    }

    /// Hashes the names of a tree that was planted, so that no look-up walks a node's children or properties. [`FlatTree::add_node`] hashes
    /// the nodes by itself, and [`FlatTree::set_prop`] the properties. The tree is unchanged, also at a fault.
    ///
    /// # Errors
    ///
    /// `NoMemory`, without a place.
    pub fn index(&mut self) -> Result<(), Fault>
        ensures same { self.new ≡ self.old }
        ensures refused { IfErr result IsNoMemory }
    {
        self.places.index()?;
        Ok(())
    }

    /// Sets a property of a node: one that is there keeps its place, a new one goes last.
    ///
    /// # Errors
    ///
    /// `BlobPhandle` where the property is `phandle`, and the value isn't four bytes of a number from 1 to 0xfffffffe that no other
    /// node has (Devicetree Specification v0.4, 2.3.3); and `NoMemory`. None has a place. At a fault the tree is unchanged.
    pub fn set_prop(&mut self, node: NodeId, name: &PropName<'_>, value: &[u8]) -> Result<(), Fault>
        requires { node < length self.old.slots }
        ensures ok { OnOk result
            (self.new ≡ record self.old { slots = with_property self.old.slots node name.now value.now }) }
        ensures allowed { IsOk result → MaySet self.old.slots node name.now value.now }
        ensures err { OnErr result (self.new ≡ self.old) }
        ensures refused { IfErr result
            (λ fault. WhyNotSet fault.kind self.old.slots node name.now value.now × (fault.at ≡ None)) }
    {
        let name = name.as_bytes();
        if name != b"phandle".as_slice() {
            self.places.set(node, name, value)?;
            return Ok(());
        }
        self.set_phandle(node, value)
    }

    /// Sets the property `phandle` of a node.
    fn set_phandle(&mut self, node: NodeId, value: &[u8]) -> Result<(), Fault>
        requires { node < length self.old.slots }
        ensures ok { OnOk result
            (self.new ≡ record self.old { slots = with_property self.old.slots node (codes "phandle") value.now }) }
        ensures allowed { IsOk result → MaySet self.old.slots node (codes "phandle") value.now }
        ensures err { OnErr result (self.new ≡ self.old) }
        ensures refused { IfErr result
            (λ fault. WhyNotSet fault.kind self.old.slots node (codes "phandle") value.now × (fault.at ≡ None)) }
    {
        let Some(number) = self.phandles.free_number(node, value) else {
            return Err(Fault::of(FaultKind::BlobPhandle));
        };
        put_number(&mut self.places, &mut self.phandles, node, number, value)?;
        Ok(())
    }

    /// Writes a number, the highest byte first, at an offset of the value of a property.
    ///
    /// # Errors
    ///
    /// Those of `set_prop` of the value that the property then has. At a fault the tree is unchanged.
    pub fn patch_cell(
        &mut self,
        node: NodeId,
        name: &PropName<'_>,
        offset: usize,
        number: u32,
    ) -> Result<(), Fault>
        requires node { node < length self.old.slots }
        requires cell { (value : List ℕ) × (value_of (properties self.old.slots node) name.now ≡ Some value)
            × (offset + 4 ≤ length value) }
        ensures ok { (value : List ℕ) → value_of (properties self.old.slots node) name.now ≡ Some value →
            OnOk result (self.new ≡ record self.old { slots = with_property self.old.slots node name.now (with_cell value offset number) }) }
        ensures allowed { (value : List ℕ) → value_of (properties self.old.slots node) name.now ≡ Some value →
            IsOk result → MaySet self.old.slots node name.now (with_cell value offset number) }
        ensures err { OnErr result (self.new ≡ self.old) }
        ensures refused { (value : List ℕ) → value_of (properties self.old.slots node) name.now ≡ Some value →
            IfErr result (λ fault.
            WhyNotSet fault.kind self.old.slots node name.now (with_cell value offset number) × (fault.at ≡ None)) }
    {
        let name = name.as_bytes();
        if name != b"phandle".as_slice() {
            self.places.patch(node, name, offset, number);
            return Ok(());
        }
        // A phandle is one cell, so the number is all of it.
        self.set_phandle(node, &number.to_be_bytes())
    }

    /// What is true of each tree: a blob may hold it (Devicetree Specification v0.4, chapters 2 and 5), it is within the
    /// limits, its nodes stand behind their parents, the root first, a path leads to each of them, siblings differ in their
    /// names, and each `phandle` is the cell of a number. Does nothing.
    pub fn validity(&self)
        ensures valid { IsValid (reading self.now) }
        ensures within { IsWithinLimits (reading self.now) }
        ensures rooted { IsRooted self.now.slots }
        ensures paths { (node : ℕ) → node < length self.now.slots →
            (path : Names) × (node_from self.now.slots 0 path ≡ Some node) }
        ensures siblings { (node : ℕ) → AreDistinct (map (λ child. child.name) (named_children self.now.slots node)) }
        ensures cells { AreCells self.now.slots }
    {
        // The invariant says it, and it is known where a field is named.
        let _ = &self.places;
    }

    /// The root, which has no name.
    pub fn root(&self) -> NodeId
        ensures node { result ≡ 0 }
        ensures there { 0 < length self.now.slots }
        ensures unnamed { name_of self.now.slots 0 ≡ [] }
    {
        self.places.root()
    }

    /// The number of the processor that boots.
    pub fn boot_cpu(&self) -> u32
        ensures { result ≡ self.now.boot_cpu }
    {
        self.boot_cpu
    }

    /// The memory reservations, as pairs of an address and a size in bytes.
    pub fn reservations(&self) -> &[(u64, u64)]
        ensures { result.now ≡ self.now.reservations }
    {
        &self.reservations
    }

    /// How many nodes there are, the root included: the numbers below it are the nodes.
    pub fn node_count(&self) -> usize
        ensures { result ≡ length self.now.slots }
    {
        self.places.len()
    }

    /// The name of a node; the root's is empty.
    pub fn name(&self, node: NodeId) -> &[u8]
        requires { node < length self.now.slots }
        ensures { result.now ≡ name_of self.now.slots node }
    {
        self.places.name(node)
    }

    /// The node above a node, None above the root.
    pub fn parent(&self, node: NodeId) -> Option<NodeId>
        requires { node < length self.now.slots }
        ensures root { node ≡ 0 → result ≡ None }
        ensures below { 0 < node → result ≡ Some (parent_of self.now.slots node) }
    {
        if node == self.root() {
            return None;
        }
        Some(self.places.parent(node))
    }

    /// The sibling behind a node, None behind the last one and behind the root.
    pub fn next_sibling(&self, node: NodeId) -> Option<NodeId>
        requires { node < length self.now.slots }
        ensures root { node ≡ 0 → result ≡ None }
        ensures below { 0 < node → result ≡
            first_node (children_behind (name_of self.now.slots node) (named_children self.now.slots (parent_of self.now.slots node))) }
    {
        let parent = self.parent(node)?;
        self.places.behind(parent, self.name(node))
    }

    /// The node of a path, None where there is none. Takes no memory.
    pub fn node(&self, path: &Path) -> Option<NodeId>
        ensures { result ≡ node_from self.now.slots 0 path.now }
    {
        let mut node = self.root();
        for name in path.names() {
            node = self.places.child(node, name)?;
        }
        Some(node)
    }

    /// The child of a name, None where the node has none of that name.
    pub fn child(&self, node: NodeId, name: &[u8]) -> Option<NodeId>
        requires { node < length self.now.slots }
        ensures { result ≡ child_of (named_children self.now.slots node) name.now }
    {
        self.places.child(node, name)
    }

    /// The node that has the number as its `phandle` (Devicetree Specification v0.4, 2.3.3), None where none has it.
    pub fn by_phandle(&self, number: u32) -> Option<NodeId>
        ensures value { (node : ℕ) → (result ≡ Some node) ↔ (phandle_at self.now.slots node ≡ Some number) }
        ensures there { IfSome result (λ node. node < length self.now.slots) }
    {
        self.phandles.holder(number)
    }

    /// The least number from 1 on that no node has as its `phandle`.
    pub fn first_free_phandle(&self) -> u32
        ensures above { 0 < result }
        ensures free { (node : ℕ) → ¬ (phandle_at self.now.slots node ≡ Some result) }
        ensures taken { (n : ℕ) → 0 < n → n < result →
            (node : ℕ) × (node < length self.now.slots) × (phandle_at self.now.slots node ≡ Some n) }
    {
        self.phandles.first_free()
    }

    /// The path of a node.
    ///
    /// # Errors
    ///
    /// `NoMemory`, without a place.
    pub fn path(&self, alloc: Global, node: NodeId) -> Result<Path, Fault>
        requires { node < length self.now.slots }
        ensures value { IfOk result (λ path. node_from self.now.slots 0 path ≡ Some node) }
        ensures refused { IfErr result IsNoMemory }
    {
        path_of(&self.places, alloc, node)
    }

    /// The value of a property of a node, None where it has no property of that name.
    pub fn value(&self, node: NodeId, name: &[u8]) -> Option<&[u8]>
        requires { node < length self.now.slots }
        ensures { option_map (λ value. value.now) result ≡ value_of (properties self.now.slots node) name.now }
    {
        self.places.value(node, name)
    }

    /// The properties of a node in order, as names and values.
    pub fn props(&self, node: NodeId) -> Props<'_>
        requires { node < length self.now.slots }
        ensures { result ≡ properties self.now.slots node }
    {
        self.places.props(node)
    }

    /// The children of a node in order. Each has a higher number than the node.
    pub fn children(&self, node: NodeId) -> Children<'_>
        requires { node < length self.now.slots }
        ensures rest { result ≡ children self.now.slots node }
        ensures below { All (λ child. (node < child) × (child < length self.now.slots)) (children self.now.slots node) }
    {
        self.places.children(node)
    }
}
