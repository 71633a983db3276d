//! A blob with tables of its nodes, in which the node above a node, a child, the node of a phandle and the value of a property are found at once.

ghost use Rattle.std.specs.Prelude.{◌≡◌, IfOk, IfErr, None};
ghost use Rattle.dt_names.specs.declared.fault.FaultKind.TheVariants.{NoMemory};
ghost use Rattle.dt_names.specs.Fault.{IsNoMemory};
ghost use Rattle.dt_trees.specs.Placed.{HasPlacesApart};

use crate::tables::{
    Asked, Children, Kinds, Phandles, Rows, fill, fill_children, is_kind_name, is_whole_name,
    value_in_row,
};
use dt_names::{Fault, NodeId};
use dt_read::Blob;
use dt_trees::{Prop, TreeView, node_at};
use std::alloc::{AllocError, Global};
use std::collections::HashMap;
use std::marker::Model;

/// A blob with tables of its nodes. It is seen as the blob's tree, and its nodes are the blob's.
#[derive(Drop)]
pub struct Index<'a> {
    blob: &'a Blob<'a>,
    rows: Rows,
    phandles: Phandles,
    values: Vec<Asked<'a>>,
    kinds: Kinds<'a>,
    /// None where no child is asked for by its name.
    children: Option<Children<'a>>,
    count: usize,
}

impl<'a> Model for Index<'a> {
    ghost use Rattle.std.specs.Prelude.{◌≡◌, length, option_map};
    ghost use Rattle.dt_model.specs.Tree.{nodes_of};
    ghost use Rattle.dt_trees.specs.Placed.{PlacedTree, reading_of};
    ghost use Rattle.dt_read.specs.TreeCode.{coded_placed};
    ghost use Rattle.dt_view.specs.Tables.{AreIndexed};

    ghost Value = { PlacedTree };

    ghost coded = { coded_placed };

    ghost view = { λ i. i.blob.now };

    ghost invariant = { λ i. AreIndexed i.blob.now i.rows.entries i.phandles.entries i.values.items i.kinds.entries
        (option_map (λ table. table.entries) i.children) i.count };
}

impl<'a> Index<'a> {
    ghost use Rattle.std.specs.Prelude.{ℕ, true, [], ◌∷◌, ◌++◌, length, IfSome, option_map};
    ghost use Rattle.std.specs.Option.{option_copied};
    ghost use Rattle.dt_model.specs.Applied.{node_numbered};
    ghost use Rattle.dt_model.specs.Path.{Path};
    ghost use Rattle.dt_model.specs.Tree.{nodes_of, value_in};
    ghost use Rattle.dt_model.specs.Valid.{IsValid, IsWithinLimits};
    ghost use Rattle.dt_trees.specs.Placed.{last_name, path_at, place_of, properties_at, reading_of, IsAt, IsNode};
    ghost use Rattle.dt_view.specs.Tables.{is_whole_name};
    ghost use Rattle.dt_trees.specs.Views.{first_child_of, next_sibling_of, props_said, IsAbove, IsFoundBy, WhyNotFound};

    /// Makes the index of a blob, in two walks through its tree.
    ///
    /// # Errors
    ///
    /// `NoMemory`, without a place.
    pub fn new(alloc: Global, blob: &'a Blob<'a>) -> Result<Index<'a>, Fault>
        ensures is { IfOk result (λ index. index ≡ blob.now) }
        ensures refused { IfErr result IsNoMemory }
    {
        let mut index = Index::without_children(alloc, blob)?;
        let mut children = HashMap::with_capacity_and_hasher(alloc, index.count, blob.seed())?;
        fill_children(blob, &mut children)?;
        index.children = Some(children);
        Ok(index)
    }

    /// The same in one walk, for whoever asks for no child by its name: such a child is then sought in the blob.
    ///
    /// # Errors
    ///
    /// `NoMemory`, without a place.
    pub fn without_children(alloc: Global, blob: &'a Blob<'a>) -> Result<Index<'a>, Fault>
        ensures is { IfOk result (λ index. index ≡ blob.now) }
        ensures refused { IfErr result IsNoMemory }
    {
        let mut rows = HashMap::with_hasher(alloc, blob.seed());
        let mut phandles = HashMap::with_hasher(alloc, blob.seed());
        let mut values = Vec::new(alloc);
        let mut kinds = HashMap::with_hasher(alloc, blob.seed());
        let count = fill(blob, &mut rows, &mut phandles, &mut values, &mut kinds)?;
        Ok(Index {
            blob,
            rows,
            phandles,
            values,
            kinds,
            children: None,
            count,
        })
    }

    /// The node above a node.
    fn above(&self, node: NodeId) -> Option<NodeId>
        requires { IsNode self.now node }
        ensures { IsAbove self.now node result }
    {
        self.rows.get(&node)?.above
    }

    /// The node of a phandle.
    fn numbered(&self, number: u32) -> Option<NodeId>
        ensures finds { option_map (path_at self.now) result ≡ node_numbered (nodes_of (reading_of self.now)) number }
        ensures node { IfSome result (IsNode self.now) }
    {
        self.blob.validity();
        self.phandles.get(&number).copied()
    }

    /// How many nodes there are.
    fn nodes(&self) -> usize
        ensures { result ≡ length (nodes_of (reading_of self.now)) }
    {
        self.count
    }

    /// What holds of the blob.
    fn blob_validity(&self)
        ensures valid { IsValid (reading_of self.now) }
        ensures within { IsWithinLimits (reading_of self.now) }
        ensures places { HasPlacesApart self.now }
    {
        self.blob.validity();
    }

    /// The node of a path, as it is written: `/` for the root, or each name with a `/` before it (Devicetree Specification
    /// v0.4, 2.2.3). One look into a table for each name, where the index has one. Takes no memory.
    ///
    /// # Errors
    ///
    /// `BadName` where the text is no path's, and `NoNode` where its path is no node's; neither has a place.
    pub fn node_at(&self, text: &[u8]) -> Result<NodeId, Fault>
        ensures is { IfOk result (IsFoundBy self.now text.now) }
        ensures node { IfOk result (IsNode self.now) }
        ensures refused { IfErr result (λ fault. WhyNotFound fault.kind self.now text.now × (fault.at ≡ None)) }
    {
        node_at(self, text)
    }

    /// The blob, whose nodes are the index's.
    pub fn blob(&self) -> &'a Blob<'a>
        ensures { result.now ≡ self.now }
    {
        self.blob
    }

    /// The root.
    fn blob_root(&self) -> NodeId
        ensures at { IsAt self.now [] result }
        ensures node { IsNode self.now result }
    {
        TreeView::root(self.blob)
    }

    /// The name of a node.
    fn name_in_blob(&self, node: NodeId) -> &[u8]
        requires { IsNode self.now node }
        ensures { result.now ≡ last_name (path_at self.now node) }
    {
        TreeView::name(self.blob, node)
    }

    /// The child of a node that has a name.
    fn child_in_table(&self, node: NodeId, name: &[u8]) -> Option<NodeId>
        requires { IsNode self.now node }
        ensures is { result ≡ place_of self.now (path_at self.now node ++ name.now ∷ []) }
        ensures node { IfSome result (IsNode self.now) }
    {
        self.blob.validity();
        match &self.children {
            Some(children) => children.get(&(node, name)).copied(),
            None => TreeView::child(self.blob, node, name),
        }
    }

    /// The first child of a node.
    fn first_child_in_blob(&self, node: NodeId) -> Option<NodeId>
        requires { IsNode self.now node }
        ensures is { result ≡ first_child_of self.now (path_at self.now node) }
        ensures node { IfSome result (IsNode self.now) }
    {
        TreeView::first_child(self.blob, node)
    }

    /// The sibling behind a node.
    fn sibling_in_blob(&self, node: NodeId) -> Option<NodeId>
        requires { IsNode self.now node }
        ensures is { result ≡ next_sibling_of self.now (path_at self.now node) }
        ensures node { IfSome result (IsNode self.now) }
    {
        TreeView::next_sibling(self.blob, node)
    }

    /// The properties of a node.
    fn props_in_blob(&self, alloc: Global, node: NodeId) -> Result<Vec<Prop<'_>>, AllocError>
        requires { IsNode self.now node }
        ensures { IfOk result (λ props. props_said props.items ≡ properties_at self.now (path_at self.now node)) }
    {
        TreeView::props(self.blob, alloc, node)
    }

    /// The value of a node's property of a name that is asked for whole.
    fn value_in_row(&self, node: NodeId, name: &[u8]) -> Option<&[u8]>
        requires node { IsNode self.now node }
        requires whole { is_whole_name name.now ≡ true }
        ensures { option_copied result ≡ value_in (reading_of self.now) (path_at self.now node) name.now }
    {
        let row = self.rows.get(&node)?;
        value_in_row(&self.values, *row, name)
    }

    /// The value of a node's property, from the tables where they have the values of that name.
    fn value_in_tables(&self, node: NodeId, name: &[u8]) -> Option<&[u8]>
        requires { IsNode self.now node }
        ensures { option_copied result ≡ value_in (reading_of self.now) (path_at self.now node) name.now }
    {
        if is_whole_name(name) {
            return self.value_in_row(node, name);
        }
        if is_kind_name(name) {
            return self.kinds.get(&(node, name)).copied();
        }
        TreeView::value(self.blob, node, name)
    }
}

impl<'a> TreeView for Index<'a> {
    ghost tree = { λ index. index };

    fn validity(&self) {
        self.blob_validity();
    }

    fn root(&self) -> NodeId {
        self.blob_root()
    }

    fn name(&self, node: NodeId) -> &[u8] {
        self.name_in_blob(node)
    }

    fn parent(&self, node: NodeId) -> Option<NodeId> {
        self.above(node)
    }

    fn child(&self, node: NodeId, name: &[u8]) -> Option<NodeId> {
        self.child_in_table(node, name)
    }

    fn first_child(&self, node: NodeId) -> Option<NodeId> {
        self.first_child_in_blob(node)
    }

    fn next_sibling(&self, node: NodeId) -> Option<NodeId> {
        self.sibling_in_blob(node)
    }

    fn value(&self, node: NodeId, name: &[u8]) -> Option<&[u8]> {
        self.value_in_tables(node, name)
    }

    fn props(&self, alloc: Global, node: NodeId) -> Result<Vec<Prop<'_>>, AllocError> {
        self.props_in_blob(alloc, node)
    }

    fn by_phandle(&self, number: u32) -> Option<NodeId> {
        self.numbered(number)
    }

    fn node_count(&self) -> usize {
        self.nodes()
    }
}
