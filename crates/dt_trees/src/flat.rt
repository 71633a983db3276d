//! A tree that can be changed, as a view. Its nodes go by the numbers that they have in it.

ghost use Rattle.std.specs.Prelude.{◌≡◌, ◌∷◌, ◌++◌, [], ℕ, length, IfOk, IfSome, option_map};
ghost use Rattle.std.specs.Option.{option_copied};
ghost use Rattle.dt_model.specs.Applied.{node_numbered};
ghost use Rattle.dt_model.specs.Path.{Path};
ghost use Rattle.dt_model.specs.Tree.{nodes_of, value_in};
ghost use Rattle.dt_model.specs.Valid.{IsValid, IsWithinLimits};
ghost use Rattle.dt_trees.specs.Placed.{PlacedTree, last_name, path_at, place_of, properties_at, reading_of, IsAt, IsNode, HasPlacesApart};
ghost use Rattle.dt_trees.specs.Trees.{numbered_tree};
ghost use Rattle.dt_trees.specs.Views.{first_child_of, next_sibling_of, props_said, IsAbove};

use crate::view::{Prop, TreeView};
use dt_flat::FlatTree;
use dt_names::NodeId;
use std::alloc::{AllocError, Global};

fn tree_validity(tree: &FlatTree)
    ensures valid { IsValid (reading_of (numbered_tree tree.now)) }
    ensures within { IsWithinLimits (reading_of (numbered_tree tree.now)) }
    ensures places { HasPlacesApart (numbered_tree tree.now) }
{
    tree.validity();
}

fn root_of(tree: &FlatTree) -> NodeId
    ensures at { IsAt (numbered_tree tree.now) [] result }
    ensures node { IsNode (numbered_tree tree.now) result }
{
    tree.validity();
    tree.root()
}

fn name_of(tree: &FlatTree, node: NodeId) -> &[u8]
    requires { IsNode (numbered_tree tree.now) node }
    ensures { result.now ≡ last_name (path_at (numbered_tree tree.now) node) }
{
    tree.validity();
    tree.name(node)
}

fn parent_of(tree: &FlatTree, node: NodeId) -> Option<NodeId>
    requires { IsNode (numbered_tree tree.now) node }
    ensures { IsAbove (numbered_tree tree.now) node result }
{
    tree.validity();
    tree.parent(node)
}

fn child_of(tree: &FlatTree, node: NodeId, name: &[u8]) -> Option<NodeId>
    requires { IsNode (numbered_tree tree.now) node }
    ensures is { result ≡ place_of (numbered_tree tree.now) (path_at (numbered_tree tree.now) node ++ name.now ∷ []) }
    ensures node { IfSome result (IsNode (numbered_tree tree.now)) }
{
    tree.validity();
    tree.child(node, name)
}

fn first_child_of(tree: &FlatTree, node: NodeId) -> Option<NodeId>
    requires { IsNode (numbered_tree tree.now) node }
    ensures is { result ≡ first_child_of (numbered_tree tree.now) (path_at (numbered_tree tree.now) node) }
    ensures node { IfSome result (IsNode (numbered_tree tree.now)) }
{
    tree.validity();
    tree.children(node).next()
}

fn sibling_behind(tree: &FlatTree, node: NodeId) -> Option<NodeId>
    requires { IsNode (numbered_tree tree.now) node }
    ensures is { result ≡ next_sibling_of (numbered_tree tree.now) (path_at (numbered_tree tree.now) node) }
    ensures node { IfSome result (IsNode (numbered_tree tree.now)) }
{
    tree.validity();
    tree.next_sibling(node)
}

fn value_of<'t>(tree: &'t FlatTree, node: NodeId, name: &[u8]) -> Option<&'t [u8]>
    requires { IsNode (numbered_tree tree.now) node }
    ensures { option_copied result ≡ value_in (reading_of (numbered_tree tree.now)) (path_at (numbered_tree tree.now) node) name.now }
{
    tree.validity();
    tree.value(node, name)
}

fn numbered(tree: &FlatTree, number: u32) -> Option<NodeId>
    ensures finds { option_map (path_at (numbered_tree tree.now)) result ≡ node_numbered (nodes_of (reading_of (numbered_tree tree.now))) number }
    ensures node { IfSome result (IsNode (numbered_tree tree.now)) }
{
    tree.validity();
    tree.by_phandle(number)
}

fn count_of(tree: &FlatTree) -> usize
    ensures { result ≡ length (nodes_of (reading_of (numbered_tree tree.now))) }
{
    tree.validity();
    tree.node_count()
}

fn props_of(tree: &FlatTree, alloc: Global, node: NodeId) -> Result<Vec<Prop<'_>>, AllocError>
    requires { IsNode (numbered_tree tree.now) node }
    ensures { IfOk result (λ props. props_said props.items ≡ properties_at (numbered_tree tree.now) (path_at (numbered_tree tree.now) node)) }
{
    tree.validity();
    let mut props = Vec::new(alloc);
    for (name, value) in tree.props(node) {
        props.push(Prop { name, value })?;
    }
    Ok(props)
}

impl TreeView for FlatTree {
    ghost tree = { λ tree. numbered_tree tree };

    fn validity(&self) {
        tree_validity(self);
    }

    fn root(&self) -> NodeId {
        root_of(self)
    }

    fn name(&self, node: NodeId) -> &[u8] {
        name_of(self, node)
    }

    fn parent(&self, node: NodeId) -> Option<NodeId> {
        parent_of(self, node)
    }

    fn child(&self, node: NodeId, name: &[u8]) -> Option<NodeId> {
        child_of(self, node, name)
    }

    fn first_child(&self, node: NodeId) -> Option<NodeId> {
        first_child_of(self, node)
    }

    fn next_sibling(&self, node: NodeId) -> Option<NodeId> {
        sibling_behind(self, node)
    }

    fn value(&self, node: NodeId, name: &[u8]) -> Option<&[u8]> {
        value_of(self, node, name)
    }

    fn props(&self, alloc: Global, node: NodeId) -> Result<Vec<Prop<'_>>, AllocError> {
        props_of(self, alloc, node)
    }

    fn by_phandle(&self, number: u32) -> Option<NodeId> {
        numbered(self, number)
    }

    fn node_count(&self) -> usize {
        count_of(self)
    }
}
