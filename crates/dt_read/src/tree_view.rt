//! A blob as a view. A blob's tokens name no parent, so the node above a node is found by two walks from the root up to it: for a boot loader, which
//! asks seldom and has no memory to spend.

ghost use Rattle.std.specs.Prelude.{◌≡◌, ◌↔◌, ◌∷◌, ◌++◌, ℕ, [], IfOk, IfSome, IsTrue, length, option_map};
ghost use Rattle.std.specs.Option.{option_copied};
ghost use Rattle.dt_model.specs.Applied.{is_cell, node_numbered};
ghost use Rattle.dt_model.specs.Tree.{nodes_of, value_in};
ghost use Rattle.dt_trees.specs.Placed.{PlacedTree, last_name, path_at, place_of, properties_at, reading_of, IsAt, IsNode};
ghost use Rattle.dt_trees.specs.Views.{first_child_of, next_sibling_of, props_said, AreAbove, IsAbove};

use crate::blob::Blob;
use crate::open_nodes::OpenNodes;
use crate::steps::NodeStep;
use dt_names::NodeId;
use dt_trees::{Prop, TreeView};
use std::alloc::{AllocError, Global};

/// The root.
fn root_of(blob: &Blob<'_>) -> NodeId
    ensures at { IsAt blob.now [] result }
    ensures node { IsNode blob.now result }
{
    blob.validity();
    blob.root()
}

/// Puts the nodes above a node, the innermost first and none above the root, by a walk up to it.
#[inline(always)]
pub fn put_nodes_above(blob: &Blob<'_>, node: NodeId, above: &mut OpenNodes)
    requires node { IsNode blob.now node }
    requires none { above.old ≡ [] }
    ensures { AreAbove blob.now node above.new }
{
    blob.validity();
    for step in blob.node_steps() {
        match step {
            NodeStep::Open { node: here, .. } => {
                if here == node {
                    return;
                }
                above.push(here);
            }
            NodeStep::Close => above.pop(),
        }
    }
}

/// How many nodes are above a node, by a walk up to it.
fn depth_of(blob: &Blob<'_>, node: NodeId) -> usize
    requires { IsNode blob.now node }
    ensures { result ≡ length (path_at blob.now node) }
{
    blob.validity();
    let mut depth = 0usize;
    for step in blob.node_steps() {
        match step {
            NodeStep::Open { node: here, .. } => {
                if here == node {
                    return depth;
                }
                depth += 1;
            }
            NodeStep::Close => depth = depth.saturating_sub(1),
        }
    }
    depth
}

/// The node above a node: the last one before it that is one level up. Two walks up to the node keep no table of the nodes above, which would be half
/// a KiB of the stack of every look that asks.
fn parent_of(blob: &Blob<'_>, node: NodeId) -> Option<NodeId>
    requires { IsNode blob.now node }
    ensures { IsAbove blob.now node result }
{
    let level = depth_of(blob, node);
    let mut depth = 0usize;
    let mut above = None;
    blob.validity();
    for step in blob.node_steps() {
        match step {
            NodeStep::Open { node: here, .. } => {
                if here == node {
                    return above;
                }
                depth += 1;
                if depth == level {
                    above = Some(here);
                }
            }
            NodeStep::Close => depth = depth.saturating_sub(1),
        }
    }
    above
}

/// Whether a number is a node's place, by a walk up to it: for whoever has the number from elsewhere.
pub fn is_node(blob: &Blob<'_>, node: NodeId) -> bool
    ensures { IsTrue result ↔ IsNode blob.now node }
{
    blob.validity();
    for step in blob.node_steps() {
        if let NodeStep::Open { node: here, .. } = step {
            if here == node {
                return true;
            }
        }
    }
    false
}

/// The value of a node's property. Apart, so that what a look takes of the stack is given back before the way goes on.
#[inline(never)]
fn value_of<'b>(blob: &'b Blob<'_>, node: NodeId, name: &[u8]) -> Option<&'b [u8]>
    requires { IsNode blob.now node }
    ensures { option_copied result ≡ value_in (reading_of blob.now) (path_at blob.now node) name.now }
{
    blob.value(node, name)
}

/// The name of a node.
fn name_of<'b>(blob: &'b Blob<'_>, node: NodeId) -> &'b [u8]
    requires { IsNode blob.now node }
    ensures { result.now ≡ last_name (path_at blob.now node) }
{
    blob.name(node)
}

/// The child of a node that has a name.
fn child_of(blob: &Blob<'_>, node: NodeId, name: &[u8]) -> Option<NodeId>
    requires { IsNode blob.now node }
    ensures is { result ≡ place_of blob.now (path_at blob.now node ++ name.now ∷ []) }
    ensures node { IfSome result (IsNode blob.now) }
{
    blob.validity();
    blob.child(node, name)
}

/// The first child of a node.
fn first_child_of(blob: &Blob<'_>, node: NodeId) -> Option<NodeId>
    requires { IsNode blob.now node }
    ensures is { result ≡ first_child_of blob.now (path_at blob.now node) }
    ensures node { IfSome result (IsNode blob.now) }
{
    blob.validity();
    blob.children(node).first()
}

/// The sibling behind a node.
fn sibling_behind(blob: &Blob<'_>, node: NodeId) -> Option<NodeId>
    requires { IsNode blob.now node }
    ensures is { result ≡ next_sibling_of blob.now (path_at blob.now node) }
    ensures node { IfSome result (IsNode blob.now) }
{
    blob.validity();
    blob.next_sibling(node)
}

/// Whether the value of a `phandle` is this number.
fn is_number(value: Option<&[u8]>, number: u32) -> bool
    ensures { result ≡ is_cell number (option_copied value.entry) }
{
    match value {
        Some(value) => value == number.to_be_bytes().as_slice(),
        None => false,
    }
}

/// The node that has a number, by a walk up to it.
fn numbered(blob: &Blob<'_>, number: u32) -> Option<NodeId>
    ensures finds { option_map (path_at blob.now) result ≡ node_numbered (nodes_of (reading_of blob.now)) number }
    ensures node { IfSome result (IsNode blob.now) }
{
    blob.validity();
    for step in blob.node_steps() {
        if let NodeStep::Open { node, .. } = step {
            if is_number(value_of(blob, node, b"phandle"), number) {
                return Some(node);
            }
        }
    }
    None
}

/// The properties of a node.
fn props_of<'b>(
    blob: &'b Blob<'_>,
    alloc: Global,
    node: NodeId,
) -> Result<Vec<Prop<'b>>, AllocError>
    requires { IsNode blob.now node }
    ensures { IfOk result (λ props. props_said props.items ≡ properties_at blob.now (path_at blob.now node)) }
{
    let mut props = Vec::new(alloc);
    for (name, value) in blob.props(node) {
        props.push(Prop { name, value })?;
    }
    Ok(props)
}

impl<'a> TreeView for Blob<'a> {
    ghost tree = { λ blob. blob };

    fn validity(&self) {
        Blob::validity(self);
    }

    fn root(&self) -> NodeId {
        root_of(self)
    }

    fn name(&self, node: NodeId) -> &[u8] {
        name_of(self, node)
    }

    fn parent(&self, node: NodeId) -> Option<NodeId> {
        parent_of(self, node)
    }

    fn child(&self, node: NodeId, name: &[u8]) -> Option<NodeId> {
        child_of(self, node, name)
    }

    fn first_child(&self, node: NodeId) -> Option<NodeId> {
        first_child_of(self, node)
    }

    fn next_sibling(&self, node: NodeId) -> Option<NodeId> {
        sibling_behind(self, node)
    }

    fn value(&self, node: NodeId, name: &[u8]) -> Option<&[u8]> {
        value_of(self, node, name)
    }

    fn props(&self, alloc: Global, node: NodeId) -> Result<Vec<Prop<'_>>, AllocError> {
        props_of(self, alloc, node)
    }

    fn by_phandle(&self, number: u32) -> Option<NodeId> {
        numbered(self, number)
    }

    fn node_count(&self) -> usize {
        self.counts().nodes
    }
}
