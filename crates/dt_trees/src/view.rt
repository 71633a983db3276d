//! A view of a tree.

ghost use Rattle.std.specs.Prelude.{◌≡◌, ◌∷◌, ◌++◌, ℕ, [], length, IfOk, IfSome, option_map};
ghost use Rattle.std.specs.Option.{option_copied};
ghost use Rattle.dt_model.specs.Applied.{node_numbered};
ghost use Rattle.dt_model.specs.Path.{Path};
ghost use Rattle.dt_model.specs.Tree.{nodes_of, value_in};
ghost use Rattle.dt_model.specs.Valid.{IsValid, IsWithinLimits};
ghost use Rattle.dt_trees.specs.Placed.{PlacedTree, last_name, path_at, place_of, properties_at, reading_of, IsAt, IsNode, HasPlacesApart};
ghost use Rattle.dt_trees.specs.Views.{first_child_of, next_sibling_of, props_said, IsAbove};

use dt_names::NodeId;
use std::alloc::{AllocError, Global};

/// A property of a node: its name and its value.
#[derive(Clone, Copy)]
pub struct Prop<'v> {
    pub name: &'v [u8],
    pub value: &'v [u8],
}

/// A tree as its readers see it, whatever holds it. Its nodes go by numbers of the view's own; it is seen as the tree
/// with these as its nodes' places. None of its calls but `props` takes memory.
pub trait TreeView {
    ghost tree: { Self → PlacedTree };

    /// What is true of each view: its tree is one that a blob may hold, within the limits (Devicetree Specification v0.4, chapters 2 and 5), and a
    /// number is one node's.
    fn validity(&self)
        ensures valid { IsValid (reading_of (tree self.now)) }
        ensures within { IsWithinLimits (reading_of (tree self.now)) }
        ensures places { HasPlacesApart (tree self.now) };

    /// The root, which has no name.
    fn root(&self) -> NodeId
        ensures at { IsAt (tree self.now) [] result }
        ensures node { IsNode (tree self.now) result };

    /// The name of a node; the root's is empty.
    fn name(&self, node: NodeId) -> &[u8]
        requires { IsNode (tree self.now) node }
        ensures { result.now ≡ last_name (path_at (tree self.now) node) };

    /// The node above a node, None above the root.
    fn parent(&self, node: NodeId) -> Option<NodeId>
        requires { IsNode (tree self.now) node }
        ensures { IsAbove (tree self.now) node result };

    /// The child of a node that has a name, None where it has no such child.
    fn child(&self, node: NodeId, name: &[u8]) -> Option<NodeId>
        requires { IsNode (tree self.now) node }
        ensures is { result ≡ place_of (tree self.now) (path_at (tree self.now) node ++ name.now ∷ []) }
        ensures node { IfSome result (IsNode (tree self.now)) };

    /// The first child of a node, None where it has none.
    fn first_child(&self, node: NodeId) -> Option<NodeId>
        requires { IsNode (tree self.now) node }
        ensures is { result ≡ first_child_of (tree self.now) (path_at (tree self.now) node) }
        ensures node { IfSome result (IsNode (tree self.now)) };

    /// The sibling behind a node, None behind the last one and behind the root.
    fn next_sibling(&self, node: NodeId) -> Option<NodeId>
        requires { IsNode (tree self.now) node }
        ensures is { result ≡ next_sibling_of (tree self.now) (path_at (tree self.now) node) }
        ensures node { IfSome result (IsNode (tree self.now)) };

    /// The value of a property of a node, None where it has no property of that name.
    fn value(&self, node: NodeId, name: &[u8]) -> Option<&[u8]>
        requires { IsNode (tree self.now) node }
        ensures { option_copied result ≡ value_in (reading_of (tree self.now)) (path_at (tree self.now) node) name.now };

    /// The properties of a node, in order.
    ///
    /// # Errors
    ///
    /// Where memory is refused.
    fn props(&self, alloc: Global, node: NodeId) -> Result<Vec<Prop<'_>>, AllocError>
        requires { IsNode (tree self.now) node }
        ensures { IfOk result (λ props. props_said props.items ≡ properties_at (tree self.now) (path_at (tree self.now) node)) };

    /// The node that has a number as its phandle, None where no node has it (Devicetree Specification v0.4, 2.3.3).
    fn by_phandle(&self, number: u32) -> Option<NodeId>
        ensures finds { option_map (path_at (tree self.now)) result ≡ node_numbered (nodes_of (reading_of (tree self.now))) number }
        ensures node { IfSome result (IsNode (tree self.now)) };

    /// How many nodes there are, the root among them.
    fn node_count(&self) -> usize
        ensures { result ≡ length (nodes_of (reading_of (tree self.now))) };
}
