//! Trees whose nodes have no numbers yet.

ghost use Rattle.std.specs.Prelude.{◌≡◌, List, map};
ghost use Rattle.dt_model.specs.Named.{list_of, tree_of};
ghost use Rattle.dt_model.specs.NamedOf.{IsNamed};
ghost use Rattle.dt_source_named_tree.specs.Said.{IsTree, list_said, node_said};

use dt_names::{NodeId, Seed};
use std::borrow::CowSlice;
use std::marker::Model;

/// A reference of a value.
#[derive(Clone, Copy)]
pub enum NamedReference<'a> {
    /// To a node of the tree, by its place in preorder.
    Node(NodeId),
    /// By a label that the source doesn't give: to a node of some other tree. Only an overlay has such references.
    Label(&'a [u8]),
}

/// Bytes of a value, and the reference in the cell behind them. What a source writes is borrowed from it.
#[derive(Drop)]
pub struct NamedPiece<'a> {
    pub before: CowSlice<'a, u8>,
    pub reference: NamedReference<'a>,
}

/// The value of a property: pieces that end with a reference each, and the bytes behind the last one.
#[derive(Drop)]
pub struct NamedValue<'a> {
    pub pieces: Vec<NamedPiece<'a>>,
    pub bytes: CowSlice<'a, u8>,
}

/// A property, whose name is borrowed from the source's text.
#[derive(Drop)]
pub struct NamedProperty<'a> {
    pub name: &'a [u8],
    pub value: NamedValue<'a>,
}

/// A node by the number of its parent, with its name, its labels and its properties in order. The root is its own
/// parent, and has no name. Names are borrowed from the source's text, but for those that are made for new fragments.
#[derive(Drop)]
pub struct NamedNode<'a> {
    pub parent: NodeId,
    pub name: CowSlice<'a, u8>,
    pub labels: Vec<&'a [u8]>,
    pub properties: Vec<NamedProperty<'a>>,
}

/// A tree as the list of its nodes, in which references name their nodes by the place that these have in preorder (a node, then its children in
/// order). It is within the limits on nodes and depth. Names are names, siblings and the properties of a node differ in
/// theirs, no label is given twice, and a property `phandle` writes a number in range (Devicetree Specification v0.4,
/// 2.3.3) that no other node has.
#[derive(Drop)]
pub struct NamedTree<'a> {
    seed: Seed,
    reservations: Vec<(u64, u64)>,
    nodes: Vec<NamedNode<'a>>,
}

impl<'a> Model for NamedTree<'a> {
    ghost use Rattle.dt_model.specs.Named.{NodeReference, NamedList};
    ghost use Rattle.dt_source_named_tree.specs.Said.{list_said, IsTree};

    ghost Value = { NamedList NodeReference };

    ghost view = { λ t. list_said t.reservations.items t.nodes.items };

    ghost invariant = { λ t. IsTree (list_said t.reservations.items t.nodes.items) };
}

impl<'a> NamedTree<'a> {
    /// The tree of these nodes, with the seed of the text that they come from.
    pub fn of(seed: Seed, reservations: Vec<(u64, u64)>, nodes: Vec<NamedNode<'a>>) -> NamedTree<'a>
        requires { IsTree (list_said reservations.items nodes.items) }
        ensures { result ≡ list_said reservations.items nodes.entry.items }
    {
        NamedTree {
            seed,
            reservations,
            nodes,
        }
    }

    /// What the tree's names and numbers are hashed behind.
    pub fn seed(&self) -> Seed {
        self.seed
    }

    /// The memory reservations, as pairs of an address and a size in bytes (Devicetree Specification v0.4, 5.3).
    pub fn reservations(&self) -> &[(u64, u64)]
        ensures { result.now ≡ self.now.reservations }
    {
        &self.reservations
    }

    /// The nodes in preorder: the number of a node is its place among them.
    pub fn nodes(&self) -> &[NamedNode<'a>]
        ensures { map node_said result.now ≡ self.now.nodes }
    {
        &self.nodes
    }

    /// What is true of each named tree: its nodes stand in preorder, and a source may mean it. Does nothing.
    pub fn validity(&self)
        ensures preorder { list_of (tree_of self.now) ≡ self.now.nodes }
        ensures named { IsNamed (tree_of self.now) }
    {
        // The invariant says it, and it is known where a field is named.
        let _ = &self.nodes;
    }
}
