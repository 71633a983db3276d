//! The nodes of a tree but for its root.

ghost use Rattle.std.specs.Prelude.{◌≡◌, ◌<◌, ◌≤◌, ◌+◌, ◌-◌, ◌^◌, ◌++◌, ◌∷◌, [], None, Some, length, drop, slice_get, slice_index, IfOk, OnOk, OnErr};
ghost use Rattle.dt_flat.specs.Chain.{ranks, first_rank};
ghost use Rattle.dt_flat.specs.Rows.{parents_of, child_from, IsAdded};

use crate::NodeId;
use crate::chain::Ranks;
use crate::keys::Keys;
use crate::names::NameId;
use dt_names::Seed;
use std::alloc::{AllocError, Global};
use std::marker::Model;

/// What is kept of a node.
#[derive(Clone, Copy)]
pub(crate) struct Branch {
    pub parent: NodeId,
    pub name: NameId,
    pub depth: usize,
}

/// The nodes behind the root, in the order of their numbers: the number of a node is its rank.
#[derive(Drop)]
pub(crate) struct NodeTable {
    rows: Keys,
    depths: Vec<usize>,
}

impl Model for NodeTable {
    ghost use Rattle.std.specs.Prelude.{List, ◌≡◌, length};
    ghost use Rattle.dt_flat.specs.declared.nodes.Branch.{Branch};
    ghost use Rattle.dt_flat.specs.Rows.{branches};

    ghost Value = { List Branch };

    ghost view = { λ t. branches t.rows t.depths.items };

    ghost invariant = { λ t. length t.depths.items ≡ length t.rows };
}

impl NodeTable {
    /// No nodes yet, whose names will be hashed behind a seed. Takes no memory.
    pub fn new(alloc: Global, seed: Seed) -> Self
        ensures { result ≡ [] }
    {
        NodeTable {
            rows: Keys::new(alloc, seed),
            depths: Vec::new(alloc),
        }
    }

    /// Makes room for so many nodes more.
    pub fn reserve(&mut self, nodes: usize) -> Result<(), AllocError>
        ensures { self.new ≡ self.old }
    {
        self.depths.reserve(nodes)?;
        self.rows.reserve(nodes, nodes)
    }

    /// How many there are.
    pub fn len(&self) -> usize
        ensures len { result ≡ length self.now }
        ensures small { result < 2 ^ 63 }
    {
        self.depths.len()
    }

    /// What is kept of a node.
    pub fn at(&self, node: NodeId) -> Branch
        requires { (0 < node) × (node ≤ length self.now) }
        ensures { slice_get self.now (node - 1) ≡ Some result }
    {
        let place = node - 1;
        let (parent, name) = self.rows.at(place);
        Branch {
            parent,
            name,
            depth: self.depths[place],
        }
    }

    /// The child of a node that has the name, None where it has none.
    pub fn child(&self, node: NodeId, name: NameId) -> Option<NodeId>
        ensures { result ≡ child_from 1 node name self.now }
    {
        Some(self.rows.find(node, name)? + 1)
    }

    /// Adds a child at the end, unless the parent has one of that name; answers whether it was added.
    pub fn add(&mut self, branch: Branch) -> Result<bool, AllocError>
        ensures added { IfOk result (IsAdded branch self.old self.new) }
        ensures absent { OnErr result (child_from 1 branch.parent branch.name self.old ≡ None) }
        ensures err { OnErr result (self.new ≡ self.old) }
    {
        if let Err(refused) = self.depths.reserve(1) {
            return match self.child(branch.parent, branch.name) {
                Some(_) => Ok(false),
                None => Err(refused),
            };
        }
        if self.rows.enter(branch.parent, branch.name)?.is_some() {
            return Ok(false);
        }
        self.depths.push_reserved(branch.depth);
        Ok(true)
    }

    /// Adds a child at the end, to a parent that has none of its name.
    pub fn plant(&mut self, branch: Branch) -> Result<(), AllocError>
        requires { child_from 1 branch.parent branch.name self.old ≡ None }
        ensures ok { OnOk result (self.new ≡ self.old ++ branch ∷ []) }
        ensures err { OnErr result (self.new ≡ self.old) }
    {
        self.depths.reserve(1)?;
        self.rows.push(branch.parent, branch.name)?;
        self.depths.push_reserved(branch.depth);
        Ok(())
    }

    /// Hashes parents with names, so that no children are walked to find one from now on.
    pub fn index(&mut self) -> Result<(), AllocError>
        ensures { self.new ≡ self.old }
    {
        self.rows.index()
    }

    /// The children of a node, in order.
    pub fn of(&self, node: NodeId) -> Ranks<'_>
        ensures { result ≡ ranks 1 (parents_of self.now) node }
    {
        self.rows.of(node)
    }

    /// The next child of its parent behind a node, 0 where there is none.
    pub fn next(&self, node: NodeId) -> NodeId
        requires { (0 < node) × (node ≤ length self.now) }
        ensures { result ≡ first_rank (node + 1) (drop node (parents_of self.now)) (slice_index (parents_of self.now) (node - 1)) }
    {
        self.rows.next(node)
    }
}
