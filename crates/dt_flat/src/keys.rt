//! What belongs to nodes by its name: their children, or their properties.

ghost use Rattle.std.specs.Prelude.{◌≡◌, ◌<◌, ◌≤◌, ◌+◌, ◌-◌, ◌++◌, ◌∷◌, [], true, None, Some, length, drop, slice_get, slice_index, IfOk, OnOk, OnErr};
ghost use Rattle.std.specs.List.{AllByRecursion};
ghost use Rattle.dt_flat.specs.Chain.{ranks, first_rank};
ghost use Rattle.dt_flat.specs.Rows.{nodes_of, place_of, place_among, entry, IsIndexOf, PutsRow, IsEntered};

use crate::NodeId;
use crate::chain::{Chain, Ranks};
use crate::names::NameId;
use dt_names::Seed;
use std::alloc::{AllocError, Global};
use std::collections::HashMap;
use std::marker::Model;

/// The place of the row of a node and a name.
type Index = HashMap<(NodeId, NameId), usize, Seed>;

/// Rows of a node and the number of a name, in the order in which they came. The rank of a row is one more than its place.
/// Rows are hashed from the first [`Keys::index`] or [`Keys::enter`] on.
#[derive(Drop)]
pub(crate) struct Keys {
    rows: Vec<(NodeId, NameId)>,
    index: Index,
    is_indexed: bool,
    chain: Chain,
}

impl Model for Keys {
    ghost use Rattle.std.specs.Prelude.{List, ◌≡◌, true};
    ghost use Rattle.dt_flat.specs.Rows.{Row, nodes_of, IsIndexOf};

    ghost Value = { List Row };

    ghost view = { λ k. k.rows.items };

    ghost invariant = { λ k. (k.chain ≡ nodes_of k.rows.items) × (k.is_indexed ≡ true → IsIndexOf k.rows.items k.index.entries) };
}

/// The place of the first of these rows that has the name.
fn place_among(rows: &[(NodeId, NameId)], mut ranks: Ranks<'_>, name: NameId) -> Option<usize>
    requires { AllByRecursion (λ rank. (0 < rank) × (rank ≤ length rows.now)) ranks }
    ensures { result ≡ place_among name rows.now ranks.entry }
{
    while let Some(rank) = ranks.step() {
        let place = rank - 1;
        if rows[place].1 == name {
            return Some(place);
        }
    }
    None
}

/// Hashes all rows, the last first: of two that are alike the first counts.
fn fill(index: &mut Index, rows: &[(NodeId, NameId)]) -> Result<(), AllocError>
    requires { index.old.entries ≡ [] }
    ensures { OnOk result (IsIndexOf rows.now index.new.entries) }
{
    index.reserve(rows.len())?;
    let mut place = rows.len();
    while 0 < place {
        place -= 1;
        index.insert(rows[place], place)?;
    }
    Ok(())
}

/// Hashes a row that comes, where rows are hashed.
fn note(
    index: &mut Index,
    is_indexed: bool,
    row: (NodeId, NameId),
    place: usize,
) -> Result<(), AllocError>
    ensures ok { is_indexed ≡ true → OnOk result (PutsRow index.old.entries index.new.entries row place) }
    ensures err { OnErr result (index.new.entries ≡ index.old.entries) }
{
    if is_indexed {
        index.insert(row, place)?;
    }
    Ok(())
}

impl Keys {
    /// No rows yet, which will be hashed behind a seed. Takes no memory.
    pub fn new(alloc: Global, seed: Seed) -> Self
        ensures { result ≡ [] }
    {
        Keys {
            rows: Vec::new(alloc),
            index: Index::with_hasher(alloc, seed),
            is_indexed: false,
            chain: Chain::new(alloc),
        }
    }

    /// Makes room for so many rows more, of so many nodes.
    pub fn reserve(&mut self, nodes: usize, rows: usize) -> Result<(), AllocError>
        ensures { self.new ≡ self.old }
    {
        self.rows.reserve(rows)?;
        self.chain.reserve(nodes, rows)
    }

    /// Hashes the rows, so that none is walked to from now on.
    pub fn index(&mut self) -> Result<(), AllocError>
        ensures { self.new ≡ self.old }
    {
        if self.is_indexed {
            return Ok(());
        }
        self.index.clear();
        fill(&mut self.index, &self.rows)?;
        self.is_indexed = true;
        Ok(())
    }

    /// The row at a place.
    pub fn at(&self, place: usize) -> (NodeId, NameId)
        requires { place < length self.now }
        ensures { slice_get self.now place ≡ Some result }
    {
        self.rows[place]
    }

    /// The place of the row of a node and a name. It walks the node's rows where they aren't hashed.
    pub fn find(&self, node: NodeId, name: NameId) -> Option<usize>
        ensures { result ≡ place_of node name self.now }
    {
        if self.is_indexed {
            return self.index.get(&(node, name)).copied();
        }
        place_among(&self.rows, self.chain.of(node), name)
    }

    /// Adds a row that isn't there at the end.
    pub fn push(&mut self, node: NodeId, name: NameId) -> Result<(), AllocError>
        requires { place_of node name self.old ≡ None }
        ensures ok { OnOk result (self.new ≡ self.old ++ (node, name) ∷ []) }
        ensures err { OnErr result (self.new ≡ self.old) }
    {
        self.rows.reserve(1)?;
        note(
            &mut self.index,
            self.is_indexed,
            (node, name),
            self.rows.len(),
        )?;
        if let Err(refused) = self.chain.push(node) {
            self.index.remove(&(node, name));
            return Err(refused);
        }
        self.rows.push_reserved((node, name));
        Ok(())
    }

    /// The place of the row of a node and a name; None where there was none, which now is the last.
    pub fn enter(&mut self, node: NodeId, name: NameId) -> Result<Option<usize>, AllocError>
        ensures entered { IfOk result (IsEntered node name self.old self.new) }
        ensures absent { OnErr result (place_of node name self.old ≡ None) }
        ensures err { OnErr result (self.new ≡ self.old) }
    {
        let indexed = self.index();
        if let Some(place) = self.find(node, name) {
            return Ok(Some(place));
        }
        indexed?;
        self.push(node, name)?;
        Ok(None)
    }

    /// The ranks of the rows of a node, in order.
    pub fn of(&self, node: NodeId) -> Ranks<'_>
        ensures { result ≡ ranks 1 (nodes_of self.now) node }
    {
        self.chain.of(node)
    }

    /// The rank of the next row of its node behind that of a rank, 0 where there is none.
    pub fn next(&self, rank: usize) -> usize
        requires { (0 < rank) × (rank ≤ length self.now) }
        ensures { result ≡ first_rank (rank + 1) (drop rank (nodes_of self.now)) (slice_index (nodes_of self.now) (rank - 1)) }
    {
        self.chain.next(rank)
    }
}
