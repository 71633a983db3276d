//! An overlay's object, while it is applied.

ghost use Rattle.dt_overlay_object.specs.Objects.{IsUnread};

use crate::brought::Brought;
use crate::kept::{ObjectFragment, Symbol, Write};
use dt_names::Seed;
use std::alloc::Global;

/// An overlay's object: its tree, what its bookkeeping nodes list, which fragment brings a node, and the numbers that its nodes get.
#[derive(Drop)]
pub struct Object<'o, V> {
    /// Its tree.
    pub tree: &'o V,
    /// Its fragments, in the order of the tree.
    pub fragments: Vec<ObjectFragment<'o>>,
    /// The numbers that are written into the cells of its own nodes.
    pub own_writes: Vec<Write<'o>>,
    /// The numbers that are written into the cells that wait for labels of the base.
    pub label_writes: Vec<Write<'o>>,
    /// Its labels of nodes that land.
    pub symbols: Vec<Symbol<'o>>,
    /// What becomes of its nodes.
    pub brought: Brought,
    seed: Seed,
}

impl<'o, V> Object<'o, V> {
    /// An object before anything of it is read. Its nodes and names will be hashed behind the seed. Takes no memory.
    pub fn new(alloc: Global, tree: &'o V, seed: Seed) -> Object<'o, V>
        ensures { IsUnread tree.now result }
    {
        Object {
            tree,
            fragments: Vec::new(alloc),
            own_writes: Vec::new(alloc),
            label_writes: Vec::new(alloc),
            symbols: Vec::new(alloc),
            brought: Brought::new(alloc, seed),
            seed,
        }
    }

    /// What its nodes and names are hashed behind.
    pub fn seed(&self) -> Seed {
        self.seed
    }
}
