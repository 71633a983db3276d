//! Which nodes an object's fragments bring, and the numbers that they get.

ghost use Rattle.std.specs.Prelude.{◌≡◌, [], List, OnOk};
ghost use Rattle.dt_model.specs.Names.{Name};
ghost use Rattle.dt_model.specs.Numbers.{is_brought};
ghost use Rattle.dt_model.specs.Object.{fragment_names};
ghost use Rattle.dt_overlay_base.specs.NodeNumbers.{at_node, PutsAt};
ghost use Rattle.dt_overlay_object.specs.Plans.{AreContents, AreFragmentsOf, AreBroughtBy, IsUnbrought};
ghost use Rattle.dt_trees.specs.Placed.{path_at, reading_of, IsNode};

use crate::kept::ObjectFragment;
use dt_names::{NodeId, Seed};
use dt_trees::TreeView;
use std::alloc::{AllocError, Global};
use std::collections::HashMap;

/// What becomes of the nodes of an object.
#[derive(Drop)]
pub struct Brought {
    alloc: Global,
    /// The fragment whose content a node is. It brings the node and those below it.
    pub contents: HashMap<NodeId, usize, Seed>,
    /// The number that a node gets, if it gets one.
    pub numbers: HashMap<NodeId, u32, Seed>,
}

impl Brought {
    /// No node is brought so far. Nodes will be hashed behind the seed. Takes no memory.
    pub fn new(alloc: Global, seed: Seed) -> Brought
        ensures { IsUnbrought result }
    {
        Brought {
            alloc,
            contents: HashMap::with_hasher(alloc, seed),
            numbers: HashMap::with_hasher(alloc, seed),
        }
    }

    /// The allocator behind the tables.
    pub fn alloc(&self) -> Global {
        self.alloc
    }

    fn put_content(&mut self, content: NodeId, fragment: usize) -> Result<(), AllocError>
        ensures contents { OnOk result (PutsAt self.old.contents.entries self.new.contents.entries content fragment) }
        ensures numbers { self.new.numbers ≡ self.old.numbers }
    {
        self.contents.insert(content, fragment)?;
        Ok(())
    }

    /// The fragment whose content a node is.
    pub fn content(&self, node: NodeId) -> Option<usize>
        ensures { result ≡ at_node self.now.contents.entries node }
    {
        self.contents.get(&node).copied()
    }

    /// The number that a node gets, if it gets one.
    pub fn number(&self, node: NodeId) -> Option<u32>
        ensures { result ≡ at_node self.now.numbers.entries node }
    {
        self.numbers.get(&node).copied()
    }

    /// Whether a fragment brings a node: it is the fragment's content, or below it. Takes no memory.
    pub fn brings<V: TreeView>(&self, object: &V, node: NodeId) -> bool
        requires { IsNode (V.tree object.now) node }
        ensures { (names : List Name) → AreContents (V.tree object.now) names self.now.contents.entries →
            result ≡ is_brought names (path_at (V.tree object.now) node) }
    {
        object.validity();
        if self.content(node).is_some() {
            return true;
        }
        match object.parent(node) {
            Some(above) => self.brings(object, above),
            None => false,
        }
    }
}

/// The fragments bring their contents (dtc's notes on overlay objects). No node has a number so far.
///
/// # Errors
///
/// Where memory is refused.
pub fn bring_all<V: TreeView>(
    object: &V,
    fragments: &[ObjectFragment<'_>],
    brought: &mut Brought,
) -> Result<(), AllocError>
    requires fragments { AreFragmentsOf (V.tree object.now) fragments.now (fragment_names (reading_of (V.tree object.now)).children) }
    requires unbrought { IsUnbrought brought.old }
    ensures brought { OnOk result (AreBroughtBy (V.tree object.now) [] brought.new) }
{
    object.validity();
    for (i, fragment) in fragments.iter().enumerate() {
        brought.put_content(fragment.content, i)?;
    }
    Ok(())
}
