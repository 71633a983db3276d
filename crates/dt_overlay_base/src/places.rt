//! What is known of the places on which an object's nodes land.

ghost use Rattle.std.specs.Prelude.{◌≡◌, ◌++◌, ◌∷◌, [], None, is_some, OnOk, IfOk};
ghost use Rattle.std.specs.Option.{option_copied};
ghost use Rattle.std.specs.List.{AllByRecursion};
ghost use Rattle.dt_model.specs.Lists.{IsIn};
ghost use Rattle.dt_model.specs.Names.{IsNodeName};
ghost use Rattle.dt_model.specs.Numbers.{numbers_of, number_in};
ghost use Rattle.dt_model.specs.Path.{path_value};
ghost use Rattle.dt_model.specs.Tree.{Reading};
ghost use Rattle.dt_overlay_base.specs.Known.{IsKnown, IsNext, WhereKnown, kept_at, number_at_place, place_of_number};
ghost use Rattle.dt_overlay_base.specs.NodeNumbers.{PutsAt};

use crate::texts::put_path;
use dt_names::{NodeId, Path, Seed};
use indexmap::IndexMap;
use std::alloc::{AllocError, Global};
use std::collections::HashMap;
use std::marker::Model;
use std::mem::replace;

/// The places on which nodes have landed so far, each once, with the number that it got, if it got one, and the numbers of the nodes. It is seen as
/// what is known of each path, of each number, and of each node.
#[derive(Drop)]
pub struct Places {
    alloc: Global,
    seed: Seed,
    /// By the text of the place's path.
    numbers: IndexMap<Vec<u8>, Option<u32>, Seed>,
    paths: IndexMap<u32, Path, Seed>,
    last: u32,
    /// The number of each node that landed and has a `phandle`.
    nodes: HashMap<NodeId, u32, Seed>,
}

impl Model for Places {
    ghost use Rattle.dt_overlay_base.specs.Known.{Known};

    ghost Value = { Known };

    ghost view = { λ a. record { landed = a.numbers.entries; numbered = a.paths.entries; last = a.last; nodes = a.nodes.entries } };
}

fn text_of(alloc: Global, path: &Path) -> Result<Vec<u8>, AllocError>
    ensures { IfOk result (λ text. text.items ≡ path_value path.now) }
{
    let mut text = Vec::new(alloc);
    put_path(&mut text, path)?;
    Ok(text)
}

impl Places {
    /// Nothing has landed. Paths, numbers and nodes will be hashed behind the seed.
    pub fn new(alloc: Global, seed: Seed) -> Places
        ensures known { (base : Reading) → IsKnown base [] [] result }
        ensures nodes { result.nodes ≡ [] }
    {
        Places {
            alloc,
            seed,
            numbers: IndexMap::with_hasher(alloc, seed),
            paths: IndexMap::with_hasher(alloc, seed),
            last: 0,
            nodes: HashMap::with_hasher(alloc, seed),
        }
    }

    /// The allocator behind the places.
    pub fn alloc(&self) -> Global {
        self.alloc
    }

    /// Has something landed on the path?
    pub fn has_landed(&self, path: &Path) -> Result<bool, AllocError>
        ensures { IfOk result (λ landed. landed ≡ is_some (kept_at self.now.landed path.now)) }
    {
        let text = text_of(self.alloc, path)?;
        Ok(self.numbers.get(text.as_slice()).is_some())
    }

    /// The place that got a number.
    pub fn place(&self, number: u32) -> Option<&Path>
        ensures { option_copied result ≡ place_of_number self.now number }
    {
        self.paths.get(&number)
    }

    /// The last number that a place got, 0 before the first.
    pub fn last(&self) -> u32
        ensures { result ≡ self.now.last }
    {
        self.last
    }

    /// A node lands on the path. Answers the number that its place got before, if it got one.
    pub fn enter(&mut self, path: &Path) -> Result<Option<u32>, AllocError>
        requires { AllByRecursion IsNodeName path.now }
        ensures known { WhereKnown self.old (λ base given landed. OnOk result (IsKnown base given (landed ++ path.now ∷ []) self.new)) }
        ensures number { IfOk result (λ number. number ≡ number_at_place self.old path.now) }
        ensures nodes { self.new.nodes ≡ self.old.nodes }
    {
        let text = text_of(self.alloc, path)?;
        if let Some(number) = self.numbers.get(text.as_slice()) {
            return Ok(*number);
        }
        self.numbers.insert(text, None)?;
        Ok(None)
    }

    /// The path's place gets the next number that is free.
    pub fn give(&mut self, path: &Path, number: u32) -> Result<(), AllocError>
        requires { AllByRecursion IsNodeName path.now }
        ensures known { WhereKnown self.old (λ base given landed. IsIn path.now landed → number_in given path.now ≡ None
            → IsNext (numbers_of base) self.old.last number →
            OnOk result (IsKnown base (given ++ (path.now, number) ∷ []) landed self.new)) }
        ensures nodes { self.new.nodes ≡ self.old.nodes }
    {
        let text = text_of(self.alloc, path)?;
        let place = path.copy(self.alloc)?;
        self.numbers.insert(text, Some(number))?;
        self.paths.insert(number, place)?;
        self.last = number;
        Ok(())
    }

    /// A node that landed has the number.
    pub fn put_node(&mut self, node: NodeId, number: u32) -> Result<(), AllocError>
        ensures known { WhereKnown self.old (λ base given landed. OnOk result (IsKnown base given landed self.new)) }
        ensures nodes { OnOk result (PutsAt self.old.nodes self.new.nodes node number) }
    {
        self.nodes.insert(node, number)?;
        Ok(())
    }

    /// Hands out the numbers of the nodes, once all that lands is known. All else is let go of, so that the landing has its memory.
    pub fn take_nodes(&mut self) -> HashMap<NodeId, u32, Seed>
        ensures handed { result.entries ≡ self.old.nodes }
        ensures known { (base : Reading) → IsKnown base [] [] self.new }
        ensures nodes { self.new.nodes ≡ [] }
    {
        let nothing = Places::new(self.alloc, self.seed);
        let Places { nodes, .. } = replace(self, nothing);
        nodes
    }
}
