//! The numbers of nodes.

ghost use Rattle.std.specs.Prelude.{◌≡◌, ◌≤◌, ◌<◌, ◌^◌, ◌-◌, [], ℕ, ◌↔◌, Option, Some, None, IfSome, OnOk, IsSome, IsTrue, ◌==◌, if◌then◌else◌};
ghost use Rattle.std.specs.Int.{w32, from_be_bytes};
ghost use Rattle.indexmap.specs.IndexMap.{spare};
ghost use Rattle.dt_flat.specs.Numbers.{AreTaken, table_of, holder, given, without, IsFirstFree, MayGive};
ghost use Rattle.dt_model.specs.Meaning.{cell};

use crate::NodeId;
use dt_names::{Seed, phandle_of};
use indexmap::IndexMap;
use std::alloc::{AllocError, Global};
use std::marker::Model;

/// The node of each number.
type Holders = IndexMap<u32, NodeId, Seed>;

/// Which node has a number, and the least number that none has. All numbers are below 0xffffffff.
#[derive(Drop)]
pub(crate) struct Phandles {
    holders: Holders,
    first_free: u32,
}

impl Model for Phandles {
    ghost use Rattle.std.specs.Prelude.{◌≡◌, ◌^◌, ◌-◌, None};
    ghost use Rattle.dt_flat.specs.Numbers.{Table, table_of, holder, IsFirstFree};

    ghost Value = { Table };

    ghost view = { λ p. table_of p.holders };

    ghost invariant = { λ p. (holder (table_of p.holders) (2 ^ 32 - 1) ≡ None) × IsFirstFree (table_of p.holders) p.first_free };
}

/// The least number from this one on that no node has.
fn free_from(holders: &Holders, from: u32) -> u32
    requires { holder (table_of holders.now) (2 ^ 32 - 1) ≡ None }
    ensures above { from ≤ result }
    ensures free { holder (table_of holders.now) result ≡ None }
    ensures taken { AreTaken (table_of holders.now) from result }
{
    let mut number = from;
    while holders.contains_key(&number) {
        number += 1;
    }
    number
}

/// Gives a node a number, for which there is room.
fn insert(holders: &mut Holders, number: u32, node: NodeId)
    requires { 0 < spare holders.old }
    ensures { (n : ℕ) → holder (table_of holders.new) n ≡ (if number == n then Some node else holder (table_of holders.old) n) }
{
    if holders.insert(number, node).is_err() {
        unreachable!();
    }
}

impl Phandles {
    /// No node has a number. Takes no memory.
    pub(crate) fn new(alloc: Global, seed: Seed) -> Phandles
        ensures { result.entries ≡ [] }
    {
        Phandles {
            holders: Holders::with_hasher(alloc, seed),
            first_free: 1,
        }
    }

    /// The node that has the number.
    pub(crate) fn holder(&self, number: u32) -> Option<NodeId>
        ensures { result ≡ holder self.now number }
    {
        self.holders.get(&number).copied()
    }

    /// The least number from 1 on that no node has.
    pub(crate) fn first_free(&self) -> u32
        ensures { IsFirstFree self.now result }
    {
        self.first_free
    }

    /// Has no other node the number?
    fn is_free(&self, number: u32, node: NodeId) -> bool
        ensures { IsTrue result ↔ ((i : ℕ) → holder self.now number ≡ Some i → i ≡ node) }
    {
        match self.holder(number) {
            Some(holder) => holder == node,
            None => true,
        }
    }

    /// The number that a value of the property `phandle` gives a node; None where it gives none, or another node has it.
    pub(crate) fn free_number(&self, node: NodeId, value: &[u8]) -> Option<u32>
        ensures may { IsSome result ↔ MayGive self.now node value.now }
        ensures number { IfSome result (λ number. number ≡ from_be_bytes w32 value.now) }
        ensures cell { IfSome result (λ number. value.now ≡ cell number) }
        ensures small { IfSome result (λ number. number < 2 ^ 32 - 1) }
    {
        let number = phandle_of(value)?;
        if !self.is_free(number, node) {
            return None;
        }
        Some(number)
    }

    /// Makes room for one more number.
    pub(crate) fn reserve(&mut self) -> Result<(), AllocError>
        ensures room { OnOk result (0 < self.new.room) }
        ensures same { self.new.entries ≡ self.old.entries }
    {
        self.holders.reserve(1)
    }

    /// Takes a number from its node, if it has one.
    fn take(&mut self, number: u32)
        ensures taken { (n : ℕ) → holder self.new n ≡ without self.old number n }
        ensures room { 0 < self.old.room → 0 < self.new.room }
    {
        self.holders.swap_remove(&number);
        if 0 < number && number < self.first_free {
            self.first_free = number;
        }
    }

    /// Gives a node a number that no other node has.
    fn put(&mut self, number: u32, node: NodeId)
        requires room { 0 < self.old.room }
        requires small { number < 2 ^ 32 - 1 }
        ensures { (n : ℕ) → holder self.new n ≡ (if n == number then Some node else holder self.old n) }
    {
        insert(&mut self.holders, number, node);
        if number == self.first_free {
            self.first_free = free_from(&self.holders, number + 1);
        }
    }

    /// Gives a node a number in the place of the one before. No node has the number yet, or this node has it.
    pub(crate) fn give(&mut self, before: Option<u32>, number: u32, node: NodeId)
        requires room { 0 < self.old.room }
        requires small { number < 2 ^ 32 - 1 }
        ensures { (n : ℕ) → holder self.new n ≡ given self.old before number node n }
    {
        match before {
            Some(before) if before != number => self.take(before),
            _ => {}
        }
        self.put(number, node);
    }
}
