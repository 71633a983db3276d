//! Things that belong to owners, in the order in which they came.

ghost use Rattle.std.specs.Prelude.{◌≡◌, ◌↔◌, ◌==◌, ◌<◌, ◌≤◌, ◌+◌, ◌-◌, ◌++◌, ◌∷◌, ℕ};
ghost use Rattle.std.specs.Prelude.{[], length, vec_len, vec_capacity, slice_index, drop, if◌then◌else◌, OnOk, OnErr, MatchOption};
ghost use Rattle.dt_flat.specs.Chain.{ranks, first_rank, ends_at, ends_with, mark};

use std::alloc::{AllocError, Global};
use std::marker::Model;

/// A thing: its owner, and the rank of the next thing of that owner, or 0.
#[derive(Clone, Copy)]
pub(crate) struct Link {
    owner: usize,
    next: usize,
}

/// The ranks of an owner's first thing and of its last, or 0.
#[derive(Clone, Copy)]
pub(crate) struct Ends {
    first: usize,
    last: usize,
}

/// The owners of things, in order. The rank of a thing is one more than its place.
#[derive(Drop)]
pub(crate) struct Chain {
    links: Vec<Link>,
    ends: Vec<Ends>,
}

impl Model for Chain {
    ghost use Rattle.std.specs.Prelude.{List, ℕ};
    ghost use Rattle.dt_flat.specs.Chain.{owners_kept, IsLinked};

    ghost Value = { List ℕ };

    ghost view = { λ c. owners_kept c.links.items };

    ghost invariant = { λ c. IsLinked c.links.items c.ends.items };
}

/// Makes room for the ends of an owner, which has no thing yet where there was none.
fn make_ends(ends: &mut Vec<Ends>, owner: usize) -> Result<(), AllocError>
    ensures ok { OnOk result (owner < vec_len ends.new) }
    ensures same { (p : ℕ) → ends_at ends.new.items p ≡ ends_at ends.old.items p }
{
    while ends.len() <= owner {
        ends.push(Ends { first: 0, last: 0 })?;
    }
    Ok(())
}

/// The thing of this rank comes behind the owner's last.
fn note(links: &mut Vec<Link>, ends: &mut Vec<Ends>, owner: usize, rank: usize)
    requires owner { owner < vec_len ends.old }
    requires last { (ends_at ends.old.items owner).last ≤ vec_len links.old }
    requires alike { ((ends_at ends.old.items owner).first ≡ 0) ↔ ((ends_at ends.old.items owner).last ≡ 0) }
    ensures links { links.new.items ≡ mark 1 links.old.items (ends_at ends.old.items owner).last rank }
    ensures count { vec_len links.new ≡ vec_len links.old }
    ensures room { vec_capacity links.new ≡ vec_capacity links.old }
    ensures ends { (p : ℕ) → ends_at ends.new.items p ≡
        (if owner == p then ends_with (ends_at ends.old.items p) rank else ends_at ends.old.items p) }
{
    let Ends { first, last } = ends[owner];
    if first == 0 {
        ends[owner] = Ends {
            first: rank,
            last: rank,
        };
    } else {
        links[last - 1].next = rank;
        ends[owner] = Ends { first, last: rank };
    }
}

impl Chain {
    /// No things yet. Takes no memory.
    pub fn new(alloc: Global) -> Self
        ensures { result ≡ [] }
    {
        Chain {
            links: Vec::new(alloc),
            ends: Vec::new(alloc),
        }
    }

    /// Makes room for so many things more, and for the ends of so many owners.
    pub fn reserve(&mut self, owners: usize, things: usize) -> Result<(), AllocError>
        ensures { self.new ≡ self.old }
    {
        self.links.reserve(things)?;
        self.ends.reserve(owners)
    }

    /// Adds a thing of an owner at the end.
    pub fn push(&mut self, owner: usize) -> Result<(), AllocError>
        ensures ok { OnOk result (self.new ≡ self.old ++ owner ∷ []) }
        ensures err { OnErr result (self.new ≡ self.old) }
    {
        self.links.reserve(1)?;
        make_ends(&mut self.ends, owner)?;
        let rank = self.links.len() + 1;
        note(&mut self.links, &mut self.ends, owner, rank);
        self.links.push_reserved(Link { owner, next: 0 });
        Ok(())
    }

    /// The rank of an owner's first thing, 0 where it has none.
    pub fn first(&self, owner: usize) -> usize
        ensures { result ≡ first_rank 1 self.now owner }
    {
        if owner < self.ends.len() {
            self.ends[owner].first
        } else {
            0
        }
    }

    /// The rank of the next thing of its owner behind that of a rank, 0 where there is none.
    pub fn next(&self, rank: usize) -> usize
        requires { (0 < rank) × (rank ≤ length self.now) }
        ensures { result ≡ first_rank (rank + 1) (drop rank self.now) (slice_index self.now (rank - 1)) }
    {
        self.links[rank - 1].next
    }

    /// The ranks of an owner's things, in order.
    pub fn of(&self, owner: usize) -> Ranks<'_>
        ensures { result ≡ ranks 1 self.now owner }
    {
        Ranks {
            chain: self,
            rank: self.first(owner),
        }
    }
}

/// The ranks of things of one owner, in order. It is seen as those that are left.
#[derive(Drop)]
pub(crate) struct Ranks<'a> {
    chain: &'a Chain,
    rank: usize,
}

impl<'a> Model for Ranks<'a> {
    ghost use Rattle.std.specs.Prelude.{List, ℕ, ◌≤◌, length};
    ghost use Rattle.dt_flat.specs.Chain.{ranks_left};

    ghost Value = { List ℕ };

    ghost view = { λ r. ranks_left r.chain.now r.rank };

    ghost invariant = { λ r. r.rank ≤ length r.chain.now };
}

impl<'a> Ranks<'a> {
    /// The next rank.
    pub fn step(&mut self) -> Option<usize>
        ensures { MatchOption result ((self.old ≡ []) × (self.new ≡ [])) (λ rank. self.old ≡ rank ∷ self.new) }
    {
        if self.rank == 0 {
            return None;
        }
        let rank = self.rank;
        self.rank = self.chain.next(rank);
        Some(rank)
    }
}
