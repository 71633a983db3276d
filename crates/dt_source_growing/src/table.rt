//! Tables that borrow the names that they are asked for.

ghost use Rattle.std.specs.Prelude.{◌≡◌, ◌==◌, ◌<◌, ◌≤◌, ◌^◌, ℕ, [], false, None, IsTrue, MatchOption, IfOk, OnOk, OnErr, if◌then◌else◌, length};
ghost use Rattle.dt_source_growing.specs.Table.{entry, Puts, name_entry, PutsName, span_at, LieIn, IsFirstOf, HasRoom, longer};

use dt_names::{NameKey, Seed};
use std::alloc::{AllocError, Global};
use std::collections::HashMap;
use std::marker::Model;

/// The thing that was last made of an owner and a name, and the item that last made it or met it again.
#[derive(Clone, Copy)]
pub struct Last {
    pub index: usize,
    pub item: usize,
}

/// An owner, a name, and what was last made of them.
type Entry<'a> = ((usize, NameKey<'a>), Last);

/// The entries that are hashed.
type Hashed<'a> = HashMap<(usize, NameKey<'a>), Last, Seed>;

/// Where the entries of an owner lie, and whether others of it are hashed.
#[derive(Clone, Copy)]
pub(crate) struct Span {
    first: usize,
    behind: usize,
    spills: bool,
}

const EMPTY: Span = Span {
    first: 0,
    behind: 0,
    spills: false,
};

/// Of an owner at most so many entries lie side by side. To look through as many costs less than a hash.
const FEW: usize = 16;

/// From the index of an owner and a name to what was last made of them. Most owners get few entries, one after another: these lie side by
/// side and are looked through. The others are hashed.
#[derive(Drop)]
pub struct Table<'a> {
    rows: Vec<Entry<'a>>,
    spans: Vec<Span>,
    hashed: Hashed<'a>,
}

impl<'a> Model for Table<'a> {
    ghost use Rattle.std.specs.Prelude.{List, ◌++◌};
    ghost use Rattle.dt_source_growing.specs.Table.{Key, AreSpans};
    ghost use Rattle.dt_source_growing.specs.declared.table.Last.{Last};

    ghost Value = { List (Key × Last) };

    ghost view = { λ t. t.rows.items ++ t.hashed.entries };

    ghost invariant = { λ t. AreSpans t.rows.items t.spans.items t.hashed.entries };
}

/// From a name to an index.
#[derive(Drop)]
pub struct NameTable<'a> {
    pub map: HashMap<NameKey<'a>, usize, Seed>,
}

/// Where the entries of an owner lie.
fn span_of(spans: &[Span], owner: usize) -> Span
    ensures { result ≡ span_at spans.now owner }
{
    if owner < spans.len() {
        spans[owner]
    } else {
        EMPTY
    }
}

/// Notes where the entries of an owner lie. Only an owner behind all that were noted takes memory.
fn set_span(spans: &mut Vec<Span>, owner: usize, span: Span) -> Result<(), AllocError>
    ensures ok { OnOk result ((i : ℕ) → span_at spans.new.items i ≡ (if owner == i then span else span_at spans.old.items i)) }
    ensures err { OnErr result ((i : ℕ) → span_at spans.new.items i ≡ span_at spans.old.items i) }
    ensures absent { OnErr result ((span_at spans.old.items owner).spills ≡ false) }
{
    while spans.len() <= owner {
        spans.push(EMPTY)?;
    }
    spans[owner] = span;
    Ok(())
}

/// The place of the first row of an owner and a name, whose rows lie in this span.
fn seek(rows: &[Entry<'_>], span: Span, owner: usize, name: &[u8]) -> Option<usize>
    requires ends { span.behind ≤ length rows.now }
    requires within { LieIn rows.now owner span }
    ensures { MatchOption result (entry rows.now owner name.now ≡ None) (IsFirstOf rows.now owner name.now) }
{
    let mut place = span.first;
    while place < span.behind {
        let key = &rows[place].0;
        if key.0 == owner && key.1.bytes == name {
            return Some(place);
        }
        place += 1;
    }
    None
}

/// Puts what was last made of an owner and a name among the hashed entries, and answers what was there. Few entries come here, so the others
/// don't pay for what a hash needs.
#[inline(never)]
fn replace_hashed<'a>(
    hashed: &mut Hashed<'a>,
    owner: usize,
    name: &'a [u8],
    last: Last,
) -> Result<Option<Last>, AllocError>
    ensures before { IfOk result (λ before. before ≡ entry hashed.old.entries owner name.now) }
    ensures ok { OnOk result (Puts hashed.old.entries hashed.new.entries owner name.now last) }
    ensures err { OnErr result (hashed.new.entries ≡ hashed.old.entries) }
    ensures absent { OnErr result (entry hashed.old.entries owner name.now ≡ None) }
{
    let before = hashed.insert((owner, NameKey { bytes: name }), last)?;
    Ok(before)
}

/// Whether one more row of an owner may come behind all rows: it has none, or few, and the last row is one of them.
fn has_room(span: Span, rows: usize) -> bool
    ensures { IsTrue result → HasRoom span rows }
{
    if span.spills {
        return false;
    }
    span.first == span.behind || (span.behind == rows && rows.saturating_sub(span.first) < FEW)
}

/// Where the rows of an owner lie with one more row behind all rows.
fn longer(span: Span, rows: usize) -> Span
    requires { rows < 2 ^ 63 }
    ensures { result ≡ longer span rows }
{
    let first = if span.first == span.behind {
        rows
    } else {
        span.first
    };
    Span {
        first,
        behind: rows + 1,
        spills: false,
    }
}

impl<'a> Table<'a> {
    /// An empty table, with room for so many entries.
    pub fn with_capacity(alloc: Global, seed: Seed, room: usize) -> Result<Self, AllocError>
        ensures { IfOk result (λ table. table ≡ []) }
    {
        let rows = Vec::with_capacity(alloc, room)?;
        Ok(Table {
            rows,
            spans: Vec::new(alloc),
            hashed: HashMap::with_hasher(alloc, seed),
        })
    }

    /// What was last made of an owner and a name.
    pub fn get(&self, owner: usize, name: &[u8]) -> Option<Last>
        ensures { result ≡ entry self.now owner name.now }
    {
        let span = span_of(&self.spans, owner);
        if let Some(place) = seek(&self.rows, span, owner, name) {
            return Some(self.rows[place].1);
        }
        if !span.spills {
            return None;
        }
        self.hashed.get(&(owner, NameKey { bytes: name })).copied()
    }

    /// Puts what was last made of an owner and a name, and answers what was before it. Only a new one takes memory.
    pub fn replace(
        &mut self,
        owner: usize,
        name: &'a [u8],
        last: Last,
    ) -> Result<Option<Last>, AllocError>
        ensures before { IfOk result (λ before. before ≡ entry self.old owner name.now) }
        ensures ok { OnOk result (Puts self.old self.new owner name.now last) }
        ensures err { OnErr result (self.new ≡ self.old) }
        ensures absent { OnErr result (entry self.old owner name.now ≡ None) }
    {
        let span = span_of(&self.spans, owner);
        if let Some(place) = seek(&self.rows, span, owner, name) {
            let before = self.rows[place].1;
            self.rows[place].1 = last;
            return Ok(Some(before));
        }
        if has_room(span, self.rows.len()) {
            self.rows.reserve(1)?;
            set_span(&mut self.spans, owner, longer(span, self.rows.len()))?;
            self.rows
                .push_reserved(((owner, NameKey { bytes: name }), last));
            return Ok(None);
        }
        let spilled = Span {
            first: span.first,
            behind: span.behind,
            spills: true,
        };
        set_span(&mut self.spans, owner, spilled)?;
        let before = replace_hashed(&mut self.hashed, owner, name, last)?;
        Ok(before)
    }
}

impl<'a> NameTable<'a> {
    /// An empty table, whose names will be hashed behind a seed. Takes no memory.
    pub fn new(alloc: Global, seed: Seed) -> Self
        ensures { result.map.entries ≡ [] }
    {
        NameTable {
            map: HashMap::with_hasher(alloc, seed),
        }
    }

    /// The index of a name.
    pub fn get(&self, name: &[u8]) -> Option<usize>
        ensures { result ≡ name_entry self.now.map.entries name.now }
    {
        self.map.get(&NameKey { bytes: name }).copied()
    }

    /// Gives a name this index, in the place of the one before.
    pub fn put(&mut self, name: &'a [u8], value: usize) -> Result<(), AllocError>
        ensures ok { OnOk result (PutsName self.old.map.entries self.new.map.entries name.now value) }
        ensures err { OnErr result (self.new.map.entries ≡ self.old.map.entries) }
    {
        self.map.insert(NameKey { bytes: name }, value)?;
        Ok(())
    }
}
