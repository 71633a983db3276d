//! The names of new fragments: `fragment@N`, with the first numbers whose names the source writes for no child of the root.

ghost use Rattle.std.specs.Prelude.{◌≡◌, ℕ, ◌+◌, ◌^◌, ◌<◌, ◌∷◌, [], ◌++◌, ◌||◌, length, map, None, IfSome, IfOk, OnOk};
ghost use Rattle.std.specs.Str.{bytes_eq};
ghost use Rattle.dt_model.specs.Names.{Name};
ghost use Rattle.dt_model.specs.OverlaySource.{root_children, fragment_name, free_from};
ghost use Rattle.dt_model.specs.Source.{is_among};
ghost use Rattle.dt_source_items.specs.Said.{place_said};
ghost use Rattle.dt_source_fragments.specs.FragmentNames.{borrowed, depth_behind, has_name, made_names, root_child, texts, IsSetOf};

use dt_names::Seed;
use dt_source_items::{Item, Items};
use itoa::Buffer;
use std::alloc::{AllocError, Global};
use std::collections::HashSet;
use std::marker::Model;

/// How many bodies are open inside a `/ { }` block behind an item, where so many are open before it, if one is open.
fn depth_behind(item: &Item<'_>, depth: Option<usize>) -> Option<usize>
    requires { IfSome depth (λ d. d + 1 < 2 ^ 64) }
    ensures { result ≡ depth_behind (place_said item.now) depth }
{
    match item {
        Item::Root => Some(0),
        Item::Child(_) => Some(depth? + 1),
        Item::Close => depth?.checked_sub(1),
        _ => depth,
    }
}

/// Adds the name of the child of the root that an item opens, if it opens one.
fn add_root_child<'a>(
    names: &mut Vec<&'a [u8]>,
    item: &Item<'a>,
    depth: Option<usize>,
) -> Result<(), AllocError>
    ensures { OnOk result (borrowed names.new.items ≡ borrowed names.old.items ++ root_child (place_said item.now) depth) }
{
    if let Item::Child(name) = item
        && let Some(0) = depth
    {
        names.push(name.as_bytes())?;
    }
    Ok(())
}

/// The children of the root that `/ { }` blocks open.
fn root_children<'a>(alloc: Global, items: &'a Items<'a>) -> Result<Vec<&'a [u8]>, AllocError>
    ensures { IfOk result (λ names. borrowed names.items ≡ root_children None items.now.places) }
{
    let mut names = Vec::new(alloc);
    let mut depth = None;
    for index in 0..items.len() {
        let item = items.get(index);
        add_root_child(&mut names, &item, depth)?;
        depth = depth_behind(&item, depth);
    }
    Ok(names)
}

/// One more name.
fn add_name<'a>(names: &mut HashSet<&'a [u8], Seed>, name: &'a [u8]) -> Result<(), AllocError>
    ensures { OnOk result ((x : Name) → has_name names.new x ≡ (bytes_eq x name.now || has_name names.old x)) }
{
    names.insert(name)?;
    Ok(())
}

/// The names as a set.
fn hashed<'a>(
    alloc: Global,
    seed: Seed,
    names: &[&'a [u8]],
) -> Result<HashSet<&'a [u8], Seed>, AllocError>
    ensures { IfOk result (IsSetOf (borrowed names.now)) }
{
    let mut hashed = HashSet::with_hasher(alloc, seed);
    for name in names {
        add_name(&mut hashed, name)?;
    }
    Ok(hashed)
}

/// The text `fragment@N`.
fn fragment_name(alloc: Global, number: u128) -> Result<Vec<u8>, AllocError>
    ensures { IfOk result (λ name. name.items ≡ fragment_name number) }
{
    let mut name = Vec::from_slice(alloc, b"fragment@")?;
    let mut buffer = Buffer::new();
    name.extend_from_slice(buffer.format(number).as_bytes())?;
    Ok(name)
}

/// The names of the root's children that a source writes, which no new fragment gets.
#[derive(Drop)]
struct Written<'a> {
    names: Vec<&'a [u8]>,
    hashed: HashSet<&'a [u8], Seed>,
}

impl<'a> Model for Written<'a> {
    ghost use Rattle.std.specs.Prelude.{List};
    ghost use Rattle.dt_model.specs.Names.{Name};
    ghost use Rattle.dt_source_fragments.specs.FragmentNames.{borrowed, IsSetOf};

    ghost Value = { List Name };

    ghost view = { λ w. borrowed w.names.items };

    ghost invariant = { λ w. IsSetOf (borrowed w.names.items) w.hashed };
}

impl<'a> Written<'a> {
    fn new(alloc: Global, seed: Seed, items: &'a Items<'a>) -> Result<Written<'a>, AllocError>
        ensures names { IfOk result (λ written. written ≡ root_children None items.now.places) }
        ensures few { IfOk result (λ written. length written < 2 ^ 64) }
    {
        let names = root_children(alloc, items)?;
        let hashed = hashed(alloc, seed, &names)?;
        Ok(Written { names, hashed })
    }

    fn len(&self) -> usize
        ensures { result ≡ length self.now }
    {
        self.names.len()
    }

    fn has(&self, name: &[u8]) -> bool
        ensures { result ≡ is_among name.now self.now }
    {
        self.hashed.contains(name)
    }

    /// Whether the name of a new fragment with this number is one of them.
    fn has_number(&self, alloc: Global, number: u128) -> Result<bool, AllocError>
        ensures { IfOk result (λ has. has ≡ is_among (fragment_name number) self.now) }
    {
        let name = fragment_name(alloc, number)?;
        Ok(self.has(&name))
    }

    /// The first number from `next` on whose name isn't one of them.
    fn free_from(&self, alloc: Global, next: u128) -> Result<u128, AllocError>
        requires { next + length self.now < 2 ^ 128 }
        ensures { IfOk result (λ number. number ≡ free_from self.now (length self.now) next) }
    {
        // No more numbers than there are names can be taken.
        let last = next + self.len() as u128;
        for number in next..last {
            if !self.has_number(alloc, number)? {
                return Ok(number);
            }
        }
        Ok(last)
    }

    /// Adds the name of the next new fragment, and answers the number behind its own.
    fn add_next(
        &self,
        alloc: Global,
        names: &mut Vec<Vec<u8>>,
        next: u128,
    ) -> Result<u128, AllocError>
        requires { next + length self.now + 1 < 2 ^ 128 }
        ensures name { OnOk result (texts names.new.items
            ≡ texts names.old.items ++ fragment_name (free_from self.now (length self.now) next) ∷ []) }
        ensures next { IfOk result (λ number. number ≡ free_from self.now (length self.now) next + 1) }
    {
        let number = self.free_from(alloc, next)?;
        names.push(fragment_name(alloc, number)?)?;
        Ok(number + 1)
    }

    /// The names that so many new fragments get.
    fn made_names(&self, alloc: Global, count: usize) -> Result<Vec<Vec<u8>>, AllocError>
        requires { length self.now < 2 ^ 64 }
        ensures { IfOk result (λ names. texts names.items ≡ made_names self.now count 0) }
    {
        let mut names = Vec::new(alloc);
        // Each fragment passes over no more numbers than there are names, so 128 bits are enough.
        let mut next = 0;
        for _ in 0..count {
            next = self.add_next(alloc, &mut names, next)?;
        }
        Ok(names)
    }
}

/// The names that so many new fragments get, in the order in which they get them. The names of the items are hashed behind the seed.
pub fn fragment_names<'a>(
    alloc: Global,
    seed: Seed,
    items: &'a Items<'a>,
    count: usize,
) -> Result<Vec<Vec<u8>>, AllocError>
    ensures { IfOk result (λ names. texts names.items ≡ made_names (root_children None items.now.places) count 0) }
{
    let written = Written::new(alloc, seed, items)?;
    written.made_names(alloc, count)
}
