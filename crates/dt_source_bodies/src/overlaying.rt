//! Reading the items of an overlay's source, one after another (dtc's notes on overlay objects).

ghost use Rattle.std.specs.Prelude.{◌≡◌, ◌≤◌, ◌<◌, ◌+◌, ◌^◌, ℕ, not, length, map, cond, Ok, OnOk, MatchResult};
ghost use Rattle.std.specs.List.{list_any};
ghost use Rattle.dt_model.specs.OverlaySource.{OverlaySoFar, is_overlay_part, overlay_start};
ghost use Rattle.dt_model.specs.Source.{block, property, by_label, nothing};
ghost use Rattle.dt_source_items.specs.Said.{place_said, reference_of, referring, value_said};
ghost use Rattle.dt_source_bodies.specs.Arena.{IsArena, IsSomeLeft, ItemFollows, all_overlay};
ghost use Rattle.dt_source_growing.specs.Grown.{IsGrown};
ghost use Rattle.dt_source_bodies.specs.Reading.{Holds, IsWhole};
ghost use Rattle.dt_source_bodies.specs.OverlayReading.{OverlayFollows, TellsOverlayRefusal, BlockFollows, IsNoBlock};

use crate::arena::Arena;
use crate::reading::{Mode, Reading};
use dt_names::{Fault, FaultKind, Seed};
use dt_source_growing::{Growing, PropertyValue};
use dt_source_items::{Form, Item, Items, Piece, Reference, Value};
use std::alloc::{AllocError, Global};

/// Whether a piece ends with a reference by a label in a cell list.
fn is_overlay_piece(piece: &Piece<'_>) -> bool
    ensures { result ≡ is_overlay_part (referring piece.now.form (reference_of piece.now.reference)) }
{
    match piece.form {
        Form::Text => false,
        Form::Cell => match piece.reference {
            Reference::Label(_) => true,
            Reference::Path(_) => false,
        },
    }
}

/// Whether each reference of a value is by a label in a cell list.
fn is_overlay_value(value: Value<'_>) -> bool
    ensures { result ≡ not (list_any (λ x. not (is_overlay_part x)) (value_said value.entry)) }
{
    for piece in value.pieces {
        if !is_overlay_piece(piece) {
            return false;
        }
    }
    true
}

impl<'s, 'a: 's> Reading<'s, 'a> {
    /// The root is there from the start.
    fn begin(&mut self) -> Result<(), AllocError>
        requires whole { IsWhole self.old }
        requires nothing { Holds self.old 0 nothing }
        ensures meaning { OnOk result (Holds self.new 0 overlay_start.source) }
        ensures whole { OnOk result (IsWhole self.new) }
        ensures rooted { OnOk result (0 < length self.new.growing.nodes.items) }
    {
        self.growing.open_root()?;
        Ok(())
    }

    /// A block by a label: of the node that the source gave it to, or else of some other tree's.
    fn labelled_block(
        &mut self,
        item: usize,
        reference: &'a Reference<'a>,
        label: &[u8],
        name: &'s [u8],
    ) -> Result<bool, Fault>
        requires whole { IsWhole self.old }
        requires rooted { 0 < length self.old.growing.nodes.items }
        requires labelled { reference_of reference.now ≡ by_label label.now }
        ensures meaning { BlockFollows self.old self.new item (reference_of reference.now) name.now result }
        ensures whole { OnOk result (IsWhole self.new) }
        ensures rooted { OnOk result (0 < length self.new.growing.nodes.items) }
    {
        match self.growing.labelled(label) {
            Some(_) => {
                self.block(item, reference)?;
                Ok(false)
            }
            None => {
                self.open_fragment(item, name, b"target", PropertyValue::Target(reference))?;
                Ok(true)
            }
        }
    }

    /// A block. Whether it opens a new fragment, which has this name, and this target.
    pub fn overlay_block(
        &mut self,
        item: usize,
        reference: &'a Reference<'a>,
        name: &'s [u8],
    ) -> Result<bool, Fault>
        requires whole { IsWhole self.old }
        requires rooted { 0 < length self.old.growing.nodes.items }
        ensures meaning { BlockFollows self.old self.new item (reference_of reference.now) name.now result }
        ensures whole { OnOk result (IsWhole self.new) }
        ensures rooted { OnOk result (0 < length self.new.growing.nodes.items) }
    {
        match reference {
            Reference::Label(label) => {
                self.labelled_block(item, reference, label.as_bytes(), name)
            }
            Reference::Path(_) => {
                self.open_fragment(item, name, b"target-path", PropertyValue::Target(reference))?;
                Ok(true)
            }
        }
    }

    fn overlay_define(&mut self, item: usize, name: &'a [u8], value: Value<'a>) -> Result<(), Fault>
        requires { IsWhole self.old }
        ensures meaning { OverlayFollows self.old self.new item (property name.now (value_said value.entry)) result }
        ensures whole { OnOk result (IsWhole self.new) }
        ensures grown { OnOk result (length self.old.growing.nodes.items ≤ length self.new.growing.nodes.items) }
    {
        if name == b"phandle".as_slice() {
            return Err(Fault::of(FaultKind::OverlayPhandle));
        }
        if !is_overlay_value(value) {
            return Err(Fault::of(FaultKind::OverlayPathReference));
        }
        self.define(item, name, PropertyValue::Written(value))
    }

    /// An item that isn't a block by a reference.
    pub fn overlay_step(&mut self, item: usize, next: Item<'a>) -> Result<(), Fault>
        requires whole { IsWhole self.old }
        requires no_block { IsNoBlock (place_said next) }
        ensures meaning { OverlayFollows self.old self.new item (place_said next.entry) result }
        ensures whole { OnOk result (IsWhole self.new) }
        ensures grown { OnOk result (length self.old.growing.nodes.items ≤ length self.new.growing.nodes.items) }
    {
        match next {
            Item::Root => self.root(item),
            Item::Child(name) => self.child(Mode::Base, item, name.as_bytes()),
            Item::Label(label) => self.label(label.as_bytes()),
            Item::Property(name, value) => self.overlay_define(item, name.as_bytes(), value),
            Item::Close => self.close(),
            _ => Err(Fault::of(FaultKind::OverlayDelete)),
        }
    }

    /// A block, with the next name.
    fn block_item(
        &mut self,
        item: usize,
        reference: &'a Reference<'a>,
        arena: &'s Arena,
        used: usize,
    ) -> Result<usize, Fault>
        requires whole { IsWhole self.old }
        requires rooted { 0 < length self.old.growing.nodes.items }
        requires left { IsSomeLeft arena.now used (block (reference_of reference.now)) }
        ensures meaning { ItemFollows self.old self.new item (block (reference_of reference.now)) arena.now used result }
        ensures whole { OnOk result (IsWhole self.new) }
        ensures rooted { OnOk result (0 < length self.new.growing.nodes.items) }
    {
        let name = &arena.names[used];
        let made = self.overlay_block(item, reference, name)?;
        Ok(used_more(used, made))
    }

    /// The next item, which has this number. One that isn't a block uses nothing.
    fn overlay_item(
        &mut self,
        item: usize,
        next: Item<'a>,
        arena: &'s Arena,
        used: usize,
    ) -> Result<usize, Fault>
        requires whole { IsWhole self.old }
        requires rooted { 0 < length self.old.growing.nodes.items }
        requires left { IsSomeLeft arena.now used (place_said next) }
        ensures meaning { ItemFollows self.old self.new item (place_said next.entry) arena.now used result }
        ensures whole { OnOk result (IsWhole self.new) }
        ensures rooted { OnOk result (0 < length self.new.growing.nodes.items) }
    {
        match next {
            Item::Block(reference) => self.block_item(item, reference, arena, used),
            _ => {
                self.overlay_step(item, next)?;
                Ok(used)
            }
        }
    }
}

/// Perhaps one more fragment was opened.
fn used_more(used: usize, made: bool) -> usize
    requires { used + 1 < 2 ^ 64 }
    ensures { result ≡ cond made (used + 1) used }
{
    if made { used + 1 } else { used }
}

/// Reads items from the first on.
fn read_overlay_items<'s, 'a: 's>(
    reading: &mut Reading<'s, 'a>,
    items: &'a Items<'a>,
    arena: &'s Arena,
) -> Result<(), Fault>
    requires whole { IsWhole reading.old }
    requires rooted { 0 < length reading.old.growing.nodes.items }
    requires start { Holds reading.old 0 overlay_start.source }
    requires arena { IsArena items.now.places arena.now }
    ensures { MatchResult result
        (λ _. IsWhole reading.new × (s : OverlaySoFar) × (all_overlay items.now.places ≡ Ok s) × Holds reading.new (length items.now.places) s.source)
        (TellsOverlayRefusal (all_overlay items.now.places)) }
{
    let mut used = 0;
    for item in 0..items.len() {
        used = reading.overlay_item(item, items.get(item), arena, used)?;
    }
    Ok(())
}

/// The tree that the items of an overlay's source grow; or the first refusal: what a base's item may be refused for; a deletion
/// (OverlayDelete), a property `phandle` (OverlayPhandle), a reference by a path or outside a cell list (OverlayPathReference);
/// or want of memory (NoMemory). No fault has a place.
pub fn grow_overlay<'s, 'a: 's>(
    alloc: Global,
    seed: Seed,
    items: &'a Items<'a>,
    arena: &'s Arena,
) -> Result<Growing<'s, 'a>, Fault>
    requires { IsArena items.now.places arena.now }
    ensures { MatchResult result
        (λ g. (s : OverlaySoFar) × (all_overlay items.now.places ≡ Ok s)
        × IsGrown g.nodes.items g.properties.items g.givings.items s.source.events)
        (TellsOverlayRefusal (all_overlay items.now.places)) }
{
    let mut reading = Reading::new(alloc, seed, items)?;
    reading.begin()?;
    read_overlay_items(&mut reading, items, arena)?;
    let Reading { growing, bodies: _ } = reading;
    Ok(growing)
}
