//! What the grammar makes of a text: sources, as items in the order of their text.

ghost use Rattle.std.specs.Prelude.{◌≡◌, ◌≢◌, ◌<◌, ℕ, List, MatchOption, drop, length, map};
ghost use Rattle.std.specs.List.{AllByRecursion};
ghost use Rattle.dt_model.specs.Valid.{IsReservation};
ghost use Rattle.dt_model.specs.Source.{IsPlace};
ghost use Rattle.dt_model.specs.Nested.{AreNested};
ghost use Rattle.dt_grammar.specs.Grammar.{SpellsSource};
ghost use Rattle.dt_grammar.specs.Words.{Words};
ghost use Rattle.dt_source_items.specs.Said.{reservation_said, said};
ghost use Rattle.dt_source_items.specs.Spelled.{IsSpelled};

use crate::items::Items;
use dt_grammar::{source_has_places, source_is_nested};
use dt_names::{Label, NodeName, PathRef, PropName, Seed};
use std::marker::Model;

/// A node as a source refers to it: `&label`, or `&{/path}` (Devicetree Specification v0.4, 6.3).
#[derive(Drop)]
pub enum Reference<'a> {
    Label(Label<'a>),
    Path(PathRef<'a>),
}

/// How a reference is written in a value.
#[derive(Clone, Copy, Debug, PartialEq, Eq)]
pub enum Form {
    /// In a cell list: the number of its node, as one cell.
    Cell,
    /// Elsewhere: the text of its node's path, with a NUL.
    Text,
}

/// A reference in a value, and how many bytes of the value come between it and the reference before it, or the value's start.
#[derive(Drop)]
pub struct Piece<'a> {
    pub before: usize,
    pub form: Form,
    pub reference: Reference<'a>,
}

/// The value of a property: its bytes, and the references among them.
#[derive(Clone, Copy)]
pub struct Value<'a> {
    pub pieces: &'a [Piece<'a>],
    pub bytes: &'a [u8],
}

/// A place of a source that says something of the tree (Devicetree Specification v0.4, 6.3).
#[derive(Clone, Copy)]
pub enum Item<'a> {
    /// `/ {`
    Root,
    /// `&label {` or `&{/path} {`
    Block(&'a Reference<'a>),
    /// `/delete-node/ &label;` or `/delete-node/ &{/path};`
    DeleteNode(&'a Reference<'a>),
    /// `name {`
    Child(&'a NodeName<'a>),
    /// `label:`, of the node whose body was just opened.
    Label(&'a Label<'a>),
    /// `name;` or `name = value;`
    Property(&'a PropName<'a>, Value<'a>),
    /// `/delete-property/ name;`
    DeleteProperty(&'a PropName<'a>),
    /// `/delete-node/ name;`
    DeleteChild(&'a NodeName<'a>),
    /// `};`
    Close,
}

/// Memory that is not to be used: its address, and its size in bytes (Devicetree Specification v0.4, 5.3). They aren't both 0.
#[derive(Clone, Copy, Debug, PartialEq, Eq)]
pub struct Reservation {
    pub address: u64,
    pub size: u64,
}

/// What a text says in the grammar of DTS version 1 (Devicetree Specification v0.4, chapter 6): whether it is an overlay's,
/// its reservations, and its items in the order of its text. It is always one that some tokens spell: bodies are closed, and
/// stand inside 64 others at most; in a body the properties stand before the children; there is a statement.
#[derive(Drop)]
pub struct Source<'a> {
    seed: Seed,
    plugin: bool,
    reservations: Vec<Reservation>,
    items: Items<'a>,
}

impl<'a> Model for Source<'a> {
    ghost use Rattle.dt_grammar.specs.Grammar.{Says};
    ghost use Rattle.dt_source_items.specs.Said.{said};
    ghost use Rattle.dt_source_items.specs.Spelled.{IsSpelled};

    ghost Value = { Says };

    ghost view = { λ s. said s.plugin s.reservations.items s.items.places };

    ghost invariant = { λ s. IsSpelled (said s.plugin s.reservations.items s.items.places) };
}

impl<'a> Source<'a> {
    /// What was read of some tokens, with the seed of its names and numbers.
    pub fn of(
        seed: Seed,
        plugin: bool,
        reservations: Vec<Reservation>,
        items: Items<'a>,
    ) -> Source<'a>
        requires { IsSpelled (said plugin reservations.items items.places) }
        ensures { result ≡ said plugin reservations.items items.entry.places }
    {
        Source {
            seed,
            plugin,
            reservations,
            items,
        }
    }

    /// What the names and the numbers of the text are hashed behind.
    pub fn seed(&self) -> Seed {
        self.seed
    }

    /// Names and numbers of one more input will come among those of the text.
    pub fn add_seed(&mut self, other: Seed)
        ensures { self.new ≡ self.old }
    {
        self.seed = self.seed.with(other);
    }

    /// What is true of each source: some tokens spell it; what its places name are names, and their bytes are bytes; they are
    /// well nested, and there is one at least; its reservations are ones. Does nothing.
    pub fn spelled(&self)
        ensures spelled { (ws : Words) × SpellsSource ws self.now }
        ensures places { AllByRecursion IsPlace self.now.places }
        ensures nested { AreNested 0 self.now.places }
        ensures reservations { AllByRecursion IsReservation self.now.reservations }
        ensures some { 0 < length self.now.places }
    {
        // The invariant says it, and it is known where a field is named.
        let _ = &self.items;
        source_is_nested();
        source_has_places();
    }

    /// Whether it is an overlay's: `/plugin/;` follows `/dts-v1/;`.
    pub fn is_overlay(&self) -> bool
        ensures { result ≡ self.now.plugin }
    {
        self.plugin
    }

    /// The reservations, in the order of the text.
    pub fn reservations(&self) -> &[Reservation]
        ensures { map reservation_said result.now ≡ self.now.reservations }
    {
        &self.reservations
    }

    /// The items, in the order of the text.
    pub fn items(&self) -> &Items<'a>
        ensures { result.now.places ≡ self.now.places }
    {
        &self.items
    }
}
