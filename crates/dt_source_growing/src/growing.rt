//! A tree under construction: nodes, properties and labels in the order in which they were met.

ghost use Rattle.std.specs.Prelude.{◌≡◌};
ghost use Rattle.dt_source_growing.specs.Grown.{name_said};
ghost use Rattle.dt_source_growing.specs.Listing.{IsSound};

use crate::table::{NameTable, Table};
use dt_source_items::{Reference, Value};

/// The name of a node: as it is written in the text, or made for a new fragment.
#[derive(Clone, Copy)]
pub enum NameText<'s, 'a> {
    Written(&'a [u8]),
    Made(&'s [u8]),
}

impl<'s, 'a: 's> NameText<'s, 'a> {
    pub fn bytes(self) -> &'s [u8]
        ensures { result.now ≡ name_said self.entry }
    {
        match self {
            NameText::Written(name) => name,
            NameText::Made(name) => name,
        }
    }
}

/// A node. It stands where neither it nor a node above it was deleted.
#[derive(Drop)]
pub struct Node<'s, 'a> {
    pub parent: usize,
    pub name: NameText<'s, 'a>,
    /// Whether it wasn't deleted by itself.
    pub stands: bool,
}

/// What a property holds.
#[derive(Clone, Copy)]
pub enum PropertyValue<'a> {
    /// A value that the source writes.
    Written(Value<'a>),
    /// The target of a new fragment: a cell by its label, or the text of its path and a NUL.
    Target(&'a Reference<'a>),
}

/// A property of a node.
#[derive(Drop)]
pub struct Property<'a> {
    pub node: usize,
    pub name: &'a [u8],
    pub value: PropertyValue<'a>,
    /// Whether it wasn't deleted by itself.
    pub stands: bool,
}

/// A label, and the node to which it was given.
#[derive(Drop)]
pub struct Giving<'a> {
    pub label: &'a [u8],
    pub node: usize,
}

/// Nodes, properties and labels in the order in which they were made, the root first. A node is found by its parent and its
/// name, a property by its node and its name, a label by its bytes; nothing is walked but a path.
#[derive(Drop)]
pub struct Growing<'s, 'a> {
    pub nodes: Vec<Node<'s, 'a>>,
    pub properties: Vec<Property<'a>>,
    pub givings: Vec<Giving<'a>>,
    pub children: Table<'s>,
    pub indices: Table<'a>,
    pub labels: NameTable<'a>,
    /// The tables find what stands, and nothing else.
    ghost sound: { IsSound nodes.items children properties.items indices givings.items labels.map.entries },
}
