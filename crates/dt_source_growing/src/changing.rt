//! How a tree under construction changes.

ghost use Rattle.std.specs.Prelude.{◌≡◌, ◌<◌, ◌≤◌, ◌⊎◌, [], true, length, slice_set, Some, None, IfOk, OnOk, option_map};
ghost use Rattle.dt_model.specs.Event.{Stack};
ghost use Rattle.dt_source_growing.specs.Shape.{given_at, MakesRoot, AddsChild, OpensChild, Cuts, Defines, Undefines, Gives};
ghost use Rattle.dt_source_growing.specs.Grown.{name_said, value_held};
ghost use Rattle.dt_source_growing.specs.Growing.{shape, standing, nodes_listed, properties_listed};

use crate::growing::{Giving, Growing, NameText, Node, Property, PropertyValue};
use crate::table::{Last, NameTable, Table};
use dt_names::Seed;
use dt_source_items::{Item, Items};
use std::alloc::{AllocError, Global};

/// Room is made at once for no more things of a kind than this: most of a text that has more may be refused.
const MOST_ROOM: usize = 65_536;

/// For how many nodes and properties there is to be room.
#[derive(Clone, Copy)]
struct Room {
    nodes: usize,
    properties: usize,
}

/// Room for what the items make: the root, and as many nodes and properties as they open and define, but no more than the most.
fn room_for<'a>(items: &'a Items<'a>) -> Room
    ensures { (result.nodes ≤ 65536) × (result.properties ≤ 65536) }
{
    let mut nodes = 0usize;
    let mut properties = 0usize;
    for index in 0..items.len() {
        match items.get(index) {
            Item::Child(_) => nodes += 1,
            Item::Property(_, _) => properties += 1,
            _ => {}
        }
    }
    Room {
        nodes: nodes.min(MOST_ROOM - 1) + 1,
        properties: properties.min(MOST_ROOM),
    }
}

/// Puts a thing in the place of another.
fn write<T: Drop>(things: &mut Vec<T>, index: usize, thing: T)
    requires { index < length things.old.items }
    ensures { things.new.items ≡ slice_set things.old.items index thing }
{
    things[index] = thing;
}

/// The node that was last made, where it stands by itself.
fn standing_node(nodes: &[Node<'_, '_>], last: Option<Last>) -> Option<usize>
    ensures { result ≡ standing (λ node. node.stands) nodes.now last }
{
    let last = last?;
    match nodes.get(last.index) {
        Some(node) if node.stands => Some(last.index),
        _ => None,
    }
}

/// The property that was last made, where it stands by itself.
fn standing_property(properties: &[Property<'_>], last: Option<Last>) -> Option<usize>
    ensures { result ≡ standing (λ property. property.stands) properties.now last }
{
    let last = last?;
    match properties.get(last.index) {
        Some(property) if property.stands => Some(last.index),
        _ => None,
    }
}

/// The item that last made something, where one did.
fn item_of(last: Option<Last>) -> Option<usize>
    ensures { result ≡ option_map (λ last. last.item) last }
{
    Some(last?.item)
}

impl<'s, 'a: 's> Growing<'s, 'a> {
    /// No tree yet, with room for what the items make. Names will be hashed behind the seed.
    pub fn new(alloc: Global, seed: Seed, items: &'a Items<'a>) -> Result<Self, AllocError>
        ensures nodes { IfOk result (λ growing. growing.nodes.items ≡ []) }
        ensures properties { IfOk result (λ growing. growing.properties.items ≡ []) }
        ensures givings { IfOk result (λ growing. growing.givings.items ≡ []) }
        ensures children { IfOk result (λ growing. growing.children ≡ []) }
        ensures indices { IfOk result (λ growing. growing.indices ≡ []) }
    {
        let room = room_for(items);
        let nodes = Vec::with_capacity(alloc, room.nodes)?;
        let properties = Vec::with_capacity(alloc, room.properties)?;
        let children = Table::with_capacity(alloc, seed, room.nodes)?;
        let indices = Table::with_capacity(alloc, seed, room.properties)?;
        Ok(Growing {
            nodes,
            properties,
            givings: Vec::new(alloc),
            children,
            indices,
            labels: NameTable::new(alloc, seed),
        })
    }

    /// The child of a name, where one stands.
    pub fn child(&self, parent: usize, name: &[u8]) -> Option<usize>
        ensures { result ≡ (shape self.now).child parent name.now }
    {
        standing_node(&self.nodes, self.children.get(parent, name))
    }

    /// The property of a name, where one stands.
    pub fn property(&self, node: usize, name: &[u8]) -> Option<usize>
        ensures { result ≡ (shape self.now).property node name.now }
    {
        standing_property(&self.properties, self.indices.get(node, name))
    }

    fn make_root(&mut self) -> Result<(), AllocError>
        requires empty { length self.old.nodes.items ≡ 0 }
        ensures made { OnOk result (MakesRoot (shape self.old) (shape self.new)) }
    {
        self.nodes.push(Node {
            parent: 0,
            name: NameText::Written(b""),
            stands: true,
        })?;
        Ok(())
    }

    /// Opens the root, and makes it where there is none.
    pub fn open_root(&mut self) -> Result<(), AllocError>
        ensures opened { OnOk result (MakesRoot (shape self.old) (shape self.new)
            ⊎ ((0 < length self.old.nodes.items) × (self.new ≡ self.old))) }
    {
        if self.nodes.is_empty() {
            self.make_root()
        } else {
            Ok(())
        }
    }

    /// Opens a child by an item, and makes it where none stands. Answers it, and the item that last opened one of the name.
    pub fn open_child(
        &mut self,
        parent: usize,
        name: NameText<'s, 'a>,
        item: usize,
    ) -> Result<(usize, Option<usize>), AllocError>
        requires inside { parent < length self.old.nodes.items }
        ensures opened { IfOk result (λ opened.
            (((shape self.old).child parent (name_said name.entry) ≡ None) × AddsChild (shape self.old) (shape self.new) parent (name_said name.entry) item
            × (opened.0 ≡ length self.old.nodes.items))
            ⊎ (((shape self.old).child parent (name_said name.entry) ≡ Some opened.0)
            × OpensChild (shape self.old) (shape self.new) parent (name_said name.entry) item)) }
        ensures last { IfOk result (λ opened. opened.1 ≡ (shape self.old).opened parent (name_said name.entry)) }
    {
        let index = self.nodes.len();
        self.nodes.reserve(1)?;
        let last = self
            .children
            .replace(parent, name.bytes(), Last { index, item })?;
        match standing_node(&self.nodes, last) {
            Some(index) => {
                self.children
                    .replace(parent, name.bytes(), Last { index, item })?;
                Ok((index, item_of(last)))
            }
            None => {
                self.nodes.push(Node {
                    parent,
                    name,
                    stands: true,
                })?;
                Ok((index, item_of(last)))
            }
        }
    }

    /// Deletes a node that stands, and isn't the root.
    pub fn cut(&mut self, node: usize)
        requires not_root { 0 < node }
        requires inside { node < length self.old.nodes.items }
        requires stands { (nodes_listed self.old.nodes.items self.old.children).stands node ≡ true }
        ensures cut { Cuts (shape self.old) (shape self.new)
            ((nodes_listed self.old.nodes.items self.old.children).owner node)
            ((nodes_listed self.old.nodes.items self.old.children).name node) }
    {
        self.nodes[node].stands = false;
    }

    /// Deletes a child, where one stands.
    pub fn cut_child(&mut self, parent: usize, name: &[u8])
        ensures cut { Cuts (shape self.old) (shape self.new) parent name.now }
    {
        if let Some(node) = self.child(parent, name) {
            self.cut(node);
        }
    }

    /// Defines a property by an item: one that stands keeps its place, a new one goes last. Answers the item that last defined one of the name.
    pub fn define(
        &mut self,
        node: usize,
        name: &'a [u8],
        value: PropertyValue<'a>,
        item: usize,
    ) -> Result<Option<usize>, AllocError>
        requires inside { node < length self.old.nodes.items }
        ensures defined { OnOk result (Defines (shape self.old) (shape self.new) node name.now (value_held value.entry) item) }
        ensures last { IfOk result (λ last. last ≡ (shape self.old).defined node name.now) }
    {
        let property = Property {
            node,
            name,
            value,
            stands: true,
        };
        let index = self.properties.len();
        self.properties.reserve(1)?;
        let last = self.indices.replace(node, name, Last { index, item })?;
        match standing_property(&self.properties, last) {
            Some(index) => {
                self.indices.replace(node, name, Last { index, item })?;
                write(&mut self.properties, index, property);
                Ok(item_of(last))
            }
            None => {
                self.properties.push(property)?;
                Ok(item_of(last))
            }
        }
    }

    fn drop_property(&mut self, index: usize)
        requires inside { index < length self.old.properties.items }
        requires stands { (properties_listed self.old.properties.items self.old.indices).stands index ≡ true }
        ensures dropped { Undefines (shape self.old) (shape self.new)
            ((properties_listed self.old.properties.items self.old.indices).owner index)
            ((properties_listed self.old.properties.items self.old.indices).name index) }
    {
        let property = &self.properties[index];
        let fallen = Property {
            node: property.node,
            name: property.name,
            value: property.value,
            stands: false,
        };
        write(&mut self.properties, index, fallen);
    }

    /// Deletes a property, where one stands.
    pub fn undefine(&mut self, node: usize, name: &[u8])
        ensures dropped { Undefines (shape self.old) (shape self.new) node name.now }
    {
        if let Some(index) = self.property(node, name) {
            self.drop_property(index);
        }
    }

    /// Gives a label to a node. No node that stands has it.
    pub fn give(&mut self, label: &'a [u8], node: usize) -> Result<(), AllocError>
        requires inside { node < length self.old.nodes.items }
        requires alone { (p : Stack) → given_at (shape self.old) (p, label.now) ≡ None }
        ensures given { OnOk result (Gives (shape self.old) (shape self.new) label.now node) }
    {
        let index = self.givings.len();
        self.givings.reserve(1)?;
        self.labels.put(label, index)?;
        self.givings.push(Giving { label, node })?;
        Ok(())
    }
}
