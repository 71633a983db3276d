//! The properties of all nodes of a tree.

ghost use Rattle.std.specs.Prelude.{◌≡◌, ◌<◌, ◌≤◌, ◌+◌, ℕ, List, [], None, Some, length, slice_get, option_map, OnOk, OnErr};
ghost use Rattle.std.specs.Iterator.{YieldsFirstBy, item_count};
ghost use Rattle.std.specs.List.{AllByRecursion};
ghost use Rattle.dt_model.specs.Applied.{with_cell};
ghost use Rattle.dt_flat.specs.Rows.{owned, put, value_held};

use crate::NodeId;
use crate::chain::Ranks;
use crate::keys::Keys;
use crate::names::{NameId, NameTable};
use crate::values::Values;
use dt_names::Seed;
use std::alloc::{AllocError, Global};
use std::marker::Model;

/// Properties in the order in which they were first set, each with its node and its name.
#[derive(Drop)]
pub(crate) struct PropertyTable {
    rows: Keys,
    values: Values,
}

impl Model for PropertyTable {
    ghost use Rattle.std.specs.Prelude.{List, ◌≡◌, length};
    ghost use Rattle.dt_flat.specs.Rows.{Held, held};

    ghost Value = { List Held };

    ghost view = { λ t. held t.rows t.values };

    ghost invariant = { λ t. length t.values ≡ length t.rows };
}

impl PropertyTable {
    /// No properties yet, whose names will be hashed behind a seed. Takes no memory.
    pub fn new(alloc: Global, seed: Seed) -> Self
        ensures { result ≡ [] }
    {
        PropertyTable {
            rows: Keys::new(alloc, seed),
            values: Values::new(alloc),
        }
    }

    /// Makes room for so many properties more, of so many nodes.
    pub fn reserve(&mut self, nodes: usize, properties: usize) -> Result<(), AllocError>
        ensures { self.new ≡ self.old }
    {
        self.rows.reserve(nodes, properties)?;
        self.values.reserve(properties)
    }

    /// The name and the value of the property at a place.
    pub fn at(&self, place: usize) -> (NameId, &[u8])
        requires { place < length self.now }
        ensures name { option_map (λ property. property.name) (slice_get self.now place) ≡ Some result.0 }
        ensures value { option_map (λ property. property.value) (slice_get self.now place) ≡ Some result.1.now }
    {
        let (_, name) = self.rows.at(place);
        (name, self.values.at(place))
    }

    /// The value of the property of a node and a name.
    pub fn get(&self, node: NodeId, name: NameId) -> Option<&[u8]>
        ensures { option_map (λ value. value.now) result ≡ value_held node name self.now }
    {
        let place = self.rows.find(node, name)?;
        Some(self.values.at(place))
    }

    /// Gives the property of a node and a name this value: one that is there keeps its place, a new one goes last.
    pub fn set(&mut self, node: NodeId, name: NameId, value: &[u8]) -> Result<(), AllocError>
        ensures ok { OnOk result (self.new ≡ put self.old node name value.now) }
        ensures err { OnErr result (self.new ≡ self.old) }
    {
        self.values.push(value)?;
        match self.rows.enter(node, name) {
            Ok(None) => {}
            Ok(Some(place)) => self.values.move_last(place),
            Err(refused) => {
                self.values.pop();
                return Err(refused);
            }
        }
        Ok(())
    }

    /// Gives a node a property of a name that none of its properties has, at the end.
    pub fn plant(&mut self, node: NodeId, name: NameId, value: &[u8]) -> Result<(), AllocError>
        requires { value_held node name self.old ≡ None }
        ensures ok { OnOk result (self.new ≡ put self.old node name value.now) }
        ensures err { OnErr result (self.new ≡ self.old) }
    {
        self.values.push(value)?;
        if let Err(refused) = self.rows.push(node, name) {
            self.values.pop();
            return Err(refused);
        }
        Ok(())
    }

    /// Hashes nodes with names, so that no properties are walked to find one from now on.
    pub fn index(&mut self) -> Result<(), AllocError>
        ensures { self.new ≡ self.old }
    {
        self.rows.index()
    }

    /// Writes a number, the highest byte first, at an offset of the value of a property. Looks at no other byte of the value.
    pub fn patch(&mut self, node: NodeId, name: NameId, offset: usize, number: u32)
        requires { (value : List ℕ) × (value_held node name self.old ≡ Some value) × (offset + 4 ≤ length value) }
        ensures { (value : List ℕ) → value_held node name self.old ≡ Some value →
            self.new ≡ put self.old node name (with_cell value offset number) }
    {
        let Some(place) = self.rows.find(node, name) else {
            unreachable!();
        };
        self.values.patch(place, offset, number);
    }

    /// The properties of a node in order, as names and values.
    pub fn of<'a>(&'a self, names: &'a NameTable, node: NodeId) -> Props<'a>
        requires { AllByRecursion (λ property. property.name < length names.now) self.now }
        ensures { result ≡ owned names.now self.now node }
    {
        Props {
            names,
            table: self,
            ranks: self.rows.of(node),
        }
    }
}

/// The properties of a node, in order: their names and values. It is seen as those that are left.
#[derive(Drop)]
pub struct Props<'a> {
    names: &'a NameTable,
    table: &'a PropertyTable,
    ranks: Ranks<'a>,
}

impl<'a> Model for Props<'a> {
    ghost use Rattle.std.specs.Prelude.{List, map};
    ghost use Rattle.dt_model.specs.Tree.{Property};
    ghost use Rattle.dt_flat.specs.Rows.{property_at, AreWithin};

    ghost Value = { List Property };

    ghost view = { λ p. map (property_at p.names.now p.table.now) p.ranks };

    ghost invariant = { λ p. AreWithin p.names.now p.table.now p.ranks };
}

impl<'a> Iterator for Props<'a> {
    type Item = (&'a [u8], &'a [u8]);

    ghost next_gives = { YieldsFirstBy (λ p. record { name = p.0.now; value = p.1.now }) (λ s. s) };

    ghost remaining = { item_count (λ s. s) };

    fn next(&mut self) -> Option<(&'a [u8], &'a [u8])> {
        let rank = self.ranks.step()?;
        let (name, value) = self.table.at(rank - 1);
        Some((self.names.at(name), value))
    }
}
