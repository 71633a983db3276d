//! What the nodes of a named tree have: names, labels and properties.

ghost use Rattle.std.specs.Prelude.{◌≡◌, ℕ, ◌<◌, ◌∷◌, [], length, map, IfOk, MatchResult};
ghost use Rattle.std.specs.Cow.{cow_slice_items};
ghost use Rattle.dt_model.specs.Lists.{IsIn};
ghost use Rattle.dt_source_growing.specs.Grown.{name_said};
ghost use Rattle.dt_source_named_tree.specs.Said.{property_said, node_said};
ghost use Rattle.dt_source_nodes.specs.Owned.{group_of};
ghost use Rattle.dt_source_nodes.specs.Listing.{name_of};
ghost use Rattle.dt_source_nodes.specs.Contents.{label_at};
ghost use Rattle.dt_source_nodes.specs.Resolving.{EachReading, IsUnreadAmong, IsPropertyRead, ArePropertiesRead, IsRowRead, AreRowsRead, IsUnreadRow, Belong};

use crate::listing::Row;
use crate::values::Resolver;
use dt_names::Fault;
use dt_source_growing::{Giving, NameText, Node};
use dt_source_named_tree::{NamedNode, NamedProperty};
use std::alloc::{AllocError, Global};
use std::borrow::CowSlice;

/// A name as a named tree has it.
fn kept_name<'a>(alloc: Global, name: NameText<'_, 'a>) -> Result<CowSlice<'a, u8>, AllocError>
    ensures { IfOk result (λ text. cow_slice_items text ≡ name_said name.entry) }
{
    match name {
        NameText::Written(name) => Ok(CowSlice::Borrowed(name)),
        NameText::Made(name) => Ok(CowSlice::Owned(name.to_vec(alloc)?)),
    }
}

/// The name of a node; the root has none.
fn name_at<'a>(
    alloc: Global,
    nodes: &[Node<'_, 'a>],
    node: usize,
) -> Result<CowSlice<'a, u8>, AllocError>
    ensures { IfOk result (λ text. cow_slice_items text ≡ name_of nodes.now node) }
{
    if node == 0 {
        return Ok(CowSlice::Borrowed(b""));
    }
    match nodes.get(node) {
        Some(node) => kept_name(alloc, node.name),
        None => Ok(CowSlice::Borrowed(b"")),
    }
}

/// The label at an index.
fn label_there<'a>(givings: &[Giving<'a>], index: usize) -> &'a [u8]
    requires { index < length givings.now }
    ensures { result.now ≡ label_at givings.now index }
{
    givings[index].label
}

/// The labels at some indices.
fn labels_at<'a>(
    alloc: Global,
    givings: &[Giving<'a>],
    indices: &[usize],
) -> Result<Vec<&'a [u8]>, AllocError>
    requires { (i : ℕ) → IsIn i indices.now → i < length givings.now }
    ensures { IfOk result (λ labels. map (λ l. l.now) labels.items ≡ map (label_at givings.now) indices.now) }
{
    let mut labels = Vec::with_capacity(alloc, indices.len())?;
    for index in indices {
        labels.push(label_there(givings, *index))?;
    }
    Ok(labels)
}

impl<'a> Resolver<'_, '_, 'a> {
    /// The property at an index, with its references read.
    fn property_there(&self, alloc: Global, index: usize) -> Result<NamedProperty<'a>, Fault>
        requires inside { index < length self.now.growing.now.properties.items }
        ensures { MatchResult result
            (λ property. EachReading self.now (λ es place.
            IsPropertyRead self.now.unnamed es place self.now.growing.now.properties.items index (property_said property)))
            (λ fault. IsUnreadAmong self.now.unnamed self.now.growing.now (index ∷ []) fault) }
    {
        let property = &self.growing.properties[index];
        let value = self.held_value(alloc, property.value)?;
        Ok(NamedProperty {
            name: property.name,
            value,
        })
    }

    /// Adds the properties at some indices to none.
    fn add_properties(
        &self,
        alloc: Global,
        indices: &[usize],
        properties: &mut Vec<NamedProperty<'a>>,
    ) -> Result<(), Fault>
        requires inside { (i : ℕ) → IsIn i indices.now → i < length self.now.growing.now.properties.items }
        requires empty { properties.old.items ≡ [] }
        ensures { MatchResult result
            (λ _. EachReading self.now (λ es place.
            ArePropertiesRead self.now.unnamed es place self.now.growing.now.properties.items indices.now (map property_said properties.new.items)))
            (λ fault. IsUnreadAmong self.now.unnamed self.now.growing.now indices.now fault) }
    {
        for index in indices {
            let property = self.property_there(alloc, *index)?;
            properties.push(property)?;
        }
        Ok(())
    }

    /// The properties at some indices, with their references read. `UnresolvedReference` where one names no node.
    fn properties_at(
        &self,
        alloc: Global,
        indices: &[usize],
    ) -> Result<Vec<NamedProperty<'a>>, Fault>
        requires inside { (i : ℕ) → IsIn i indices.now → i < length self.now.growing.now.properties.items }
        ensures { MatchResult result
            (λ properties. EachReading self.now (λ es place.
            ArePropertiesRead self.now.unnamed es place self.now.growing.now.properties.items indices.now (map property_said properties.items)))
            (λ fault. IsUnreadAmong self.now.unnamed self.now.growing.now indices.now fault) }
    {
        let mut properties = Vec::with_capacity(alloc, indices.len())?;
        self.add_properties(alloc, indices, &mut properties)?;
        Ok(properties)
    }

    /// The node of a row.
    fn named_node(&self, alloc: Global, row: Row) -> Result<NamedNode<'a>, Fault>
        requires belong { Belong self.now.growing.now self.now.belongings.now }
        ensures { MatchResult result
            (λ node. EachReading self.now (λ es place.
            IsRowRead self.now.unnamed es place self.now.growing.now self.now.belongings.now row (node_said node)))
            (λ fault. IsUnreadAmong self.now.unnamed self.now.growing.now (group_of self.now.belongings.now.properties row.node) fault) }
    {
        let name = name_at(alloc, &self.growing.nodes, row.node)?;
        let labels = labels_at(
            alloc,
            &self.growing.givings,
            self.belongings.labels.of(row.node),
        )?;
        let indices = self.belongings.properties.of(row.node);
        let properties = self.properties_at(alloc, indices)?;
        Ok(NamedNode {
            parent: row.parent,
            name,
            labels,
            properties,
        })
    }

    /// Adds the nodes of the rows to none.
    pub fn add_nodes(
        &self,
        alloc: Global,
        rows: &[Row],
        nodes: &mut Vec<NamedNode<'a>>,
    ) -> Result<(), Fault>
        requires belong { Belong self.now.growing.now self.now.belongings.now }
        requires empty { nodes.old.items ≡ [] }
        ensures { MatchResult result
            (λ _. EachReading self.now (λ es place.
            AreRowsRead self.now.unnamed es place self.now.growing.now self.now.belongings.now rows.now (map node_said nodes.new.items)))
            (λ fault. IsUnreadRow self.now.unnamed self.now.growing.now self.now.belongings.now rows.now fault) }
    {
        for row in rows {
            let node = self.named_node(alloc, *row)?;
            nodes.push(node)?;
        }
        Ok(())
    }
}
