//! The cells that hold numbers of a tree's own nodes, by their offsets.

ghost use Rattle.std.specs.Prelude.{◌≡◌, ◌<◌, ◌++◌, length, map, OnOk, IfErr};
ghost use Rattle.std.specs.List.{AllByRecursion, flat_map, list_any};
ghost use Rattle.dt_model.specs.Fixups.{inside_offset, offsets_as};
ghost use Rattle.dt_model.specs.Object.{references_from};
ghost use Rattle.dt_source_named_tree.specs.Said.{reference_said, value_said, property_said, node_said};
ghost use Rattle.dt_flat.specs.Planted.{with_properties};
ghost use Rattle.dt_marks.specs.Cells.{is_inside, has_cells, cells_of};
ghost use Rattle.dt_marks.specs.Mirrored.{IsNoPhandle};
ghost use Rattle.dt_names.specs.Fault.{IsNoMemory};

use crate::fixup_texts::behind;
use dt_flat::FlatTree;
use dt_names::{Fault, NodeId, PropName};
use dt_source_named_tree::{NamedNode, NamedProperty, NamedReference, NamedValue};
use std::alloc::AllocError;

/// Is the reference to a node of the tree?
fn is_to_a_node(reference: &NamedReference<'_>) -> bool
    ensures { result ≡ is_inside (reference_said reference.now) }
{
    matches!(reference, NamedReference::Node(_))
}

/// Has a property such cells?
fn refers(property: &NamedProperty<'_>) -> bool
    ensures { result ≡ list_any (λ p. is_inside (reference_said p.reference)) property.now.value.pieces.items }
{
    property
        .value
        .pieces
        .iter()
        .any(|piece| is_to_a_node(&piece.reference))
}

/// Has a node such cells?
pub(crate) fn holds_cells(node: &NamedNode<'_>) -> bool
    ensures { result ≡ has_cells node.now.properties.items }
{
    node.properties.iter().any(|property| refers(property))
}

/// Puts the lowest 32 bits of a reference's offset as a cell, if the reference is to a node.
fn put_offset(
    out: &mut Vec<u8>,
    offset: usize,
    reference: NamedReference<'_>,
) -> Result<(), AllocError>
    ensures { OnOk result (out.new.items ≡ out.old.items ++ inside_offset (offset, reference_said reference.entry)) }
{
    match reference {
        NamedReference::Node(_) => out.extend_from_slice(&offset.to_be_bytes()[4..]),
        NamedReference::Label(_) => Ok(()),
    }
}

/// Writes the offsets of a value's cells.
fn put_offsets(out: &mut Vec<u8>, value: &NamedValue<'_>) -> Result<(), AllocError>
    ensures { OnOk result (out.new.items ≡ flat_map inside_offset (references_from 0 (value_said value.now))) }
{
    out.clear();
    let mut offset = 0;
    for piece in &value.pieces {
        let cell = behind(offset, piece.before.len())?;
        put_offset(out, cell, piece.reference)?;
        offset = behind(cell, 4)?;
    }
    Ok(())
}

/// Sets a property to some offsets, if there are some.
fn set_offsets(tree: &mut FlatTree, node: NodeId, name: &[u8], offsets: &[u8]) -> Result<(), Fault>
    requires there { node < length tree.old.slots }
    requires plain { AllByRecursion IsNoPhandle (offsets_as name.now offsets.now) }
    ensures tree { OnOk result (tree.new ≡ record tree.old
        { slots = with_properties tree.old.slots node (offsets_as name.now offsets.now) }) }
    ensures refused { IfErr result IsNoMemory }
{
    if offsets.is_empty() {
        return Ok(());
    }
    let name = PropName::new(name)?;
    tree.set_prop(node, &name, offsets)
}

/// Sets the properties of a node that have such cells to the offsets of these.
pub(crate) fn set_cells(
    tree: &mut FlatTree,
    node: NodeId,
    out: &mut Vec<u8>,
    properties: &[NamedProperty<'_>],
) -> Result<(), Fault>
    requires there { node < length tree.old.slots }
    requires plain { AllByRecursion IsNoPhandle (cells_of (map property_said properties.now)) }
    ensures tree { OnOk result (tree.new ≡ record tree.old
        { slots = with_properties tree.old.slots node (cells_of (map property_said properties.now)) }) }
    ensures refused { IfErr result IsNoMemory }
{
    for property in properties {
        put_offsets(out, &property.value)?;
        set_offsets(tree, node, property.name, out)?;
    }
    Ok(())
}
