//! A named tree as one whose nodes have their numbers.

ghost use Rattle.std.specs.Prelude.{◌≡◌, ◌++◌, length, map, OnOk, IfOk, IfErr};
ghost use Rattle.std.specs.List.{AllByRecursion};
ghost use Rattle.dt_model.specs.Instance.{number_at, number_for, numbered, numbered_properties, phandle_of, instance_of};
ghost use Rattle.dt_model.specs.Meaning.{value_bytes};
ghost use Rattle.dt_model.specs.Named.{tree_of};
ghost use Rattle.dt_model.specs.NamedOf.{asked_in};
ghost use Rattle.dt_model.specs.Numbering.{IsNumbering};
ghost use Rattle.dt_model.specs.Valid.{IsReservation};
ghost use Rattle.dt_names.specs.declared.fault.FaultKind.TheVariants.{NoMemory};
ghost use Rattle.dt_source_named_tree.specs.Said.{reference_said, value_said, property_said, node_said};
ghost use Rattle.dt_flat.specs.Arena.{reading, root_alone};
ghost use Rattle.dt_flat.specs.Planted.{with_properties};
ghost use Rattle.dt_phandle.specs.Asking.{content_said};
ghost use Rattle.dt_phandle.specs.Growth.{MayHave, with_node, MayCome, grown, MayGrow, grown_all, MayGrowAll};
ghost use Rattle.dt_names.specs.Fault.{IsNoMemory};

use crate::asked::phandle_value;
use crate::numbering::Numbering;
use dt_flat::{FlatTree, may_be_planted, planted_reads};
use dt_model_laws::instance_is_valid;
use dt_names::{Fault, NodeId, NodeName, PropName};
use dt_source_named_tree::{NamedNode, NamedProperty, NamedReference, NamedTree, NamedValue};
use std::alloc::{AllocError, Global};

/// The number of a reference: its node's, or all ones if the node is of some other tree.
fn number_for(reference: &NamedReference<'_>, numbering: &Numbering) -> u32
    ensures { result ≡ number_for numbering.now (reference_said reference.now) }
{
    match reference {
        NamedReference::Node(node) => numbering.of(*node).unwrap_or(0),
        NamedReference::Label(_) => u32::MAX,
    }
}

/// The bytes of a value, in which a reference is its node's number as a cell.
fn write_value(
    bytes: &mut Vec<u8>,
    value: &NamedValue<'_>,
    numbering: &Numbering,
) -> Result<(), AllocError>
    ensures { OnOk result (bytes.new.items ≡ value_bytes (number_for numbering.now) (value_said value.now)) }
{
    bytes.clear();
    for piece in &value.pieces {
        bytes.extend_from_slice(&piece.before)?;
        let number = number_for(&piece.reference, numbering);
        bytes.extend_from_slice(&number.to_be_bytes())?;
    }
    bytes.extend_from_slice(&value.bytes)?;
    Ok(())
}

/// The bytes of a value: its own where it has no references, else written into `bytes`, over what was there.
fn value_in<'b>(
    bytes: &'b mut Vec<u8>,
    value: &'b NamedValue<'_>,
    numbering: &Numbering,
) -> Result<&'b [u8], AllocError>
    ensures { IfOk result (λ written. written.now ≡ value_bytes (number_for numbering.now) (value_said value.now)) }
{
    if value.pieces.is_empty() {
        return Ok(value.bytes.as_slice());
    }
    write_value(bytes, value, numbering)?;
    Ok(bytes.as_slice())
}

/// A node's properties, but for a number that isn't written. The bytes are for its values, one after another.
fn set_properties(
    tree: &mut FlatTree,
    bytes: &mut Vec<u8>,
    id: NodeId,
    properties: &[NamedProperty<'_>],
    numbering: &Numbering,
) -> Result<(), Fault>
    requires { MayHave tree.old.slots id (map (numbered numbering.now) (map property_said properties.now)) }
    ensures tree { OnOk result (tree.new ≡ record tree.old
        { slots = with_properties tree.old.slots id (map (numbered numbering.now) (map property_said properties.now)) }) }
    ensures refused { IfErr result IsNoMemory }
{
    for property in properties {
        let value = value_in(bytes, &property.value, numbering)?;
        let name = PropName::known(property.name);
        tree.plant_prop(id, &name, value)?;
    }
    Ok(())
}

/// The number of a node, where it has one that isn't written in it.
fn set_number(
    tree: &mut FlatTree,
    id: NodeId,
    node: &NamedNode<'_>,
    numbering: &Numbering,
) -> Result<(), Fault>
    requires { MayHave tree.old.slots id (phandle_of (content_said node.now) (number_at numbering.now id)) }
    ensures tree { OnOk result (tree.new ≡ record tree.old
        { slots = with_properties tree.old.slots id (phandle_of (content_said node.now) (number_at numbering.now id)) }) }
    ensures refused { IfErr result IsNoMemory }
{
    let Some(number) = numbering.of(id) else {
        return Ok(());
    };
    if phandle_value(&node.properties).is_some() {
        return Ok(());
    }
    let name = PropName::new(b"phandle".as_slice())?;
    tree.plant_prop(id, &name, &number.to_be_bytes())
}

/// What a node has.
fn fill_node(
    tree: &mut FlatTree,
    bytes: &mut Vec<u8>,
    id: NodeId,
    node: &NamedNode<'_>,
    numbering: &Numbering,
) -> Result<(), Fault>
    requires { MayHave tree.old.slots id (numbered_properties numbering.now id (content_said node.now)) }
    ensures tree { OnOk result (tree.new ≡ record tree.old
        { slots = with_properties tree.old.slots id (numbered_properties numbering.now id (content_said node.now)) }) }
    ensures refused { IfErr result IsNoMemory }
{
    set_properties(tree, bytes, id, &node.properties, numbering)?;
    set_number(tree, id, node, numbering)
}

/// The node that comes next.
fn add(
    tree: &mut FlatTree,
    bytes: &mut Vec<u8>,
    node: &NamedNode<'_>,
    numbering: &Numbering,
) -> Result<(), Fault>
    requires { MayCome numbering.now tree.old.slots (node_said node.now) }
    ensures tree { OnOk result (tree.new ≡ record tree.old { slots = with_node numbering.now tree.old.slots (node_said node.now) }) }
    ensures refused { IfErr result IsNoMemory }
{
    let name = NodeName::known(node.name.as_slice());
    let id = tree.plant_node(node.parent, &name)?;
    fill_node(tree, bytes, id, node, numbering)
}

/// The nodes behind the root, one after another.
fn add_all(
    tree: &mut FlatTree,
    bytes: &mut Vec<u8>,
    nodes: &[NamedNode<'_>],
    numbering: &Numbering,
) -> Result<(), Fault>
    requires { MayGrow numbering.now tree.old.slots (map node_said nodes.now) }
    ensures tree { OnOk result (tree.new ≡ record tree.old { slots = grown numbering.now tree.old.slots (map node_said nodes.now) }) }
    ensures refused { IfErr result IsNoMemory }
{
    for node in nodes {
        add(tree, bytes, node, numbering)?;
    }
    Ok(())
}

/// All nodes, in a tree that is a root alone.
fn grow(
    tree: &mut FlatTree,
    bytes: &mut Vec<u8>,
    nodes: &[NamedNode<'_>],
    numbering: &Numbering,
) -> Result<(), Fault>
    requires { MayGrowAll numbering.now tree.old.slots (map node_said nodes.now) }
    ensures tree { OnOk result (tree.new ≡ record tree.old { slots = grown_all numbering.now tree.old.slots (map node_said nodes.now) }) }
    ensures refused { IfErr result IsNoMemory }
{
    let Some((root, others)) = nodes.split_first() else {
        return Ok(());
    };
    fill_node(tree, bytes, tree.root(), root, numbering)?;
    add_all(tree, bytes, others, numbering)
}

/// The reservations.
fn reserve(tree: &mut FlatTree, reservations: &[(u64, u64)]) -> Result<(), Fault>
    requires { AllByRecursion IsReservation reservations.now }
    ensures tree { OnOk result (tree.new ≡ record tree.old { reservations = tree.old.reservations ++ reservations.now }) }
    ensures refused { IfErr result IsNoMemory }
{
    for (address, size) in reservations {
        tree.reserve(*address, *size)?;
    }
    Ok(())
}

/// Fills a tree that is a root alone.
fn fill(
    tree: &mut FlatTree,
    bytes: &mut Vec<u8>,
    named: &NamedTree<'_>,
    numbering: &Numbering,
) -> Result<(), Fault>
    requires alone { tree.old ≡ root_alone 0 }
    requires numbers { IsNumbering (asked_in (tree_of named.now)) numbering.now }
    ensures reads { OnOk result (reading tree.new ≡ instance_of numbering.now (tree_of named.now)) }
    ensures count { OnOk result (length tree.new.slots ≡ length named.now.nodes) }
    ensures refused { IfErr result IsNoMemory }
{
    named.validity();
    instance_is_valid();
    planted_reads();
    may_be_planted();
    reserve(tree, named.reservations())?;
    grow(tree, bytes, named.nodes(), numbering)
}

/// For how many properties the tree gets room: those of the nodes, a number each, and one for each label, whose path a later stage may keep.
fn property_count(nodes: &[NamedNode<'_>]) -> usize {
    let mut count = 0usize;
    for node in nodes {
        count = count
            .saturating_add(node.properties.len())
            .saturating_add(node.labels.len() + 1);
    }
    count
}

/// The same, with memory for all nodes and properties first.
fn make_room_and_fill(
    alloc: Global,
    tree: &mut FlatTree,
    named: &NamedTree<'_>,
    numbering: &Numbering,
) -> Result<(), Fault>
    requires alone { tree.old ≡ root_alone 0 }
    requires numbers { IsNumbering (asked_in (tree_of named.now)) numbering.now }
    ensures reads { OnOk result (reading tree.new ≡ instance_of numbering.now (tree_of named.now)) }
    ensures count { OnOk result (length tree.new.slots ≡ length named.now.nodes) }
    ensures refused { IfErr result IsNoMemory }
{
    let nodes = named.nodes();
    tree.make_room(nodes.len(), property_count(nodes))?;
    let mut bytes = Vec::new(alloc);
    fill(tree, &mut bytes, named, numbering)
}

/// The tree of a named tree under the numbers of its nodes: a reference becomes its node's number as a cell (Devicetree
/// Specification v0.4, 2.2.4), and a node that has a number has it as its property `phandle` (2.3.3), the last one where
/// the number isn't written in it. The boot CPU is 0. `NoMemory`: memory was refused, and nothing else is in the way. The
/// fault has no place.
pub fn instance(
    alloc: Global,
    tree: &NamedTree<'_>,
    numbering: &Numbering,
) -> Result<FlatTree, Fault>
    requires { IsNumbering (asked_in (tree_of tree.now)) numbering.now }
    ensures tree { IfOk result (λ made. reading made ≡ instance_of numbering.now (tree_of tree.now)) }
    ensures count { IfOk result (λ made. length made.slots ≡ length tree.now.nodes) }
    ensures refused { IfErr result IsNoMemory }
{
    let mut made = FlatTree::seeded(alloc, tree.seed(), 0);
    match make_room_and_fill(alloc, &mut made, tree, numbering) {
        Ok(()) => Ok(made),
        Err(fault) => {
            // Let go of by hand: what goes at an exit by itself is proved there field by field.
            drop(made);
            Err(fault)
        }
    }
}
