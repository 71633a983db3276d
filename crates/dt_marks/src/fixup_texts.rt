//! The node `__fixups__`.

ghost use Rattle.std.specs.Prelude.{◌≡◌, ◌<◌, ◌+◌, ◌∷◌, [], ℕ, None, map, length, codes, OnOk, IfOk, IfErr};
ghost use Rattle.std.specs.List.{AllByRecursion, flat_map};
ghost use Rattle.dt_model.specs.Fixups.{unless_empty};
ghost use Rattle.dt_model.specs.Names.{IsLabel};
ghost use Rattle.dt_model.specs.Tree.{no_nodes};
ghost use Rattle.dt_names.specs.declared.fault.FaultKind.TheVariants.{NoMemory};
ghost use Rattle.dt_source_named_tree.specs.Said.{reference_said, property_said, node_said};
ghost use Rattle.dt_flat.specs.Arena.{named_children, child_of};
ghost use Rattle.dt_flat.specs.Planted.{planted, with_properties};
ghost use Rattle.dt_marks.specs.Paths.{MayFollow, AreAll};
ghost use Rattle.dt_marks.specs.Refusals.{WhyNotPlanted};
ghost use Rattle.dt_marks.specs.Waiting.{with_texts, reference_text, property_texts, texts_behind, all_texts, AreListable, with_outside};
ghost use Rattle.dt_names.specs.Fault.{IsNoMemory};

use crate::paths::LastPath;
use crate::waiting::Waiting;
use dt_flat::FlatTree;
use dt_names::{Fault, NodeId, NodeName, PropName};
use dt_source_named_tree::{NamedNode, NamedProperty, NamedReference};
use std::alloc::{AllocError, Global};

/// Lists the cell of a reference at an offset of a property, if it is one by a label.
fn list_reference(
    table: &mut Waiting,
    path: &[u8],
    property: &[u8],
    offset: usize,
    reference: NamedReference<'_>,
) -> Result<(), AllocError>
    ensures { OnOk result (table.new ≡
        with_texts table.old (reference_text path.now property.now (offset, reference_said reference.entry))) }
{
    match reference {
        NamedReference::Node(_) => Ok(()),
        NamedReference::Label(label) => table.add(label, path, property, offset),
    }
}

/// The offset behind some more bytes. A value for which there is none has no room in memory.
pub(crate) fn behind(offset: usize, bytes: usize) -> Result<usize, AllocError>
    ensures { IfOk result (λ behind. behind ≡ offset + bytes) }
{
    match offset.checked_add(bytes) {
        Some(behind) => Ok(behind),
        None => Err(AllocError),
    }
}

/// Lists the cells of a property.
fn list_property(
    table: &mut Waiting,
    path: &[u8],
    property: &NamedProperty<'_>,
) -> Result<(), AllocError>
    ensures { OnOk result (table.new ≡ with_texts table.old (property_texts path.now (property_said property.now))) }
{
    let mut offset = 0;
    for piece in &property.value.pieces {
        let cell = behind(offset, piece.before.len())?;
        list_reference(table, path, property.name, cell, piece.reference)?;
        offset = behind(cell, 4)?;
    }
    Ok(())
}

/// Lists the cells of some properties of a node, whose path has this text.
fn list_properties(
    table: &mut Waiting,
    path: &[u8],
    properties: &[NamedProperty<'_>],
) -> Result<(), AllocError>
    ensures { OnOk result (table.new ≡
        with_texts table.old (flat_map (property_texts path.now) (map property_said properties.now))) }
{
    for property in properties {
        list_property(table, path, property)?;
    }
    Ok(())
}

/// Lists the cells of the nodes behind the root, one after another.
fn list_others(
    table: &mut Waiting,
    path: &mut LastPath,
    nodes: &[NamedNode<'_>],
) -> Result<(), AllocError>
    requires { MayFollow (length path.old.lengths.items) (map node_said nodes.now) }
    ensures { OnOk result (table.new ≡ with_texts table.old
        (texts_behind path.old.value.items path.old.lengths.items (map node_said nodes.now))) }
{
    for node in nodes {
        path.enter(node.parent, node.name.as_slice())?;
        list_properties(table, path.text(), &node.properties)?;
    }
    Ok(())
}

/// Lists the cells of all nodes.
fn list_all(
    table: &mut Waiting,
    path: &mut LastPath,
    nodes: &[NamedNode<'_>],
) -> Result<(), AllocError>
    requires begins { (path.old.value.items ≡ []) × (path.old.lengths.items ≡ 0 ∷ []) }
    requires all { AreAll (map node_said nodes.now) }
    ensures { OnOk result (table.new ≡ with_texts table.old (all_texts (map node_said nodes.now))) }
{
    let Some((root, others)) = nodes.split_first() else {
        return Ok(());
    };
    list_properties(table, b"/".as_slice(), &root.properties)?;
    list_others(table, path, others)
}

/// Sets the texts of each label as a property.
fn set_texts(tree: &mut FlatTree, node: NodeId, table: &Waiting) -> Result<(), Fault>
    requires there { node < length tree.old.slots }
    requires labels { AllByRecursion (λ p. IsLabel p.name) table.now }
    ensures tree { OnOk result (tree.new ≡ record tree.old { slots = with_properties tree.old.slots node table.now }) }
    ensures refused { IfErr result IsNoMemory }
{
    for place in 0..table.len() {
        let (label, text) = table.at(place);
        let name = PropName::new(label)?;
        tree.set_prop(node, &name, text)?;
    }
    Ok(())
}

/// The node with these texts, if there are some.
fn add_node(tree: &mut FlatTree, table: &Waiting) -> Result<(), Fault>
    requires absent { child_of (named_children tree.old.slots 0) (codes "__fixups__") ≡ None }
    requires labels { AllByRecursion (λ p. IsLabel p.name) table.now }
    ensures tree { OnOk result (tree.new ≡ record tree.old {
      slots = planted tree.old.slots 0 (unless_empty (codes "__fixups__") table.now no_nodes no_nodes);
    }) }
    ensures refused { IfErr result (λ fault. WhyNotPlanted fault.kind
        (planted tree.old.slots 0 (unless_empty (codes "__fixups__") table.now no_nodes no_nodes)) × (fault.at ≡ None)) }
{
    tree.validity();
    if table.len() == 0 {
        return Ok(());
    }
    let name = NodeName::new(b"__fixups__".as_slice())?;
    let node = tree.add_node(tree.root(), &name)?;
    set_texts(tree, node, table)
}

/// Lists the cells, and adds the node.
fn add_listed(
    tree: &mut FlatTree,
    table: &mut Waiting,
    path: &mut LastPath,
    nodes: &[NamedNode<'_>],
) -> Result<(), Fault>
    requires absent { child_of (named_children tree.old.slots 0) (codes "__fixups__") ≡ None }
    requires empty { table.old ≡ [] }
    requires begins { (path.old.value.items ≡ []) × (path.old.lengths.items ≡ 0 ∷ []) }
    requires all { AreAll (map node_said nodes.now) }
    requires labels { AreListable (all_texts (map node_said nodes.now)) }
    ensures tree { OnOk result (tree.new ≡ record tree.old { slots = with_outside tree.old.slots (map node_said nodes.now) }) }
    ensures refused { IfErr result
        (λ fault. WhyNotPlanted fault.kind (with_outside tree.old.slots (map node_said nodes.now)) × (fault.at ≡ None)) }
{
    list_all(table, path, nodes)?;
    add_node(tree, table)
}

/// Adds the node `__fixups__`, where a cell waits for a node of some other tree. `Limit`: the nodes would pass the limits.
/// `NoMemory`: memory was refused.
pub(crate) fn add_outside(
    alloc: Global,
    tree: &mut FlatTree,
    nodes: &[NamedNode<'_>],
) -> Result<(), Fault>
    requires absent { child_of (named_children tree.old.slots 0) (codes "__fixups__") ≡ None }
    requires all { AreAll (map node_said nodes.now) }
    requires labels { AreListable (all_texts (map node_said nodes.now)) }
    ensures tree { OnOk result (tree.new ≡ record tree.old { slots = with_outside tree.old.slots (map node_said nodes.now) }) }
    ensures refused { IfErr result
        (λ fault. WhyNotPlanted fault.kind (with_outside tree.old.slots (map node_said nodes.now)) × (fault.at ≡ None)) }
{
    let mut path = LastPath::root(alloc)?;
    let mut table = Waiting::new(alloc, tree.seed());
    add_listed(tree, &mut table, &mut path, nodes)
}
