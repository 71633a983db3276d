//! The node `__symbols__`.

ghost use Rattle.std.specs.Prelude.{◌≡◌, ◌<◌, ◌∷◌, [], None, map, length, nat_lt, codes, OnOk, IfErr};
ghost use Rattle.std.specs.List.{AllByRecursion, list_any};
ghost use Rattle.dt_model.specs.Instance.{symbols_of, with_symbols};
ghost use Rattle.dt_model.specs.Named.{tree_of};
ghost use Rattle.dt_model.specs.Names.{IsLabel};
ghost use Rattle.dt_model.specs.Valid.{AreDistinct};
ghost use Rattle.dt_names.specs.declared.fault.FaultKind.TheVariants.{NoMemory};
ghost use Rattle.dt_source_named_tree.specs.Said.{node_said};
ghost use Rattle.dt_flat.specs.Arena.{reading, named_children, child_of, with_child};
ghost use Rattle.dt_flat.specs.Planted.{with_properties, MaySetAll};
ghost use Rattle.dt_marks.specs.Paths.{label_property, symbols_behind, all_symbols, MayFollow, AreAll};
ghost use Rattle.dt_marks.specs.Refusals.{WhyFull, WhyNoSymbols};
ghost use Rattle.dt_names.specs.Fault.{IsNoMemory};

use crate::paths::LastPath;
use dt_flat::FlatTree;
use dt_names::limits::MOST_NODES;
use dt_names::{Fault, FaultKind, NodeId, NodeName, PropName};
use dt_source_named_tree::{NamedNode, NamedTree};
use std::alloc::Global;

/// Has one of these nodes a label?
fn have_labels(nodes: &[NamedNode<'_>]) -> bool
    ensures { result ≡ list_any (λ n. nat_lt 0 (length n.labels.items)) nodes.now }
{
    nodes.iter().any(|node| !node.labels.is_empty())
}

/// The labels of a node, whose path is this value.
fn add_labels(
    tree: &mut FlatTree,
    symbols: NodeId,
    labels: &[&[u8]],
    path: &[u8],
) -> Result<(), Fault>
    requires there { symbols < length tree.old.slots }
    requires labels { AllByRecursion IsLabel (map (λ l. l.now) labels.now) }
    requires new { MaySetAll tree.old.slots symbols (map (label_property path.now) (map (λ l. l.now) labels.now)) }
    ensures tree { OnOk result (tree.new ≡ record tree.old
        { slots = with_properties tree.old.slots symbols (map (label_property path.now) (map (λ l. l.now) labels.now)) }) }
    ensures refused { IfErr result IsNoMemory }
{
    for label in labels {
        let name = PropName::known(label);
        tree.plant_prop(symbols, &name, path)?;
    }
    Ok(())
}

/// The labels of the nodes behind the root, one after another.
fn add_others(
    tree: &mut FlatTree,
    symbols: NodeId,
    path: &mut LastPath,
    nodes: &[NamedNode<'_>],
) -> Result<(), Fault>
    requires there { symbols < length tree.old.slots }
    requires follow { MayFollow (length path.old.lengths.items) (map node_said nodes.now) }
    requires new { MaySetAll tree.old.slots symbols (symbols_behind path.old.value.items path.old.lengths.items (map node_said nodes.now)) }
    ensures tree { OnOk result (tree.new ≡ record tree.old {
      slots = with_properties tree.old.slots symbols
          (symbols_behind path.old.value.items path.old.lengths.items (map node_said nodes.now));
    }) }
    ensures refused { IfErr result IsNoMemory }
{
    for node in nodes {
        path.enter(node.parent, node.name.as_slice())?;
        add_labels(tree, symbols, &node.labels, &path.value)?;
    }
    Ok(())
}

/// The labels of all nodes.
fn add_all(
    tree: &mut FlatTree,
    symbols: NodeId,
    path: &mut LastPath,
    nodes: &[NamedNode<'_>],
) -> Result<(), Fault>
    requires there { symbols < length tree.old.slots }
    requires begins { (path.old.value.items ≡ []) × (path.old.lengths.items ≡ 0 ∷ []) }
    requires all { AreAll (map node_said nodes.now) }
    requires new { MaySetAll tree.old.slots symbols (all_symbols (map node_said nodes.now)) }
    ensures tree { OnOk result (tree.new ≡ record tree.old {
      slots = with_properties tree.old.slots symbols
          (all_symbols (map node_said nodes.now));
    }) }
    ensures refused { IfErr result IsNoMemory }
{
    let Some((root, others)) = nodes.split_first() else {
        return Ok(());
    };
    add_labels(tree, symbols, &root.labels, b"/\0".as_slice())?;
    add_others(tree, symbols, path, others)
}

/// The node with the labels of all nodes.
fn add_node(tree: &mut FlatTree, path: &mut LastPath, nodes: &[NamedNode<'_>]) -> Result<(), Fault>
    requires absent { child_of (named_children tree.old.slots 0) (codes "__symbols__") ≡ None }
    requires begins { (path.old.value.items ≡ []) × (path.old.lengths.items ≡ 0 ∷ []) }
    requires all { AreAll (map node_said nodes.now) }
    requires apart { AreDistinct (map (λ x. x.name) (all_symbols (map node_said nodes.now))) }
    ensures tree { OnOk result (tree.new ≡ record tree.old {
      slots = with_properties
          (with_child tree.old.slots 0 (codes "__symbols__")) (length tree.old.slots) (all_symbols (map node_said nodes.now));
    }) }
    ensures rooted { 0 < length tree.old.slots }
    ensures refused { IfErr result (λ fault. WhyFull fault.kind tree.old.slots × (fault.at ≡ None)) }
{
    tree.validity();
    let name = NodeName::new(b"__symbols__".as_slice())?;
    if tree.node_count() >= MOST_NODES {
        return Err(Fault::of(FaultKind::Limit));
    }
    let symbols = tree.plant_node(tree.root(), &name)?;
    add_all(tree, symbols, path, nodes)
}

/// Adds the labels of a tree to a tree without a child `__symbols__` of the root: as the properties of such a child, the
/// last one, each with the path of its node as a text, in preorder and in the order in which they were given (dtc's notes
/// on overlay objects). Without a label, nothing is added.
///
/// # Errors
///
/// `Limit` where there is a label, and the tree has 65,536 nodes; and `NoMemory`. None has a place. At a fault the tree may have a part
/// of this.
pub fn add_symbols(alloc: Global, tree: &mut FlatTree, named: &NamedTree<'_>) -> Result<(), Fault>
    requires { child_of (named_children tree.old.slots 0) (codes "__symbols__") ≡ None }
    ensures added { OnOk result (reading tree.new ≡ with_symbols (symbols_of (tree_of named.now)) (reading tree.old)) }
    ensures refused { IfErr result
        (λ fault. WhyNoSymbols fault.kind tree.old.slots (symbols_of (tree_of named.now)) × (fault.at ≡ None)) }
{
    named.validity();
    let nodes = named.nodes();
    if !have_labels(nodes) {
        return Ok(());
    }
    let mut path = LastPath::root(alloc)?;
    add_node(tree, &mut path, nodes)
}
