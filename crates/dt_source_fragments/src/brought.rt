//! Which nodes of an overlay its fragments bring, and what these refer to (dtc's notes on overlay objects).

ghost use Rattle.std.specs.Prelude.{◌≡◌, ◌||◌, ℕ, true, false, not, Some, map, slice_get, IfOk, MatchResult};
ghost use Rattle.dt_model.specs.Lists.{IsIn};
ghost use Rattle.dt_model.specs.Named.{NodeReference, Listed};
ghost use Rattle.dt_model.specs.NamedOverlay.{NamedFragment};
ghost use Rattle.dt_model_laws.specs.OverlayChecks as checks;
ghost use Rattle.dt_model_laws.specs.OverlayChecks.{AreBehind, AreBrought, AreContained, AreFragmentsAmong, AreChecked, AreTargetsContained};
ghost use Rattle.dt_source_fragments.specs.Fragments.{fragment_said, target_said, IsUnchecked};
ghost use Rattle.dt_source_named_tree.specs.Said.{reference_said, value_said, property_said, node_said};

use crate::fragments::{Fragment, SourceTarget, fragments, is_first};
use dt_names::{Fault, FaultKind, NodeId};
use dt_source_named_tree::{NamedNode, NamedProperty, NamedReference, NamedValue};
use std::alloc::{AllocError, Global};

/// Is the node of a number marked?
fn is_marked(marks: &[bool], number: NodeId) -> bool
    ensures { result ≡ checks.is_marked marks.now number }
{
    match marks.get(number) {
        Some(mark) => *mark,
        None => false,
    }
}

/// Does a fragment bring the node, where those of the nodes before it are marked that a fragment brings?
fn is_brought(nodes: &[NamedNode<'_>], marks: &[bool], node: &NamedNode<'_>) -> bool
    ensures { result ≡ checks.is_brought (map node_said nodes.now) marks.now (node_said node.now) }
{
    if node.parent == 0 {
        false
    } else if is_first(nodes, node.parent) {
        node.name.as_slice() == b"__overlay__".as_slice()
    } else {
        is_marked(marks, node.parent)
    }
}

/// Marks the nodes that a fragment brings.
fn brought(alloc: Global, nodes: &[NamedNode<'_>]) -> Result<Vec<bool>, AllocError>
    requires { AreBehind (map node_said nodes.now) }
    ensures { IfOk result (λ marks. AreBrought (map node_said nodes.now) marks.items) }
{
    let mut marks = Vec::with_capacity(alloc, nodes.len())?;
    for node in nodes {
        let mark = is_brought(nodes, &marks, node);
        marks.push(mark)?;
    }
    Ok(marks)
}

/// Does the reference name no node but a marked one?
fn is_within(marks: &[bool], reference: &NamedReference<'_>) -> bool
    ensures { result ≡ checks.is_within marks.now (reference_said reference.now) }
{
    match reference {
        NamedReference::Node(number) => is_marked(marks, *number),
        NamedReference::Label(_) => true,
    }
}

fn refers_within(marks: &[bool], value: &NamedValue<'_>) -> bool
    ensures { result ≡ checks.refers_within marks.now (value_said value.now) }
{
    for piece in &value.pieces {
        if !is_within(marks, &piece.reference) {
            return false;
        }
    }
    true
}

fn refer_within(marks: &[bool], properties: &[NamedProperty<'_>]) -> bool
    ensures { result ≡ checks.refer_within marks.now (map property_said properties.now) }
{
    for property in properties {
        if !refers_within(marks, &property.value) {
            return false;
        }
    }
    true
}

/// Does the node of a number, if it is marked, refer to no node but marked ones?
fn is_contained(marks: &[bool], number: NodeId, node: &NamedNode<'_>) -> bool
    ensures { result ≡ (not (checks.is_marked marks.now number) || checks.refer_within marks.now (node_said node.now).content.properties) }
{
    !is_marked(marks, number) || refer_within(marks, &node.properties)
}

/// Do the marked nodes refer to no node but marked ones?
fn are_contained(nodes: &[NamedNode<'_>], marks: &[bool]) -> bool
    ensures all { result ≡ true → AreContained (map node_said nodes.now) marks.now }
    ensures not { result ≡ false → (k : ℕ) × (n : Listed NodeReference) × (slice_get (map node_said nodes.now) k ≡ Some n)
        × (checks.is_marked marks.now k ≡ true) × (checks.refer_within marks.now n.content.properties ≡ false) }
{
    for (number, node) in nodes.iter().enumerate() {
        if !is_contained(marks, number, node) {
            return false;
        }
    }
    true
}

fn is_target_within(marks: &[bool], target: &SourceTarget<'_>) -> bool
    ensures { result ≡ checks.is_target_within marks.now (target_said target.now) }
{
    match target {
        SourceTarget::Reference(reference) => is_within(marks, reference),
        SourceTarget::Path(_) => true,
    }
}

/// Do the fragments' targets refer to no node but marked ones?
fn are_targets_contained(marks: &[bool], fragments: &[Fragment<'_>]) -> bool
    ensures all { result ≡ true → AreTargetsContained marks.now (map fragment_said fragments.now) }
    ensures not { result ≡ false → (f : NamedFragment) × IsIn f (map fragment_said fragments.now) × (checks.is_target_within marks.now f.target ≡ false) }
{
    for fragment in fragments {
        if !is_target_within(marks, &fragment.target) {
            return false;
        }
    }
    true
}

/// `OutsideContent` where a node that a fragment brings, or a fragment's target, refers to a node of the overlay that no
/// fragment brings: the object has no place for such a reference.
fn check_contents(
    alloc: Global,
    nodes: &[NamedNode<'_>],
    fragments: &[Fragment<'_>],
) -> Result<(), Fault>
    requires behind { AreBehind (map node_said nodes.now) }
    requires are { AreFragmentsAmong (map node_said nodes.now) (map fragment_said fragments.now) }
    ensures { MatchResult result
        (λ _. AreChecked (map node_said nodes.now) (map fragment_said fragments.now))
        (λ fault. IsUnchecked (map node_said nodes.now) fault) }
{
    let marks = brought(alloc, nodes)?;
    if are_contained(nodes, &marks) && are_targets_contained(&marks, fragments) {
        Ok(())
    } else {
        Err(Fault::of(FaultKind::OutsideContent))
    }
}

/// The fragments of an overlay's nodes. `BadFragment` where one holds no target; else `OutsideContent`.
pub fn checked_fragments<'a>(
    alloc: Global,
    nodes: &[NamedNode<'a>],
) -> Result<Vec<Fragment<'a>>, Fault>
    requires { AreBehind (map node_said nodes.now) }
    ensures { MatchResult result
        (λ fragments. AreChecked (map node_said nodes.now) (map fragment_said fragments.items))
        (λ fault. IsUnchecked (map node_said nodes.now) fault) }
{
    let fragments = fragments(alloc, nodes)?;
    check_contents(alloc, nodes, &fragments)?;
    Ok(fragments)
}
