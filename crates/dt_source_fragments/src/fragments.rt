//! The fragments of an overlay's tree, and the targets that they hold (dtc's notes on overlay objects).

ghost use Rattle.std.specs.Prelude.{◌≡◌, ◌≢◌, ◌<◌, ◌++◌, ◌∷◌, [], ℕ, List, map, length, Some, None, codes, MatchOption, MatchResult};
ghost use Rattle.std.specs.Option.{option_map};
ghost use Rattle.dt_model.specs.Meaning.{byte, reference};
ghost use Rattle.dt_model.specs.Named.{NodeReference};
ghost use Rattle.dt_model.specs.Named as named;
ghost use Rattle.dt_model.specs.NamedOverlay.{NamedTarget};
ghost use Rattle.dt_model_laws.specs.OverlayChecks as checks;
ghost use Rattle.dt_model_laws.specs.OverlayChecks.{IsPathText, HoldTarget, AreFragmentsAmong};
ghost use Rattle.dt_source_fragments.specs.Fragments.{target_said, fragment_said, WhyNoTarget, IsUnchecked};
ghost use Rattle.dt_source_named_tree.specs.Said.{reference_said, value_said, property_said, node_said};

use dt_names::{Fault, FaultKind, NodeId, PathRef};
use dt_source_named_tree::{NamedNode, NamedProperty, NamedReference, NamedValue};
use std::alloc::Global;

/// What a fragment names as its target.
#[derive(Drop)]
pub enum SourceTarget<'a> {
    /// By a reference: a node of some other tree, or of the overlay itself.
    Reference(NamedReference<'a>),
    /// By the text of a path: a node of some other tree.
    Path(Vec<u8>),
}

/// A fragment: the number of its node, which is a child of the root and has a child `__overlay__`, and its target.
#[derive(Drop)]
pub struct Fragment<'a> {
    pub node: NodeId,
    pub target: SourceTarget<'a>,
}

/// The value of the property of a name.
fn value_of<'t, 'a>(properties: &'t [NamedProperty<'a>], name: &[u8]) -> Option<&'t NamedValue<'a>>
    ensures { option_map (λ value. value_said value.now) result ≡ named.value_of (map property_said properties.now) name.now }
{
    for property in properties {
        if name == property.name {
            return Some(&property.value);
        }
    }
    None
}

/// The reference of a value that is one reference and nothing else.
fn one_reference<'a>(value: &NamedValue<'a>) -> Option<NamedReference<'a>>
    ensures { MatchOption result
        ((r : NodeReference) → value_said value.now ≢ reference r ∷ [])
        (λ r. value_said value.now ≡ reference (reference_said r) ∷ []) }
{
    if value.pieces.len() != 1 {
        return None;
    }
    if value.bytes.len() > 0 {
        return None;
    }
    let piece = &value.pieces[0];
    if piece.before.len() == 0 {
        Some(piece.reference)
    } else {
        None
    }
}

/// The text of a value that is a path's text with a NUL, and nothing else.
fn path_text<'v>(value: &'v NamedValue<'_>) -> Option<&'v [u8]>
    ensures { MatchOption result
        ((text : List ℕ) → IsPathText text → value_said value.now ≢ map byte (text ++ 0 ∷ []))
        (λ text. IsPathText text.now × (value_said value.now ≡ map byte (text.now ++ 0 ∷ []))) }
{
    if !value.pieces.is_empty() {
        return None;
    }
    let (last, text) = value.bytes.as_slice().split_last()?;
    if *last != 0 {
        return None;
    }
    PathRef::new(text)?;
    Some(text)
}

/// The path that a property `target-path` holds.
fn target_path<'t>(properties: &'t [NamedProperty<'_>]) -> Option<&'t [u8]>
    ensures { MatchOption result
        ((text : List ℕ) → IsPathText text → named.value_of (map property_said properties.now) (codes "target-path") ≢ Some (map byte (text ++ 0 ∷ [])))
        (λ text. IsPathText text.now × (named.value_of (map property_said properties.now) (codes "target-path") ≡ Some (map byte (text.now ++ 0 ∷ [])))) }
{
    path_text(value_of(properties, b"target-path")?)
}

/// The target that a node with these properties holds: the one reference of `target`, or else the path of `target-path`.
/// `BadFragment` where it holds none.
fn target_of<'a>(alloc: Global, properties: &[NamedProperty<'a>]) -> Result<SourceTarget<'a>, Fault>
    ensures { MatchResult result
        (λ target. HoldTarget (map property_said properties.now) (target_said target))
        (λ fault. (fault.at ≡ None) × WhyNoTarget (map property_said properties.now) fault.kind) }
{
    if let Some(value) = value_of(properties, b"target") {
        return match one_reference(value) {
            Some(reference) => Ok(SourceTarget::Reference(reference)),
            None => Err(Fault::of(FaultKind::BadFragment)),
        };
    }
    match target_path(properties) {
        Some(text) => Ok(SourceTarget::Path(text.to_vec(alloc)?)),
        None => Err(Fault::of(FaultKind::BadFragment)),
    }
}

/// Is the node of a number the root, or one of its children?
pub(crate) fn is_first(nodes: &[NamedNode<'_>], number: NodeId) -> bool
    ensures { result ≡ checks.is_first (map node_said nodes.now) number }
{
    match nodes.get(number) {
        Some(node) => node.parent == 0,
        None => false,
    }
}

/// Is the node a fragment's content: a child `__overlay__` of a child of the root?
fn is_content(nodes: &[NamedNode<'_>], node: &NamedNode<'_>) -> bool
    ensures { result ≡ checks.is_content (map node_said nodes.now) (node_said node.now) }
{
    node.parent != 0
        && is_first(nodes, node.parent)
        && node.name.as_slice() == b"__overlay__".as_slice()
}

/// Adds the fragment of a number.
fn push_fragment<'a>(
    alloc: Global,
    nodes: &[NamedNode<'a>],
    number: NodeId,
    fragments: &mut Vec<Fragment<'a>>,
) -> Result<(), Fault>
    requires { number < length nodes.now }
    ensures { MatchResult result
        (λ _. (target : NamedTarget) × (map fragment_said fragments.new.items ≡ map fragment_said fragments.old.items
        ++ (record { node = number; target = target }) ∷ [])
        × HoldTarget (checks.properties_at (map node_said nodes.now) number) target)
        (λ fault. (fault.at ≡ None) × WhyNoTarget (checks.properties_at (map node_said nodes.now) number) fault.kind) }
{
    let target = target_of(alloc, &nodes[number].properties)?;
    fragments.push(Fragment {
        node: number,
        target,
    })?;
    Ok(())
}

/// The fragments of an overlay's nodes, with the targets that they hold. `BadFragment` where one holds none.
pub(crate) fn fragments<'a>(
    alloc: Global,
    nodes: &[NamedNode<'a>],
) -> Result<Vec<Fragment<'a>>, Fault>
    ensures { MatchResult result
        (λ fragments. AreFragmentsAmong (map node_said nodes.now) (map fragment_said fragments.items))
        (λ fault. IsUnchecked (map node_said nodes.now) fault) }
{
    let mut fragments = Vec::new(alloc);
    for node in nodes {
        if is_content(nodes, node) {
            push_fragment(alloc, nodes, node.parent, &mut fragments)?;
        }
    }
    Ok(fragments)
}
