//! What the nodes of a named tree ask for: the numbers that are written in them, and whether they need one.

ghost use Rattle.std.specs.Prelude.{◌≡◌, List, length, map, codes, option_map, IfOk};
ghost use Rattle.std.specs.List.{AllByRecursion};
ghost use Rattle.dt_model.specs.Meaning.{EachReference};
ghost use Rattle.dt_model.specs.Named.{value_of};
ghost use Rattle.dt_model.specs.Named.{number_of as written_number};
ghost use Rattle.dt_model.specs.NamedOf.{IsBelow, RefersBelow, asked_from};
ghost use Rattle.dt_source_named_tree.specs.Said.{reference_said, value_said, property_said, node_said};
ghost use Rattle.dt_phandle.specs.Asking.{asked_said, content_said, own, keyed_too, is_to, is_in_value, is_in_properties, is_in_nodes};

use dt_names::phandle_of;
use dt_source_named_tree::{NamedNode, NamedProperty, NamedReference, NamedValue};
use std::alloc::{AllocError, Global};

/// What a node asks for.
#[derive(Clone, Copy)]
pub(crate) struct Asked {
    /// The number that is written in it.
    pub written: Option<u32>,
    /// Whether it has a label, a written number or a reference to it.
    pub keyed: bool,
}

/// The number that a value writes.
fn number_of(value: &NamedValue<'_>) -> Option<u32>
    ensures { result ≡ written_number (value_said value.now) }
{
    if !value.pieces.is_empty() {
        return None;
    }
    phandle_of(&value.bytes)
}

/// The value of the property `phandle`.
pub(crate) fn phandle_value<'a, 'b>(
    properties: &'a [NamedProperty<'b>],
) -> Option<&'a NamedValue<'b>>
    ensures { option_map (λ value. value_said value.now) result ≡ value_of (map property_said properties.now) (codes "phandle") }
{
    for property in properties {
        if property.name == b"phandle".as_slice() {
            return Some(&property.value);
        }
    }
    None
}

/// What a node asks for, references to it aside.
fn asked_by(node: &NamedNode<'_>) -> Asked
    ensures { asked_said result ≡ own (node_said node.now).content }
{
    let written = match phandle_value(&node.properties) {
        Some(value) => number_of(value),
        None => None,
    };
    Asked {
        written,
        keyed: written.is_some() || !node.labels.is_empty(),
    }
}

/// The node of a reference is keyed.
fn key(asked: &mut [Asked], reference: &NamedReference<'_>)
    requires { IsBelow (length asked.old) (reference_said reference.now) }
    ensures { map asked_said asked.new ≡ keyed_too (is_to (reference_said reference.now)) 0 (map asked_said asked.old) }
{
    if let NamedReference::Node(node) = reference {
        asked[*node].keyed = true;
    }
}

/// The nodes to which a value refers are keyed.
fn key_value(asked: &mut [Asked], value: &NamedValue<'_>)
    requires { EachReference (IsBelow (length asked.old)) (value_said value.now) }
    ensures { map asked_said asked.new ≡ keyed_too (is_in_value (value_said value.now)) 0 (map asked_said asked.old) }
{
    for piece in &value.pieces {
        key(asked, &piece.reference);
    }
}

/// The nodes to which properties refer are keyed.
fn key_properties(asked: &mut [Asked], properties: &[NamedProperty<'_>])
    requires { AllByRecursion (λ p. EachReference (IsBelow (length asked.old)) p.value) (map property_said properties.now) }
    ensures { map asked_said asked.new ≡ keyed_too (is_in_properties (map property_said properties.now)) 0 (map asked_said asked.old) }
{
    for property in properties {
        key_value(asked, &property.value);
    }
}

/// The nodes to which nodes refer are keyed.
fn key_nodes(asked: &mut [Asked], nodes: &[NamedNode<'_>])
    requires { AllByRecursion (RefersBelow (length asked.old)) (map content_said nodes.now) }
    ensures { map asked_said asked.new ≡ keyed_too (is_in_nodes (map content_said nodes.now)) 0 (map asked_said asked.old) }
{
    for node in nodes {
        key_properties(asked, &node.properties);
    }
}

/// What each of these nodes asks for.
pub(crate) fn asked_among(alloc: Global, nodes: &[NamedNode<'_>]) -> Result<Vec<Asked>, AllocError>
    requires { AllByRecursion (RefersBelow (length nodes.now)) (map content_said nodes.now) }
    ensures { IfOk result (λ asked. map asked_said asked.items ≡
        asked_from (map content_said nodes.now) 0 (map content_said nodes.now)) }
{
    let mut asked = Vec::with_capacity(alloc, nodes.len())?;
    for node in nodes {
        asked.push(asked_by(node))?;
    }
    key_nodes(&mut asked, nodes);
    Ok(asked)
}
