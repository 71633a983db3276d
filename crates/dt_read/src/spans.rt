//! Where the names and the values of a blob lie in its bytes, for a caller that has no slices.

ghost use Rattle.std.specs.Prelude.{◌≡◌, None, Some, List, ℕ, MatchOption};
ghost use Rattle.std.specs.List.{slice_get};
ghost use Rattle.dt_model.specs.Tree.{Property, value_in, value_of};
ghost use Rattle.dt_read.specs.Blocks.{AreBlocks};
ghost use Rattle.dt_read.specs.Checked.{IsBlob, placed_of};
ghost use Rattle.dt_read.specs.Parsing.{left_by};
ghost use Rattle.dt_trees.specs.Placed.{last_name, path_at, properties_at, reading_of, IsNode};
ghost use Rattle.dt_read.specs.Lying.{Lies, LiesIn, IsFromNode};
ghost use Rattle.dt_read.specs.TreeTokens.{Parts, AreTokens, BeginsNode, marks_in};

use crate::NodeId;
use crate::blocks::{Blocks, blocks_of};
use crate::cursor::next_token;
use crate::header::number;
use crate::parts::from;
use crate::token::Token;
use dt_model_format::blob_has_no_fault;

/// Bytes of a blob: the offset of the first, and how many they are.
#[derive(Clone, Copy, PartialEq, Eq)]
pub struct Span {
    pub at: usize,
    pub len: usize,
}

/// The value of the property of a name, among the properties at the front of tokens that begin at an offset.
fn value_from(strings: &[u8], at: usize, bytes: &[u8], name: &[u8]) -> Option<Span>
    requires { AreTokens strings.now at bytes.now }
    ensures { MatchOption result (value_of (left_by (marks_in strings.now at bytes.now)).properties name.now ≡ None)
        (λ span. (value : List ℕ) × (value_of (left_by (marks_in strings.now at bytes.now)).properties name.now ≡ Some value)
        × LiesIn at bytes.now span value) }
{
    let mut here = at;
    let mut rest = bytes;
    while let Some(found) = next_token(strings, here, rest) {
        let Token::Property(other, value) = found.token else {
            return None;
        };
        if name == other {
            return Some(Span {
                at: found.at + 12,
                len: value.len(),
            });
        }
        here = found.behind;
        rest = found.rest;
    }
    None
}

/// The property of a number, counted from 0, among the properties at the front of tokens that begin at an offset: where its name lies in the
/// strings, and its value.
fn property_from(strings: &[u8], at: usize, bytes: &[u8], index: u64) -> Option<(Span, Span)>
    requires { AreTokens strings.now at bytes.now }
    ensures { MatchOption result (slice_get (left_by (marks_in strings.now at bytes.now)).properties index ≡ None)
        (λ spans. (property : Property) × (slice_get (left_by (marks_in strings.now at bytes.now)).properties index ≡ Some property)
        × Lies strings.now spans.0 property.name × LiesIn at bytes.now spans.1 property.value) }
{
    let mut here = at;
    let mut rest = bytes;
    let mut before = index;
    while let Some(found) = next_token(strings, here, rest) {
        let Token::Property(name, value) = found.token else {
            return None;
        };
        if before == 0 {
            let offset = number(from(bytes, found.at - at), 8);
            let name = Span {
                at: offset,
                len: name.len(),
            };
            let value = Span {
                at: found.at + 12,
                len: value.len(),
            };
            return Some((name, value));
        }
        before -= 1;
        here = found.behind;
        rest = found.rest;
    }
    None
}

/// The name of the node at the front of tokens that begin at an offset.
fn name_from(strings: &[u8], at: usize, bytes: &[u8]) -> Span
    requires tokens { AreTokens strings.now at bytes.now }
    requires begins { (parts : Parts) × BeginsNode (marks_in strings.now at bytes.now) at parts }
    ensures { (parts : Parts) → BeginsNode (marks_in strings.now at bytes.now) at parts → LiesIn at bytes.now result parts.name }
{
    let Some(found) = next_token(strings, at, bytes) else {
        unreachable!()
    };
    let Token::BeginNode(name) = found.token else {
        unreachable!()
    };
    Span {
        at: found.at + 4,
        len: name.len(),
    }
}

/// The blocks of a blob.
pub(crate) fn blocks(bytes: &[u8]) -> Blocks<'_>
    requires { IsBlob bytes.now }
    ensures { AreBlocks bytes.now result }
{
    blob_has_no_fault();
    match blocks_of(bytes) {
        Ok(blocks) => blocks,
        Err(_) => unreachable!(),
    }
}

/// The strings of a blob, and the tokens from a node on.
pub(crate) fn node_from(bytes: &[u8], node: NodeId) -> (&[u8], &[u8])
    requires blob { IsBlob bytes.now }
    requires node { IsNode (placed_of bytes.now) node }
    ensures { IsFromNode bytes.now node result.0.now result.1.now }
{
    let blocks = blocks(bytes);
    (blocks.strings, from(blocks.block, node - blocks.at))
}

/// Where the name of a node lies in a blob's bytes; the root's is empty.
pub fn name_span(bytes: &[u8], node: NodeId) -> Span
    requires blob { IsBlob bytes.now }
    requires node { IsNode (placed_of bytes.now) node }
    ensures { Lies bytes.now result (last_name (path_at (placed_of bytes.now) node)) }
{
    let (strings, rest) = node_from(bytes, node);
    name_from(strings, node, rest)
}

/// Where the value of a node's property lies in a blob's bytes, None where the node has no property of that name.
pub fn value_span(bytes: &[u8], node: NodeId, name: &[u8]) -> Option<Span>
    requires blob { IsBlob bytes.now }
    requires node { IsNode (placed_of bytes.now) node }
    ensures { MatchOption result (value_in (reading_of (placed_of bytes.now)) (path_at (placed_of bytes.now) node) name.now ≡ None)
        (λ span. (value : List ℕ) × (value_in (reading_of (placed_of bytes.now)) (path_at (placed_of bytes.now) node) name.now ≡ Some value)
        × Lies bytes.now span value) }
{
    let (strings, rest) = node_from(bytes, node);
    match next_token(strings, node, rest) {
        Some(head) => value_from(strings, head.behind, head.rest, name),
        None => None,
    }
}

/// Where a property's name and its value lie.
#[derive(Clone, Copy, PartialEq, Eq)]
pub struct PropertySpans {
    pub name: Span,
    pub value: Span,
}

/// Where the property of a number, counted from 0, of a node lies in a blob's bytes, None where the node has no more.
pub fn property_spans(bytes: &[u8], node: NodeId, index: u64) -> Option<PropertySpans>
    requires blob { IsBlob bytes.now }
    requires node { IsNode (placed_of bytes.now) node }
    ensures { MatchOption result (slice_get (properties_at (placed_of bytes.now) (path_at (placed_of bytes.now) node)) index ≡ None)
        (λ spans. (property : Property) × (slice_get (properties_at (placed_of bytes.now) (path_at (placed_of bytes.now) node)) index ≡ Some property)
        × Lies bytes.now spans.name property.name × Lies bytes.now spans.value property.value) }
{
    let (strings, rest) = node_from(bytes, node);
    match next_token(strings, node, rest) {
        Some(head) => match property_from(strings, head.behind, head.rest, index) {
            Some((name, value)) => Some(PropertySpans {
                name: Span {
                    at: number(bytes, 12) + name.at,
                    len: name.len,
                },
                value,
            }),
            None => None,
        },
        None => None,
    }
}
