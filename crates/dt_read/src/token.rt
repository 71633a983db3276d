//! The tokens of a structure block (Devicetree Specification v0.4, 5.4).

ghost use Rattle.std.specs.Prelude.{◌≡◌, ℕ, ◌+◌, ◌*◌, ◌/◌, ◌<◌, ◌≤◌, ◌^◌, List, Some, length, drop, take, Option, IsTrue};
ghost use Rattle.std.specs.Option.{option_map, IfSome};
ghost use Rattle.dt_model.specs.Format.{begin_node, prop, word_at};
ghost use Rattle.dt_model.specs.Tree.{Property};
ghost use Rattle.dt_model.specs.Lexing.{padded, begin_in, property_in, token_in};
ghost use Rattle.dt_read.specs.Marks.{Takes};
ghost use Rattle.dt_read.specs.View.{view, IsInFront, IsTagIn};

use dt_bytes::{be32, text_at};

const BEGIN_NODE: u32 = 1;

const END_NODE: u32 = 2;

pub(crate) const PROP: u32 = 3;

const NOP: u32 = 4;

const END: u32 = 9;

/// A token, with slices of the blob.
#[derive(Clone, Copy)]
pub(crate) enum Token<'a> {
    BeginNode(&'a [u8]),
    EndNode,
    Property(&'a [u8], &'a [u8]),
    Nop,
    End,
}

/// A token, without the name and the value of a property, which has the bytes from its token on in their place.
#[derive(Clone, Copy)]
pub(crate) enum Tag<'a> {
    BeginNode(&'a [u8]),
    EndNode,
    Property(&'a [u8]),
    Nop,
    End,
}

/// The least multiple of four that isn't below a length.
pub(crate) fn padded_len(len: usize) -> usize
    requires { len < 2 ^ 33 }
    ensures { result ≡ padded len }
{
    (len + 3) / 4 * 4
}

/// The name of a node that begins at the front, and how many bytes its token takes.
#[tactic(auto, unfolding(dt_model::specs::Lexing::begin_in))]
fn begin_at(bytes: &[u8]) -> Option<(&[u8], usize)>
    requires { length bytes.now < 2 ^ 32 }
    ensures is { option_map (λ r. (begin_node r.0.now, r.1)) result ≡ begin_in bytes.now }
    ensures within { IfSome result (λ r. (4 ≤ r.1) × (r.1 ≤ length bytes.now)) }
{
    let name = text_at(bytes, 4)?;
    let len = padded_len(4 + name.len() + 1);
    if bytes.len() < len {
        return None;
    }
    Some((name, len))
}

#[tactic(auto, unfolding(dt_model::specs::Lexing::property_in))]
fn property_at<'a>(strings: &'a [u8], bytes: &'a [u8]) -> Option<(Token<'a>, usize)>
    ensures { option_map (λ r. (view r.0, r.1)) result ≡ property_in strings.now bytes.now }
{
    let value_len = be32(bytes, 4)? as usize;
    let offset = be32(bytes, 8)? as usize;
    let name = text_at(strings, offset)?;
    let len = padded_len(12 + value_len);
    if bytes.len() < len {
        return None;
    }
    Some((Token::Property(name, &bytes[12..12 + value_len]), len))
}

#[tactic(auto, unfolding(dt_model::specs::Lexing::token_in))]
fn token_of<'a>(strings: &'a [u8], bytes: &'a [u8]) -> Option<(Token<'a>, usize)>
    requires { length bytes.now < 2 ^ 32 }
    ensures { option_map (λ r. (view r.0, r.1)) result ≡ token_in strings.now bytes.now }
{
    match be32(bytes, 0)? {
        BEGIN_NODE => {
            let (name, len) = begin_at(bytes)?;
            Some((Token::BeginNode(name), len))
        }
        END_NODE => Some((Token::EndNode, 4)),
        PROP => property_at(strings, bytes),
        NOP => Some((Token::Nop, 4)),
        END => Some((Token::End, 4)),
        _ => None,
    }
}

/// The token at the front of the bytes, and how many bytes it takes.
#[inline(always)]
pub(crate) fn token_at<'a>(strings: &'a [u8], bytes: &'a [u8]) -> Option<(Token<'a>, usize)>
    requires { length bytes.now < 2 ^ 32 }
    ensures takes { IfSome result (λ r. Takes strings.now bytes.now (view r.0) r.1) }
    ensures token { option_map (λ r. (view r.0, r.1)) result ≡ token_in strings.now bytes.now }
{
    token_of(strings, bytes)
}

/// How many bytes the property at the front takes.
fn property_len(bytes: &[u8]) -> Option<usize>
    ensures is { (strings : List ℕ) → IfSome (property_in strings bytes.now) (λ r. (p : Property) × (prop p ≡ r.0) × (result ≡ Some r.1)) }
    ensures within { IfSome result (λ len. (4 ≤ len) × (len ≤ length bytes.now)) }
{
    let len = padded_len(12 + be32(bytes, 4)? as usize);
    if bytes.len() < len {
        return None;
    }
    Some(len)
}

/// Does a node begin at the front?
pub(crate) fn begins_a_node(bytes: &[u8]) -> bool
    ensures { IsTrue result → word_at bytes.now 0 ≡ Some 1 }
{
    matches!(be32(bytes, 0), Some(BEGIN_NODE))
}

/// The tag at the front, and how many bytes its token takes. It costs less than `token_at`, and may answer one where the bytes are no token.
#[inline(always)]
#[tactic(auto, unfolding(dt_model::specs::Lexing::token_in))]
pub(crate) fn tag_at<'a>(bytes: &'a [u8]) -> Option<(Tag<'a>, usize)>
    requires { length bytes.now < 2 ^ 32 }
    ensures is { (strings : List ℕ) → IfSome (token_in strings bytes.now) (IsTagIn result) }
    ensures front { IfSome result (λ r. IsInFront r.0 bytes.now) }
    ensures within { IfSome result (λ r. (4 ≤ r.1) × (r.1 ≤ length bytes.now)) }
{
    match be32(bytes, 0)? {
        BEGIN_NODE => {
            let (name, len) = begin_at(bytes)?;
            Some((Tag::BeginNode(name), len))
        }
        END_NODE => Some((Tag::EndNode, 4)),
        PROP => Some((Tag::Property(bytes), property_len(bytes)?)),
        NOP => Some((Tag::Nop, 4)),
        END => Some((Tag::End, 4)),
        _ => None,
    }
}
