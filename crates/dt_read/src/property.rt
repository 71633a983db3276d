//! The token of a property, read in parts.

ghost use Rattle.std.specs.Prelude.{◌≡◌, ℕ, List, false, MatchOption};
ghost use Rattle.std.specs.Str.{bytes_eq};
ghost use Rattle.dt_model.specs.Format.{prop};
ghost use Rattle.dt_model.specs.Tree.{Property};
ghost use Rattle.dt_read.specs.Marks.{Takes};
ghost use Rattle.dt_read.specs.View.{sought_view, tag_view, HasToken, IsSought};

use crate::header::number;
use crate::parts::{from, part};
use crate::token::Tag;
use dt_bytes::text_at;

/// What a search for the properties of one name finds.
#[derive(Clone, Copy)]
pub(crate) enum Sought<'a> {
    BeginNode(&'a [u8]),
    EndNode,
    /// A property of that name, which has this value.
    Named(&'a [u8]),
    End,
}

/// Whether the property whose token is at the front has this name. The end of its own name is looked up only where it begins so.
pub(crate) fn is_named(strings: &[u8], bytes: &[u8], name: &[u8]) -> bool
    requires { (p : Property) × (n : ℕ) × Takes strings.now bytes.now (prop p) n }
    ensures { (p : Property) (n : ℕ) → Takes strings.now bytes.now (prop p) n → result ≡ bytes_eq name.now p.name }
{
    let text = from(strings, number(bytes, 8));
    if text.len() < name.len() {
        return false;
    }
    if &text[..name.len()] != name {
        return false;
    }
    match text_at(text, 0) {
        Some(text) => name == text,
        None => false,
    }
}

/// The value of the property whose token is at the front.
pub(crate) fn value_of(bytes: &[u8]) -> &[u8]
    requires { (strings : List ℕ) × (p : Property) × (n : ℕ) × Takes strings bytes.now (prop p) n }
    ensures { (strings : List ℕ) (p : Property) (n : ℕ) → Takes strings bytes.now (prop p) n → result.now ≡ p.value }
{
    part(bytes, 12, number(bytes, 4))
}

/// What a search for the properties of a name finds in a token that is no NOP; None in a property of another name.
pub(crate) fn look_for<'a>(strings: &'a [u8], tag: Tag<'a>, name: &[u8]) -> Option<Sought<'a>>
    requires token { (p : Property) × HasToken strings.now tag p }
    requires no_nop { tag ≡ Tag.Nop → ⊥ }
    ensures { (p : Property) → HasToken strings.now tag.entry p → MatchOption result
        ((bytes_eq name.now p.name ≡ false) × (tag_view tag.entry p ≡ prop p))
        (λ sought. IsSought name.now sought p × (sought_view sought p ≡ tag_view tag.entry p)) }
{
    match tag {
        Tag::BeginNode(name) => Some(Sought::BeginNode(name)),
        Tag::EndNode => Some(Sought::EndNode),
        Tag::Property(own) => {
            if is_named(strings, own, name) {
                Some(Sought::Named(value_of(own)))
            } else {
                None
            }
        }
        Tag::Nop | Tag::End => Some(Sought::End),
    }
}
