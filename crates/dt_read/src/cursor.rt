//! A place in a structure block, from which tokens are read.

ghost use Rattle.std.specs.Prelude.{◌≡◌, ℕ, ◌+◌, ◌∷◌, [], ◌<◌, ◌^◌, List, length};
ghost use Rattle.dt_model.specs.Tree.{Property};
ghost use Rattle.std.specs.Option.{MatchOption, IfSome};
ghost use Rattle.dt_read.specs.Cuts.{Passes};
ghost use Rattle.dt_read.specs.Lying.{TokenLies};
ghost use Rattle.dt_read.specs.View.{view, view_at, sought_view, tag_mark, HasToken, IsSought};
ghost use Rattle.dt_read.specs.Marks.{mark_at};
ghost use Rattle.dt_read.specs.TreeTokens.{AreTokens, marks_in, past, past_others, past_properties};

use crate::property::{Sought, look_for};
use crate::token::{Tag, Token, begins_a_node, tag_at, token_at};
use std::marker::Model;

/// A token, its place, and what follows it.
#[derive(Drop)]
pub(crate) struct Found<'a> {
    pub at: usize,
    pub token: Token<'a>,
    pub behind: usize,
    pub rest: &'a [u8],
}

/// The first token that isn't a NOP.
pub(crate) fn next_token<'a>(strings: &'a [u8], at: usize, bytes: &'a [u8]) -> Option<Found<'a>>
    requires { AreTokens strings.now at bytes.now }
    ensures next { MatchOption result (marks_in strings.now at bytes.now ≡ []) (λ found.
        marks_in strings.now at bytes.now ≡ view_at found.at found.token ∷ marks_in strings.now found.behind found.rest.now) }
    ensures no_nop { IfSome result (λ found. found.token ≡ Token.Nop → ⊥) }
    ensures few { length (marks_in strings.now at bytes.now) < 2 ^ 32 }
    ensures lies { IfSome result (λ found.
        TokenLies strings.now at bytes.now found.at (view found.token) found.behind found.rest.now) }
    ensures tokens { MatchOption result (AreTokens strings.now at bytes.now) (λ found.
        AreTokens strings.now found.behind found.rest.now) }
    ensures nops { IfSome result (λ found. Passes strings.now at bytes.now found.at []) }
{
    let mut here = at;
    let mut rest = bytes;
    while let Some((token, len)) = token_at(strings, rest) {
        let behind = here + len;
        let after = &rest[len..];
        if let Token::Nop = token {
            here = behind;
            rest = after;
            continue;
        }
        return Some(Found {
            at: here,
            token,
            behind,
            rest: after,
        });
    }
    None
}

/// A tag, its place, and what is behind its token.
#[derive(Drop)]
pub(crate) struct FoundTag<'a> {
    pub at: usize,
    pub tag: Tag<'a>,
    pub behind: usize,
    pub rest: &'a [u8],
}

/// The first tag that isn't a NOP.
pub(crate) fn next_tag<'a>(at: usize, bytes: &'a [u8]) -> Option<FoundTag<'a>>
    requires { at + length bytes.now < 2 ^ 32 }
    ensures next { (strings : List ℕ) → AreTokens strings at bytes.now → MatchOption result (marks_in strings at bytes.now ≡ []) (λ found.
        (p : Property) × (marks_in strings at bytes.now ≡ tag_mark found.at found.tag p ∷ marks_in strings found.behind found.rest.now)
        × HasToken strings found.tag p) }
    ensures no_nop { IfSome result (λ found. found.tag ≡ Tag.Nop → ⊥) }
    ensures tokens { (strings : List ℕ) → AreTokens strings at bytes.now → IfSome result (λ found. AreTokens strings found.behind found.rest.now) }
{
    let mut here = at;
    let mut rest = bytes;
    while let Some((tag, len)) = tag_at(rest) {
        let behind = here + len;
        let after = &rest[len..];
        if let Tag::Nop = tag {
            here = behind;
            rest = after;
            continue;
        }
        return Some(FoundTag {
            at: here,
            tag,
            behind,
            rest: after,
        });
    }
    None
}

/// A place in a structure block. It is seen as the tokens from there on, without NOPs.
#[derive(Drop)]
pub(crate) struct Cursor<'a> {
    strings: &'a [u8],
    at: usize,
    rest: &'a [u8],
}

impl<'a> Model for Cursor<'a> {
    ghost use Rattle.std.specs.Prelude.{List};
    ghost use Rattle.dt_read.specs.Marks.{Mark};
    ghost use Rattle.dt_read.specs.TreeCode.{coded_marks};
    ghost use Rattle.dt_read.specs.TreeTokens.{AreTokens, marks_in};

    ghost Value = { List Mark };

    ghost coded = { coded_marks };

    ghost view = { λ c. marks_in c.strings.now c.at c.rest.now };

    ghost invariant = { λ c. AreTokens c.strings.now c.at c.rest.now };
}

impl<'a> Cursor<'a> {
    ghost use Rattle.dt_model.specs.Names.{Name};
    ghost use Rattle.dt_read.specs.Marks.{Mark, begin_mark};

    pub fn new(strings: &'a [u8], at: usize, rest: &'a [u8]) -> Cursor<'a>
        requires { AreTokens strings.now at rest.now }
        ensures { result ≡ marks_in strings.now at rest.now }
    {
        Cursor { strings, at, rest }
    }

    /// The same place.
    pub fn copy(&self) -> Cursor<'a>
        ensures same { result ≡ self.now }
        ensures few { length result < 2 ^ 32 }
    {
        Cursor {
            strings: self.strings,
            at: self.at,
            rest: self.rest,
        }
    }

    /// The strings, the offset of the place, and the bytes from there on.
    pub fn parts(&self) -> (&'a [u8], usize, &'a [u8])
        ensures tokens { AreTokens result.0.now result.1 result.2.now }
        ensures same { marks_in result.0.now result.1 result.2.now ≡ self.now }
    {
        (self.strings, self.at, self.rest)
    }

    /// Reads a token, with its offset.
    pub fn next(&mut self) -> Option<(usize, Token<'a>)>
        ensures next { MatchOption result ((self.old ≡ []) × (self.new ≡ [])) (λ found. self.old ≡ view_at found.0 found.1 ∷ self.new) }
        ensures no_nop { IfSome result (λ found. found.1 ≡ Token.Nop → ⊥) }
        ensures few { length self.old < 2 ^ 32 }
    {
        let found = next_token(self.strings, self.at, self.rest)?;
        self.at = found.behind;
        self.rest = found.rest;
        Some((found.at, found.token))
    }

    /// Reads a tag, with its offset. It costs less than `next`, which looks up a property's name.
    pub fn next_tag(&mut self) -> Option<(usize, Tag<'a>)>
        ensures next { MatchOption result ((self.old ≡ []) × (self.new ≡ [])) (λ found.
            (p : Property) × (self.old ≡ tag_mark found.0 found.1 p ∷ self.new)) }
        ensures no_nop { IfSome result (λ found. found.1 ≡ Tag.Nop → ⊥) }
        ensures few { length self.old < 2 ^ 32 }
    {
        let found = next_tag(self.at, self.rest)?;
        self.at = found.behind;
        self.rest = found.rest;
        Some((found.at, found.tag))
    }

    /// The place of the node that begins next, where its BEGIN_NODE is the very next token. It costs less than `next_tag`, which looks for the end of the
    /// node's name.
    pub fn node_at_front(&self) -> Option<usize>
        ensures { IfSome result (λ place. (name : Name) × (later : List Mark) × (self.now ≡ begin_mark place name ∷ later)) }
    {
        if begins_a_node(self.rest) {
            Some(self.at)
        } else {
            None
        }
    }

    /// Skips the properties of other names, and reads what comes then, with its offset.
    #[inline(always)]
    pub fn seek(&mut self, name: &[u8]) -> Option<(usize, Sought<'a>)>
        ensures next { MatchOption result ((past_others name.now self.old ≡ []) × (self.new ≡ [])) (λ found.
            (p : Property) × IsSought name.now found.1 p × (past_others name.now self.old ≡ mark_at found.0 (sought_view found.1 p) ∷ self.new)) }
        ensures fewer { IfSome result (λ _. length self.new < length self.old) }
    {
        while let Some(found) = next_tag(self.at, self.rest) {
            self.at = found.behind;
            self.rest = found.rest;
            if let Some(sought) = look_for(self.strings, found.tag, name) {
                return Some((found.at, sought));
            }
        }
        None
    }
}

/// Goes behind the node whose BEGIN_NODE was read last.
pub(crate) fn skip_node(cursor: &mut Cursor)
    ensures { cursor.new ≡ past cursor.old 1 }
{
    let mut open_nodes = 1usize;
    while open_nodes > 0 {
        let Some((_, tag)) = cursor.next_tag() else {
            return;
        };
        match tag {
            Tag::BeginNode(_) => open_nodes += 1,
            Tag::EndNode => open_nodes -= 1,
            _ => {}
        }
    }
}

/// Goes behind the properties at the front.
pub(crate) fn skip_properties(cursor: &mut Cursor)
    ensures { cursor.new ≡ past_properties cursor.old }
{
    let mut ahead = cursor.copy();
    while let Some((_, Tag::Property(_))) = ahead.next_tag() {
        *cursor = ahead.copy();
    }
}
