//! The properties and the children of a node, in order.

ghost use Rattle.std.specs.Prelude.{◌≡◌, ◌++◌, ◌∷◌, [], List, ℕ, length, drop};
ghost use Rattle.std.specs.Option.{MatchOption, option_copied};
ghost use Rattle.dt_model.specs.Tree.{value_of};
ghost use Rattle.dt_read.specs.Parsing.{left_by};
ghost use Rattle.dt_read.specs.TreeTokens.{AreSiblings, heads_left, head_named};
ghost use Rattle.std.specs.Iterator.{YieldsFirst, YieldsFirstBy, item_count};

use crate::NodeId;
use crate::cursor::{Cursor, skip_node};
use crate::property::Sought;
use crate::token::{Tag, Token};
use std::marker::Model;

/// Reads the property at the front.
fn next_property<'a>(cursor: &mut Cursor<'a>) -> Option<(&'a [u8], &'a [u8])>
    ensures { MatchOption result (((left_by cursor.old).properties ≡ []) × ((left_by cursor.new).properties ≡ []))
        (λ p. (left_by cursor.old).properties ≡ record { name = p.0.now; value = p.1.now } ∷ (left_by cursor.new).properties) }
{
    let mut ahead = cursor.copy();
    let Some((_, token)) = ahead.next() else {
        return None;
    };
    let Token::Property(name, value) = token else {
        return None;
    };
    *cursor = ahead;
    Some((name, value))
}

/// Goes behind the node at the front, where there is one.
fn next_sibling<'a>(cursor: &mut Cursor<'a>) -> Option<(usize, &'a [u8])>
    requires { AreSiblings cursor.old }
    ensures siblings { AreSiblings cursor.new }
    ensures places { MatchOption result ((heads_left cursor.old ≡ []) × (heads_left cursor.new ≡ []))
        (λ head. heads_left cursor.old ≡ (head.0, head.1.now) ∷ heads_left cursor.new) }
{
    let mut ahead = cursor.copy();
    let Some((node, token)) = ahead.next() else {
        return None;
    };
    let Token::BeginNode(name) = token else {
        return None;
    };
    skip_node(&mut ahead);
    *cursor = ahead;
    Some((node, name))
}

/// Properties from a place on. It is seen as the names and values that are left.
#[derive(Drop)]
pub struct Props<'a> {
    cursor: Cursor<'a>,
}

impl<'a> Model for Props<'a> {
    ghost use Rattle.std.specs.Prelude.{List};
    ghost use Rattle.std.specs.Coded.{coded_list};
    ghost use Rattle.dt_model.specs.Tree.{Property};
    ghost use Rattle.dt_read.specs.Parsing.{left_by};
    ghost use Rattle.dt_read.specs.TreeCode.{coded_property};

    ghost Value = { List Property };

    ghost coded = { coded_list coded_property };

    ghost view = { λ p. (left_by p.cursor).properties };
}

impl<'a> Props<'a> {
    ghost use Rattle.dt_read.specs.Parsing.{left_by};

    pub(crate) fn new(cursor: Cursor<'a>) -> Props<'a>
        ensures { result ≡ (left_by cursor.entry).properties }
    {
        Props { cursor }
    }
}

impl<'a> Iterator for Props<'a> {
    type Item = (&'a [u8], &'a [u8]);

    ghost next_gives = { YieldsFirstBy (λ p. record { name = p.0.now; value = p.1.now }) (λ s. s) };

    ghost remaining = { item_count (λ s. s) };

    fn next(&mut self) -> Option<(&'a [u8], &'a [u8])> {
        next_property(&mut self.cursor)
    }
}

/// The value of the property of a name, among the properties at the front.
pub(crate) fn value_in<'a>(mut cursor: Cursor<'a>, name: &[u8]) -> Option<&'a [u8]>
    ensures { option_copied result ≡ value_of (left_by cursor.entry).properties name.now }
{
    let (_, sought) = cursor.seek(name)?;
    let Sought::Named(value) = sought else {
        return None;
    };
    Some(value)
}

/// Sibling nodes from a place on. It is seen as their places and names.
#[derive(Drop)]
pub(crate) struct Siblings<'a> {
    cursor: Cursor<'a>,
}

impl<'a> Model for Siblings<'a> {
    ghost use Rattle.std.specs.Prelude.{List, ℕ};
    ghost use Rattle.dt_read.specs.TreeTokens.{heads_left, AreSiblings};

    ghost Value = { List (ℕ × List ℕ) };

    ghost view = { λ c. heads_left c.cursor };

    ghost invariant = { λ c. AreSiblings c.cursor };
}

impl<'a> Siblings<'a> {
    ghost use Rattle.std.specs.Prelude.{map};
    ghost use Rattle.std.specs.List.{slice_get};
    ghost use Rattle.dt_read.specs.TreeTokens.{heads_left, AreSiblings};

    pub(crate) fn new(cursor: Cursor<'a>) -> Siblings<'a>
        requires { AreSiblings cursor }
        ensures { result ≡ heads_left cursor.entry }
    {
        Siblings { cursor }
    }

    /// The first of them. It reads one token.
    fn first(&self) -> Option<NodeId>
        ensures { result ≡ slice_get (map (λ head. head.0) self.now) 0 }
    {
        let mut ahead = self.cursor.copy();
        let (node, tag) = ahead.next_tag()?;
        let Tag::BeginNode(_) = tag else {
            return None;
        };
        Some(node)
    }
}

impl<'a> Iterator for Siblings<'a> {
    type Item = (usize, &'a [u8]);

    ghost next_gives = { YieldsFirstBy (λ head. (head.0, head.1.now)) (λ s. s) };

    ghost remaining = { item_count (λ s. s) };

    fn next(&mut self) -> Option<(usize, &'a [u8])> {
        next_sibling(&mut self.cursor)
    }
}

/// The sibling of a name, where there is one.
pub(crate) fn sibling_in(mut siblings: Siblings<'_>, name: &[u8]) -> Option<NodeId>
    ensures { result ≡ head_named siblings.entry name.now }
{
    while let Some((node, key)) = siblings.next() {
        if name == key {
            return Some(node);
        }
    }
    None
}

/// The children of a node that are left, in order. It is seen as their places.
#[derive(Drop)]
pub struct Children<'a> {
    siblings: Siblings<'a>,
}

impl<'a> Model for Children<'a> {
    ghost use Rattle.std.specs.Prelude.{List, ℕ, map};

    ghost Value = { List ℕ };

    ghost view = { λ c. map (λ head. head.0) c.siblings };
}

impl<'a> Children<'a> {
    ghost use Rattle.std.specs.Prelude.{map};
    ghost use Rattle.std.specs.List.{slice_get};

    pub(crate) fn new(siblings: Siblings<'a>) -> Children<'a>
        ensures { result ≡ map (λ head. head.0) siblings.entry }
    {
        Children { siblings }
    }

    /// The first of them. It reads one token, where a step of the iterator goes behind the child.
    pub(crate) fn first(&self) -> Option<NodeId>
        ensures { result ≡ slice_get self.now 0 }
    {
        self.siblings.first()
    }
}

impl<'a> Iterator for Children<'a> {
    type Item = NodeId;

    ghost next_gives = { YieldsFirst (λ s. s) };

    ghost remaining = { item_count (λ s. s) };

    fn next(&mut self) -> Option<NodeId> {
        match self.siblings.next() {
            Some((node, _)) => Some(node),
            None => None,
        }
    }
}
