//! What has to differ in a blob: names of siblings and of a node's properties, and phandles.

ghost use Rattle.std.specs.Prelude.{◌≡◌, ◌<◌, ◌^◌, ◌∷◌, [], ℕ, false, length, option_map, MatchOption};
ghost use Rattle.std.specs.Iterator.{YieldsFirstBy, item_count};
ghost use Rattle.dt_read.specs.View.{view_at};
ghost use Rattle.dt_read.specs.Keys.{said, key_of, ends as ends_at, keys_in, keys_of, AreShallowFor, IsAtEnd};
ghost use Rattle.dt_read.specs.declared.keys.Wanted.TheVariants.{Own};

use crate::NodeId;
use crate::cursor::Cursor;
use crate::open_nodes::OpenNodes;
use crate::property::Sought;
use crate::structure::Structure;
use crate::token::Token;
use std::marker::Model;

/// What a key is of.
#[derive(Clone, Copy, PartialEq, Eq, Hash)]
pub(crate) enum Sort {
    /// The name of a child.
    Child,
    /// The name of a property.
    Property,
    /// The value of a property `phandle`.
    Phandle,
}

/// Bytes that have to differ from all others of their sort and of their owner.
#[derive(Clone, Copy, PartialEq, Eq)]
pub(crate) struct Key<'a> {
    pub sort: Sort,
    /// The node that a name belongs to. Phandles have one owner, 0.
    pub owner: NodeId,
    pub bytes: &'a [u8],
}

/// Which keys are read.
#[derive(Clone, Copy)]
pub(crate) enum Wanted {
    /// Those of all children and of all properties.
    Names,
    /// Those of all children.
    Children,
    /// Those of one node's properties, which come first of the tokens.
    Own,
    /// Those of all phandles.
    Phandles,
}

/// The name that a token gives as a key, where these nodes are open.
fn key_at<'a>(wanted: Wanted, open_nodes: &OpenNodes, token: Token<'a>) -> Option<Key<'a>>
    requires { wanted ≡ Wanted.Phandles → ⊥ }
    ensures { (place : ℕ) → option_map said result ≡ key_of wanted open_nodes.now (view_at place token.entry) }
{
    let (sort, bytes) = match (wanted, token) {
        (Wanted::Names | Wanted::Children, Token::BeginNode(name)) => (Sort::Child, name),
        (Wanted::Names | Wanted::Own, Token::Property(name, _)) => (Sort::Property, name),
        _ => return None,
    };
    let owner = open_nodes.innermost()?;
    Some(Key { sort, owner, bytes })
}

/// Whether a node's own keys end at a token.
fn ends(token: Token<'_>) -> bool
    ensures { (place : ℕ) → result ≡ ends_at Own (view_at place token.entry) }
{
    !matches!(token, Token::Property(_, _) | Token::Nop)
}

/// Reads a token, where a node's own keys don't end there.
fn next_own<'a>(cursor: &mut Cursor<'a>) -> Option<(usize, Token<'a>)>
    ensures next { MatchOption result (IsAtEnd Own cursor.old × (cursor.new ≡ cursor.old))
        (λ found. (cursor.old ≡ view_at found.0 found.1 ∷ cursor.new) × (ends_at Own (view_at found.0 found.1) ≡ false)) }
{
    let mut ahead = cursor.copy();
    let (place, token) = ahead.next()?;
    if ends(token) {
        return None;
    }
    *cursor = ahead;
    Some((place, token))
}

/// Reads a token, where the keys don't end there.
fn next_token<'a>(wanted: Wanted, cursor: &mut Cursor<'a>) -> Option<(usize, Token<'a>)>
    ensures next { MatchOption result (IsAtEnd wanted cursor.old × (cursor.new ≡ cursor.old))
        (λ found. (cursor.old ≡ view_at found.0 found.1 ∷ cursor.new) × (ends_at wanted (view_at found.0 found.1) ≡ false)) }
{
    match wanted {
        Wanted::Own => next_own(cursor),
        Wanted::Names | Wanted::Children | Wanted::Phandles => cursor.next(),
    }
}

/// Reads up to the next phandle, and keeps the open nodes.
fn next_phandle<'a>(cursor: &mut Cursor<'a>, open_nodes: &mut OpenNodes) -> Option<Key<'a>>
    requires { AreShallowFor Wanted.Phandles (length open_nodes.old) cursor.old }
    ensures next { MatchOption result ((keys_in Wanted.Phandles open_nodes.old cursor.old ≡ []) × (keys_in Wanted.Phandles open_nodes.new cursor.new ≡ []))
        (λ key. keys_in Wanted.Phandles open_nodes.old cursor.old ≡ said key ∷ keys_in Wanted.Phandles open_nodes.new cursor.new) }
    ensures shallow { AreShallowFor Wanted.Phandles (length open_nodes.new) cursor.new }
{
    while let Some((place, sought)) = cursor.seek(b"phandle") {
        match sought {
            Sought::BeginNode(_) => open_nodes.push(place),
            Sought::EndNode => open_nodes.pop(),
            Sought::Named(value) => {
                return Some(Key {
                    sort: Sort::Phandle,
                    owner: 0,
                    bytes: value,
                });
            }
            Sought::End => {}
        }
    }
    None
}

/// The keys from a place on, in the order of the tokens. It is seen as the keys that are left.
#[derive(Drop)]
pub(crate) struct Keys<'a> {
    wanted: Wanted,
    cursor: Cursor<'a>,
    open_nodes: OpenNodes,
}

impl<'a> Model for Keys<'a> {
    ghost use Rattle.std.specs.Prelude.{List, length};
    ghost use Rattle.std.specs.Coded.{coded_list};
    ghost use Rattle.dt_read.specs.Keys.{Key, AreShallowFor, coded_key, keys_in};

    ghost Value = { List Key };

    ghost coded = { coded_list coded_key };

    ghost view = { λ k. keys_in k.wanted k.open_nodes k.cursor };

    ghost invariant = { λ k. AreShallowFor k.wanted (length k.open_nodes) k.cursor };
}

impl<'a> Keys<'a> {
    /// All keys of a tree.
    pub fn of(structure: &Structure<'a>, wanted: Wanted) -> Keys<'a>
        ensures all { result ≡ keys_of wanted structure.now }
        ensures few { length result < 2 ^ 32 }
    {
        Keys {
            wanted,
            cursor: structure.start(),
            open_nodes: OpenNodes::new(),
        }
    }

    /// Those of the properties of a node. The cursor is behind the node's BEGIN_NODE.
    pub fn own(cursor: Cursor<'a>, place: NodeId) -> Keys<'a>
        ensures { result ≡ keys_in Own (place ∷ []) cursor.entry }
    {
        let mut open_nodes = OpenNodes::new();
        open_nodes.push(place);
        Keys {
            wanted: Wanted::Own,
            cursor,
            open_nodes,
        }
    }

    /// The same keys.
    pub fn copy(&self) -> Keys<'a>
        ensures same { result ≡ self.now }
        ensures few { length result < 2 ^ 32 }
    {
        Keys {
            wanted: self.wanted,
            cursor: self.cursor.copy(),
            open_nodes: self.open_nodes.copy(),
        }
    }
}

impl<'a> Iterator for Keys<'a> {
    type Item = Key<'a>;

    ghost next_gives = { YieldsFirstBy said (λ s. s) };

    ghost remaining = { item_count (λ s. s) };

    fn next(&mut self) -> Option<Key<'a>> {
        if let Wanted::Phandles = self.wanted {
            return next_phandle(&mut self.cursor, &mut self.open_nodes);
        }
        while let Some((place, token)) = next_token(self.wanted, &mut self.cursor) {
            let key = key_at(self.wanted, &self.open_nodes, token);
            match token {
                Token::BeginNode(_) => self.open_nodes.push(place),
                Token::EndNode => self.open_nodes.pop(),
                _ => {}
            }
            if key.is_some() {
                return key;
            }
        }
        None
    }
}
