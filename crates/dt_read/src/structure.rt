//! A checked structure block.

ghost use Rattle.std.specs.Prelude.{◌≡◌, ◌+◌, ◌<◌, ◌^◌, ◌∷◌, ◌++◌, [], List, map, length, IfOk, IfErr, IfSome, IsSome};

use crate::NodeId;
use crate::cursor::{Cursor, skip_node, skip_properties};
use crate::scan::{BadTagAt, first_bad_tag};
use crate::steps::Steps;
use crate::token::Tag;
use crate::walk::{Props, Siblings, sibling_in, value_in};
use std::hash::{DefaultHasher, Hasher};
use std::marker::Model;

/// A structure block that spells a tree. It is seen as that tree.
#[derive(Drop)]
pub(crate) struct Structure<'a> {
    strings: &'a [u8],
    at: usize,
    block: &'a [u8],
}

impl<'a> Model for Structure<'a> {
    ghost use Rattle.dt_read.specs.Marks.{Root};
    ghost use Rattle.dt_read.specs.TreeCode.{coded_root};
    ghost use Rattle.dt_read.specs.Parsing.{tree_in};
    ghost use Rattle.dt_read.specs.TreeTokens.{IsStructure};

    ghost Value = { Root };

    ghost coded = { coded_root };

    ghost view = { λ s. tree_in s.strings.now s.at s.block.now };

    ghost invariant = { λ s. IsStructure s.strings.now s.at s.block.now };
}

impl<'a> Structure<'a> {
    ghost use Rattle.std.specs.Option.{option_copied};
    ghost use Rattle.dt_model.specs.Checks.{BlobFault, StopsAt};
    ghost use Rattle.dt_model.specs.Tree.{value_of};
    ghost use Rattle.dt_read.specs.Keys.{AreShallow};
    ghost use Rattle.dt_read.specs.Kinds.{kind_of};
    ghost use Rattle.dt_read.specs.Marks.{last_mark, marks_of};
    ghost use Rattle.dt_read.specs.Order.{HasRisingPlaces};
    ghost use Rattle.dt_read.specs.Walked.{Step, holds, closes, steps_of_nodes};
    ghost use Rattle.dt_read.specs.Parsing.{tree_in};
    ghost use Rattle.dt_read.specs.TreeTokens.{HasTree, IsStructure, node_of, heads_of, head_named, first_place, BeginsNode};

    /// The tree that a structure block spells, or its first wrong token. The block is at that place of the blob.
    pub fn check(strings: &'a [u8], at: usize, block: &'a [u8]) -> Result<Structure<'a>, BadTagAt>
        requires { at + length block.now < 2 ^ 32 }
        ensures tree { IfOk result (λ tree. HasTree strings.now at block.now tree) }
        ensures places { IfOk result HasRisingPlaces }
        ensures first { IfErr result (λ bad. (f : BlobFault) × (bad.kind ≡ kind_of f)
            × StopsAt strings.now block.now bad.offset f) }
    {
        match first_bad_tag(strings, block) {
            None => Ok(Structure { strings, at, block }),
            Some(bad) => Err(bad),
        }
    }

    /// The tree of a block that is known to spell one.
    pub fn of(strings: &'a [u8], at: usize, block: &'a [u8]) -> Structure<'a>
        requires { IsStructure strings.now at block.now }
        ensures { result ≡ tree_in strings.now at block.now }
    {
        Structure { strings, at, block }
    }

    /// The place where a node begins.
    fn cursor_at(&self, node: NodeId) -> Cursor<'a>
        requires { IsSome (node_of self.now node) }
        ensures { IfSome (node_of self.now node) (BeginsNode result node) }
    {
        Cursor::new(self.strings, node, &self.block[node - self.at..])
    }

    /// The place of the first token.
    pub fn start(&self) -> Cursor<'a>
        ensures tokens { result ≡ marks_of self.now ++ last_mark ∷ [] }
        ensures shallow { AreShallow 0 result }
        ensures few { length result < 2 ^ 32 }
    {
        Cursor::new(self.strings, self.at, self.block)
    }

    /// A hash of all bytes that names come from. Whoever makes names for one seed changes it by them.
    pub fn seed(&self) -> u64 {
        let mut hasher = DefaultHasher::new();
        hasher.write(self.block);
        hasher.write(self.strings);
        hasher.finish()
    }

    /// About as many names as the block may hold: each takes twelve bytes of tokens at least. It only decides how long a check takes.
    pub fn most_names(&self) -> usize {
        self.block.len() / 12
    }

    /// The root.
    pub fn root(&self) -> NodeId
        ensures { result ≡ self.now.place }
    {
        let mut cursor = Cursor::new(self.strings, self.at, self.block);
        match cursor.next() {
            Some((node, _)) => node,
            None => unreachable!(),
        }
    }

    /// The name of a node; the root's is empty.
    pub fn name(&self, node: NodeId) -> &'a [u8]
        requires { IsSome (node_of self.now node) }
        ensures { IfSome (node_of self.now node) (λ parts. result.now ≡ parts.name) }
    {
        let mut cursor = self.cursor_at(node);
        match cursor.next_tag() {
            Some((_, Tag::BeginNode(name))) => name,
            _ => unreachable!(),
        }
    }

    /// The properties of a node, in order.
    pub fn props(&self, node: NodeId) -> Props<'a>
        requires { IsSome (node_of self.now node) }
        ensures { IfSome (node_of self.now node) (λ parts. result ≡ parts.properties) }
    {
        let mut cursor = self.cursor_at(node);
        let _ = cursor.next_tag();
        Props::new(cursor)
    }

    /// The children of a node, in order, with their names.
    pub fn siblings(&self, node: NodeId) -> Siblings<'a>
        requires { IsSome (node_of self.now node) }
        ensures { IfSome (node_of self.now node) (λ parts. result ≡ heads_of parts.children) }
    {
        let mut cursor = self.cursor_at(node);
        let _ = cursor.next_tag();
        skip_properties(&mut cursor);
        Siblings::new(cursor)
    }

    /// The child of a node that has a name, where there is one.
    pub fn child(&self, node: NodeId, name: &[u8]) -> Option<NodeId>
        requires { IsSome (node_of self.now node) }
        ensures { IfSome (node_of self.now node) (λ parts. result ≡ head_named (heads_of parts.children) name.now) }
    {
        sibling_in(self.siblings(node), name)
    }

    /// The sibling behind a node, where there is one.
    pub fn next_sibling(&self, node: NodeId) -> Option<NodeId>
        requires { IsSome (node_of self.now node) }
        ensures { IfSome (node_of self.now node) (λ parts. result ≡ first_place parts.siblings) }
    {
        let mut cursor = self.cursor_at(node);
        let _ = cursor.next_tag();
        skip_node(&mut cursor);
        if let Some(sibling) = cursor.node_at_front() {
            return Some(sibling);
        }
        let (sibling, tag) = cursor.next_tag()?;
        let Tag::BeginNode(_) = tag else {
            return None;
        };
        Some(sibling)
    }

    /// A walk through what a node has, and on behind the node.
    pub fn steps_in(&self, node: NodeId) -> Steps<'a>
        requires { IsSome (node_of self.now node) }
        ensures { IfSome (node_of self.now node) (λ parts. (behind : List Step)
            × (result ≡ map holds parts.properties ++ (steps_of_nodes parts.children ++ closes ∷ behind))) }
    {
        let mut cursor = self.cursor_at(node);
        let _ = cursor.next_tag();
        Steps::new(cursor)
    }

    /// The value of a node's property, where it has the property.
    pub fn value(&self, node: NodeId, name: &[u8]) -> Option<&'a [u8]>
        requires { IsSome (node_of self.now node) }
        ensures { IfSome (node_of self.now node) (λ parts. option_copied result ≡ value_of parts.properties name.now) }
    {
        let mut cursor = self.cursor_at(node);
        let _ = cursor.next_tag();
        value_in(cursor, name)
    }
}
