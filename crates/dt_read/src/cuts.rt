//! Where the structure block of a blob is cut when a property is set or a node is added.

ghost use Rattle.std.specs.Prelude.{◌≡◌, ◌∷◌, List};
ghost use Rattle.dt_read.specs.Checked.{IsBlob, placed_of};
ghost use Rattle.dt_read.specs.Cuts.{Content, marks_of_content, IsPropertyExtent, IsEndPlace, IsPropertyCut, IsEndCut};
ghost use Rattle.dt_read.specs.Marks.{Mark, end_mark};
ghost use Rattle.dt_trees.specs.Placed.{IsNode};
ghost use Rattle.dt_read.specs.TreeTokens.{AreTokens, marks_in};

use crate::NodeId;
use crate::cursor::next_token;
use crate::header::number;
use crate::spans::node_from;
use crate::token::Token;

/// Bytes of a blob, from the first on up to where they end.
#[derive(Clone, Copy)]
struct Extent {
    from: usize,
    to: usize,
}

/// The bytes of the property of a name, among the properties at the front of tokens that begin at an offset; none behind the last property
/// where there is no such one.
fn property_extent(strings: &[u8], at: usize, bytes: &[u8], name: &[u8]) -> Extent
    requires { AreTokens strings.now at bytes.now }
    ensures { IsPropertyExtent strings.now at bytes.now name.now result.from result.to }
{
    let mut here = at;
    let mut rest = bytes;
    while let Some(found) = next_token(strings, here, rest) {
        let Token::Property(other, _) = found.token else {
            return Extent {
                from: here,
                to: here,
            };
        };
        if name == other {
            return Extent {
                from: found.at,
                to: found.behind,
            };
        }
        here = found.behind;
        rest = found.rest;
    }
    Extent {
        from: here,
        to: here,
    }
}

/// The place of the END_NODE of the node whose BEGIN_NODE is in front of tokens that begin at an offset.
fn end_place(strings: &[u8], at: usize, bytes: &[u8]) -> usize
    requires tokens { AreTokens strings.now at bytes.now }
    requires ends { (content : Content) × (more : List Mark) × (marks_in strings.now at bytes.now ≡ marks_of_content content (end_mark ∷ more)) }
    ensures { IsEndPlace strings.now at bytes.now result }
{
    let mut here = at;
    let mut rest = bytes;
    let mut depth = 0usize;
    while let Some(found) = next_token(strings, here, rest) {
        match found.token {
            Token::BeginNode(_) => depth += 1,
            Token::EndNode if depth == 0 => return found.at,
            Token::EndNode => depth -= 1,
            _ => {}
        }
        here = found.behind;
        rest = found.rest;
    }
    unreachable!()
}

/// Some bytes of a structure block: the offset of the first in it, and how many they are.
#[derive(Clone, Copy, PartialEq, Eq)]
pub struct Cut {
    pub at: usize,
    pub size: usize,
}

/// The bytes of a node's property of a name (Devicetree Specification v0.4, 5.4.1); none, behind its last property, where it has no such one.
pub fn property_cut(bytes: &[u8], node: NodeId, name: &[u8]) -> Cut
    requires blob { IsBlob bytes.now }
    requires node { IsNode (placed_of bytes.now) node }
    ensures { IsPropertyCut bytes.now node name.now result.at result.size }
{
    let (strings, rest) = node_from(bytes, node);
    let Some(head) = next_token(strings, node, rest) else {
        unreachable!()
    };
    let extent = property_extent(strings, head.behind, head.rest, name);
    Cut {
        at: extent.from - number(bytes, 8),
        size: extent.to - extent.from,
    }
}

/// The offset of a node's END_NODE in the structure block (Devicetree Specification v0.4, 5.4.1).
pub fn end_cut(bytes: &[u8], node: NodeId) -> usize
    requires blob { IsBlob bytes.now }
    requires node { IsNode (placed_of bytes.now) node }
    ensures { IsEndCut bytes.now node result }
{
    let (strings, rest) = node_from(bytes, node);
    let Some(head) = next_token(strings, node, rest) else {
        unreachable!()
    };
    end_place(strings, head.behind, head.rest) - number(bytes, 8)
}
