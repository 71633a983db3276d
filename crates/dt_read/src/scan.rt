//! One pass over a structure block.

ghost use Rattle.std.specs.Prelude.{ℕ, MatchOption, ◌≡◌, ◌+◌, ◌<◌, ◌^◌, ◌↔◌, ◌==◌, ◌&&◌, ◌||◌, IsTrue, IsNone, IfSome, length, nat_le, nat_lt};
ghost use Rattle.std.specs.Option.{option_map};
ghost use Rattle.dt_model.specs.Checks.{lead, is_behind, may_be_called, has_room};
ghost use Rattle.dt_model.specs.Checks.{BlobFault, StopsAt};
ghost use Rattle.dt_read.specs.Kinds.{kind_of};
ghost use Rattle.dt_read.specs.Marks.{Root};
ghost use Rattle.dt_read.specs.TreeTokens.{HasTree};
ghost use Rattle.dt_read.specs.Scan.{IsStuck, MovesTo};
ghost use Rattle.dt_read.specs.View.{view, position_of};

use crate::fault::fault_at;
use crate::known::KnownNames;
use crate::name::{may_name_a_node, may_name_a_property};
use crate::token::{PROP, Token, padded_len, token_at};
use dt_bytes::be32;
use dt_names::FaultKind;
use dt_names::limits::{MOST_NAMES, MOST_NODES};

/// Where a scan is between two tokens.
#[derive(Clone, Copy)]
pub(crate) struct ScanState {
    /// How many nodes are open.
    pub depth: usize,
    /// The innermost open node has a child already; or with none open, the root has ended.
    pub late: bool,
    /// How many nodes have begun.
    pub nodes: usize,
}

impl ScanState {
    /// Whether the root has ended.
    pub fn is_behind(self) -> bool
        ensures { result ≡ is_behind (position_of self) }
    {
        self.depth == 0 && self.late
    }

    /// Whether a node that begins here may be called so: the root has no name.
    pub fn may_be_called(self, name: &[u8]) -> bool
        ensures { result ≡ may_be_called (position_of self) name.now }
    {
        if self.depth == 0 {
            name.is_empty()
        } else {
            may_name_a_node(name)
        }
    }

    /// Whether one more node may begin here.
    pub fn has_room(self) -> bool
        ensures { result ≡ has_room (position_of self) }
    {
        self.depth <= MOST_NAMES && self.nodes < MOST_NODES
    }

    /// Where the next token is, if this one is allowed here.
    fn after(self, token: &Token) -> Option<ScanState>
        ensures { option_map position_of result ≡ lead (view token.now) (position_of self) }
    {
        match *token {
            Token::BeginNode(name) => {
                if self.is_behind() || !self.may_be_called(name) || !self.has_room() {
                    return None;
                }
                Some(ScanState {
                    depth: self.depth + 1,
                    late: false,
                    nodes: self.nodes + 1,
                })
            }
            Token::EndNode => {
                if self.depth == 0 {
                    return None;
                }
                Some(ScanState {
                    depth: self.depth - 1,
                    late: true,
                    nodes: self.nodes,
                })
            }
            Token::Property(name, _) => {
                if self.depth == 0 || self.late || !may_name_a_property(name) {
                    return None;
                }
                Some(self)
            }
            Token::Nop => Some(self),
            Token::End => None,
        }
    }
}

/// How many bytes the property at the front takes, where it may stand there. It judges a name that was met before by its offset. None says nothing
/// of the token.
fn known_property(names: &mut KnownNames<'_>, place: ScanState, rest: &[u8]) -> Option<usize>
    ensures strings { names.new ≡ names.old }
    ensures moves { IfSome result (MovesTo names.old (position_of place) rest.now (position_of place)) }
{
    if place.depth == 0 || place.late || be32(rest, 0)? != PROP {
        return None;
    }
    let value_len = be32(rest, 4)? as usize;
    let offset = be32(rest, 8)?;
    let len = padded_len(12 + value_len);
    if rest.len() < len || !names.is_at(offset) {
        return None;
    }
    Some(len)
}

/// Reads the token at the front of some bytes: where the next one is, and how many bytes it takes. None if it begins with no token
/// that is allowed there.
fn step(
    strings: &[u8],
    names: &mut KnownNames<'_>,
    place: ScanState,
    rest: &[u8],
) -> Option<(ScanState, usize)>
    requires few { length rest.now < 2 ^ 32 }
    requires names { names.old ≡ strings.now }
    ensures names { names.new ≡ names.old }
    ensures moves { MatchOption result (IsStuck strings.now (position_of place) rest.now)
        (λ r. MovesTo strings.now (position_of place) rest.now (position_of r.0) r.1) }
{
    if let Some(len) = known_property(names, place, rest) {
        return Some((place, len));
    }
    let (token, len) = token_at(strings, rest)?;
    let next = place.after(&token)?;
    Some((next, len))
}

/// The first token that is wrong: so many bytes behind the front of the structure block, and what is wrong with it.
#[derive(Clone, Copy)]
pub(crate) struct BadTagAt {
    pub offset: usize,
    pub kind: FaultKind,
}

/// The first token of a structure block that is wrong; None where the block spells a tree.
pub(crate) fn first_bad_tag(strings: &[u8], block: &[u8]) -> Option<BadTagAt>
    requires { length block.now < 2 ^ 32 }
    ensures tree { IsNone result → (at : ℕ) → (tree : Root) × HasTree strings.now at block.now tree }
    ensures first { IfSome result (λ bad. (f : BlobFault) × (bad.kind ≡ kind_of f) × StopsAt strings.now block.now bad.offset f) }
{
    let mut place = ScanState {
        depth: 0,
        late: false,
        nodes: 0,
    };
    let mut names = KnownNames::new(strings);
    let mut offset = 0;
    let mut rest = block;
    while let Some((next, len)) = step(strings, &mut names, place, rest) {
        place = next;
        offset += len;
        rest = &rest[len..];
    }
    match fault_at(strings, place, rest) {
        Some(kind) => Some(BadTagAt { offset, kind }),
        None => None,
    }
}
