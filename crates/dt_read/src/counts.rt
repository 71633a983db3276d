//! How many nodes, properties and reservations there are.

ghost use Rattle.std.specs.Prelude.{◌≡◌, ◌+◌, ◌≤◌, ◌^◌, length};
ghost use Rattle.dt_read.specs.Counting.{nodes_in, properties_in};
ghost use Rattle.dt_read.specs.Pairs.{pairs_of};

use crate::cursor::Cursor;
use crate::reservations::first_pair;
use crate::token::Tag;

/// How many nodes there are, the root among them, how many properties they have, and how many memory reservations there
/// are.
#[derive(Clone, Copy, PartialEq, Eq)]
pub struct Counts {
    pub nodes: usize,
    pub properties: usize,
    pub reservations: usize,
}

/// How many nodes begin from a place on, and how many properties stand there.
pub(crate) fn count_tokens(mut cursor: Cursor) -> (usize, usize)
    ensures nodes { result.0 ≡ nodes_in cursor.entry }
    ensures properties { result.1 ≡ properties_in cursor.entry }
    ensures few { result.0 + result.1 ≤ 2 ^ 32 }
{
    let mut nodes = 0usize;
    let mut properties = 0usize;
    while let Some((_, tag)) = cursor.next_tag() {
        match tag {
            Tag::BeginNode(_) => nodes += 1,
            Tag::Property(_) => properties += 1,
            _ => {}
        }
    }
    (nodes, properties)
}

/// How many pairs stand before a pair of zeros.
pub(crate) fn count_pairs(bytes: &[u8]) -> usize
    ensures { result ≡ length (pairs_of bytes.now) }
{
    let mut count = 0usize;
    let mut rest = bytes;
    while let Some((_, behind)) = first_pair(rest) {
        count += 1;
        rest = behind;
    }
    count
}
