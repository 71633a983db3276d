//! Keys that differ, found with no memory: a table of bits finds most keys that are new, and an exact walk the others. Few names of a tree
//! are compared all at once; of many, first those of children, at most as many as nodes, and then the properties of one
//! node after another. A table holds two keys a word; more keys are compared class by class. So with 16,384 words the tokens are read again only
//! for more than 32,768 children, or properties of one node.

ghost use Rattle.std.specs.Prelude.{◌≡◌, ◌↔◌, ◌<◌, ◌^◌, ◌%◌, ◌++◌, ◌∷◌, [], ℕ, Some, IsTrue, length, take};
ghost use Rattle.std.specs.Bool.{OnTrue, OnFalse};
ghost use Rattle.std.specs.List.{slice_get};
ghost use Rattle.dt_model.specs.Lists.{IsIn};
ghost use Rattle.dt_model.specs.Valid.{AreDistinct};
ghost use Rattle.dt_read.specs.Order.{HasRisingPlaces};
ghost use Rattle.dt_read.specs.Distinct.{property_names, HasDistinctNames, AreDistinctInEach};
ghost use Rattle.dt_read.specs.Keys.{said};
ghost use Rattle.dt_read.specs.Marks.{last_mark, marks_of};
ghost use Rattle.dt_read.specs.Parsing.{left_by};
ghost use Rattle.dt_read.specs.Classes.{hash_of, IsNewIn};

use crate::counts::count_tokens;
use crate::cursor::Cursor;
use crate::filter::{put, seems_to_hold};
use crate::keys::{Key, Keys, Wanted};
use crate::structure::Structure;
use crate::token::Tag;
use dt_names::NodeId;
use std::hash::{FoldHasher, Hash, Hasher};

/// How many words a table has that nobody lends: 2^20 bits, 128 KiB.
pub(crate) const WORDS: usize = 16_384;

/// How many words it has for a blob of few bytes: 4 KiB,
pub(crate) const SMALL_WORDS: usize = 512;
/// which is of so many at most. Its 1,024 names take twelve bytes each.
pub(crate) const SMALL_BYTES: usize = 12_288;

/// Makes room for `count` keys more: a table in which more than two a word would be is emptied.
fn make_room(words: &mut [u64], held: &mut usize, count: usize)
    requires few { length words.old < 2 ^ 32 }
    ensures size { length words.new ≡ length words.old }
{
    let full = held.saturating_add(count);
    if full > 2 * words.len() {
        words.fill(0);
        *held = count;
    } else {
        *held = full;
    }
}

fn hashed(key: &Key, seed: u64) -> u64
    ensures { result ≡ hash_of seed (said key.now) }
{
    let mut hasher = FoldHasher::default();
    hasher.write_u64(seed ^ key.owner as u64);
    key.sort.hash(&mut hasher);
    hasher.write(key.bytes);
    hasher.finish()
}

/// Whether two keys are one, wherever they lie in memory.
fn same(a: &Key, b: &Key) -> bool
    ensures { IsTrue result ↔ said a.now ≡ said b.now }
{
    a == b
}

/// Whether a key is among so many first keys.
fn is_among(mut keys: Keys, count: usize, key: &Key) -> bool
    ensures { IsTrue result ↔ IsIn (said key.now) (take count keys.entry) }
{
    for _ in 0..count {
        match keys.next() {
            Some(other) if same(key, &other) => return true,
            Some(_) => {}
            None => return false,
        }
    }
    false
}

/// Whether no key of a class, by the remainder of its hash, is equal to an earlier one.
fn is_distinct_class(
    first: &Keys<'_>,
    seed: u64,
    class: u64,
    classes: u64,
    words: &mut [u64],
) -> bool
    requires classes { 0 < classes }
    requires some { 0 < length words.old }
    requires few { length words.old < 2 ^ 32 }
    ensures size { length words.new ≡ length words.old }
    ensures apart { OnTrue result ((i : ℕ) (k : _) → slice_get first.now i ≡ Some k →
        hash_of seed k % classes ≡ class → IsNewIn first.now i k) }
    ensures equal { OnFalse result (AreDistinct first.now → ⊥) }
{
    let mut before = 0usize;
    let mut keys = first.copy();
    while let Some(key) = keys.next() {
        let hash = hashed(&key, seed);
        if hash % classes == class {
            if seems_to_hold(words, hash) && is_among(first.copy(), before, &key) {
                return false;
            }
            put(words, hash);
        }
        before += 1;
    }
    true
}

/// Whether keys differ. The seed, how many keys there seem to be, and what the table holds, decide only how long it takes.
pub(crate) fn are_distinct(
    first: &Keys<'_>,
    seed: u64,
    count: usize,
    words: &mut [u64],
    held: &mut usize,
) -> bool
    requires some { 0 < length words.old }
    requires few { length words.old < 2 ^ 32 }
    ensures size { length words.new ≡ length words.old }
    ensures is { IsTrue result ↔ AreDistinct first.now }
{
    let most = 2 * words.len();
    let classes = (count / most + 1) as u64;
    for class in 0..classes {
        make_room(words, held, count.min(most));
        if !is_distinct_class(first, seed, class, classes, words) {
            return false;
        }
    }
    true
}

/// Whether a node has no two properties, and so none of one name. The cursor is behind the node's BEGIN_NODE.
fn has_no_two_properties(cursor: &Cursor<'_>) -> bool
    ensures { IsTrue result ↔ (length (left_by cursor.now).properties < 2) }
{
    let mut ahead = cursor.copy();
    let Some((_, Tag::Property(_))) = ahead.next_tag() else {
        return true;
    };
    !matches!(ahead.next_tag(), Some((_, Tag::Property(_))))
}

/// Whether the names of a node's properties differ. The cursor is behind the node's BEGIN_NODE.
fn has_distinct_properties(
    cursor: &Cursor<'_>,
    place: NodeId,
    seed: u64,
    words: &mut [u64],
    held: &mut usize,
) -> bool
    requires some { 0 < length words.old }
    requires few { length words.old < 2 ^ 32 }
    ensures size { length words.new ≡ length words.old }
    ensures is { IsTrue result ↔ AreDistinct (property_names (left_by cursor.now).properties) }
{
    if has_no_two_properties(cursor) {
        return true;
    }
    let own = Keys::own(cursor.copy(), place);
    let count = own.copy().count();
    are_distinct(&own, seed, count, words, held)
}

/// Whether they do so in each node.
fn have_distinct_properties(
    structure: &Structure,
    seed: u64,
    words: &mut [u64],
    held: &mut usize,
) -> bool
    requires some { 0 < length words.old }
    requires few { length words.old < 2 ^ 32 }
    ensures size { length words.new ≡ length words.old }
    ensures is { IsTrue result ↔ AreDistinctInEach (marks_of structure.now ++ last_mark ∷ []) }
{
    let mut cursor = structure.start();
    while let Some((place, tag)) = cursor.next_tag() {
        let begins = matches!(tag, Tag::BeginNode(_));
        if begins && !has_distinct_properties(&cursor, place, seed, words, held) {
            return false;
        }
    }
    true
}

/// Whether the names differ in each node.
pub(crate) fn has_distinct_names(
    structure: &Structure,
    seed: u64,
    words: &mut [u64],
    held: &mut usize,
) -> bool
    requires places { HasRisingPlaces structure.now }
    requires some { 0 < length words.old }
    requires few { length words.old < 2 ^ 32 }
    ensures size { length words.new ≡ length words.old }
    ensures is { IsTrue result ↔ HasDistinctNames structure.now }
{
    let most = 2 * words.len();
    let names = Keys::of(structure, Wanted::Names);
    let bound = structure.most_names();
    if bound <= most {
        return are_distinct(&names, seed, bound, words, held);
    }
    let (nodes, properties) = count_tokens(structure.start());
    let count = nodes + properties;
    if count <= most {
        return are_distinct(&names, seed, count, words, held);
    }
    let children = Keys::of(structure, Wanted::Children);
    // The root is nobody's child.
    are_distinct(&children, seed, nodes.saturating_sub(1), words, held)
        && have_distinct_properties(structure, seed, words, held)
}
