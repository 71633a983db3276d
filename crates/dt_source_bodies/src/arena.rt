//! What the tree of an overlay's source borrows beside the source: it is made before the first item is read.

ghost use Rattle.std.specs.Prelude.{◌≡◌, map, length, IfOk};
ghost use Rattle.dt_source_bodies.specs.Arena.{block_references, IsArena};

use dt_names::Seed;
use dt_source_fragments::fragment_names;
use dt_source_items::{Item, Items};
use std::alloc::{AllocError, Global};

/// Names for new fragments, in the order in which they get them.
#[derive(Drop)]
pub struct Arena {
    pub names: Vec<Vec<u8>>,
}

/// How many of the items are blocks.
fn block_count<'a>(items: &'a Items<'a>) -> usize
    ensures { result ≡ length (block_references items.now.places) }
{
    let mut count = 0;
    for index in 0..items.len() {
        if let Item::Block(_) = items.get(index) {
            count += 1;
        }
    }
    count
}

impl Arena {
    /// What the tree of these items borrows.
    pub fn new<'a>(alloc: Global, seed: Seed, items: &'a Items<'a>) -> Result<Arena, AllocError>
        ensures { IfOk result (λ arena. IsArena items.now.places arena) }
    {
        let names = fragment_names(alloc, seed, items, block_count(items))?;
        Ok(Arena { names })
    }
}
