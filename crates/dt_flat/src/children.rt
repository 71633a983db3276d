//! The children of one node.

ghost use Rattle.std.specs.Iterator.{YieldsFirst, item_count};

use crate::NodeId;
use crate::chain::Ranks;
use std::marker::Model;

/// The children of a node, in order: their numbers. It is seen as those that are left.
#[derive(Drop)]
pub struct Children<'a> {
    pub(crate) ranks: Ranks<'a>,
}

impl<'a> Model for Children<'a> {
    ghost use Rattle.std.specs.Prelude.{List, ℕ};

    ghost Value = { List ℕ };

    ghost view = { λ c. c.ranks };
}

impl<'a> Iterator for Children<'a> {
    type Item = NodeId;

    ghost next_gives = { YieldsFirst (λ s. s) };

    ghost remaining = { item_count (λ s. s) };

    fn next(&mut self) -> Option<NodeId> {
        self.ranks.step()
    }
}
