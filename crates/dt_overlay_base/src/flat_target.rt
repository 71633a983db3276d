//! A tree in memory takes an overlay.

ghost use Rattle.std.specs.Prelude.{◌≡◌, ◌*◌, ◌≤◌, true};
ghost use Rattle.dt_flat.specs.Arena.{reading as arena_reading};
ghost use Rattle.dt_model.specs.Limits.{most_nodes};
ghost use Rattle.dt_model.specs.Numbers.{numbers_of};
ghost use Rattle.dt_model.specs.Tree.{stands_in};
ghost use Rattle.dt_overlay_base.specs.FlatTargets.{Follows, HasRoom, IsPlaced, TreeRoomIsCounted};
ghost use Rattle.dt_overlay_base.specs.Known.{IsNext};

use crate::target::Target;
use dt_flat::{FlatTree, NodeId};
use dt_names::{Fault, NodeName, Path, PropName, Seed};
use std::alloc::Global;

/// The node of a path that the tree has.
fn node_at(tree: &FlatTree, path: &Path) -> NodeId
    requires { stands_in (arena_reading tree.now) path.now ≡ true }
    ensures { IsPlaced tree.now path.now result }
{
    tree.validity();
    match tree.node(path) {
        Some(node) => node,
        None => unreachable!(),
    }
}

/// The least number above another that no node has: a tree has too few nodes for it to be far above. The numbers below the first free one aren't
/// looked at: an object whose numbers go behind those of a large tree would look at all of these.
fn free_number(tree: &FlatTree, last: u32) -> u32
    requires { last ≤ 2 * most_nodes }
    ensures { IsNext (numbers_of (arena_reading tree.now)) last result }
{
    tree.validity();
    let mut number = tree.first_free_phandle().max(last + 1);
    while tree.by_phandle(number).is_some() {
        number += 1;
    }
    number
}

impl Target for FlatTree {
    ghost reading = { arena_reading };

    ghost has_room = { HasRoom };

    ghost follows = { Follows };

    ghost follows_refl = { λ _. tt };

    ghost follows_trans = { λ _ _ _ _ _. tt };

    fn validity(&self) {
        FlatTree::validity(self);
    }

    fn seed(&self) -> Seed {
        FlatTree::seed(self)
    }

    fn find(&self, path: &Path) -> bool {
        self.node(path).is_some()
    }

    fn prop(&self, path: &Path, name: &[u8]) -> Option<&[u8]> {
        FlatTree::validity(self);
        let node = self.node(path)?;
        self.value(node, name)
    }

    fn by_phandle(&self, alloc: Global, number: u32) -> Result<Option<Path>, Fault> {
        FlatTree::validity(self);
        match FlatTree::by_phandle(self, number) {
            Some(node) => Ok(Some(self.path(alloc, node)?)),
            None => Ok(None),
        }
    }

    fn free_above(&self, last: u32) -> u32 {
        free_number(self, last)
    }

    fn set_prop(&mut self, path: &Path, name: &PropName<'_>, value: &[u8]) -> Result<(), Fault> {
        FlatTree::validity(self);
        let node = node_at(self, path);
        FlatTree::set_prop(self, node, name, value)
    }

    fn add_node(&mut self, parent: &Path, name: &NodeName<'_>) -> Result<(), Fault> {
        let node = node_at(self, parent);
        FlatTree::add_node(self, node, name)?;
        Ok(())
    }

    fn patch_cell(
        &mut self,
        path: &Path,
        name: &PropName<'_>,
        offset: usize,
        number: u32,
    ) -> Result<(), Fault> {
        FlatTree::validity(self);
        let node = node_at(self, path);
        FlatTree::patch_cell(self, node, name, offset, number)
    }
}

/// The number of nodes decides what a `FlatTree` has room for: an object isn't applied to one for want of room only where more than
/// 65,536 nodes would come of it. There it is refused for that, memory aside, as `dt_overlay_laws`'s `room_is_counted` and `one_refusal` say.
pub fn tree_room_is_counted()
    ensures { TreeRoomIsCounted }
{}
