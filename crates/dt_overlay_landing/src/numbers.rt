//! The numbers that the nodes of an object get.

ghost use Rattle.std.specs.Prelude.{◌≡◌, [], ℕ, List, map};
ghost use Rattle.dt_model.specs.Path.{Path as Names};
ghost use Rattle.dt_model.specs.Tree.{Reading};
ghost use Rattle.dt_overlay_landing.specs.Turns.{WhereReadSited};
ghost use Rattle.dt_overlay_object.specs.Objects.{Seen, own_with, IsSeenAs};
ghost use Rattle.dt_overlay_object.specs.Plans.{AreBroughtBy, own_number, renumbered};
ghost use Rattle.dt_overlay_object.specs.Stages.{IsSitedFor};
ghost use Rattle.dt_trees.specs.Placed.{reading_of};

use dt_overlay_object::{Brought, Landing, Object, Write};
use dt_trees::TreeView;

/// Each node of an object that lands and has a `phandle` has the number of its place: that of the tree's node there, or that of the node that landed
/// there first, or else the least that no node of the tree has and that wasn't given (dtc's notes on overlay objects). Takes no memory.
pub fn number_all<'o, V: TreeView>(landing: &mut Landing, object: &mut Object<'o, V>)
    ensures numbered { (base : Reading) → WhereReadSited V.tree base object.old landing.old (λ read fixups.
        IsSitedFor V.tree base read fixups object.new landing.new.sites.items) }
    ensures same { object.new.tree ≡ object.old.tree }
    ensures sites { landing.new.sites ≡ landing.old.sites }
{
    object.brought.numbers = landing.places.take_nodes();
}

/// The number that a cell gets, which holds this one of the object's own.
fn new_number<V: TreeView>(object: &V, brought: &Brought, number: u32) -> u32
    ensures { (numbers : List (Names × ℕ)) → AreBroughtBy (V.tree object.now) numbers brought.now →
        result ≡ own_number (reading_of (V.tree object.now)) numbers number }
{
    object.validity();
    match object.by_phandle(number) {
        Some(node) => brought.number(node).unwrap_or(number),
        None => number,
    }
}

/// The numbers that are written get those that the nodes have now.
fn renumber_writes<V: TreeView>(object: &V, brought: &Brought, writes: &mut Vec<Write<'_>>)
    ensures { (numbers : List (Names × ℕ)) → AreBroughtBy (V.tree object.now) numbers brought.now →
        writes.new.items ≡ map (renumbered (reading_of (V.tree object.now)) numbers) writes.old.items }
{
    for i in 0..writes.len() {
        writes[i].number = new_number(object, brought, writes[i].number);
    }
}

/// The cells of an object that hold numbers of its own nodes get those that the nodes have now. Takes no memory.
pub fn renumber<'o, V: TreeView>(object: &mut Object<'o, V>)
    ensures renumbered { (seen : Seen) → IsSeenAs V.tree object.old seen → seen.own ≡ own_with seen [] →
        IsSeenAs V.tree object.new (record seen { own = own_with seen seen.numbers }) }
    ensures same { object.new.tree ≡ object.old.tree }
{
    renumber_writes(object.tree, &object.brought, &mut object.own_writes);
}
