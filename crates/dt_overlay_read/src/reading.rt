//! All that an object does to a base.

ghost use Rattle.std.specs.Prelude.{◌≡◌, None, OnOk, IfErr};
ghost use Rattle.dt_overlay_base.specs.Targets.{HasNoRoom};
ghost use Rattle.dt_overlay_laws.specs.Refusals.{WhyNotApplied};
ghost use Rattle.dt_overlay_object.specs.Objects.{IsUnread};
ghost use Rattle.dt_overlay_object.specs.Stages.{IsReadFor};
ghost use Rattle.dt_trees.specs.Placed.{reading_of};

use crate::fixups::list_fixups;
use crate::fragments::list_fragments;
use crate::local_fixups::list_local_fixups;
use crate::symbols::list_symbols;
use dt_names::Fault;
use dt_overlay_base::Target;
use dt_overlay_object::{Landing, Object, bring_all};
use dt_trees::TreeView;

/// Reads an object, for a tree (dtc's notes on overlay objects): its fragments with their targets, the cells that wait for labels of the tree, those that
/// hold numbers of its own nodes, and its labels.
///
/// # Errors
///
/// The first thing that is wrong with it. `NoFragmentTarget` where a fragment has no target; label by label `BadFixup`, `NoSymbol` and `BadSymbol`;
/// `BadLocalFixup`; and `BadSymbol` of a label of its own; and `NoMemory`. None has a place.
pub fn read<'o, T: Target, V: TreeView>(
    target: &T,
    landing: &Landing,
    object: &mut Object<'o, V>,
) -> Result<(), Fault>
    requires unread { IsUnread object.old.tree.now object.old }
    ensures read { OnOk result (IsReadFor V.tree (T.reading target.now) (reading_of (V.tree object.old.tree.now)) object.new) }
    ensures same { object.new.tree ≡ object.old.tree }
    ensures refused { IfErr result (λ fault. (fault.at ≡ None)
        × WhyNotApplied (HasNoRoom T.reading T.has_room T.follows target.now) fault.kind (T.reading target.now) (reading_of (V.tree object.old.tree.now))) }
{
    let tree = object.tree;
    tree.validity();
    list_fragments(tree, &mut object.fragments)?;
    list_fixups(target, landing, tree, &mut object.label_writes)?;
    bring_all(tree, &object.fragments, &mut object.brought)?;
    list_local_fixups(tree, &object.brought, &mut object.own_writes)?;
    list_symbols(landing.places.alloc(), tree, &mut object.symbols)
}
