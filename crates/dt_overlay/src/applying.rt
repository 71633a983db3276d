//! Applying an object.

ghost use Rattle.std.specs.Prelude.{◌≡◌, None, OnOk, IfErr};
ghost use Rattle.dt_overlay_model.specs.InTurn.{IsApplied};
ghost use Rattle.dt_trees.specs.Placed.{reading_of};
ghost use Rattle.dt_overlay_laws.specs.Objects.{IsWellFormed};
ghost use Rattle.dt_overlay_laws.specs.Refusals.{IsCrowded, WhyNotApplied};
ghost use Rattle.dt_model.specs.Tree.{Reading};
ghost use Rattle.dt_overlay.specs.Applying.{IsLeftBy};
ghost use Rattle.dt_overlay_object.specs.Objects.{IsUnread};
ghost use Rattle.dt_overlay_object.specs.Stages.{IsEmptyLanding, IsNumberedFor};
ghost use Rattle.dt_overlay_base.specs.Targets.{HasNoRoom, IsWant};

use dt_names::Fault;
use dt_overlay_base::Target;
use dt_overlay_landing::{find_sites, land_all, number_all, renumber, set_symbols};
use dt_overlay_laws::{fragments_are_merged, sited_is_applied};
use dt_overlay_object::{Landing, Object};
use dt_overlay_read::read;
use dt_read::Blob;
use dt_trees::TreeView;
use dt_view::Index;
use std::alloc::Global;

/// Lands what the fragments bring on their sites, and then the labels.
fn land<'o, T: Target, V: TreeView>(
    target: &mut T,
    object: &Object<'o, V>,
    landing: &mut Landing,
) -> Result<(), Fault>
    requires numbered { (read : Reading) × IsNumberedFor V.tree (T.reading target.old) read object.now landing.old.sites.items }
    ensures applied { (read : Reading) → IsNumberedFor V.tree (T.reading target.old) read object.now landing.old.sites.items →
        OnOk result (IsApplied (T.reading target.old) read (T.reading target.new)) }
    ensures refused { (read : Reading) → IsNumberedFor V.tree (T.reading target.old) read object.now landing.old.sites.items →
        IfErr result (IsWant (IsCrowded (HasNoRoom T.reading T.has_room T.follows target.old) (T.reading target.old) read)) }
    ensures follows { T.follows target.old target.new }
{
    sited_is_applied();
    fragments_are_merged();
    target.validity();
    land_all(target, object, landing)?;
    set_symbols(target, object, landing)
}

/// Applies an object before anything of it is read or has landed.
fn carry_out<'o, T: Target, V: TreeView>(
    target: &mut T,
    object: &mut Object<'o, V>,
    landing: &mut Landing,
) -> Result<(), Fault>
    requires unread { IsUnread object.old.tree.now object.old }
    requires empty { IsEmptyLanding landing.old }
    ensures applied { OnOk result (IsApplied (T.reading target.old) (reading_of (V.tree object.old.tree.now)) (T.reading target.new)) }
    ensures well { OnOk result (IsWellFormed (T.reading target.old) (reading_of (V.tree object.old.tree.now))) }
    ensures refused { IfErr result (λ fault. (fault.at ≡ None)
        × WhyNotApplied (HasNoRoom T.reading T.has_room T.follows target.old) fault.kind (T.reading target.old) (reading_of (V.tree object.old.tree.now))) }
    ensures left { IfErr result (λ fault. IsLeftBy (HasNoRoom T.reading T.has_room T.follows target.old) fault.kind (T.reading target.old)
        (reading_of (V.tree object.old.tree.now)) (T.reading target.new)) }
    ensures follows { T.follows target.old target.new }
{
    read(target, landing, object)?;
    find_sites(target, object, landing)?;
    number_all(landing, object);
    renumber(object);
    land(target, object, landing)
}

/// Applies an object before anything of it is read.
fn apply_object<'o, T: Target, V: TreeView>(
    alloc: Global,
    target: &mut T,
    object: &mut Object<'o, V>,
) -> Result<(), Fault>
    requires unread { IsUnread object.old.tree.now object.old }
    ensures applied { OnOk result (IsApplied (T.reading target.old) (reading_of (V.tree object.old.tree.now)) (T.reading target.new)) }
    ensures well { OnOk result (IsWellFormed (T.reading target.old) (reading_of (V.tree object.old.tree.now))) }
    ensures refused { IfErr result (λ fault. (fault.at ≡ None)
        × WhyNotApplied (HasNoRoom T.reading T.has_room T.follows target.old) fault.kind (T.reading target.old) (reading_of (V.tree object.old.tree.now))) }
    ensures left { IfErr result (λ fault. IsLeftBy (HasNoRoom T.reading T.has_room T.follows target.old) fault.kind (T.reading target.old)
        (reading_of (V.tree object.old.tree.now)) (T.reading target.new)) }
    ensures follows { T.follows target.old target.new }
{
    let mut landing = Landing::new(alloc, object.seed().with(target.seed()))?;
    let done = carry_out(target, object, &mut landing);
    // Let go of by hand: what goes at an exit by itself is proved there field by field.
    drop(landing);
    done
}

/// Applies an overlay's object to a tree (dtc's notes on overlay objects): the nodes and the properties that its fragments bring
/// are added to the nodes that the fragments name, or replace those that are there, fragment by fragment. Nodes that land on one
/// path are one node: where one has a `phandle`, it has the number of the tree's node there, or else that of the first such node
/// of the object that landed there, which got, in the object's preorder, the least that no node of the tree has and that wasn't
/// given. The cells that the object lists hold the numbers of their nodes then, and the labels of the nodes that land are set in
/// `__symbols__`. All else of the tree stays.
///
/// # Errors
///
/// No fault has a place. In this order: `NoFragmentTarget`, a fragment has no target; label by label `BadFixup`, a fixup isn't a
/// list of cells of the object, `NoSymbol`, the tree hasn't the label, `BadSymbol`, or for no node with a number; `BadLocalFixup`,
/// the same of a cell of the object's own nodes, or the number in it is that of no node that it may name; `BadSymbol`, a label of
/// the object isn't a text, or names a node that isn't there; then fragment by fragment `NoTarget`, its target is no node of the
/// tree, and none that an earlier fragment brings, `ReservedPlace`, something lands in a bookkeeping node, `Limit`, on a path of
/// more than 64 names. After these the tree is unchanged. Last, where an object has none of these faults, `Limit`: the tree has no
/// room for one of the changes. A `FlatTree` has no room exactly where it would get more than 65,536 nodes. This `Limit` and
/// `NoMemory` may leave a part of the object in the tree.
pub fn apply<T: Target>(alloc: Global, target: &mut T, object: &Blob<'_>) -> Result<(), Fault>
    ensures applied { OnOk result (IsApplied (T.reading target.old) (reading_of object.now) (T.reading target.new)) }
    ensures well { OnOk result (IsWellFormed (T.reading target.old) (reading_of object.now)) }
    ensures refused { IfErr result (λ fault. (fault.at ≡ None)
        × WhyNotApplied (HasNoRoom T.reading T.has_room T.follows target.old) fault.kind (T.reading target.old) (reading_of object.now)) }
    ensures left { IfErr result (λ fault. IsLeftBy (HasNoRoom T.reading T.has_room T.follows target.old) fault.kind (T.reading target.old)
        (reading_of object.now) (T.reading target.new)) }
    ensures follows { T.follows target.old target.new }
{
    let tree = Index::new(alloc, object)?;
    let mut unread = Object::new(alloc, &tree, object.seed());
    let done = apply_object(alloc, target, &mut unread);
    drop(unread);
    done
}
