//! A look at where things land.

ghost use Rattle.std.specs.Prelude.{◌≡◌, ◌≢◌, ◌≤◌, ◌∷◌, ℕ, List, [], false, Some, length, OnOk, IfOk, IfErr};
ghost use Rattle.std.specs.List.{AllByRecursion};
ghost use Rattle.dt_model.specs.Limits.{most_names};
ghost use Rattle.dt_model.specs.Lists.{IsIn};
ghost use Rattle.dt_model.specs.Names.{IsNodeName};
ghost use Rattle.dt_model.specs.Numbers.{number_in};
ghost use Rattle.dt_model.specs.Path.{Path as Names, is_bookkeeping as is_bookkeeping_path};
ghost use Rattle.dt_model.specs.Tree.{preorder};
ghost use Rattle.dt_trees.specs.Placed.{path_at, below_in, IsNode};
ghost use Rattle.dt_overlay_model.specs.Walk.{number_there as number_known, with_place};
ghost use Rattle.dt_overlay_laws.specs.Landings.{MayLand, WhyNotLands, MayAllLand, IsStuck};
ghost use Rattle.dt_overlay_base.specs.Known.{IsKnown, IsKnownBehind, WhereKnownAt, WhereKnownOf, HasRoom, placed, alone, content_at};
ghost use Rattle.dt_overlay_base.specs.NodeNumbers.{NotesBelow, NotesChild, NotesContent, NotesNode};
ghost use Rattle.dt_names.specs.Fault.{IsNoMemory, IsMemoryOr};

use crate::Target;
use crate::places::Places;
use crate::texts::child_path;
use dt_names::{Fault, FaultKind, NodeId, Path, is_bookkeeping_name, phandle_of};
use dt_trees::TreeView;
use std::alloc::Global;

/// Is the node a bookkeeping node, or below one?
pub fn is_bookkeeping(path: &Path) -> bool
    ensures { result ≡ is_bookkeeping_path path.now }
{
    match path.name(0) {
        Some(name) => is_bookkeeping_name(name),
        None => false,
    }
}

/// The number of the node at a place: the base's, or the one that the place got.
fn number_there<T: Target>(target: &T, path: &Path, got: Option<u32>) -> Option<u32>
    ensures { (given : List (Names × ℕ)) → got ≡ number_in given path.now → result ≡ number_known (T.reading target.now) given path.now }
{
    target.validity();
    match target.prop(path, b"phandle".as_slice()) {
        Some(value) => phandle_of(value),
        None => got,
    }
}

/// A node with a phandle lands on a place, which gets a number where it has none: the base has none there, and it got none. Answers its number.
fn number_place<T: Target>(
    target: &T,
    path: &Path,
    got: Option<u32>,
    places: &mut Places,
) -> Result<u32, Fault>
    requires named { AllByRecursion IsNodeName path.now }
    requires room { HasRoom (T.reading target.now) [] places.old }
    ensures known { WhereKnownAt (T.reading target.now) places.old path.now got (λ given landed.
        OnOk result (IsKnown (T.reading target.now) (with_place (T.reading target.now) path.now given) landed places.new)) }
    ensures number { WhereKnownAt (T.reading target.now) places.old path.now got (λ given _. IfOk result
        (λ number. number_known (T.reading target.now) (with_place (T.reading target.now) path.now given) path.now ≡ Some number)) }
    ensures nodes { places.new.nodes ≡ places.old.nodes }
    ensures refused { IfErr result IsNoMemory }
{
    target.validity();
    if let Some(number) = number_there(target, path, got) {
        return Ok(number);
    }
    let number = target.free_above(places.last());
    places.give(path, number)?;
    Ok(number)
}

/// A node lands on a path.
fn note_node<T: Target, V: TreeView>(
    target: &T,
    object: &V,
    node: NodeId,
    path: &Path,
    places: &mut Places,
) -> Result<(), Fault>
    requires node { IsNode (V.tree object.now) node }
    requires named { AllByRecursion IsNodeName path.now }
    requires short { length path.now ≤ most_names }
    requires room { HasRoom (T.reading target.now) [] places.old }
    ensures known { WhereKnownOf (T.reading target.now) places.old
        (λ given landed. OnOk result (IsKnownBehind (T.reading target.now) (placed (V.tree object.now) node path.now ∷ []) given landed places.new)) }
    ensures numbered { WhereKnownOf (T.reading target.now) places.old (λ given _.
        OnOk result (NotesNode (T.reading target.now) (V.tree object.now) node path.now given places.old places.new)) }
    ensures may { OnOk result (MayLand (placed (V.tree object.now) node path.now)) }
    ensures refused { IfErr result (IsMemoryOr (λ kind. WhyNotLands kind (placed (V.tree object.now) node path.now))) }
{
    object.validity();
    if is_bookkeeping(path) {
        return Err(Fault::of(FaultKind::ReservedPlace));
    }
    let got = places.enter(path)?;
    if object.value(node, b"phandle".as_slice()).is_some() {
        let number = number_place(target, path, got, places)?;
        places.put_node(node, number)?;
    }
    Ok(())
}

/// A child of a node lands with what is below it.
#[cycle(notes)]
fn note_child<T: Target, V: TreeView>(
    target: &T,
    object: &V,
    node: NodeId,
    parent: &Path,
    places: &mut Places,
) -> Result<(), Fault>
    requires node { IsNode (V.tree object.now) node }
    requires below { path_at (V.tree object.now) node ≢ [] }
    requires named { AllByRecursion IsNodeName parent.now }
    requires plain { is_bookkeeping_path parent.now ≡ false }
    requires room { HasRoom (T.reading target.now) (preorder parent.now (alone (V.tree object.now) node)) places.old }
    ensures known { WhereKnownOf (T.reading target.now) places.old
        (λ given landed. OnOk result (IsKnownBehind (T.reading target.now)
        (preorder parent.now (alone (V.tree object.now) node)) given landed places.new)) }
    ensures numbered { WhereKnownOf (T.reading target.now) places.old (λ given _.
        OnOk result (NotesChild (T.reading target.now) (V.tree object.now) node parent.now given places.old places.new)) }
    ensures may { OnOk result (MayAllLand (preorder parent.now (alone (V.tree object.now) node))) }
    ensures refused { IfErr result (IsMemoryOr (λ kind. IsStuck kind (preorder parent.now (alone (V.tree object.now) node)))) }
{
    object.validity();
    let path = child_path(places.alloc(), parent, object.name(node))?;
    note_node(target, object, node, &path, places)?;
    note_children(target, object, node, &path, places)
}

/// The children of a node land, each with what is below it.
#[cycle(notes)]
fn note_children<T: Target, V: TreeView>(
    target: &T,
    object: &V,
    node: NodeId,
    path: &Path,
    places: &mut Places,
) -> Result<(), Fault>
    requires node { IsNode (V.tree object.now) node }
    requires named { AllByRecursion IsNodeName path.now }
    requires plain { is_bookkeeping_path path.now ≡ false }
    requires room { HasRoom (T.reading target.now) (preorder path.now (below_in (V.tree object.now) node)) places.old }
    ensures known { WhereKnownOf (T.reading target.now) places.old
        (λ given landed. OnOk result (IsKnownBehind (T.reading target.now) (preorder path.now (below_in (V.tree object.now) node)) given landed places.new)) }
    ensures numbered { WhereKnownOf (T.reading target.now) places.old (λ given _.
        OnOk result (NotesBelow (T.reading target.now) (V.tree object.now) node path.now given places.old places.new)) }
    ensures may { OnOk result (MayAllLand (preorder path.now (below_in (V.tree object.now) node))) }
    ensures refused { IfErr result (IsMemoryOr (λ kind. IsStuck kind (preorder path.now (below_in (V.tree object.now) node)))) }
{
    object.validity();
    let mut next = object.first_child(node);
    while let Some(child) = next {
        note_child(target, object, child, path, places)?;
        next = object.next_sibling(child);
    }
    Ok(())
}

/// What a fragment brings lands on a path.
///
/// # Errors
///
/// `ReservedPlace` where a node lands in a bookkeeping node, `Limit` where its path gets more than 64 names, and `NoMemory`. None has a place.
pub fn note_content<T: Target, V: TreeView>(
    target: &T,
    object: &V,
    content: NodeId,
    path: &Path,
    places: &mut Places,
) -> Result<(), Fault>
    requires content { IsNode (V.tree object.now) content }
    requires named { AllByRecursion IsNodeName path.now }
    requires short { length path.now ≤ most_names }
    requires room { HasRoom (T.reading target.now) (content_at (V.tree object.now) content path.now) places.old }
    ensures known { WhereKnownOf (T.reading target.now) places.old
        (λ given landed. OnOk result (IsKnownBehind (T.reading target.now) (content_at (V.tree object.now) content path.now) given landed places.new)) }
    ensures numbered { WhereKnownOf (T.reading target.now) places.old (λ given _.
        OnOk result (NotesContent (T.reading target.now) (V.tree object.now) content path.now given places.old places.new)) }
    ensures may { OnOk result (MayAllLand (content_at (V.tree object.now) content path.now)) }
    ensures refused { IfErr result (IsMemoryOr (λ kind. IsStuck kind (content_at (V.tree object.now) content path.now))) }
{
    note_node(target, object, content, path, places)?;
    note_children(target, object, content, path, places)
}
