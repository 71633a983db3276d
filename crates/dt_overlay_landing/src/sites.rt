//! Where the fragments land: looked at as a whole, before anything is changed.

ghost use Rattle.std.specs.Prelude.{◌≡◌, ◌<◌, ◌≤◌, ◌||◌, [], ℕ, List, Some, None, is_some, length, option_and_then, codes, OnOk, IfOk, IfErr, IfSome};
ghost use Rattle.std.specs.Option.{option_or};
ghost use Rattle.std.specs.List.{AllByRecursion};
ghost use Rattle.dt_model.specs.Format.{word_at};
ghost use Rattle.dt_model.specs.Path.{Path as Names};
ghost use Rattle.dt_model.specs.Names.{Name, IsNodeName};
ghost use Rattle.dt_model.specs.Tree.{Reading, nodes_of, stands_in, value_in};
ghost use Rattle.dt_model.specs.Merged.{landing as landing_by};
ghost use Rattle.dt_model.specs.Object.{Cell, fragment_names};
ghost use Rattle.dt_model.specs.Applied.{node_numbered, node_named, landed_named, number_at};
ghost use Rattle.dt_names.specs.declared.fault.FaultKind.TheVariants.{NoMemory, Limit};
ghost use Rattle.dt_trees.specs.Placed.{path_at, reading_of, IsNode};
ghost use Rattle.dt_overlay_model.specs.Walk.{place_given as place_known};
ghost use Rattle.dt_overlay_base.specs.Known.{kept_at, IsKnown};
ghost use Rattle.dt_overlay_landing.specs.Marks.{AreMarked};
ghost use Rattle.dt_overlay_object.specs.Plans.{AreBroughtBy, AreFragmentsOf};
ghost use Rattle.dt_overlay_object.specs.Stages.{IsEmptyLanding, IsReadFor};
ghost use Rattle.dt_overlay_landing.specs.Turns.{Turn, IsTurnOf, IsSitedAt, IsNumberedAt, HasAllSites, IsTooDeep, LacksSite, LacksSiteAt};
ghost use Rattle.dt_overlay_landing.specs.Turns.{WhereBrought, WhereMarked, WhereNoted, WhereTurn, WhereTurnOf, node_marked, target_at};
ghost use Rattle.dt_overlay_landing.specs.declared.marks.TargetMark.{TargetMark};
ghost use Rattle.dt_names.specs.Fault.{IsNoMemory, IsMemoryOr};

use crate::marks::{TargetMark, TargetMarks, target_marks};
use dt_bytes::be32;
use dt_names::{Fault, FaultKind, NodeId, NodeName, Path};
use dt_overlay_base::{Places, Target, is_bookkeeping, note_content};
use dt_overlay_object::{Brought, Landing, Object, ObjectFragment, ObjectTarget};
use dt_overlay_texts::symbol_path;
use dt_trees::TreeView;
use std::alloc::Global;

/// The path on which a node of the object lands, where its fragment is one of those that have sites: that of the node above it with its name, or the
/// fragment's site.
///
/// # Errors
///
/// `Limit` where the path has more than 64 names, and `NoMemory`. Neither has a place.
pub(crate) fn landing_path<V: TreeView>(
    landing: &Landing,
    object: &V,
    brought: &Brought,
    node: NodeId,
) -> Result<Option<Path>, Fault>
    requires { IsNode (V.tree object.now) node }
    ensures value { WhereBrought (V.tree object.now) brought.now landing.now.sites.items
        (λ found. IfOk result (λ landed. landed ≡ landing_by found (path_at (V.tree object.now) node))) }
    ensures named { AllByRecursion (AllByRecursion IsNodeName) landing.now.sites.items → IfOk result (λ landed. IfSome landed (AllByRecursion IsNodeName)) }
    ensures refused { WhereBrought (V.tree object.now) brought.now landing.now.sites.items
        (λ found. IfErr result (IsMemoryOr (λ kind. IsTooDeep kind (reading_of (V.tree object.now)) found))) }
{
    object.validity();
    if let Some(fragment) = brought.content(node) {
        return match landing.sites.get(fragment) {
            Some(site) => {
                let site = site.copy(landing.places.alloc())?;
                Ok(Some(site))
            }
            None => Ok(None),
        };
    }
    let Some(above) = object.parent(node) else {
        return Ok(None);
    };
    let Some(mut path) = landing_path(landing, object, brought, above)? else {
        return Ok(None);
    };
    path.push(&NodeName::known(object.name(node)))?;
    Ok(Some(path))
}

/// The place on which the object's node of a number has landed.
fn own_place<V: TreeView>(
    landing: &Landing,
    object: &V,
    brought: &Brought,
    number: u32,
) -> Result<Option<Path>, Fault>
    ensures value { WhereBrought (V.tree object.now) brought.now landing.now.sites.items (λ found. IfOk result
        (λ place. place ≡ option_and_then (landing_by found) (node_numbered (nodes_of (reading_of (V.tree object.now))) number))) }
    ensures refused { WhereBrought (V.tree object.now) brought.now landing.now.sites.items
        (λ found. IfErr result (IsMemoryOr (λ kind. IsTooDeep kind (reading_of (V.tree object.now)) found))) }
{
    object.validity();
    match object.by_phandle(number) {
        Some(node) => landing_path(landing, object, brought, node),
        None => Ok(None),
    }
}

/// The node of the tree so far that has a number.
fn numbered<T: Target>(
    alloc: Global,
    target: &T,
    places: &Places,
    number: u32,
) -> Result<Option<Path>, Fault>
    ensures value { (given : List (Names × ℕ)) (landed : List Names) → IsKnown (T.reading target.now) given landed places.now →
        IfOk result (λ found. found ≡ option_or (node_numbered (nodes_of (T.reading target.now)) number) (place_known given number)) }
    ensures refused { IfErr result IsNoMemory }
{
    target.validity();
    if let Some(path) = target.by_phandle(alloc, number)? {
        return Ok(Some(path));
    }
    match places.place(number) {
        Some(place) => {
            let path = place.copy(alloc)?;
            Ok(Some(path))
        }
        None => Ok(None),
    }
}

/// Does the path stand in the tree so far?
fn stands<T: Target>(target: &T, places: &Places, path: &Path) -> Result<bool, Fault>
    ensures value { IfOk result (λ stands. stands ≡ (stands_in (T.reading target.now) path.now || is_some (kept_at places.now.landed path.now))) }
    ensures refused { IfErr result IsNoMemory }
{
    if target.find(path) {
        return Ok(true);
    }
    let landed = places.has_landed(path)?;
    Ok(landed)
}

/// The node of the tree so far that is named by a path's text.
fn named<T: Target>(
    alloc: Global,
    target: &T,
    places: &Places,
    value: &[u8],
) -> Result<Option<Path>, Fault>
    ensures value { WhereNoted (T.reading target.now) places.now (λ object sites.
        IfOk result (λ found. found ≡ option_or (node_named (nodes_of (T.reading target.now)) value.now) (landed_named (nodes_of object) sites value.now))) }
    ensures refused { IfErr result IsNoMemory }
{
    target.validity();
    let path = match symbol_path(alloc, value) {
        Ok(path) => path,
        Err(fault) if fault.kind == FaultKind::NoMemory => return Err(fault),
        Err(_) => return Ok(None),
    };
    if stands(target, places, &path)? {
        Ok(Some(path))
    } else {
        Ok(None)
    }
}

/// The number in the first four bytes of a node's property `target`.
fn target_number<V: TreeView>(object: &V, node: NodeId) -> Option<u32>
    requires { IsNode (V.tree object.now) node }
    ensures { result ≡ option_and_then (λ (value : List ℕ). word_at value 0)
        (value_in (reading_of (V.tree object.now)) (path_at (V.tree object.now) node) (codes "target")) }
{
    be32(object.value(node, b"target".as_slice())?, 0)
}

/// The node of the tree so far that a number in `target` names, according to the object's lists.
fn marked<'o, T: Target, V: TreeView>(
    target: &T,
    object: &Object<'o, V>,
    landing: &Landing,
    mark: Option<TargetMark>,
    number: u32,
) -> Result<Option<Path>, Fault>
    ensures value { WhereMarked V.tree (T.reading target.now) object.now landing.now mark (λ turn f.
        IfOk result (λ found. found ≡ node_marked (T.reading target.now) (reading_of (V.tree object.now.tree.now)) turn f number)) }
    ensures refused { WhereTurn V.tree (T.reading target.now) object.now landing.now (λ _. IfErr result IsNoMemory) }
{
    target.validity();
    object.tree.validity();
    let alloc = landing.places.alloc();
    match mark {
        Some(TargetMark::Label(number)) => target.by_phandle(alloc, number),
        Some(TargetMark::Own) => own_place(landing, object.tree, &object.brought, number),
        None => numbered(alloc, target, &landing.places, number),
    }
}

/// The node of the tree so far that a fragment names.
fn target_path<'o, T: Target, V: TreeView>(
    target: &T,
    object: &Object<'o, V>,
    marks: &TargetMarks,
    landing: &Landing,
    fragment: &ObjectFragment<'_>,
) -> Result<Option<Path>, Fault>
    requires { IsNode (V.tree object.now.tree.now) fragment.now.node }
    ensures value { WhereTurnOf V.tree (T.reading target.now) object.now marks.now.entries landing.now fragment.now (λ turn name.
        IfOk result (λ found. found ≡ target_at V.tree (T.reading target.now) object.now turn name)) }
    ensures refused { WhereTurnOf V.tree (T.reading target.now) object.now marks.now.entries landing.now fragment.now (λ _ _. IfErr result IsNoMemory) }
{
    object.tree.validity();
    match &fragment.target {
        ObjectTarget::Path(value) => named(landing.places.alloc(), target, &landing.places, value),
        ObjectTarget::Number => match target_number(object.tree, fragment.node) {
            Some(number) => marked(
                target,
                object,
                landing,
                marks.get(&fragment.node).copied(),
                number,
            ),
            None => Ok(None),
        },
    }
}

/// The site of a fragment, on which all that it brings may land.
fn find_site<'o, T: Target, V: TreeView>(
    target: &T,
    object: &Object<'o, V>,
    marks: &TargetMarks,
    landing: &mut Landing,
    fragment: &ObjectFragment<'_>,
) -> Result<Path, Fault>
    requires { (turn : Turn) × IsTurnOf V.tree (T.reading target.now) object.now marks.now.entries landing.old fragment.now turn }
    ensures found { WhereTurnOf V.tree (T.reading target.now) object.now marks.now.entries landing.old fragment.now (λ turn name.
        IfOk result (λ path. IsSitedAt V.tree (T.reading target.now) object.now turn name path landing.new.places)) }
    ensures numbered { WhereTurnOf V.tree (T.reading target.now) object.now marks.now.entries landing.old fragment.now (λ turn f.
        IfOk result (λ q. IsNumberedAt V.tree (T.reading target.now) object.now turn fragment.now f q landing.old landing.new)) }
    ensures kept { OnOk result (landing.new.sites ≡ landing.old.sites) }
    ensures named { IfOk result (λ path. AllByRecursion IsNodeName path) }
    ensures refused { WhereTurnOf V.tree (T.reading target.now) object.now marks.now.entries landing.old fragment.now (λ turn name.
        IfErr result (IsMemoryOr (LacksSiteAt V.tree (T.reading target.now) object.now turn name))) }
{
    target.validity();
    object.tree.validity();
    let Some(path) = target_path(target, object, marks, landing, fragment)? else {
        return Err(Fault::of(FaultKind::NoTarget));
    };
    if is_bookkeeping(&path) {
        return Err(Fault::of(FaultKind::ReservedPlace));
    }
    note_content(
        target,
        object.tree,
        fragment.content,
        &path,
        &mut landing.places,
    )?;
    Ok(path)
}

/// Finds the sites of the fragments, in order, by how their targets are to be read.
fn find_each_site<'o, T: Target, V: TreeView>(
    target: &T,
    object: &Object<'o, V>,
    marks: &TargetMarks,
    landing: &mut Landing,
) -> Result<(), Fault>
    requires brought { AreBroughtBy (V.tree object.now.tree.now) [] object.now.brought }
    requires marked { (fixups : List (Name × Cell)) × AreMarked (T.reading target.now) fixups (V.tree object.now.tree.now) marks.now.entries }
    requires fragments { AreFragmentsOf (V.tree object.now.tree.now) object.now.fragments.items
        (fragment_names (reading_of (V.tree object.now.tree.now)).children) }
    requires empty { IsEmptyLanding landing.old }
    ensures found { (fixups : List (Name × Cell)) → AreMarked (T.reading target.now) fixups (V.tree object.now.tree.now) marks.now.entries →
        OnOk result (HasAllSites (T.reading target.now) fixups (V.tree object.now.tree.now) landing.new) }
    ensures refused { (fixups : List (Name × Cell)) → AreMarked (T.reading target.now) fixups (V.tree object.now.tree.now) marks.now.entries →
        IfErr result (IsMemoryOr (LacksSite (T.reading target.now) (reading_of (V.tree object.now.tree.now)) fixups)) }
{
    target.validity();
    object.tree.validity();
    for fragment in &object.fragments {
        let path = find_site(target, object, marks, landing, fragment)?;
        landing.sites.push(path)?;
    }
    Ok(())
}

/// Finds the sites of an object's fragments, in order, and the places of the nodes that they bring (dtc's notes on overlay objects). The tree stays.
///
/// # Errors
///
/// Of the first fragment that has one: `NoTarget` where its target names no node of the tree, and none that lands before it;
/// `ReservedPlace` where something lands in a bookkeeping node; `Limit` where a path gets more than 64 names; and `NoMemory`. None has a
/// place.
pub fn find_sites<'o, T: Target, V: TreeView>(
    target: &T,
    object: &Object<'o, V>,
    landing: &mut Landing,
) -> Result<(), Fault>
    requires read { (read : Reading) × IsReadFor V.tree (T.reading target.now) read object.now }
    requires empty { IsEmptyLanding landing.old }
    ensures found { (read : Reading) (is : IsReadFor V.tree (T.reading target.now) read object.now) →
        OnOk result (HasAllSites (T.reading target.now) is.fixups (V.tree object.now.tree.now) landing.new) }
    ensures refused { (read : Reading) (is : IsReadFor V.tree (T.reading target.now) read object.now) →
        IfErr result (IsMemoryOr (LacksSite (T.reading target.now) read is.fixups)) }
{
    target.validity();
    object.tree.validity();
    let marks = target_marks(
        landing.places.alloc(),
        object.seed(),
        &object.own_writes,
        &object.label_writes,
    )?;
    find_each_site(target, object, &marks, landing)
}
