//! The tree and the fragments that an overlay's source means.

ghost use Rattle.std.specs.Prelude.{◌≡◌, ◌<◌, [], None, true, map, length, IsOk, IfOk, IfErr, MatchResult};
ghost use Rattle.std.specs.List.{AllByRecursion};
ghost use Rattle.dt_model.specs.Limits.{most_nodes};
ghost use Rattle.dt_model.specs.Named.{tree_of};
ghost use Rattle.dt_model.specs.NamedOverlay.{IsNamedOverlayOf};
ghost use Rattle.dt_model.specs.Source.{IsPlace};
ghost use Rattle.dt_names.specs.declared.fault.FaultKind.TheVariants.{Limit};
ghost use Rattle.dt_source.specs.Building.{MayBeWhole};
ghost use Rattle.dt_source_fragments.specs.Fragments.{fragment_said};
ghost use Rattle.dt_source.specs.Fragments.{AreOverlayNodes};
ghost use Rattle.dt_source.specs.Meant.{ListedOverlay};
ghost use Rattle.dt_source.specs.Refusals.{WhyNoOverlay, WhyNoOverlayRead, fault_place};
ghost use Rattle.dt_source_named_tree.specs.Said.{IsTree, list_said, node_said};

use crate::building::whole;
use dt_model_laws::{
    checked_overlay_is_meant, list_is_of_its_tree, nodes_are_behind, overlay_is_named,
    overlay_is_placed, overlay_nodes_are_shallow, overlay_values_are_plain,
};
use dt_names::{Fault, FaultKind, Seed};
use dt_source_bodies::{Arena, grow_overlay};
use dt_source_fragments::{Fragment, checked_fragments};
use dt_source_growing::Unnamed;
use dt_source_items::{Items, Source};
use dt_source_named_tree::{NamedNode, NamedTree};
use dt_source_nodes::named_nodes;
use std::alloc::Global;
use std::marker::Model;

/// What an overlay's source means: a tree, and the fragments among the children of its root, in order.
#[derive(Drop)]
pub struct NamedOverlay<'a> {
    tree: NamedTree<'a>,
    fragments: Vec<Fragment<'a>>,
}

impl<'a> Model for NamedOverlay<'a> {
    ghost use Rattle.std.specs.Prelude.{map};
    ghost use Rattle.dt_source_fragments.specs.Fragments.{fragment_said};
    ghost use Rattle.dt_source.specs.Meant.{ListedOverlay};

    ghost Value = { ListedOverlay };

    ghost view = { λ o. record { tree = o.tree; fragments = map fragment_said o.fragments.items } };
}

impl<'a> NamedOverlay<'a> {
    /// The tree. Its references by labels that the source doesn't give are kept as labels.
    pub fn tree(&self) -> &NamedTree<'a>
        ensures { result.now ≡ self.now.tree }
    {
        &self.tree
    }

    /// The fragments, in the order of their nodes.
    pub fn fragments(&self) -> &[Fragment<'a>]
        ensures { map fragment_said result.now ≡ self.now.fragments }
    {
        &self.fragments
    }
}

/// The nodes of an overlay's items.
fn nodes_of<'a>(
    alloc: Global,
    seed: Seed,
    items: &'a Items<'a>,
) -> Result<Vec<NamedNode<'a>>, Fault>
    requires { AllByRecursion IsPlace items.now.places }
    ensures { MatchResult result
        (λ nodes. AreOverlayNodes items.now.places (map node_said nodes.items))
        (WhyNoOverlayRead items.now.places) }
{
    overlay_nodes_are_shallow();
    overlay_values_are_plain();
    let arena = Arena::new(alloc, seed, items)?;
    let growing = grow_overlay(alloc, seed, items, &arena)?;
    named_nodes(alloc, seed, &growing, Unnamed::Kept)
}

/// The overlay of nodes, where they aren't too many, and fragments.
fn whole_overlay<'a>(
    alloc: Global,
    seed: Seed,
    nodes: Vec<NamedNode<'a>>,
    fragments: Vec<Fragment<'a>>,
) -> Result<NamedOverlay<'a>, Fault>
    requires { MayBeWhole (list_said [] nodes.items) }
    ensures { MatchResult result
        (λ overlay. (overlay ≡ record { tree = list_said [] nodes.entry.items; fragments = map fragment_said fragments.entry.items })
        × IsTree (list_said [] nodes.entry.items))
        (λ fault. (fault.kind ≡ Limit) × (fault.at ≡ None) × (most_nodes < length nodes.entry.items)) }
{
    let tree = whole(seed, Vec::new(alloc), nodes)?;
    Ok(NamedOverlay { tree, fragments })
}

/// The tree and the fragments that an overlay's source means (dtc's notes on overlay objects): a block of a label that the
/// source has given goes on with that label's node; any other block opens a new fragment with the block's reference as its
/// target. Children, properties and labels stand in the order in which they were first opened, defined and given.
///
/// # Errors
///
/// In this order: a source that isn't an overlay's: `BadVersionTag`, at 0; then, without a place, `OverlayReserve` where
/// memory is reserved; then the first place of the text that is refused: `OverlayDelete`, `OverlayPhandle`,
/// `OverlayPathReference`, `ReservedName`, `DuplicateNode`, `DuplicateProperty`, `DuplicateLabel`, or `Limit` (a path of
/// more than 64 names); then what is wrong at the end: `BadFragment` where a fragment holds no target, then
/// `OutsideContent` where a reference of a target, or of what a fragment brings, names a node of the overlay that no
/// fragment brings; then `Limit`: more than 65,536 nodes. `NoMemory` may be met at any time.
pub fn build_overlay<'a>(alloc: Global, source: &'a Source<'a>) -> Result<NamedOverlay<'a>, Fault>
    ensures overlay { IsOk result → (source.now.plugin ≡ true) × (source.now.reservations ≡ []) }
    ensures meant { IfOk result (λ o. IsNamedOverlayOf source.now.places (tree_of o.tree) o.fragments) }
    ensures refused { IfErr result (λ fault. WhyNoOverlay fault.kind source.now × (fault.at ≡ fault_place fault.kind)) }
{
    if !source.is_overlay() {
        return Err(Fault::at(FaultKind::BadVersionTag, 0));
    }
    if !source.reservations().is_empty() {
        return Err(Fault::of(FaultKind::OverlayReserve));
    }
    source.spelled();
    list_is_of_its_tree();
    nodes_are_behind();
    overlay_is_placed();
    overlay_is_named();
    checked_overlay_is_meant();
    let nodes = nodes_of(alloc, source.seed(), source.items())?;
    let fragments = checked_fragments(alloc, &nodes)?;
    whole_overlay(alloc, source.seed(), nodes, fragments)
}
