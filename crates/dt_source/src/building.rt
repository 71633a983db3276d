//! The tree that a source means.

ghost use Rattle.std.specs.Prelude.{◌≡◌, ◌<◌, None, map, length, IfOk, IfErr, MatchResult};
ghost use Rattle.dt_model.specs.Limits.{most_nodes};
ghost use Rattle.dt_model.specs.Named.{tree_of};
ghost use Rattle.dt_names.specs.declared.fault.FaultKind.TheVariants.{Limit};
ghost use Rattle.dt_source_items.specs.Said.{reservation_said};
ghost use Rattle.dt_source.specs.Building.{AreNodesOf, MayBeWhole};
ghost use Rattle.dt_source.specs.Meant.{HasTree};
ghost use Rattle.dt_source_bodies.specs.Refusals.{mode_said};
ghost use Rattle.dt_source.specs.Refusals.{WhyNotNamed, WhyNotRead, fault_place};
ghost use Rattle.dt_source_named_tree.specs.Said.{IsTree, list_said, node_said};

use dt_model::nested_places;
use dt_model_laws::{list_is_of_its_tree, many_stand, meant_is_named, root_stands};
use dt_names::limits::MOST_NODES;
use dt_names::{Fault, FaultKind, Seed};
use dt_source_bodies::{Mode, grow};
use dt_source_growing::Unnamed;
use dt_source_items::{Items, Reservation, Source};
use dt_source_named_tree::{NamedNode, NamedTree};
use dt_source_nodes::named_nodes;
use std::alloc::{AllocError, Global};

/// The nodes of a source's items.
fn nodes_of<'a>(
    alloc: Global,
    seed: Seed,
    mode: Mode,
    items: &'a Items<'a>,
) -> Result<Vec<NamedNode<'a>>, Fault>
    requires { 0 < length items.now.places }
    ensures { MatchResult result
        (λ nodes. AreNodesOf (mode_said mode) items.now.places (map node_said nodes.items))
        (WhyNotRead (mode_said mode) items.now.places) }
{
    root_stands();
    let growing = grow(alloc, seed, mode, items)?;
    named_nodes(alloc, seed, &growing, Unnamed::Refused)
}

/// The reservations as pairs.
fn pairs(alloc: Global, reservations: &[Reservation]) -> Result<Vec<(u64, u64)>, AllocError>
    ensures { IfOk result (λ pairs. pairs.items ≡ map reservation_said reservations.now) }
{
    let mut pairs = Vec::with_capacity(alloc, reservations.len())?;
    for reservation in reservations {
        pairs.push((reservation.address, reservation.size))?;
    }
    Ok(pairs)
}

/// The tree of the nodes, where they aren't too many.
pub(crate) fn whole<'a>(
    seed: Seed,
    reservations: Vec<(u64, u64)>,
    nodes: Vec<NamedNode<'a>>,
) -> Result<NamedTree<'a>, Fault>
    requires { MayBeWhole (list_said reservations.items nodes.items) }
    ensures { MatchResult result
        (λ tree. (tree ≡ list_said reservations.items nodes.entry.items) × IsTree tree)
        (λ fault. (fault.kind ≡ Limit) × (fault.at ≡ None) × (most_nodes < length nodes.entry.items)) }
{
    if MOST_NODES < nodes.len() {
        return Err(Fault::of(FaultKind::Limit));
    }
    Ok(NamedTree::of(seed, reservations, nodes))
}

/// The tree that a source means (Devicetree Specification v0.4, chapter 6): its bodies merged in the order of the text, its
/// deletions done, its references read by what is left at the end. Children, properties and labels are in the order in
/// which they were first opened, defined and given, after the last deletion that took them.
///
/// # Errors
///
/// In this order: an overlay's source: `BadVersionTag`, at 0; then, without a place, the first place of the text that is
/// refused: `ReservedName` (in a base), `DuplicateNode`, `DuplicateProperty`, `DuplicateLabel`, `NoSuchTarget`, or `Limit`
/// (a path of more than 64 names); then what is wrong at the end: `UnresolvedReference`, `BadPhandle`, `DuplicatePhandle`;
/// then `Limit`: more than 65,536 nodes that stand. `NoMemory` may be met at any time.
pub fn build_base<'a>(
    alloc: Global,
    source: &'a Source<'a>,
    mode: Mode,
) -> Result<NamedTree<'a>, Fault>
    ensures tree { IfOk result (λ t. HasTree (mode_said mode) source.now (tree_of t)) }
    ensures refused { IfErr result (λ fault. WhyNotNamed (mode_said mode) fault.kind source.now × (fault.at ≡ fault_place fault.kind)) }
{
    if source.is_overlay() {
        return Err(Fault::at(FaultKind::BadVersionTag, 0));
    }
    source.spelled();
    nested_places();
    list_is_of_its_tree();
    meant_is_named();
    many_stand();
    let reservations = pairs(alloc, source.reservations())?;
    let nodes = nodes_of(alloc, source.seed(), mode, source.items())?;
    whole(source.seed(), reservations, nodes)
}
