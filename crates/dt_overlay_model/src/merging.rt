//! Applying an object to a tree is merging what they mean, where nodes that land on one path are joined.

ghost use Rattle.dt_overlay_model.specs.Found.{AppliedIsFound};
ghost use Rattle.dt_overlay_model.specs.InTurn.{AppliedIsOne, FoldIsInTurn, InTurnIsFold};
ghost use Rattle.dt_overlay_model.specs.Joining.{ApplyingIsMerging, LeastIsFree, SitesAreOne};

/// The number that a place gets is the least from 1 that isn't taken.
pub fn least_is_free()
    ensures { LeastIsFree }
{}

/// There is a result exactly where the meanings can be merged, and it represents the merged meaning, by numbers that extend
/// the base's: nodes that land on one path have one number, which each reference to any of them holds.
pub fn applying_is_merging()
    ensures { ApplyingIsMerging }
{}

/// An overlay that can be merged into a meaning has one list of sites there.
pub fn sites_are_one()
    ensures { SitesAreOne }
{}

/// An object is applied to a tree in one way: no two trees come of it.
pub fn applied_is_one()
    ensures { AppliedIsOne }
{}

/// What is found after an application, by paths, whoever wrote the two trees: there is a node where the base has one or one of
/// the object lands; a property is that of the last node that lands with one, with the numbers of their nodes in its cells, a
/// `phandle` its node's, or else the base's; a label is the path of the node that lands with it, or else the base's; reservations
/// and boot CPU are the base's.
pub(crate) fn applied_is_found()
    ensures { AppliedIsFound }
{}

/// Applying objects one after another is merging what they mean, one after another.
pub fn in_turn_is_fold()
    ensures { InTurnIsFold }
{}

/// Where the meanings can be merged one after another, the objects can be applied so, as long as no tree on the way exceeds the
/// limits.
pub fn fold_is_in_turn()
    ensures { FoldIsInTurn }
{}
