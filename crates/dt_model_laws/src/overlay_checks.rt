//! What the list of an overlay's nodes shows.

ghost use Rattle.dt_model_laws.specs.OverlayChecks.{
  OverlayValuesArePlain,
  ListedAreBehind,
  CheckedIsMeant,
  UntargetedIsRefused,
  UncontainedIsRefused,
};

/// After the places of an overlay's source, each value is made of bytes and of references by labels in cell lists.
pub fn overlay_values_are_plain()
    ensures { OverlayValuesArePlain }
{}

/// In the list of a tree, a node whose parent isn't the root comes after its parent.
pub fn nodes_are_behind()
    ensures { ListedAreBehind }
{}

/// A tree that has what is there after the places of an overlay's source, with the fragments of its list, is what the source
/// means, where these hold targets, and neither the targets nor what the fragments bring refer to a node of the overlay that
/// none of them brings. Else the source is refused for that.
pub fn checked_overlay_is_meant()
    ensures meant { CheckedIsMeant }
    ensures untargeted { UntargetedIsRefused }
    ensures uncontained { UncontainedIsRefused }
{}
