//! What is true of the named trees that overlays' sources mean, and of the trees that they are compiled to.

ghost use Rattle.dt_model_laws.specs.OverlayTrees.{
  OverlayIsNamed,
  OverlayManyStand,
  NamedOverlayIsNotRefused,
  OneNamedOverlay,
  OneObject,
  ObjectIsNotRefused,
};

/// A named tree that the places of an overlay's source mean is one that a source may mean, where it isn't too large; where
/// it is, too many nodes stand.
pub fn overlay_is_named()
    ensures named { OverlayIsNamed }
    ensures many { OverlayManyStand }
{}

/// An overlay's source that means a named tree whose nodes aren't too many isn't refused.
pub fn named_overlay_is_not_refused()
    ensures { NamedOverlayIsNotRefused }
{}

/// The places of an overlay's source mean one named tree, with one list of fragments.
pub fn named_overlay_is_one()
    ensures { OneNamedOverlay }
{}

/// An overlay's source is compiled to one tree; where its nodes aren't too many, the source isn't refused.
pub fn object_is_one()
    ensures one { OneObject }
    ensures only { ObjectIsNotRefused }
{}
