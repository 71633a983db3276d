//! What is true of what overlays' sources mean, and of their refusals.

ghost use Rattle.std.specs.Prelude.{◌≡◌};
ghost use Rattle.dt_model.specs.Fixups.{with_fixups, IsObjectOf};
ghost use Rattle.dt_model.specs.Instance.{instance_of, symbols_of, with_symbols};
ghost use Rattle.dt_model.specs.NamedOf.{asked_in};
ghost use Rattle.dt_model.specs.NamedOverlay.{IsNamedOverlayOf};
ghost use Rattle.dt_model.specs.Numbering.{IsNumbering};
ghost use Rattle.dt_model.specs.Rows.{two_cells, two_cells_source};
ghost use Rattle.dt_model_laws.specs.ObjectSample.{
  two_cells_named,
  two_cells_targets,
  two_cells_numbered,
};
ghost use Rattle.dt_model_laws.specs.OverlayTrees.{
  OneOverlay,
  OverlayIsPlaced,
  OverlayIsClosed,
  OverlayNodesAreShallow,
  OverlayRootStands,
  OverlayRefusalIsOne,
  OverlayIsNotRefused,
};

/// The places of an overlay's source mean one overlay.
pub fn overlay_is_one()
    ensures { OneOverlay }
{}

/// Places that are well nested are never refused as misplaced, and where all of them are read no body is left open.
pub fn overlay_is_placed()
    ensures placed { OverlayIsPlaced }
    ensures closed { OverlayIsClosed }
{}

/// After the places of an overlay's source, no node has more than 64 names in its path, and there is a root.
pub fn overlay_nodes_are_shallow()
    ensures shallow { OverlayNodesAreShallow }
    ensures rooted { OverlayRootStands }
{}

/// An overlay's source is refused for one reason, and one that means something for nothing but too many nodes.
pub fn overlay_refusal_is_one()
    ensures one { OverlayRefusalIsOne }
    ensures meant { OverlayIsNotRefused }
{}

/// A small overlay's named tree, its nodes' numbers, and its object: a label that the overlay doesn't give waits in
/// `__fixups__`, and a reference to a node of the overlay is in `__local_fixups__`.
pub(crate) fn object_sample()
    ensures named { IsNamedOverlayOf two_cells_source two_cells_named two_cells_targets }
    ensures numbered { IsNumbering (asked_in two_cells_named) two_cells_numbered }
    ensures compiled { with_fixups two_cells_named (with_symbols (symbols_of two_cells_named) (instance_of two_cells_numbered two_cells_named)) ≡ two_cells }
    ensures object { IsObjectOf two_cells_source two_cells }
{}
