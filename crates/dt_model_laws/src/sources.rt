//! What is true of the meanings of sources.

ghost use Rattle.dt_model_laws.specs.Sources.{
  SourceIsMeaning,
  SourceIsPlain,
  LabelIsOneNodes,
  OverlaySourceIsOverlay,
  OrderIsOne,
};
ghost use Rattle.dt_model_laws.specs.Bodies.{SecondProperty, SecondChild};
ghost use Rattle.dt_model_laws.specs.Fragments.{FirstFree, NewFragment};

/// What a source means is a meaning: its nodes are a tree with names, its labels, references and written numbers are of
/// nodes that stand. A base's has no bookkeeping nodes.
pub fn source_is_a_meaning()
    ensures meaning { SourceIsMeaning }
    ensures plain { SourceIsPlain }
{}

/// After the places of a source a label names at most one node.
pub fn label_is_one_nodes()
    ensures { LabelIsOneNodes }
{}

/// What an overlay's source means is an overlay.
pub fn overlay_source_is_an_overlay()
    ensures { OverlaySourceIsOverlay }
{}

/// There is one list of the things of a kind in order.
pub fn order_is_one()
    ensures { OrderIsOne }
{}

/// In one body each property is defined once and each child opened once, whatever is deleted in between; what another
/// body of the same node has doesn't count.
pub fn second_in_one_body()
    ensures property { SecondProperty }
    ensures child { SecondChild }
{}

/// A new fragment's number is the first, from the one after the last new fragment's on, whose name isn't written, and the
/// fragment's node is a new one.
pub fn fragment_is_new()
    ensures number { FirstFree }
    ensures node { NewFragment }
{}
