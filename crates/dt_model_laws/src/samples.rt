//! A small source and a small overlay have a meaning.

ghost use Rattle.dt_model_laws.specs.SampleSources.{IsSampleMeaning, IsSampleOverlay};
ghost use Rattle.dt_model.specs.Meaning.{Meaning};
ghost use Rattle.dt_model.specs.Overlay.{Overlay};

/// A source with labels, references, a written number and a deleted node means a tree.
pub(crate) fn sample_source()
    ensures { (m : Meaning) × IsSampleMeaning m }
{}

/// An overlay of two fragments, one by a label and one by a path.
pub(crate) fn sample_overlay()
    ensures { (o : Overlay) × IsSampleOverlay o }
{}
