//! Merging an overlay into a meaning.

ghost use Rattle.dt_model_laws.specs.Merging.{MergedIsMeaning};

/// Where an overlay is merged into a meaning, the outcome is again a meaning, and has no bookkeeping nodes.
pub fn merged_is_a_meaning()
    ensures { MergedIsMeaning }
{}
