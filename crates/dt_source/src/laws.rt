//! What is true of building the trees of sources.

ghost use Rattle.std.specs.Prelude.{List};
ghost use Rattle.dt_model.specs.Named.{NodeReference, Named};
ghost use Rattle.dt_model.specs.NamedOverlay.{NamedFragment};
ghost use Rattle.dt_model.specs.Source.{Mode};
ghost use Rattle.dt_names.specs.Fault.{IsExclusive, IsOneRefusal};
ghost use Rattle.dt_grammar.specs.Grammar.{Says};
ghost use Rattle.dt_source.specs.Meant.{HasTree};
ghost use Rattle.dt_source.specs.Meant.{HasOverlay};
ghost use Rattle.dt_source.specs.Refusals.{WhyNotNamed, WhyNoOverlay};

use dt_model_laws::{
    named_is_not_refused, named_overlay_is_not_refused, overlay_refusal_is_one, refusal_is_one,
};

/// A source has a tree, or is refused for one reason, and not both, unless memory is wanted.
pub fn one_outcome()
    ensures built { (mode : Mode) (s : Says) (t : Named NodeReference) → IsExclusive (HasTree mode s t) (λ kind. WhyNotNamed mode kind s) }
    ensures refused { (mode : Mode) (s : Says) → IsOneRefusal (λ kind. WhyNotNamed mode kind s) }
{
    named_is_not_refused();
    refusal_is_one();
}

/// So does an overlay's source: it has a tree with fragments, or is refused for one reason, and not both, unless memory is wanted.
pub fn one_overlay_outcome()
    ensures built { (s : Says) (t : Named NodeReference) (fragments : List NamedFragment) → IsExclusive (HasOverlay s t fragments)
        (λ kind. WhyNoOverlay kind s) }
    ensures refused { (s : Says) → IsOneRefusal (λ kind. WhyNoOverlay kind s) }
{
    named_overlay_is_not_refused();
    overlay_refusal_is_one();
}
