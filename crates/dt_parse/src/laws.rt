//! What is true of reading.

ghost use Rattle.std.specs.Prelude.{◌≡◌, ◌<◌, ℕ, List, length};
ghost use Rattle.std.specs.List.{AllByRecursion};
ghost use Rattle.dt_model.specs.Source.{IsPlace};
ghost use Rattle.dt_names.specs.declared.fault.Fault.{Fault};
ghost use Rattle.dt_names.specs.declared.fault.FaultKind.TheVariants.{NoMemory};
ghost use Rattle.dt_grammar.specs.Grammar.{Says};
ghost use Rattle.dt_grammar.specs.Parsed.{IsParsed, WhyNotParsed};

use dt_grammar::{source_has_places, source_is_nested};
use dt_lex::one_answer;

/// A text says one thing, or has one fault, and not both, unless memory is wanted. One that is too long says nothing.
pub fn one_outcome()
    ensures said { (text : List ℕ) (s t : Says) → IsParsed text s → IsParsed text t → s ≡ t }
    ensures only { (text : List ℕ) (s : Says) (e : Fault) → IsParsed text s → WhyNotParsed text e → e.kind ≡ NoMemory }
    ensures fault { (text : List ℕ) (e f : Fault) → WhyNotParsed text e → WhyNotParsed text f → ¬ e.kind ≡ NoMemory → ¬ f.kind ≡ NoMemory → e ≡ f }
{
    one_answer();
}

/// The places that a text of bytes says are places, and there is one at least.
pub fn parsed_has_places()
    ensures places { (text : List ℕ) (s : Says) → AllByRecursion (λ b. b < 256) text → IsParsed text s → AllByRecursion IsPlace s.places }
    ensures some { (text : List ℕ) (s : Says) → IsParsed text s → 0 < length s.places }
{
    source_has_places();
    source_is_nested();
}
