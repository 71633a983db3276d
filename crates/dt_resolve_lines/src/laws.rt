//! Laws of what is answered.

ghost use Rattle.std.specs.Prelude.{◌≡◌, ◌++◌, ℕ, List, Option};
ghost use Rattle.dt_model.specs.Checks.{BlobFault, IsFirstFault};
ghost use Rattle.dt_names.specs.declared.fault.Fault.{Fault};
ghost use Rattle.dt_resolve_model.specs.Answers.{Answer, answer};
ghost use Rattle.dt_resolve_lines.specs.Asked.{IsAnswer, WhyUnanswered};
ghost use Rattle.dt_resolve_lines.specs.Listed.{AreFirstOf, AreLinesOf};
ghost use Rattle.dt_resolve_model.specs.declared.questions.Question.{Question};
ghost use Rattle.dt_resolve_lines.specs.declared.listing.Listing.{Listing};

use dt_names::one_path;
use dt_read::one_answer;

/// Bytes have one list of lines, or a first fault, and not both; and there is one first fault. Some first lines of theirs, as a sink that fails
/// has taken a front of them, are a front of that list.
pub fn one_listing()
    ensures lines { (listing : Listing) (bytes : List ℕ) (lines others : List (List ℕ)) → AreLinesOf listing bytes lines
        → AreLinesOf listing bytes others → lines ≡ others }
    ensures first { (listing : Listing) (bytes : List ℕ) (some all : List (List ℕ)) → AreFirstOf listing bytes some → AreLinesOf listing bytes all
        → (rest : List (List ℕ)) × (all ≡ some ++ rest) }
    ensures only { (listing : Listing) (bytes : List ℕ) (lines : List (List ℕ)) (f : BlobFault) (at : Option ℕ)
        → AreLinesOf listing bytes lines → IsFirstFault bytes f at → ⊥ }
    ensures fault { (bytes : List ℕ) (f g : BlobFault) (at place : Option ℕ) → IsFirstFault bytes f at → IsFirstFault bytes g place → (f ≡ g) × (at ≡ place) }
{
    one_answer();
}

/// The node of a path answers one thing to a question; where it does, nothing is refused; and there is one refusal.
pub fn one_answering()
    ensures answer { (question : Question) (bytes text : List ℕ) (a b : Answer (List ℕ)) → IsAnswer question bytes text a
        → IsAnswer question bytes text b → a ≡ b }
    ensures only { (question : Question) (bytes text line : List ℕ) (fault : Fault) → IsAnswer question bytes text (answer line)
        → WhyUnanswered question bytes text fault → ⊥ }
    ensures refusal { (question : Question) (bytes text : List ℕ) (fault other : Fault) → WhyUnanswered question bytes text fault
        → WhyUnanswered question bytes text other → fault ≡ other }
{
    one_answer();
    one_path();
}
