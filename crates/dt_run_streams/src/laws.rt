//! Laws of what is reported of a blob.

ghost use Rattle.std.specs.Prelude.{◌≡◌, ℕ, List, Option};
ghost use Rattle.dt_names.specs.declared.fault.FaultKind.{FaultKind};
ghost use Rattle.dt_run_streams.specs.Told.{HasBlobFault, IsCounted, IsPrinted};

use dt_read::one_answer;

/// Bytes are printed as one text and counted in one line, or have a first fault, and not both; and there is one first fault.
pub fn one_report()
    ensures text { (bytes text other : List ℕ) → IsPrinted bytes text → IsPrinted bytes other → text ≡ other }
    ensures line { (bytes line other : List ℕ) → IsCounted bytes line → IsCounted bytes other → line ≡ other }
    ensures printed { (bytes text : List ℕ) (kind : FaultKind) (at : Option ℕ) → IsPrinted bytes text → HasBlobFault kind at bytes → ⊥ }
    ensures counted { (bytes line : List ℕ) (kind : FaultKind) (at : Option ℕ) → IsCounted bytes line → HasBlobFault kind at bytes → ⊥ }
    ensures fault { (bytes : List ℕ) (kind other : FaultKind) (at place : Option ℕ) → HasBlobFault kind at bytes → HasBlobFault other place bytes
        → (kind ≡ other) × (at ≡ place) }
{
    one_answer();
}
