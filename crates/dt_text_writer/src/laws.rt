//! Laws of what a writer puts.

ghost use Rattle.std.specs.Prelude.{◌≡◌, ℕ, List, false};
ghost use Rattle.dt_names.specs.declared.fault.Fault.{Fault};
ghost use Rattle.dt_text_writer.specs.Written.{Written, IsWritten, IsCutOff};

/// A writer whose sink works writes all of some bytes or fails at them, and not both; and there is one fault.
pub fn one_ending()
    ensures only { (bytes : List ℕ) (fault : Fault) (old new : Written) → old.taken.has_failed ≡ false → IsWritten bytes old new
        → IsCutOff fault bytes old new → ⊥ }
    ensures fault { (bytes : List ℕ) (fault other : Fault) (old new : Written) → IsCutOff fault bytes old new → IsCutOff other bytes old new → fault ≡ other }
{}
