//! A law of what a tree gets.

ghost use Rattle.std.specs.Prelude.{◌≡◌, ◌≢◌, List};
ghost use Rattle.dt_flat.specs.Arena.{Arena, IsRooted, reading};
ghost use Rattle.dt_marks.specs.Refusals.{WhyNoFixups, WhyNoSymbols};
ghost use Rattle.dt_model.specs.Instance.{with_symbols};
ghost use Rattle.dt_model.specs.Tree.{Property, Reading};
ghost use Rattle.dt_model.specs.Valid.{IsWithinLimits};
ghost use Rattle.dt_names.specs.declared.fault.FaultKind.{FaultKind};
ghost use Rattle.dt_names.specs.declared.fault.FaultKind.TheVariants.{NoMemory};

/// A tree that is within the limits with its labels, or with its cells, gets them, unless memory is wanted.
pub fn one_outcome()
    ensures symbols { (a : Arena) (symbols : List Property) (kind : FaultKind) → IsRooted a.slots → IsWithinLimits (with_symbols symbols (reading a))
        → WhyNoSymbols kind a.slots symbols → kind ≡ NoMemory }
    ensures fixups { (t : Reading) (kind : FaultKind) → IsWithinLimits t → WhyNoFixups kind t → kind ≡ NoMemory }
    ensures refusal { (t : Reading) (kind other : FaultKind) → WhyNoFixups kind t → WhyNoFixups other t → kind ≢ NoMemory → other ≢ NoMemory → kind ≡ other }
{}
