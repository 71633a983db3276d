//! An object with its cells written.

ghost use Rattle.dt_overlay_laws.specs.Writing.{LandedIsBrought};

/// What its fragments bring.
pub fn cells_are_written()
    ensures { LandedIsBrought }
{}
