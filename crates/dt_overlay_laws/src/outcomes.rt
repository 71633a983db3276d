//! Why an object isn't applied, and what that says of the overlay.

ghost use Rattle.dt_overlay_laws.specs.Outcomes.{RefusedIsUndefined, AppliedIsNotRefused, SitedIsApplied, LimitIsExceeded, RoomIsCounted, OneRefusal};

use crate::landing::allowed_may_land;
use dt_overlay_model::applying_is_merging;

/// Memory and limits aside, an object of an overlay is refused only where the overlay can't be merged into the base's meaning.
pub fn refused_is_undefined()
    ensures { RefusedIsUndefined }
{
    applying_is_merging();
}

/// No object is applied and refused, memory and limits aside.
pub fn applied_is_not_refused()
    ensures { AppliedIsNotRefused }
{}

/// Where an object has no fault and its fragments have sites, it is applied, and nothing but memory and the number of nodes is in
/// the way.
pub fn sited_is_applied()
    ensures { SitedIsApplied }
{
    allowed_may_land();
}

/// Where the number of nodes decides what there is room for, there is none on the way exactly where the tree that would come of the object
/// has too many.
pub fn room_is_counted()
    ensures { RoomIsCounted }
{}

/// A limit is reported only where the tree that would come of the object exceeds it.
pub fn limit_is_exceeded()
    ensures { LimitIsExceeded }
{}

/// Memory aside an object is refused for one reason: the first of its faults.
pub fn one_refusal()
    ensures { OneRefusal }
{}
