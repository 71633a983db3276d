//! Landing what fragments bring, change by change.

ghost use Rattle.dt_overlay_laws.specs.Laws.{LandingIsMerging, FragmentsAreMerged, SymbolsAreMerged, NodesAreKept, ChildIsCounted, ChildIsThere, ChildStands, PlacesAreKept, SymbolsArePlain, AllowedMayLand};

/// Landing a node, property by property and child by child, on one that is there merges it into that one.
pub fn landing_is_merging()
    ensures { LandingIsMerging }
{}

/// So it is with all that fragments bring.
pub fn fragments_are_merged()
    ensures { FragmentsAreMerged }
{}

/// And with the symbols of an object.
pub fn symbols_are_merged()
    ensures { SymbolsAreMerged }
{}

/// No landing takes nodes away.
pub fn nodes_are_kept()
    ensures { NodesAreKept }
{}

/// A child that is added is there; a new one is one node more, and one that was there changes nothing.
pub fn child_is_added()
    ensures stands { ChildStands }
    ensures new { ChildIsCounted }
    ensures there { ChildIsThere }
{}

/// A node that is there stays, whatever lands.
pub fn places_are_kept()
    ensures { PlacesAreKept }
{}

/// No symbol that lands is a phandle.
pub fn symbols_are_plain()
    ensures { SymbolsArePlain }
{}

/// Where an object may be applied, no number is refused while it lands.
pub fn allowed_may_land()
    ensures { AllowedMayLand }
{}
