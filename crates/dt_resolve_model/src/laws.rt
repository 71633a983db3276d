//! What a meaning determines of addresses and routes, each blob of it has.

ghost use Rattle.dt_model.specs.Tree.{Reading};
ghost use Rattle.dt_resolve_model.specs.Faults.{AreNamed};
ghost use Rattle.dt_resolve_model.specs.World.{World};
ghost use Rattle.dt_resolve_model.specs.Laws.{EntriesAreAtTheirBytes, MeaningIsResolved, ParentIsOne, RouteIsOne, WrittenNumbersAreFound};

/// Whatever a meaning determines of a region or a route, an answer or a fault, is so in the tree of each blob that represents it.
pub fn meaning_is_resolved()
    ensures { MeaningIsResolved }
{}

/// Each number that a meaning writes finds its node among the nodes of the tree of each blob that represents it.
pub fn written_numbers_are_found()
    ensures { WrittenNumbersAreFound }
{}

/// A node has one interrupt parent.
pub fn parent_is_one()
    ensures { ParentIsOne }
{}

/// An index names one route of a tree's node, or is refused for one reason, and not both.
pub fn route_is_one()
    ensures { RouteIsOne }
{}

/// A tree refuses a region, also one for DMA, the route of an interrupt and that of a specifier for faults that their rules name. None has a
/// place.
pub fn faults_are_named()
    ensures { (t : Reading) → AreNamed t }
{}

/// At the byte where the entry of an index begins, `interrupt_at` and `specifier_at` give the route of that index.
pub fn entries_are_at_their_bytes()
    ensures { (w : World) → EntriesAreAtTheirBytes w }
{}
