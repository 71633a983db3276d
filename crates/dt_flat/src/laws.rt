//! Laws of arenas, for the crates that change trees.

ghost use Rattle.std.specs.Prelude.{◌≡◌, ◌<◌, ◌+◌, ◌==◌, ◌&&◌, ℕ, List, [], length, Option, Some, None, option_map, if◌then◌else◌};
ghost use Rattle.std.specs.Str.{bytes_eq};
ghost use Rattle.dt_model.specs.Names.{Name};
ghost use Rattle.dt_model.specs.Path.{Path};
ghost use Rattle.dt_model.specs.Changes.{with_child_at, with_property_at};
ghost use Rattle.dt_model.specs.Tree.{value_of, node_at};
ghost use Rattle.dt_model.specs.Valid.{node_count};
ghost use Rattle.dt_names.specs.Fault.{IsExclusive, IsOneRefusal};
ghost use Rattle.dt_flat.specs.Refusals.{MayAdd, MaySet, WhyNoNode, WhyNotReserved, WhyNotSet};
ghost use Rattle.dt_flat.specs.Arena.{Arena, Slot, IsRooted, reading, named_children, child_of, properties, below, node_from, with_child, with_property};

/// The node of a path in the reading is what the arena has at the number to which the path leads.
pub fn reading_by_path()
    ensures { (a : Arena) (p : Path) →
        node_at (reading a) p ≡
        option_map (λ i. record { properties = properties a.slots i; children = below a.slots i }) (node_from a.slots 0 p) }
{}

/// What the nodes have after a child is added to a node that has none of this name.
pub fn after_a_child()
    ensures count { (slots : List Slot) (p : ℕ) (name : Name) → length (with_child slots p name) ≡ length slots + 1 }
    ensures children { (slots : List Slot) (p : ℕ) (name : Name) (i : ℕ) (x : Name) →
        i < length slots → child_of (named_children slots p) name ≡ None →
        child_of (named_children (with_child slots p name) i) x ≡
        (if (p == i) && bytes_eq x name then Some (length slots) else child_of (named_children slots i) x) }
    ensures childless { (slots : List Slot) (p : ℕ) (name : Name) →
        named_children (with_child slots p name) (length slots) ≡ [] }
    ensures properties { (slots : List Slot) (p : ℕ) (name : Name) (i : ℕ) → i < length slots →
        properties (with_child slots p name) i ≡ properties slots i }
    ensures bare { (slots : List Slot) (p : ℕ) (name : Name) → properties (with_child slots p name) (length slots) ≡ [] }
{}

/// What the nodes have after a property of a node is set.
pub fn after_a_property()
    ensures count { (slots : List Slot) (p : ℕ) (n : Name) (v : List ℕ) →
        length (with_property slots p n v) ≡ length slots }
    ensures children { (slots : List Slot) (p : ℕ) (n : Name) (v : List ℕ) (i : ℕ) →
        named_children (with_property slots p n v) i ≡ named_children slots i }
    ensures values { (slots : List Slot) (p : ℕ) (n : Name) (v : List ℕ) (i : ℕ) (m : Name) → p < length slots →
        value_of (properties (with_property slots p n v) i) m ≡
        (if (p == i) && bytes_eq m n then Some v else value_of (properties slots i) m) }
{}

/// What an arena is read as after a change of the node to which a path leads.
pub fn changes_by_path()
    ensures child { (a : Arena) (q : Path) (p : ℕ) (name : Name) → IsRooted a.slots → node_from a.slots 0 q ≡ Some p →
        child_of (named_children a.slots p) name ≡ None →
        reading (record a { slots = with_child a.slots p name }) ≡ with_child_at q name (reading a) }
    ensures property { (a : Arena) (q : Path) (p : ℕ) (name : Name) (value : List ℕ) → IsRooted a.slots →
        node_from a.slots 0 q ≡ Some p →
        reading (record a { slots = with_property a.slots p name value }) ≡ with_property_at q name value (reading a) }
{}

/// The reading of an arena has as many nodes as the arena.
pub fn nodes_are_counted()
    ensures { (a : Arena) → IsRooted a.slots → 1 + node_count (reading a).children ≡ length a.slots }
{}

/// A change of a tree is made, or is refused for one reason, and not both, unless memory is wanted.
pub fn one_outcome()
    ensures reserved { (address size : ℕ) →
        IsExclusive (¬ ((address ≡ 0) × (size ≡ 0))) (λ kind. WhyNotReserved kind address size) }
    ensures not_reserved { (address size : ℕ) → IsOneRefusal (λ kind. WhyNotReserved kind address size) }
    ensures added { (slots : List Slot) (p : ℕ) (name : Name) →
        IsExclusive (MayAdd slots p name) (λ kind. WhyNoNode kind slots p name) }
    ensures not_added { (slots : List Slot) (p : ℕ) (name : Name) → IsOneRefusal (λ kind. WhyNoNode kind slots p name) }
    ensures set { (slots : List Slot) (p : ℕ) (name : Name) (value : List ℕ) →
        IsExclusive (MaySet slots p name value) (λ kind. WhyNotSet kind slots p name value) }
    ensures not_set { (slots : List Slot) (p : ℕ) (name : Name) (value : List ℕ) →
        IsOneRefusal (λ kind. WhyNotSet kind slots p name value) }
{}
