//! Laws of the definitions.

ghost use Rattle.std.specs.Prelude.{◌≡◌, ◌≤◌, ◌<◌, ℕ, List, length};
ghost use Rattle.std.specs.List.{AllByRecursion};
ghost use Rattle.dt_model.specs.Limits.{most_names};
ghost use Rattle.dt_model.specs.Names.{IsNodeName};
ghost use Rattle.dt_model.specs.Path.{Path, path_text};
ghost use Rattle.dt_names.specs.Fault.{IsExclusive, IsOneRefusal};
ghost use Rattle.dt_names.specs.Paths.{IsPathOf, WhyNoPath, WhyNotPushed};

/// A text is the text of one path of names of nodes at most (Devicetree Specification v0.4, 2.2.3).
pub fn one_path()
    ensures { (p q : List (List ℕ)) → AllByRecursion IsNodeName p → AllByRecursion IsNodeName q
        → path_text p ≡ path_text q → p ≡ q }
{}

/// A text is read as a path, or is refused for one reason, and not both, unless memory is wanted; so is a name that is added
/// to a path.
pub fn one_outcome()
    ensures read { (text : List ℕ) (path : Path) →
        IsExclusive (IsPathOf text path × (length path ≤ most_names)) (λ kind. WhyNoPath kind text) }
    ensures unread { (text : List ℕ) → IsOneRefusal (λ kind. WhyNoPath kind text) }
    ensures pushed { (path : Path) → IsExclusive (length path < most_names) (λ kind. WhyNotPushed kind path) }
    ensures not_pushed { (path : Path) → IsOneRefusal (λ kind. WhyNotPushed kind path) }
{}
