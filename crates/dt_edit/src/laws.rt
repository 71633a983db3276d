//! What is true of the outcomes of edits.

ghost use Rattle.std.specs.Prelude.{◌≡◌, ◌≤◌, ℕ, List, true};
ghost use Rattle.dt_edit.specs.Between.{IsBetween};
ghost use Rattle.dt_edit.specs.Editable.{opened_size, Fits, MayAddIn, MayPatchIn, MaySetIn, WhyNotAddedIn, WhyNotOpened, WhyNotPatchedIn, WhyNotSetIn};
ghost use Rattle.dt_edit.specs.Editable.{MayAddWithin, MaySetWithin, WhyNotAddedOwned, WhyNotOwned, WhyNotSetOwned};
ghost use Rattle.dt_model.specs.Format.{Token};
ghost use Rattle.dt_model.specs.Limits.{most_bytes};
ghost use Rattle.dt_model.specs.Names.{Name};
ghost use Rattle.dt_model.specs.Path.{Path};
ghost use Rattle.dt_model.specs.Tree.{Reading, stands_in};
ghost use Rattle.dt_names.specs.Fault.{IsExclusive, IsOneRefusal};

/// An edit of lent bytes that is answered isn't refused, and one that is refused is refused for one reason.
pub fn one_outcome()
    ensures opened { (blob bytes : List ℕ) → IsExclusive (Fits bytes (opened_size blob)) (λ kind. WhyNotOpened kind bytes (opened_size blob)) }
    ensures one_of_opening { (blob bytes : List ℕ) → IsOneRefusal (λ kind. WhyNotOpened kind bytes (opened_size blob)) }
    ensures set { (bytes : List ℕ) (node : ℕ) (name : Name) (value : List ℕ) →
        IsExclusive (MaySetIn bytes node name value) (λ kind. WhyNotSetIn kind bytes node name value) }
    ensures one_of_setting { (bytes : List ℕ) (node : ℕ) (name : Name) (value : List ℕ) → IsOneRefusal (λ kind. WhyNotSetIn kind bytes node name value) }
    ensures patched { (bytes : List ℕ) (node : ℕ) (name : Name) (offset n : ℕ) →
        IsExclusive (MayPatchIn bytes node name offset n) (λ kind. WhyNotPatchedIn kind bytes node name offset n) }
    ensures one_of_patching { (bytes : List ℕ) (node : ℕ) (name : Name) (offset n : ℕ) → IsOneRefusal (λ kind. WhyNotPatchedIn kind bytes node name offset n) }
    ensures added { (bytes : List ℕ) (node : ℕ) (name : Name) → IsExclusive (MayAddIn bytes node name) (λ kind. WhyNotAddedIn kind bytes node name) }
    ensures one_of_adding { (bytes : List ℕ) (node : ℕ) (name : Name) → IsOneRefusal (λ kind. WhyNotAddedIn kind bytes node name) }
{}

/// The same of a blob in memory of its own, where memory is one of the reasons. A cell of it is patched as in lent bytes.
pub fn one_owned_outcome()
    ensures made { (blob : List ℕ) → IsExclusive (opened_size blob ≤ most_bytes) (λ kind. WhyNotOwned kind (opened_size blob)) }
    ensures one_of_making { (blob : List ℕ) → IsOneRefusal (λ kind. WhyNotOwned kind (opened_size blob)) }
    ensures set { (bytes : List ℕ) (node : ℕ) (name : Name) (value : List ℕ) →
        IsExclusive (MaySetWithin most_bytes bytes node name value) (λ kind. WhyNotSetOwned kind bytes node name value) }
    ensures one_of_setting { (bytes : List ℕ) (node : ℕ) (name : Name) (value : List ℕ) → IsOneRefusal (λ kind. WhyNotSetOwned kind bytes node name value) }
    ensures added { (bytes : List ℕ) (node : ℕ) (name : Name) →
        IsExclusive (MayAddWithin most_bytes bytes node name) (λ kind. WhyNotAddedOwned kind bytes node name) }
    ensures one_of_adding { (bytes : List ℕ) (node : ℕ) (name : Name) → IsOneRefusal (λ kind. WhyNotAddedOwned kind bytes node name) }
{}

/// What a node has is at one place among the tokens of its tree: those before it and behind it stay, whatever becomes of the node (Devicetree
/// Specification v0.4, 5.4). So an edit of the structure block moves bytes, and rewrites none outside of the node.
pub fn nodes_stand_between()
    ensures { (t : Reading) (p : Path) → stands_in t p ≡ true → (front back : List Token) × IsBetween t p front back }
{}
