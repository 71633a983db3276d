//! Laws of the definitions.

ghost use Rattle.std.specs.Prelude.{◌≡◌, ℕ, codes, List, [], ◌∷◌, ◌++◌, Ok, Err, true, false};
ghost use Rattle.dt_model.specs.Path.{path_text, path_value, is_bookkeeping};
ghost use Rattle.dt_model.specs.Tree.{Reading};
ghost use Rattle.dt_model.specs.Source.{
  Mode,
  misplaced,
  SoFar,
  nothing,
  read_all,
  Place,
  root,
  block,
  delete_node,
  child,
  label,
  close,
  by_path,
};
ghost use Rattle.dt_model.specs.Nested.{AreNested};
ghost use Rattle.dt_model.specs.Rows.{opened_again};
ghost use Rattle.dt_model.specs.Format.{Reads};
ghost use Rattle.dt_model.specs.Samples.{one_cell, blob_with_nops, blob_with_suffix, blob_with_late_property};

/// The texts of paths.
pub(crate) fn path_texts()
    ensures root { path_value [] ≡ codes "/" ++ 0 ∷ [] }
    ensures child { path_text (codes "soc" ∷ codes "uart@10" ∷ []) ≡ codes "/soc/uart@10" }
    ensures marks { is_bookkeeping (codes "__symbols__" ∷ codes "x" ∷ []) ≡ true }
    ensures plain { is_bookkeeping (codes "soc" ∷ codes "__symbols__" ∷ []) ≡ false }
{}

/// A blob has at most one reading.
pub fn one_reading()
    ensures { (bytes : List ℕ) (t u : Reading) → Reads bytes t → Reads bytes u → t ≡ u }
{}

/// A blob may have NOPs before its tokens (Devicetree Specification v0.4, 5.4.1) and names inside longer ones (5.5). A
/// property behind a child of its node is in no reading (5.4.2).
pub(crate) fn sample_blobs()
    ensures nops { Reads blob_with_nops one_cell }
    ensures suffix { Reads blob_with_suffix one_cell }
    ensures late { (t : Reading) → Reads blob_with_late_property t → ⊥ }
{}

/// Places that are well nested are never refused as misplaced, and where all of them are read no body is left open.
pub fn nested_places()
    ensures placed { (mode : Mode) (places : List Place) → AreNested 0 places → read_all mode nothing places ≡ Err misplaced → ⊥ }
    ensures closed { (mode : Mode) (places : List Place) (s : SoFar) → AreNested 0 places → read_all mode nothing places ≡ Ok s → s.bodies ≡ [] }
{}

/// Two blocks with a child each are well nested; a body that is left open or closed twice isn't, nor is a block in a body, a
/// child or a label outside one, or a deletion by a reference inside one.
pub(crate) fn sample_nesting()
    ensures nested { AreNested 0 opened_again }
    ensures left_open { AreNested 0 (root ∷ child (codes "n") ∷ close ∷ []) → ⊥ }
    ensures closed_twice { AreNested 0 (root ∷ close ∷ close ∷ []) → ⊥ }
    ensures inner_block { AreNested 0 (root ∷ block (by_path []) ∷ close ∷ close ∷ []) → ⊥ }
    ensures outer_child { AreNested 0 (child (codes "n") ∷ close ∷ []) → ⊥ }
    ensures outer_label { AreNested 0 (root ∷ close ∷ label (codes "l") ∷ []) → ⊥ }
    ensures inner_deletion { AreNested 0 (root ∷ delete_node (by_path []) ∷ close ∷ []) → ⊥ }
{}
