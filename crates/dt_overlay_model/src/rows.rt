//! Small objects, applied.

ghost use Rattle.std.specs.Prelude.{◌≡◌, [], ◌∷◌, ◌++◌, None, Some, codes};
ghost use Rattle.dt_model.specs.Meaning.{cell};
ghost use Rattle.dt_model.specs.Samples.{one_cell};
ghost use Rattle.dt_model.specs.Tree.{branch, no_nodes};
ghost use Rattle.dt_model.specs.Rows.{
  two_cells,
  with_two_cells,
  controller,
  next_object,
  one_node,
  three_values,
  second_number,
  two_nodes,
  referring,
  label_taken,
  with_label_taken,
  inner_target,
  inner_target_first,
  missing_target,
  reserved_place,
  reserved_target,
  no_fragment,
  root_property,
  content_of,
  fragment,
  set,
  tree,
  symbol_of,
  symbols,
};
ghost use Rattle.dt_overlay_model.specs.Rows.{RowsAreJoined};
ghost use Rattle.dt_overlay_model.specs.Walk.{applied};

/// What comes of nodes that land on one with a number, on one path, or on one that landed before; of a target with two labels;
/// and of a fragment that comes before the one that brings its target.
pub fn rows_are_joined()
    ensures { RowsAreJoined }
{}

/// New numbers avoid the base's, references get them at any offset, symbols are those of the nodes on which labels land.
pub(crate) fn object_applied()
    ensures { applied controller two_cells
        ((codes "gic", record { path = content_of 0 ++ codes "d" ∷ []; property = codes "p"; offset = 1 }) ∷ []) ≡ Some with_two_cells }
{}

/// A label of an earlier overlay is a target of a later one.
pub(crate) fn object_applied_to_a_result()
    ensures { applied with_two_cells next_object
        ((codes "e", record { path = fragment 0 ∷ []; property = codes "target"; offset = 0 }) ∷ []) ≡
        Some (tree []
        (branch (codes "ic") (set (codes "phandle") (cell 1) ∷ []) no_nodes
        (branch (codes "__symbols__")
        (symbol_of (codes "gic") (codes "ic" ∷ []) ∷ symbol_of (codes "e") (codes "f" ∷ []) ∷ symbol_of (codes "g") (codes "f" ∷ codes "h" ∷ []) ∷ [])
        no_nodes
        (branch (codes "d") (set (codes "p") (1 ∷ cell 1) ∷ set (codes "q") (cell 2) ∷ []) no_nodes
        (branch (codes "f") (set (codes "phandle") (cell 2) ∷ [])
        (branch (codes "h") (set (codes "phandle") (cell 3) ∷ []) no_nodes no_nodes) no_nodes))))) }
{}

/// Of several fragments that land one property the last decides.
pub(crate) fn last_fragment_decides()
    ensures { applied one_node three_values
        ((codes "a", record { path = fragment 0 ∷ []; property = codes "target"; offset = 0 })
        ∷ (codes "a", record { path = fragment 1 ∷ []; property = codes "target"; offset = 0 }) ∷ []) ≡
        Some (tree []
        (branch (codes "s") (set (codes "phandle") (cell 1) ∷ [])
        (branch (codes "x") (set (codes "p") (cell 2) ∷ set (codes "phandle") (cell 2) ∷ []) no_nodes no_nodes)
        (symbols (symbol_of (codes "a") (codes "s" ∷ []) ∷ symbol_of (codes "n") (codes "s" ∷ codes "x" ∷ []) ∷ [])))) }
{}

/// New numbers fill the gaps of the base's, in preorder.
pub(crate) fn new_numbers_fill_gaps()
    ensures { applied second_number two_nodes
        ((codes "a", record { path = fragment 0 ∷ []; property = codes "target"; offset = 0 }) ∷ []) ≡
        Some (tree []
        (branch (codes "a") (set (codes "phandle") (cell 2) ∷ [])
        (branch (codes "x") (set (codes "phandle") (cell 1) ∷ []) no_nodes
        (branch (codes "y") (set (codes "phandle") (cell 3) ∷ []) no_nodes no_nodes))
        (symbols (symbol_of (codes "a") (codes "a" ∷ []) ∷ symbol_of (codes "x") (codes "a" ∷ codes "x" ∷ [])
        ∷ symbol_of (codes "y") (codes "a" ∷ codes "y" ∷ []) ∷ [])))) }
{}

/// An overlay that takes over a label leaves the references that were made by it; later ones follow.
pub(crate) fn label_taken_over()
    ensures taken { applied referring label_taken [] ≡ Some with_label_taken }
{}

/// A fragment may name a node that an earlier one brings, and not one of a later one.
pub(crate) fn target_of_an_earlier_fragment()
    ensures earlier { applied controller inner_target [] ≡
        Some (tree []
        (branch (codes "ic") (set (codes "phandle") (cell 1) ∷ []) no_nodes
        (branch (codes "__symbols__") (symbol_of (codes "gic") (codes "ic" ∷ []) ∷ symbol_of (codes "n") (codes "x" ∷ []) ∷ []) no_nodes
        (branch (codes "x") (set (codes "phandle") (cell 2) ∷ set (codes "q") [] ∷ []) no_nodes no_nodes)))) }
    ensures later { applied controller inner_target_first [] ≡ None }
{}

/// What can't be applied, and what has no effect.
pub(crate) fn objects_refused()
    ensures label { applied one_cell two_cells
        ((codes "gic", record { path = content_of 0 ++ codes "d" ∷ []; property = codes "p"; offset = 1 }) ∷ []) ≡ None }
    ensures target { applied controller missing_target [] ≡ None }
    ensures place { applied controller reserved_place [] ≡ None }
    ensures bookkeeping { applied controller reserved_target [] ≡ None }
    ensures no_fragment { applied controller no_fragment [] ≡ Some controller }
    ensures root { applied one_cell root_property [] ≡ Some one_cell }
{}
