//! Sources, trees and objects on which the definitions are worked out by computing.

ghost use Rattle.std.specs.Prelude.{
  ◌≡◌,
  ℕ,
  codes,
  List,
  [],
  ◌∷◌,
  ◌++◌,
  true,
  false,
  None,
  Some,
  map,
  reverse,
};
ghost use Rattle.dt_model.specs.Meaning.{byte, reference, cell, instance_value};
ghost use Rattle.dt_model.specs.Overlay.{inside, outside};
ghost use Rattle.dt_model.specs.Event.{age, label_age, property_age, stands};
ghost use Rattle.dt_model.specs.Numbers.{numbers_of, new_paths, paths_of};
ghost use Rattle.dt_model.specs.Numbering.{IsNumbering, asked_by};
ghost use Rattle.dt_model.specs.Merged.{AreSites, Site, merged};
ghost use Rattle.dt_model.specs.Object.{local_cells, fragment_names};
ghost use Rattle.dt_model.specs.Applied.{applied_at};
ghost use Rattle.dt_model.specs.Tree.{branch, no_nodes};
ghost use Rattle.dt_model.specs.Source.{
  duplicate_label,
  duplicate_node,
  duplicate_property,
  no_such_target,
  reserved_name,
  too_deep,
  all_bound,
  number_of,
  by_label,
  base,
  raw,
  nothing,
  read_all,
  meaning_of,
};
ghost use Rattle.dt_model.specs.Refused.{IsRefusedFor, IsOverlayRefusedFor, at_place, at_end};
ghost use Rattle.dt_model.specs.OverlaySource.{
  as_any,
  bad_fragment,
  outside_content,
  overlay_delete,
  overlay_phandle,
  overlay_path,
};
ghost use Rattle.dt_model.specs.Rows.{
  gap_tree,
  two_labels,
  levels,
  events,
  events_of,
  refusal,
  refusal_of,
  meaning,
  overlay,
  overlay_refusal,
  content_of,
  fragment,
  opened_again,
  deleted_label,
  written_phandle,
  gap_of_numbers,
  label_again,
  label_twice,
  root_label,
  deleted_property,
  property_twice,
  deleted_root,
  deleted_nothing,
  node_twice,
  no_target,
  reserved,
  two_cells_source,
  three_values_source,
  written_fragment_source,
  later_fragment_source,
  deleting_source,
  numbering_source,
  text_source,
  path_source,
  numbering_text_source,
  text_again_source,
  no_target_source,
  outside_content_source,
  controller,
  two_cells,
  with_two_cells,
  one_node,
  three_values,
  no_fragment,
  tree,
  set,
  symbols,
  symbol_of,
  one_node_source,
  three_values_fragments,
  three_values_sites,
  controller_source,
  inner_source,
  inner_fragments,
  inner_sites,
  two_cells_fragments,
  two_cells_sites,
  referring_source,
  label_taken_source,
};

// ---- sources

/// A node that is deleted and opened again begins empty, without its labels; a value that is defined again is the last one.
pub(crate) fn opened_again_begins_empty()
    ensures read { refusal opened_again ≡ None }
    ensures value { (meaning opened_again).value [] (codes "a") ≡ Some (map byte (codes "x" ++ 0 ∷ [])) }
    ensures node { (meaning opened_again).stands (codes "n" ∷ []) ≡ true }
    ensures kept { (meaning opened_again).value (codes "n" ∷ []) (codes "q") ≡ Some [] }
    ensures gone { (meaning opened_again).value (codes "n" ∷ []) (codes "p") ≡ None }
    ensures unlabelled { (meaning opened_again).label (codes "l") ≡ None }
    ensures unkeyed { (meaning opened_again).keyed (codes "n" ∷ []) ≡ false }
{}

/// A node takes the labels below it with it.
pub(crate) fn deleted_label_names_nothing()
    ensures read { refusal deleted_label ≡ None }
    ensures label { (meaning deleted_label).label (codes "l") ≡ None }
    ensures unresolved { all_bound (events deleted_label) (number_of (by_label (codes "l")) ∷ []) ≡ None }
{}

/// A written phandle is its node's number, and a reference outside a cell list is its node's path text with its NUL. The
/// other keyed nodes get numbers of their own.
pub(crate) fn written_phandle_stays()
    ensures read { refusal written_phandle ≡ None }
    ensures number { (meaning written_phandle).number (codes "b" ∷ []) ≡ Some 1 }
    ensures no_property { (meaning written_phandle).value (codes "b" ∷ []) (codes "phandle") ≡ None }
    ensures labelled { (meaning written_phandle).label (codes "l") ≡ Some (codes "a" ∷ []) }
    ensures keyed { (meaning written_phandle).keyed (codes "a" ∷ []) ≡ true }
    ensures root { (meaning written_phandle).keyed [] ≡ false }
    ensures value { (meaning written_phandle).value (codes "b" ∷ []) (codes "p") ≡
        Some (map byte (codes "/a" ++ 0 ∷ []) ++ reference (codes "b" ∷ []) ∷ []) }
    ensures bytes { (number : List (List ℕ) → ℕ) → number (codes "b" ∷ []) ≡ 1 →
        instance_value (meaning written_phandle) number (codes "b" ∷ []) (codes "p") ≡
        Some (0x2f ∷ 0x61 ∷ 0 ∷ cell (number (codes "b" ∷ []))) }
{}

/// A node that a reference by a path names is keyed, and one that nothing names isn't.
pub(crate) fn referred_nodes_are_keyed()
    ensures read { refusal gap_of_numbers ≡ None }
    ensures path { (meaning gap_of_numbers).keyed (codes "c" ∷ []) ≡ true }
    ensures label { (meaning gap_of_numbers).keyed (codes "c" ∷ codes "d" ∷ []) ≡ true }
    ensures root { (meaning gap_of_numbers).keyed [] ≡ false }
    ensures first { (meaning gap_of_numbers).value [] (codes "p") ≡
        Some (reference (codes "b" ∷ []) ∷ reference (codes "c" ∷ []) ∷ []) }
{}

/// The keyed nodes get, in preorder, the least numbers that are not written; other nodes get none.
pub(crate) fn numbers_of_a_source()
    ensures { IsNumbering (asked_by (meaning gap_of_numbers) (paths_of gap_tree))
        (None ∷ Some 2 ∷ Some 1 ∷ Some 3 ∷ Some 4 ∷ None ∷ []) }
{}

/// A label can be given to another node once the node that it named is deleted, and not before.
pub(crate) fn label_moves_after_a_deletion()
    ensures moved { (meaning label_again).label (codes "l") ≡ Some (codes "b" ∷ []) }
    ensures read { refusal label_again ≡ None }
    ensures twice { refusal label_twice ≡ Some duplicate_label }
{}

/// A label of a block that opens the root names the root.
pub(crate) fn label_of_the_root()
    ensures read { refusal root_label ≡ None }
    ensures label { (meaning root_label).label (codes "l") ≡ Some [] }
    ensures keyed { (meaning root_label).keyed [] ≡ true }
{}

/// A raw source may have the bookkeeping nodes, and a base may not.
pub(crate) fn bookkeeping_nodes_of_a_raw_source()
    ensures read { refusal_of (read_all raw nothing reserved) ≡ None }
    ensures node { (meaning_of [] (events_of (read_all raw nothing reserved))).stands (codes "__symbols__" ∷ []) ≡ true }
    ensures refused { IsRefusedFor base reserved (at_place reserved_name) }
{}

/// What is refused, and what has no effect.
pub(crate) fn refused_places()
    ensures deleted { refusal deleted_property ≡ None }
    ensures nothing { (meaning deleted_property).value [] (codes "a") ≡ None }
    ensures property { refusal property_twice ≡ Some duplicate_property }
    ensures node { refusal node_twice ≡ Some duplicate_node }
    ensures root { refusal deleted_root ≡ Some no_such_target }
    ensures absent { refusal deleted_nothing ≡ None }
    ensures target { refusal no_target ≡ Some no_such_target }
    ensures bookkeeping { refusal reserved ≡ Some reserved_name }
{}

/// A node may have 64 names in its path, and no more.
pub(crate) fn depth_limit()
    ensures deepest { refusal (levels 64) ≡ None }
    ensures deeper { refusal (levels 65) ≡ Some too_deep }
{}

/// Of two nodes, and of two properties, the older one was opened or defined first; one that comes again after a deletion is new.
pub(crate) fn order_of_the_text()
    ensures nodes { age (events written_phandle) (codes "a" ∷ []) ≡ 5 }
    ensures later { age (events written_phandle) (codes "b" ∷ []) ≡ 3 }
    ensures again { age (events opened_again) (codes "n" ∷ []) ≡ 2 }
    ensures redefined { property_age (events opened_again) [] (codes "a") ≡ 10 }
    ensures first_label { label_age (events two_labels) (codes "b") (codes "n" ∷ []) ≡ 5 }
    ensures second_label { label_age (events two_labels) (codes "a") (codes "n" ∷ []) ≡ 4 }
    ensures dropped { property_age (events deleted_property) [] (codes "a") ≡ 0 }
{}

// ---- overlay sources

/// A block of another tree's node opens a fragment; a reference by a label of the source is inside, any other outside.
pub(crate) fn overlay_with_two_cells()
    ensures read { overlay_refusal two_cells_source ≡ None }
    ensures target { (overlay two_cells_source []).value (fragment 0 ∷ []) (codes "target-path") ≡ Some (map byte (codes "/" ++ 0 ∷ [])) }
    ensures outside { (overlay two_cells_source []).value (content_of 0 ++ codes "d" ∷ []) (codes "p") ≡
        Some (byte 1 ∷ reference (outside (codes "gic")) ∷ []) }
    ensures inside { (overlay two_cells_source []).value (content_of 0 ++ codes "d" ∷ []) (codes "q") ≡
        Some (reference (inside (content_of 0 ++ codes "f" ∷ [])) ∷ []) }
    ensures label { (overlay two_cells_source []).label (codes "e") ≡ Some (content_of 0 ++ codes "f" ∷ []) }
    ensures keyed { (overlay two_cells_source []).keyed (content_of 0 ++ codes "f" ∷ []) ≡ true }
    ensures unkeyed { (overlay two_cells_source []).keyed (content_of 0 ++ codes "d" ∷ []) ≡ false }
    ensures rooted { (overlay two_cells_source []).stands [] ≡ true }
{}

/// A block of a label that the source has given opens that node, and no fragment.
pub(crate) fn overlay_with_a_label_of_its_own()
    ensures read { overlay_refusal three_values_source ≡ None }
    ensures first { (overlay three_values_source []).value (content_of 0 ++ codes "x" ∷ []) (codes "p") ≡ Some (map byte (cell 3)) }
    ensures second { (overlay three_values_source []).value (content_of 1 ++ codes "x" ∷ []) (codes "p") ≡ Some (map byte (cell 2)) }
    ensures no_third { (overlay three_values_source []).stands (fragment 2 ∷ []) ≡ false }
    ensures target { (overlay three_values_source []).value (fragment 1 ∷ []) (codes "target") ≡ Some (reference (outside (codes "a")) ∷ []) }
{}

/// A new fragment's name is none that a `/ { }` block opens, before it or behind it.
pub(crate) fn overlay_with_a_written_fragment()
    ensures next { (overlay written_fragment_source []).value (fragment 1 ∷ []) (codes "target") ≡ Some (reference (outside (codes "x")) ∷ []) }
    ensures before { (overlay later_fragment_source []).value (fragment 1 ∷ []) (codes "target") ≡ Some (reference (outside (codes "x")) ∷ []) }
    ensures written { (overlay later_fragment_source []).value (fragment 0 ∷ []) (codes "target") ≡ None }
{}

/// What an overlay may not have.
pub(crate) fn refused_overlays()
    ensures deletion { overlay_refusal deleting_source ≡ Some overlay_delete }
    ensures phandle { overlay_refusal numbering_source ≡ Some overlay_phandle }
    ensures text { overlay_refusal text_source ≡ Some overlay_path }
    ensures path { overlay_refusal path_source ≡ Some overlay_path }
    ensures phandle_first { overlay_refusal numbering_text_source ≡ Some overlay_phandle }
    ensures text_first { overlay_refusal text_again_source ≡ Some overlay_path }
    ensures node { overlay_refusal node_twice ≡ Some (as_any duplicate_node) }
    ensures label { overlay_refusal label_twice ≡ Some (as_any duplicate_label) }
{}

/// Of what is wrong after the last place of an overlay, a fragment that holds no target is reported first, then a reference to a
/// node that no fragment brings.
pub(crate) fn late_overlay_refusals()
    ensures target { IsOverlayRefusedFor no_target_source (at_end bad_fragment) }
    ensures reference { IsOverlayRefusedFor outside_content_source (at_end outside_content) }
{}

// ---- merging meanings

/// The sites of fragments: by a label of the tree, by a path, and by a node that an earlier fragment brings.
pub(crate) fn sites_of_fragments()
    ensures labels { AreSites (meaning one_node_source) (overlay three_values_source three_values_fragments) [] three_values_fragments three_values_sites }
    ensures inside { AreSites (meaning controller_source) (overlay inner_source inner_fragments) [] inner_fragments inner_sites }
    ensures later { (sites : List Site) → AreSites (meaning controller_source) (overlay inner_source inner_fragments) [] (reverse inner_fragments) sites → ⊥ }
{}

/// Of several fragments that land one property the last decides; nodes, keyed nodes and labels are the tree's and those
/// that land.
pub(crate) fn merged_by_fragments()
    ensures value { (merged (meaning one_node_source) (overlay three_values_source three_values_fragments) three_values_sites).value
        (codes "s" ∷ codes "x" ∷ []) (codes "p") ≡ Some (map byte (cell 2)) }
    ensures label { (merged (meaning one_node_source) (overlay three_values_source three_values_fragments) three_values_sites).label (codes "n") ≡
        Some (codes "s" ∷ codes "x" ∷ []) }
    ensures keyed { (merged (meaning one_node_source) (overlay three_values_source three_values_fragments) three_values_sites).keyed
        (codes "s" ∷ codes "x" ∷ []) ≡ true }
    ensures no_fragment { (merged (meaning one_node_source) (overlay three_values_source three_values_fragments) three_values_sites).stands
        (fragment 0 ∷ []) ≡ false }
{}

/// References inside a fragment go to the nodes on which their nodes land, others to the nodes that the tree's labels name.
pub(crate) fn merged_references()
    ensures outside { (merged (meaning controller_source) (overlay two_cells_source two_cells_fragments) two_cells_sites).value
        (codes "d" ∷ []) (codes "p") ≡ Some (byte 1 ∷ reference (codes "ic" ∷ []) ∷ []) }
    ensures inside { (merged (meaning controller_source) (overlay two_cells_source two_cells_fragments) two_cells_sites).value
        (codes "d" ∷ []) (codes "q") ≡ Some (reference (codes "f" ∷ []) ∷ []) }
{}

/// An overlay that takes over a label leaves the references that were made by it.
pub(crate) fn merged_label_taken_over()
    ensures label { (merged (meaning referring_source) (overlay label_taken_source two_cells_fragments) two_cells_sites).label (codes "l") ≡
        Some (codes "b" ∷ []) }
    ensures reference { (merged (meaning referring_source) (overlay label_taken_source two_cells_fragments) two_cells_sites).value [] (codes "r") ≡
        Some (reference (codes "a" ∷ []) ∷ []) }
    ensures both { (merged (meaning referring_source) (overlay label_taken_source two_cells_fragments) two_cells_sites).keyed (codes "a" ∷ []) ≡ true }
{}

// ---- applying

/// What an object lists.
pub(crate) fn marks_of_an_object()
    ensures fragments { fragment_names two_cells.children ≡ fragment 0 ∷ [] }
    ensures cells { local_cells two_cells ≡ record { path = content_of 0 ++ codes "d" ∷ []; property = codes "q"; offset = 0 } ∷ [] }
    ensures numbers { numbers_of controller ≡ 1 ∷ [] }
    ensures new { new_paths two_cells ≡ (content_of 0 ++ codes "f" ∷ []) ∷ [] }
    ensures outside { new_paths no_fragment ≡ [] }
    ensures none { fragment_names no_fragment.children ≡ [] }
{}

/// An object's cells get their numbers at any offset, and symbols are those of the nodes on which labels land.
pub(crate) fn object_applied()
    ensures { applied_at controller two_cells
        ((codes "gic", record { path = content_of 0 ++ codes "d" ∷ []; property = codes "p"; offset = 1 }) ∷ [])
        ((content_of 0 ++ codes "f" ∷ [], 2) ∷ []) two_cells_sites ≡ with_two_cells }
{}

/// Of several fragments that land one property the last decides.
pub(crate) fn last_fragment_decides()
    ensures { applied_at one_node three_values
        ((codes "a", record { path = fragment 0 ∷ []; property = codes "target"; offset = 0 })
        ∷ (codes "a", record { path = fragment 1 ∷ []; property = codes "target"; offset = 0 }) ∷ [])
        ((content_of 0 ++ codes "x" ∷ [], 2) ∷ []) three_values_sites ≡
        tree []
        (branch (codes "s") (set (codes "phandle") (cell 1) ∷ [])
        (branch (codes "x") (set (codes "p") (cell 2) ∷ set (codes "phandle") (cell 2) ∷ []) no_nodes no_nodes)
        (symbols (symbol_of (codes "a") (codes "s" ∷ []) ∷ symbol_of (codes "n") (codes "s" ∷ codes "x" ∷ []) ∷ []))) }
{}
