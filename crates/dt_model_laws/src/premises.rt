//! Sources, trees and objects that meet what the other laws ask for.

ghost use Rattle.std.specs.Prelude.{List, [], ◌∷◌};
ghost use Rattle.dt_model.specs.Instance.{IsTreeOf};
ghost use Rattle.dt_model.specs.Ordered.{IsInOrder};
ghost use Rattle.dt_model.specs.Source.{
  SourceMeans,
  base,
  unresolved,
  bad_phandle,
  duplicate_phandle,
};
ghost use Rattle.dt_model.specs.Refused.{IsRefusedFor, at_end};
ghost use Rattle.dt_model.specs.Merged.{Site, IsDefined};
ghost use Rattle.dt_model.specs.Represents.{Represents};
ghost use Rattle.dt_model.specs.Rows.{
  events,
  meaning,
  two_cells_sites,
  three_values_sites,
  inner_sites,
  written_phandle,
  gap_of_numbers,
};
ghost use Rattle.dt_model_laws.specs.Premises.{
  MeetThem,
  base_meaning,
  object_overlay,
  numbering,
  controller_base,
  one_node_base,
  referring_base,
  two_cells_object,
  three_values_object,
  inner_target_object,
  label_taken_object,
  joined_node_object,
  instance_written_phandle,
  with_written_phandle,
  written_phandle_numbers,
  with_gap_of_numbers,
  gap_of_numbers_numbers,
  unresolved_and_bad,
  bad_and_duplicate,
  duplicate_numbers,
};

/// A target by a path, a reference to a node of the overlay and one by a label of the base.
pub(crate) fn two_cells_meet_them()
    ensures meet { MeetThem controller_base two_cells_object }
    ensures defined { IsDefined (base_meaning controller_base) (object_overlay two_cells_object) two_cells_sites }
{}

/// Two fragments whose targets wait for a label of the base.
pub(crate) fn three_values_meet_them()
    ensures meet { MeetThem one_node_base three_values_object }
    ensures defined { IsDefined (base_meaning one_node_base) (object_overlay three_values_object) three_values_sites }
{}

/// A target that an earlier fragment brings.
pub(crate) fn inner_target_meets_them()
    ensures meet { MeetThem controller_base inner_target_object }
    ensures defined { IsDefined (base_meaning controller_base) (object_overlay inner_target_object) inner_sites }
{}

/// A label that the base has too.
pub(crate) fn label_taken_meets_them()
    ensures meet { MeetThem referring_base label_taken_object }
    ensures defined { IsDefined (base_meaning referring_base) (object_overlay label_taken_object) two_cells_sites }
{}

/// A node of the overlay that lands on one of the base where both have a number.
pub(crate) fn joined_node_meets_them()
    ensures meet { MeetThem controller_base joined_node_object }
    ensures defined { IsDefined (base_meaning controller_base) (object_overlay joined_node_object) two_cells_sites }
{}

/// A label that the base hasn't: it can't be merged.
pub(crate) fn missing_label_meets_them()
    ensures meet { MeetThem one_node_base two_cells_object }
    ensures refused { (sites : List Site) → IsDefined (base_meaning one_node_base) (object_overlay two_cells_object) sites → ⊥ }
{}

/// A base with a written phandle, a reference in a cell list and one outside.
pub(crate) fn written_phandle_is_represented()
    ensures source { SourceMeans base [] written_phandle (meaning written_phandle) }
    ensures represented { Represents with_written_phandle (meaning written_phandle) (numbering written_phandle_numbers) }
{}

/// A base whose written phandle lies between numbers that aren't written.
pub(crate) fn gap_of_numbers_is_represented()
    ensures source { SourceMeans base [] gap_of_numbers (meaning gap_of_numbers) }
    ensures represented { Represents with_gap_of_numbers (meaning gap_of_numbers) (numbering gap_of_numbers_numbers) }
{}

/// A tree with its nodes and properties in the order of its text, and the labels' node behind them.
pub(crate) fn written_phandle_is_in_order()
    ensures { IsInOrder (events written_phandle) (meaning written_phandle) instance_written_phandle }
{}

/// The trees that the two bases with written numbers are compiled to.
pub(crate) fn written_numbers_are_compiled()
    ensures one { IsTreeOf base [] written_phandle with_written_phandle }
    ensures gap { IsTreeOf base [] gap_of_numbers with_gap_of_numbers }
{}

/// Of what is wrong after the last place, a reference that names no node is reported first, then a phandle that writes no number.
pub(crate) fn late_refusals_are_told_in_turn()
    ensures unresolved { IsRefusedFor base unresolved_and_bad (at_end unresolved) }
    ensures not_bad { IsRefusedFor base unresolved_and_bad (at_end bad_phandle) → ⊥ }
    ensures bad { IsRefusedFor base bad_and_duplicate (at_end bad_phandle) }
    ensures not_duplicate { IsRefusedFor base bad_and_duplicate (at_end duplicate_phandle) → ⊥ }
    ensures duplicate { IsRefusedFor base duplicate_numbers (at_end duplicate_phandle) }
{}
