//! What is true of what the calls answer, whatever their code is.

ghost use Rattle.dt_chain_promises.specs.Laws.{
  OneMeaning,
  OneOverlayMeaning,
  OneBlob,
  CompiledIsNotRefused,
  OneRefusal,
  OneRawBlob,
  RawIsNotRefused,
  OneRawRefusal,
  OneBlobApplied,
  AppliedIsNotRefused,
  OneRefusalToApply,
  OneBlobBuilt,
  BuiltIsNotRefused,
  OneRefusalToBuild,
  OneText,
  DecompiledIsNotRefused,
  OneRefusalToDecompile,
  BaseRepresents,
  RawIsInstance,
  OverlayIsObject,
  NotCompiledIsNoMeaning,
  RawNotCompiledIsNoMeaning,
  ApplyingIsMerging,
  RefusedIsNoMerge,
  OneMergedMeaning,
  BuildingIsMerging,
  NotBuiltIsNoMeaning,
  BuildingIsResolved,
  ApplyingIsResolved,
  CompilingIsResolved,
  PrintedIsCompiledAgain,
};
ghost use Rattle.dt_chain_promises.specs.Limits.{CompilingIsLimited, RawIsLimited, ApplyingIsLimited, BuildingIsLimited};

use dt_decompile_laws::{read_trees_hold_bytes, text_is_parsed, text_is_tree};
use dt_model::one_reading;
use dt_model_format::{blob_has_no_fault, first_fault_is_one};
use dt_model_laws::{
    compiled_base_represents, compiled_is_not_refused, compiled_tree_is_one,
    compiled_tree_is_valid, object_encodes, object_is_one, object_is_valid, overlay_is_one,
    overlay_refusal_is_one, overlay_source_is_an_overlay, source_is_a_meaning,
};
use dt_overlay_laws::{
    applied_is_not_refused, limit_is_exceeded, one_refusal, refused_is_undefined, room_is_counted,
};
use dt_overlay_model::{applied_is_one, in_turn_is_fold, sites_are_one};
use dt_parse::parsed_has_places;
use dt_resolve_model::meaning_is_resolved;
use dt_write::written_reads;

/// A text means one thing: a base's one meaning, an overlay's one overlay.
pub fn one_meaning()
    ensures base { OneMeaning }
    ensures overlay { OneOverlayMeaning }
{
    dt_parse::one_outcome();
    overlay_is_one();
}

/// A text is compiled to one blob, or is refused for one reason, and not both, unless memory is wanted: by `compile`, as a base
/// or as an overlay, and by `compile_raw`.
pub fn one_outcome()
    ensures blob { OneBlob }
    ensures only { CompiledIsNotRefused }
    ensures refusal { OneRefusal }
    ensures raw_blob { OneRawBlob }
    ensures raw_only { RawIsNotRefused }
    ensures raw_refusal { OneRawRefusal }
{
    dt_parse::one_outcome();
    compiled_tree_is_one();
    compiled_is_not_refused();
    dt_source::one_outcome();
    object_is_one();
    overlay_refusal_is_one();
}

/// What a base's text is compiled to is a blob of what the text means, so that overlays may be applied to it; a raw source's is read as the
/// instance of what it means, and nothing else; an overlay's is an object of the overlay that it means, which may be applied. Memory and
/// limits aside, a text is refused only where it means nothing.
pub fn what_compiling_means()
    ensures base { BaseRepresents }
    ensures raw { RawIsInstance }
    ensures overlay { OverlayIsObject }
    ensures refused { NotCompiledIsNoMeaning }
    ensures raw_refused { RawNotCompiledIsNoMeaning }
{
    dt_parse::one_outcome();
    parsed_has_places();
    compiled_tree_is_valid();
    compiled_base_represents();
    compiled_is_not_refused();
    source_is_a_meaning();
    object_is_valid();
    object_encodes();
    overlay_source_is_an_overlay();
    overlay_refusal_is_one();
    written_reads();
}

/// Applying objects to a base answers one blob, or refuses one input for one fault, and not both, unless memory is wanted; and so does
/// building.
pub fn one_blob()
    ensures applied { OneBlobApplied }
    ensures applied_only { AppliedIsNotRefused }
    ensures built { OneBlobBuilt }
    ensures built_only { BuiltIsNotRefused }
    ensures refused { OneRefusalToApply }
    ensures not_built { OneRefusalToBuild }
{
    one_reading();
    blob_has_no_fault();
    applied_is_one();
    one_refusal();
    applied_is_not_refused();
    limit_is_exceeded();
    dt_parse::one_outcome();
    dt_source::one_outcome();
    first_fault_is_one();
    overlay_refusal_is_one();
    compiled_tree_is_one();
    compiled_is_not_refused();
    object_is_one();
}

/// Exactly when a limit is reported: by `compile` and `compile_raw` of a text that is too long, or whose expressions, bodies, paths, nodes or blob
/// are; by `apply_list` and `build` of the first input that is so itself, or with which those before it have too many nodes, a path that is
/// too long, or a blob that is.
pub fn what_limits_mean()
    ensures compiled { CompilingIsLimited }
    ensures raw { RawIsLimited }
    ensures applied { ApplyingIsLimited }
    ensures built { BuildingIsLimited }
{
    room_is_counted();
}

/// Whoever wrote the blobs: what applying objects of overlays to a base answers is read as a tree that represents the base's
/// meaning with the overlays merged into it one after another, by numbers that extend the base's; and memory and limits aside, it
/// is refused only where that merge isn't defined.
pub fn what_applying_means()
    ensures merged { ApplyingIsMerging }
    ensures refused { RefusedIsNoMerge }
{
    one_reading();
    blob_has_no_fault();
    in_turn_is_fold();
    sites_are_one();
    refused_is_undefined();
    written_reads();
}

/// What building answers is read as a tree that represents the one thing that the base's text followed by the overlays' texts means, each
/// keyed node having one number of its own that every reference to it holds, by numbers that extend those of the tree that the base's
/// text is compiled to; and memory and limits aside, it is refused only where one of the texts means nothing, or one of the merges isn't
/// defined.
pub fn what_building_means()
    ensures one { OneMergedMeaning }
    ensures merged { BuildingIsMerging }
    ensures refused { NotBuiltIsNoMeaning }
{
    dt_parse::one_outcome();
    parsed_has_places();
    source_is_a_meaning();
    compiled_base_represents();
    compiled_is_not_refused();
    overlay_source_is_an_overlay();
    overlay_is_one();
    overlay_refusal_is_one();
    object_encodes();
    in_turn_is_fold();
    sites_are_one();
    refused_is_undefined();
    written_reads();
}

/// The whole promise: each address of `reg`, each address for DMA and each route of an interrupt or of another specifier that the base's text
/// followed by the overlays' texts determines, an answer or a fault, is the one of the blob that building answers, read as a tree; and so it is
/// of what applying answers, whoever wrote the base and the objects, and of what a base's text is compiled to. What the texts leave open is
/// claimed of the blob alone: a number used as a phandle that no node of the texts writes, and a number that a reference gets where it is used
/// as one. `dt_ranges::region`, `dt_ranges::dma_region`, `dt_irq::route` and `dt_irq::specifier_route` answer them of each view of that tree.
pub fn what_building_resolves()
    ensures built { BuildingIsResolved }
    ensures applied { ApplyingIsResolved }
    ensures compiled { CompilingIsResolved }
{
    what_building_means();
    what_applying_means();
    what_compiling_means();
    meaning_is_resolved();
}

/// A blob is printed as one text, or is refused for one reason, and not both, unless memory is wanted.
pub fn one_text()
    ensures text { OneText }
    ensures only { DecompiledIsNotRefused }
    ensures refusal { OneRefusalToDecompile }
{
    one_reading();
    blob_has_no_fault();
    first_fault_is_one();
}

/// The text that a blob is printed as, if it is no longer than a source may be, is compiled again as it is: to a blob that is
/// read as the same tree, its reservations, nodes and properties in their order, with boot CPU 0.
pub fn what_printing_means()
    ensures again { PrintedIsCompiledAgain }
{
    one_reading();
    read_trees_hold_bytes();
    text_is_parsed();
    text_is_tree();
    dt_parse::one_outcome();
    compiled_tree_is_one();
    compiled_is_not_refused();
    written_reads();
}
