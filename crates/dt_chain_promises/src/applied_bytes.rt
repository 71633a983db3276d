//! What is true of what `apply_bytes` answers, whatever its code is.

ghost use Rattle.dt_chain_promises.specs.AppliedBytes.{OneReadingApplied, BytesAreAsLists, AppliedBytesAreNotRefused, OneRefusalOfBytes};
ghost use Rattle.dt_chain_promises.specs.AppliedBytes.{RefusedBytesAreAsLists, ApplyingBytesIsMerging, RefusedBytesAreNoMerge};
ghost use Rattle.dt_chain_promises.specs.AppliedBytes.{ApplyingBytesIsResolved, ApplyingBytesIsLimited};

use crate::laws::{one_blob, what_applying_means};
use dt_model::one_reading;
use dt_model_format::blob_has_no_fault;
use dt_overlay_laws::{applied_is_not_refused, limit_is_exceeded};
use dt_overlay_model::{applied_is_one, in_turn_is_fold};
use dt_resolve_model::meaning_is_resolved;

/// Applying an object to a base's bytes answers blobs of one reading, or refuses for one fault, and not both, unless memory is wanted or a limit is
/// in the way. It is the reading that applying a list of that object answers, and its fault.
pub fn one_applied_reading()
    ensures reading { OneReadingApplied }
    ensures as_list { BytesAreAsLists }
    ensures only { AppliedBytesAreNotRefused }
    ensures refusal { OneRefusalOfBytes }
    ensures refused_as_list { RefusedBytesAreAsLists }
{
    one_reading();
    applied_is_one();
    blob_has_no_fault();
    applied_is_not_refused();
    limit_is_exceeded();
    one_blob();
}

/// Whoever wrote the blobs: what applying an object of an overlay to a base's bytes answers is read as a tree that represents the base's meaning with
/// the overlay merged into it, by numbers that extend the base's, and each region and route that this meaning determines is the one of that tree;
/// memory and limits aside, it is refused only where that merge isn't defined; and it reports a limit only where one is exceeded.
pub fn what_applying_bytes_means()
    ensures merged { ApplyingBytesIsMerging }
    ensures refused { RefusedBytesAreNoMerge }
    ensures resolved { ApplyingBytesIsResolved }
    ensures limited { ApplyingBytesIsLimited }
{
    one_reading();
    in_turn_is_fold();
    what_applying_means();
    meaning_is_resolved();
}
