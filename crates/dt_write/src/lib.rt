//! A tree as a blob, the flattened format of the Devicetree Specification v0.4, chapter 5.
//!
//! ```text
//! let tree = FlatTree::new(alloc, 0);
//! write_blob(alloc, &tree)                    // Ok: the 72 bytes of the empty tree, d00dfeed 00000048 ..
//! ```
//!
//! It is the first case of sources.cases (docs/CASES.md).
#![tactic(auto)]

ghost use Rattle.std.specs.Prelude.{◌≡◌, ◌≤◌, length, IfOk, IfErr, None};
ghost use Rattle.dt_model.specs.Limits.{most_bytes};
ghost use Rattle.dt_model.specs.Format.{Reads, IsWithin};
ghost use Rattle.dt_flat.specs.Arena.{reading};
ghost use Rattle.dt_write.specs.Written.{written};
ghost use Rattle.dt_write.specs.Refusals.{WhyNoBytes};

mod laws;
mod names;
mod sharing;
mod strings;
mod structure;
mod whole;
mod words;

use dt_flat::FlatTree;
use dt_names::Fault;
pub use laws::{names_share_bytes, one_outcome, written_reads};
use std::alloc::Global;
pub use whole::set_header;

/// The blob of a tree: header, reservations, structure, strings, nothing between them (Devicetree Specification v0.4,
/// chapter 5). Version 17, last compatible version 16, no NOP, zeros as padding. The names of properties that are no end of
/// a longer one are stored, in the order of first use; each other name is the end of the first of them that ends with it.
///
/// # Errors
///
/// `Limit` where the blob would be longer than 16,777,216 bytes; and `NoMemory`. None has a place.
pub fn write_blob(alloc: Global, tree: &FlatTree) -> Result<Vec<u8>, Fault>
    ensures written { IfOk result (λ blob. blob.items ≡ written (reading tree.now)) }
    ensures reads { IfOk result (λ blob. Reads blob.items (reading tree.now)) }
    ensures within { IfOk result (λ blob. IsWithin blob.items (reading tree.now)) }
    ensures size { IfOk result (λ blob. length blob.items ≤ most_bytes) }
    ensures refused { IfErr result (λ fault. WhyNoBytes fault.kind (length (written (reading tree.now))) × (fault.at ≡ None)) }
{
    tree.validity();
    let mut blob = Vec::new(alloc);
    whole::put_blob(alloc, tree, &mut blob)?;
    Ok(blob)
}
