//! Objects applied to a blob.

ghost use Rattle.std.specs.Prelude.{map, IfOk, IfErr};
ghost use Rattle.dt_chain_promises.specs.AppliedBytes.{IsAppliedToBytes, WhyNotAppliedToBytes};
ghost use Rattle.dt_chain_promises.specs.Apply.{IsRead, IsNoBlob, IsBlobApplied, WhyNoBlobApplied};

use crate::in_turn::{Inputs, blob_of};
use dt_edit::BlobBuf;
use dt_flat::FlatTree;
use dt_names::{Fault, Seed};
use dt_overlay::{apply, tree_room_is_counted};
use dt_read::Blob;
use std::alloc::Global;

/// The blob of a base with an overlay's object applied to its bytes (dtc's notes on overlay objects). It has the reading of `apply_list`'s with one
/// object; its bytes are the base's, where nothing was changed. No tree is made of the base, so a small object on a large base costs less memory; but
/// each change moves the bytes behind it, so the time is the number of changes times the base's size.
///
/// # Errors
///
/// The first fault of bytes that are no blob, at its place, of the base or else of the object; or that of `dt_overlay::apply`. `Limit`, without a
/// place, where the base's blocks one behind the other are longer than 16 MiB; or where the blob, on the way to what comes of the object, would have
/// more than 65,536 nodes or, with its NOPs and the names in its strings, be longer than 16 MiB. `NoMemory` has no place.
pub fn apply_bytes(alloc: Global, base: &[u8], overlay: &[u8]) -> Result<Vec<u8>, Fault>
    ensures blob { IfOk result (λ blob. IsAppliedToBytes base.now overlay.now blob.items) }
    ensures refused { IfErr result (λ fault. WhyNotAppliedToBytes base.now overlay.now fault) }
{
    let blob = Blob::check(base)?;
    let object = Blob::check(overlay)?;
    let mut buffer = BlobBuf::new(alloc, base, blob.seed().with(object.seed()))?;
    buffer.validity();
    apply(alloc, &mut buffer, &object)?;
    buffer.validity();
    Ok(buffer.into_bytes())
}

/// The blob of a base with the objects of overlays applied to it, one after another (dtc's notes on overlay objects): what
/// `dt_overlay::apply` makes of it. Without an object it is the blob of the base's tree.
///
/// # Errors
///
/// The number of the first input that is refused, where the base has number 0 and the objects are counted from 1, with its fault:
/// the first fault of bytes that are no blob, at its place; or that of `dt_overlay::apply`. `Limit` where the result would be
/// longer than 16 MiB is of the last input, and `NoMemory` of the one at which it is met.
pub fn apply_list(alloc: Global, base: &[u8], overlays: &[&[u8]]) -> Result<Vec<u8>, (usize, Fault)>
    ensures blob { IfOk result (λ blob. IsBlobApplied base.now (map (λ x. x.now) overlays.now) blob.items) }
    ensures refused { IfErr result (λ e. WhyNoBlobApplied base.now (map (λ x. x.now) overlays.now) e.0 e.1) }
{
    blob_of::<Blobs>(alloc, base, overlays)
}

/// Inputs that are blobs: a base's, and objects.
pub(crate) struct Blobs;

impl Inputs for Blobs {
    ghost has_base = { IsRead };

    ghost lacks_base = { IsNoBlob };

    ghost has_object = { IsRead };

    ghost lacks_object = { IsNoBlob };

    fn base_tree(alloc: Global, base: &[u8], others: Seed) -> Result<FlatTree, Fault> {
        let blob = Blob::check(base)?;
        blob.to_seeded_flat(alloc, blob.seed().with(others))
    }

    fn apply_to(alloc: Global, tree: &mut FlatTree, input: &[u8]) -> Result<(), Fault> {
        tree_room_is_counted();
        let object = Blob::check(input)?;
        apply(alloc, tree, &object)?;
        tree.validity();
        Ok(())
    }
}
