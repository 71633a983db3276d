//! From a blob to a source.

ghost use Rattle.std.specs.Prelude.{◌≡◌, IfOk, IfErr};
ghost use Rattle.dt_names.specs.declared.fault.FaultKind.TheVariants.{NoMemory};
ghost use Rattle.dt_model.specs.Printed.{printed};
ghost use Rattle.dt_trees.specs.Placed.{reading_of};
ghost use Rattle.dt_names.specs.Fault.{placeless};
ghost use Rattle.dt_chain_promises.specs.Decompile.{IsDecompiled, WhyNotDecompiled};

use dt_decompile::text_of;
use dt_names::{Fault, FaultKind, Out};
use dt_read::Blob;
use std::alloc::Global;

/// The source of a blob's tree, of DTS version 1 (Devicetree Specification v0.4, chapter 6): what `dt_decompile::text_of` writes.
/// Its length isn't limited.
///
/// # Errors
///
/// The first fault of bytes that are no blob, at its place; and `NoMemory`, without a place.
pub fn decompile(alloc: Global, bytes: &[u8]) -> Result<Vec<u8>, Fault>
    ensures printed { IfOk result (λ text. IsDecompiled bytes.now text.items) }
    ensures refused { IfErr result (λ fault. WhyNotDecompiled bytes.now fault) }
{
    let blob = Blob::check(bytes)?;
    text_in_memory(alloc, &blob)
}

/// The text of a blob. A vector takes all that there is memory for.
fn text_in_memory(alloc: Global, blob: &Blob) -> Result<Vec<u8>, Fault>
    ensures printed { IfOk result (λ text. text.items ≡ printed (reading_of blob.now)) }
    ensures refused { IfErr result (λ fault. fault ≡ placeless NoMemory) }
{
    let mut out = Out::new(Vec::new(alloc));
    match text_of(blob, &mut out) {
        Ok(()) => Ok(out.into_inner()),
        Err(_) => Err(Fault::of(FaultKind::NoMemory)),
    }
}
