//! The source of a blob.

ghost use Rattle.std.specs.Prelude.{List, ℕ, OnOk, IfErr};
ghost use Rattle.dt_names.specs.Sink.{Takes};
ghost use Rattle.dt_run_streams.specs.Told.{IsPrinted, WhyNotTold};

use dt_decompile::text_of;
use dt_names::{Fault, Sink};
use dt_read::Blob;

/// Writes the source of a blob's tree, of DTS version 1. Takes no memory.
///
/// # Errors
///
/// The first fault of the blob, where nothing is written; and `WriteFault`, without a place, where the sink took a front of
/// the source.
pub fn print<S: Sink>(bytes: &[u8], out: &mut S) -> Result<(), Fault>
    ensures written { OnOk result ((text : List ℕ) × IsPrinted bytes.now text × Takes text (S.taken out.old) (S.taken out.new)) }
    ensures refused { IfErr result (λ fault. WhyNotTold fault bytes.now (IsPrinted bytes.now) (S.taken out.old) (S.taken out.new)) }
{
    let blob = Blob::check(bytes)?;
    text_of(&blob, out)
}
