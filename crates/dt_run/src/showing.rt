//! A blob, as bytes or as hexadecimal.

ghost use Rattle.std.specs.Prelude.{◌≡◌, Ok, Err, OnOk, IfOk, IfErr, MatchResult};
ghost use Rattle.dt_names.specs.Sink.{Takes, IsUntouched};
ghost use Rattle.dt_run.specs.Task.{encoded};
ghost use Rattle.dt_run.specs.Showing.{WhyNotShown};

use dt_names::{Fault, Sink, put_all};
use std::alloc::Global;

/// A fault is of the first input.
pub(crate) fn of_first<T: Drop>(done: Result<T, Fault>) -> Result<T, (usize, Fault)>
    ensures { MatchResult done (λ done. result ≡ Ok done) (λ fault. result ≡ Err (0, fault)) }
{
    match done {
        Ok(done) => Ok(done),
        Err(fault) => Err((0, fault)),
    }
}

/// Writes a blob as bytes, or with `hex` as lower-case hexadecimal and a line feed.
fn put_blob<S: Sink>(alloc: Global, hex: bool, blob: &[u8], out: &mut S) -> Result<(), Fault>
    ensures written { OnOk result (Takes (encoded hex blob.now) (S.taken out.old) (S.taken out.new)) }
    ensures refused { IfErr result (λ fault. WhyNotShown fault.kind fault.at (encoded hex blob.now) (S.taken out.old) (S.taken out.new)) }
{
    if !hex {
        return put_all(out, blob);
    }
    let mut text = hex::encode(alloc, blob)?;
    text.push('\n')?;
    put_all(out, text.as_bytes())
}

/// Writes a blob that was made, as bytes, or with `hex` as lower-case hexadecimal and a line feed.
///
/// # Errors
///
/// Why the blob wasn't made, where nothing is written; want of memory for the hexadecimal, where nothing is written; and `WriteFault`,
/// where the sink took a front of what was to be written. The last two are of input 0, and have no place.
pub(crate) fn show<S: Sink>(
    alloc: Global,
    hex: bool,
    made: Result<Vec<u8>, (usize, Fault)>,
    out: &mut S,
) -> Result<(), (usize, Fault)>
    ensures shown { IfOk made (λ blob. MatchResult result
        (λ _. Takes (encoded hex blob.items) (S.taken out.old) (S.taken out.new))
        (λ e. (e.0 ≡ 0) × WhyNotShown e.1.kind e.1.at (encoded hex blob.items) (S.taken out.old) (S.taken out.new))) }
    ensures refused { IfErr made (λ e. (result ≡ Err e) × IsUntouched (S.taken out.old) (S.taken out.new)) }
{
    match made {
        Ok(blob) => of_first(put_blob(alloc, hex, blob.as_slice(), out)),
        Err(fault) => Err(fault),
    }
}
