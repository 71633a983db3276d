//! The bytes of an input.

ghost use Rattle.std.specs.Prelude.{◌≡◌, ◌≤◌, false, None, IfOk, IfErr, IsOk, length};
ghost use Rattle.std.specs.Io.KnownBytes.{Consumes, IsAtEnd};
ghost use Rattle.dt_model.specs.Limits.{most_bytes};
ghost use Rattle.dt_run_streams.specs.Read.{WhyNotRead};

use dt_names::limits::MOST_BYTES;
use dt_names::{Fault, FaultKind, Feed};
use std::alloc::Global;

/// All bytes that a feed gives, up to its end.
///
/// # Errors
///
/// `Limit` where it gives more than 16,777,216 bytes, and of those beyond no more than 4,096 are read; `ReadFault` where it
/// fails; and `NoMemory`. None has a place.
pub fn read_all<F: Feed>(alloc: Global, feed: &mut F) -> Result<Vec<u8>, Fault>
    ensures bytes { IfOk result (λ all. Consumes (F.remaining feed.old) (F.remaining feed.new) all.items
        × IsAtEnd (F.remaining feed.new) × (length all.items ≤ most_bytes)) }
    ensures sound { IsOk result → F.has_failed feed.new ≡ false }
    ensures refused { IfErr result (λ fault.
        WhyNotRead fault.kind (F.remaining feed.old) (F.remaining feed.new) (F.has_failed feed.new)
        × (fault.at ≡ None)) }
{
    let mut all = Vec::new(alloc);
    let mut piece = [0; 4096];
    while all.len() <= MOST_BYTES {
        match feed.get(&mut piece) {
            Some(0) => return Ok(all),
            Some(given) => all.extend_from_slice(&piece[..given])?,
            None => return Err(Fault::of(FaultKind::ReadFault)),
        }
    }
    Err(Fault::of(FaultKind::Limit))
}
