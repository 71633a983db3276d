//! The blocks of a blob.

ghost use Rattle.std.specs.Prelude.{◌≡◌, IfOk, IfErr};
ghost use Rattle.dt_model.specs.Checks.{BlobFault, IsFirstFault};
ghost use Rattle.dt_read.specs.Kinds.{kind_of};
ghost use Rattle.dt_read.specs.Blocks.{AreBlocks};

use crate::header::{fault_in, number};
use crate::parts;
use crate::reservations::have_end;
use dt_names::{Fault, FaultKind};

/// The blocks of a blob: the bytes from the reservations on, the strings, and the structure block with its place in the
/// blob; and the number of the processor that boots.
#[derive(Clone, Copy)]
pub(crate) struct Blocks<'a> {
    pub reservations: &'a [u8],
    pub strings: &'a [u8],
    pub at: usize,
    pub block: &'a [u8],
    pub boot_cpu: u32,
}

/// The blocks that a header places, if the header is right and the reservations end.
pub(crate) fn blocks_of(bytes: &[u8]) -> Result<Blocks<'_>, Fault>
    ensures blocks { IfOk result (AreBlocks bytes.now) }
    ensures fault { IfErr result (λ e. (f : BlobFault) × (e.kind ≡ kind_of f) × IsFirstFault bytes.now f e.at) }
{
    if let Some(kind) = fault_in(bytes) {
        return Err(Fault::of(kind));
    }
    let total = number(bytes, 4);
    let counted = parts::part(bytes, 0, total);
    let reservations_at = number(bytes, 16);
    let reservations = parts::from(counted, reservations_at);
    if !have_end(reservations) {
        return Err(Fault::of(FaultKind::NoReservationEnd));
    }
    let strings_at = number(bytes, 12);
    let strings_size = number(bytes, 32);
    let strings = parts::part(bytes, strings_at, strings_size);
    let at = number(bytes, 8);
    let size = number(bytes, 36);
    let block = parts::part(bytes, at, size);
    let boot_cpu = number(bytes, 28) as u32;
    Ok(Blocks {
        reservations,
        strings,
        at,
        block,
        boot_cpu,
    })
}
