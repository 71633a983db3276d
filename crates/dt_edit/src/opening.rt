//! A blob copied into a buffer, where it can be edited.

ghost use Rattle.std.specs.Prelude.{◌≡◌, ◌+◌, ◌≤◌, None, length, drop, IsOk, IfErr, OnOk};
ghost use Rattle.dt_edit.specs.Editable.{reading_in, opened_size, IsEditable, Fits, WhyNotOpened};
ghost use Rattle.dt_edit.specs.Moving.{put, three_blocks};
ghost use Rattle.dt_model.specs.Checks.{number, strings_of, structure_of};
ghost use Rattle.dt_read.specs.Checked.{IsBlob};

use crate::layout::{HEADER_SIZE, number};
use crate::moving::put_bytes;
use dt_names::limits::MOST_BYTES;
use dt_names::{Fault, FaultKind};
use dt_read::{reservation_bytes, strings_bytes, structure_bytes};
use dt_write::set_header;

/// Writes three blocks behind the place of a header.
fn put_blocks(bytes: &mut [u8], reservations: &[u8], structure: &[u8], strings: &[u8])
    requires { 40 + length reservations.now + length structure.now + length strings.now ≤ length bytes.old }
    ensures { bytes.new ≡ put 40 (three_blocks reservations.now structure.now strings.now) bytes.old }
{
    let structure_at = HEADER_SIZE + reservations.len();
    put_bytes(bytes, HEADER_SIZE, reservations);
    put_bytes(bytes, structure_at, structure);
    put_bytes(bytes, structure_at + structure.len(), strings);
}

/// How long a blob is with its blocks one behind the other.
pub(crate) fn opened_size(blob: &[u8]) -> usize
    requires { IsBlob blob.now }
    ensures { result ≡ opened_size blob.now }
{
    let reservations = reservation_bytes(blob).len();
    HEADER_SIZE + reservations + structure_bytes(blob).len() + strings_bytes(blob).len()
}

/// Copies a blob that was checked to the front of a buffer, its blocks one behind the other, where it can be edited. It reads as before; a NOP stays
/// one. Version 17, last compatible version 16 (Devicetree Specification v0.4, 5.2). The bytes behind it stay. Takes no memory.
///
/// # Errors
///
/// `Limit`, without a place, where its blocks one behind the other are longer than the buffer or than 16 MiB.
pub fn open_into(blob: &[u8], bytes: &mut [u8]) -> Result<(), Fault>
    requires { IsBlob blob.now }
    ensures editable { IsOk result → IsEditable bytes.new }
    ensures reads { OnOk result (reading_in bytes.new ≡ reading_in blob.now) }
    ensures structure { OnOk result (structure_of bytes.new ≡ structure_of blob.now) }
    ensures strings { OnOk result (strings_of bytes.new ≡ strings_of blob.now) }
    ensures size { OnOk result (number bytes.new 4 ≡ opened_size blob.now) }
    ensures behind { OnOk result (drop (number bytes.new 4) bytes.new ≡ drop (number bytes.new 4) bytes.old) }
    ensures fits { IsOk result → Fits bytes.old (opened_size blob.now) }
    ensures err { IfErr result (λ fault. bytes.new ≡ bytes.old) }
    ensures refused { IfErr result (λ fault. WhyNotOpened fault.kind bytes.old (opened_size blob.now) × (fault.at ≡ None)) }
{
    let reservations = reservation_bytes(blob);
    let structure = structure_bytes(blob);
    let strings = strings_bytes(blob);
    let size = HEADER_SIZE + reservations.len() + structure.len() + strings.len();
    if size > bytes.len() || size > MOST_BYTES {
        return Err(Fault::of(FaultKind::Limit));
    }
    put_blocks(bytes, reservations, structure, strings);
    let boot_cpu = number(blob, 28);
    set_header(
        bytes,
        boot_cpu,
        reservations.len(),
        structure.len(),
        strings.len(),
    );
    Ok(())
}
