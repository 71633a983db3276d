//! Numbers in bytes, the highest byte first, and how many bytes a blob may have.

ghost use Rattle.std.specs.Prelude.{◌≡◌, ◌+◌, ◌*◌, ◌<◌, ◌≤◌, ◌++◌, length, drop, OnOk};
ghost use Rattle.std.specs.Bool.{OnTrue, OnFalse};
ghost use Rattle.std.specs.Int.{w64, to_be_bytes};
ghost use Rattle.std.specs.List.{flat_map};
ghost use Rattle.dt_model.specs.Limits.{most_bytes};
ghost use Rattle.dt_model.specs.Format.{word, pair};
ghost use Rattle.dt_write.specs.Written.{zeros_after};

use byteorder::{BigEndian, ByteOrder};
use dt_bytes::put32;
use dt_names::limits::MOST_BYTES;
use std::alloc::AllocError;

/// Whether a blob may have so many bytes and more behind them.
pub(crate) fn fits(used: usize, more: usize) -> bool
    ensures within { OnTrue result (used + more ≤ most_bytes) }
    ensures beyond { OnFalse result (most_bytes < used + more) }
{
    used <= MOST_BYTES && more <= MOST_BYTES - used
}

/// Puts a 32-bit word at the end.
pub(crate) fn put_word(out: &mut Vec<u8>, number: u32) -> Result<(), AllocError>
    ensures { OnOk result (out.new.items ≡ out.old.items ++ word number) }
{
    let mut bytes = [0; 4];
    BigEndian::write_u32(&mut bytes, number);
    out.extend_from_slice(&bytes)
}

/// Puts three 32-bit words at the end, at once.
pub(crate) fn put_words(out: &mut Vec<u8>, numbers: [u32; 3]) -> Result<(), AllocError>
    ensures { OnOk result (out.new.items ≡ out.old.items ++ flat_map word numbers) }
{
    let mut bytes = [0; 12];
    set_words(&mut bytes, &numbers);
    out.extend_from_slice(&bytes)
}

/// Puts a 64-bit number at the end.
fn put_long(out: &mut Vec<u8>, number: u64) -> Result<(), AllocError>
    ensures { OnOk result (out.new.items ≡ out.old.items ++ to_be_bytes w64 number) }
{
    let mut bytes = [0; 8];
    BigEndian::write_u64(&mut bytes, number);
    out.extend_from_slice(&bytes)
}

/// Puts a pair of 64-bit numbers at the end.
pub(crate) fn put_pair(out: &mut Vec<u8>, address: u64, size: u64) -> Result<(), AllocError>
    ensures { OnOk result (out.new.items ≡ out.old.items ++ pair (address, size)) }
{
    put_long(out, address)?;
    put_long(out, size)
}

/// Puts zeros after so many bytes, up to a multiple of four.
pub(crate) fn put_zeros(out: &mut Vec<u8>, size: usize) -> Result<(), AllocError>
    ensures { OnOk result (out.new.items ≡ out.old.items ++ zeros_after size) }
{
    for _ in 0..(4 - size % 4) % 4 {
        out.push(0)?;
    }
    Ok(())
}

/// Sets 32-bit words, one after the other from the front of some bytes.
pub(crate) fn set_words(bytes: &mut [u8], numbers: &[u32])
    requires { 4 * length numbers.now ≤ length bytes.old }
    ensures { bytes.new ≡ flat_map word numbers.now ++ drop (4 * length numbers.now) bytes.old }
{
    for (place, number) in numbers.iter().enumerate() {
        put32(bytes, 4 * place, *number);
    }
}
