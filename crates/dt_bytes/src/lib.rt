//! Numbers in bytes, the highest byte first, and texts that end at a NUL. It has no values of its own: bytes are slices, and a place in
//! them is an offset from their start.
//!
//! ```text
//! put32(&mut bytes, 1, 0xd00dfeed)    // of six zeros it makes 00 d0 0d fe ed 00
//! be32(&bytes, 1)                     // Some(0xd00dfeed); None where fewer than four bytes stand there
//! ```
//!
//! The first is a case of bytes.cases (docs/CASES.md).
#![tactic(auto)]

ghost use Rattle.std.specs.Prelude.{◌≡◌, ◌≤◌, ◌<◌, ◌+◌, ◌↔◌, ◌++◌, take, drop, length, IsTrue, IfSome};
ghost use Rattle.std.specs.Bool.{OnTrue, OnFalse};
ghost use Rattle.std.specs.Int.{w32, to_be_bytes};
ghost use Rattle.std.specs.Option.{option_copied};
ghost use Rattle.dt_model.specs.Format.{word_at};
ghost use Rattle.dt_model.specs.Lexing.{text_in};
ghost use Rattle.dt_bytes.specs.Places.{long_at};

use byteorder::{BigEndian, ByteOrder};
use memchr::memchr;

/// Writes a 32-bit big-endian number at a place of some bytes; false, and nothing changed, where four bytes don't stand
/// there.
pub fn put32(bytes: &mut [u8], at: usize, number: u32) -> bool
    ensures written { IsTrue result ↔ (at + 4 ≤ length bytes.old) }
    ensures number { OnTrue result (bytes.new ≡ take at bytes.old ++ to_be_bytes w32 number ++ drop (at + 4) bytes.old) }
    ensures unchanged { OnFalse result (bytes.new ≡ bytes.old) }
{
    if at > bytes.len() || bytes.len() - at < 4 {
        return false;
    }
    BigEndian::write_u32(&mut bytes[at..], number);
    true
}

/// Whether so many bytes stand at a place.
fn has_bytes(bytes: &[u8], at: usize, size: usize) -> bool
    ensures { IsTrue result ↔ (at + size ≤ length bytes.now) }
{
    at <= bytes.len() && size <= bytes.len() - at
}

/// The 32-bit big-endian number at a place of some bytes; None where four bytes don't stand there.
pub fn be32(bytes: &[u8], at: usize) -> Option<u32>
    ensures { result ≡ word_at bytes.now at }
{
    if !has_bytes(bytes, at, 4) {
        return None;
    }
    Some(BigEndian::read_u32(&bytes[at..at + 4]))
}

/// The 64-bit big-endian number at a place of some bytes; None where eight bytes don't stand there.
pub fn be64(bytes: &[u8], at: usize) -> Option<u64>
    ensures { result ≡ long_at bytes.now at }
{
    if !has_bytes(bytes, at, 8) {
        return None;
    }
    Some(BigEndian::read_u64(&bytes[at..at + 8]))
}

/// The bytes up to the first NUL.
fn first_text(bytes: &[u8]) -> Option<&[u8]>
    ensures text { option_copied result ≡ text_in bytes.now }
    ensures within { IfSome result (λ text. length text.now < length bytes.now) }
{
    let len = memchr(0, bytes)?;
    Some(&bytes[..len])
}

/// The bytes from a place of some bytes up to the first NUL; None if there is no NUL from there on.
pub fn text_at(bytes: &[u8], at: usize) -> Option<&[u8]>
    ensures text { option_copied result ≡ text_in (drop at bytes.now) }
    ensures within { IfSome result (λ text. at + length text.now < length bytes.now) }
{
    if at > bytes.len() {
        return None;
    }
    first_text(&bytes[at..])
}
