//! The header of a blob (Devicetree Specification v0.4, 5.2).

ghost use Rattle.std.specs.Prelude.{◌≡◌, ◌+◌, ◌<◌, ◌^◌, ◌%◌, ◌==◌, ◌&&◌, nat_le, length};
ghost use Rattle.std.specs.Option.{option_map};
ghost use Rattle.dt_model.specs.Checks.{header_fault, number};
ghost use Rattle.dt_read.specs.Kinds.{kind_of};

use dt_bytes::be32;
use dt_names::FaultKind;
use dt_names::limits::MOST_BYTES;

/// The number that a blob begins with.
const MAGIC: usize = 0xd00d_feed;

/// The version that is read.
const VERSION: usize = 17;

/// How many bytes a header has.
const HEADER_BYTES: usize = 40;

/// The number at a place of the header, 0 where the bytes end before.
pub(crate) fn number(bytes: &[u8], at: usize) -> usize
    ensures value { result ≡ number bytes.now at }
    ensures word { result < 2 ^ 32 }
{
    match be32(bytes, at) {
        Some(number) => number as usize,
        None => 0,
    }
}

/// Whether the total size holds a header, and the bytes reach to it.
fn has_total(bytes: &[u8]) -> bool
    ensures { result ≡ (nat_le 40 (number bytes.now 4) && nat_le (number bytes.now 4) (length bytes.now)) }
{
    let total = number(bytes, 4);
    HEADER_BYTES <= total && total <= bytes.len()
}

/// Whether a reader of version 17 can read it.
fn has_version(bytes: &[u8]) -> bool
    ensures { result ≡ (nat_le 17 (number bytes.now 20) && nat_le (number bytes.now 24) 17) }
{
    VERSION <= number(bytes, 20) && number(bytes, 24) <= VERSION
}

/// Whether the reservations stand at a multiple of eight, and the structure block at one of four.
fn is_aligned(bytes: &[u8]) -> bool
    ensures { result ≡ ((number bytes.now 16 % 8 == 0) && (number bytes.now 8 % 4 == 0)) }
{
    number(bytes, 16) % 8 == 0 && number(bytes, 8) % 4 == 0
}

/// Whether the blocks stand inside the total size.
fn holds_blocks(bytes: &[u8]) -> bool
    ensures { result ≡ (nat_le (number bytes.now 16) (number bytes.now 4)
        && nat_le (number bytes.now 8 + number bytes.now 36) (number bytes.now 4)
        && nat_le (number bytes.now 12 + number bytes.now 32) (number bytes.now 4)) }
{
    let total = number(bytes, 4);
    number(bytes, 16) <= total
        && number(bytes, 8) + number(bytes, 36) <= total
        && number(bytes, 12) + number(bytes, 32) <= total
}

/// The first condition of a header that fails.
pub(crate) fn fault_in(bytes: &[u8]) -> Option<FaultKind>
    ensures { result ≡ option_map kind_of (header_fault bytes.now) }
{
    if bytes.len() < HEADER_BYTES {
        Some(FaultKind::ShortHeader)
    } else if number(bytes, 0) != MAGIC {
        Some(FaultKind::BadMagic)
    } else if !has_total(bytes) {
        Some(FaultKind::BadTotal)
    } else if number(bytes, 4) > MOST_BYTES {
        Some(FaultKind::Limit)
    } else if !has_version(bytes) {
        Some(FaultKind::BadVersion)
    } else if !is_aligned(bytes) {
        Some(FaultKind::Misaligned)
    } else if !holds_blocks(bytes) {
        Some(FaultKind::BlockOutside)
    } else {
        None
    }
}
