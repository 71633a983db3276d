//! Numbers and texts at a place of bytes, and numbers in elements.

use crate::outcome::{Outcome, Stop};
use dt_bytes::{be32, be64, put32, text_at};
use dt_expr::fit;
use dt_names::phandle_of;
use std::alloc::Global;

/// A number: decimal, hexadecimal behind `0x`, or behind `-` what is added to it to give 0, modulo 2^64.
pub fn number(word: &str) -> Option<u64> {
    match word.strip_prefix('-') {
        Some(digits) => Some(magnitude(digits)?.wrapping_neg()),
        None => magnitude(word),
    }
}

fn magnitude(digits: &str) -> Option<u64> {
    match digits.strip_prefix("0x") {
        Some(digits) => u64::from_str_radix(digits, 16).ok(),
        None => digits.parse::<u64>().ok(),
    }
}

/// A number of up to 128 bits: decimal, or hexadecimal behind `0x`.
pub fn wide(word: &str) -> Option<u128> {
    match word.strip_prefix("0x") {
        Some(digits) => u128::from_str_radix(digits, 16).ok(),
        None => word.parse::<u128>().ok(),
    }
}

/// A number of an index.
pub fn index(word: &str) -> Option<usize> {
    usize::try_from(number(word)?).ok()
}

/// `be32 AT`, `be64 AT` and `text-at AT` print what is at a place; `put32 AT NUMBER` gives the bytes with the number there;
/// `fit NUMBER BITS` prints what an element of so many bits holds for a number.
pub fn call(
    alloc: Global,
    name: &str,
    words: &str,
    input: &[u8],
    out: &mut Outcome,
) -> Result<(), Stop> {
    let (first, second) = words.split_once(' ').unwrap_or((words, "0"));
    let (Some(first), Some(second)) = (number(first), number(second)) else {
        return Err(Stop::Malformed);
    };
    match name {
        "be32" => tell_found(be32(input, first as usize).map(u64::from), out),
        "be64" => tell_found(be64(input, first as usize), out),
        "text-at" => match text_at(input, first as usize) {
            Some(text) => out.give(Vec::from_slice(alloc, text)?),
            None => out.tell("none"),
        },
        "put32" => return put(alloc, input, first as usize, second, out),
        _ => tell_found(Some(fitted(first, second)?), out),
    }
    Ok(())
}

/// The number that a value of the property `phandle` gives its node.
pub fn phandle(value: &[u8], out: &mut Outcome) -> Result<(), Stop> {
    tell_found(phandle_of(value).map(u64::from), out);
    Ok(())
}

fn tell_found(number: Option<u64>, out: &mut Outcome) {
    match number {
        Some(number) => out.tell(format_args!("{number:#x}")),
        None => out.tell("none"),
    }
}

fn put(alloc: Global, input: &[u8], at: usize, number: u64, out: &mut Outcome) -> Result<(), Stop> {
    let Ok(number) = u32::try_from(number) else {
        return Err(Stop::Malformed);
    };
    let mut changed = Vec::from_slice(alloc, input)?;
    if is_put(&mut changed, at, number, input) {
        out.give(changed);
    } else {
        out.tell("none");
    }
    Ok(())
}

/// Whether a number was put at a place; where it wasn't, no byte may have changed.
fn is_put(bytes: &mut [u8], at: usize, number: u32, input: &[u8]) -> bool {
    put32(bytes, at, number) || *bytes != *input
}

fn fitted(number: u64, bits: u64) -> Result<u64, Stop> {
    match bits {
        8 => Ok(fit(number, 8)?),
        16 => Ok(fit(number, 16)?),
        32 => Ok(fit(number, 32)?),
        64 => Ok(fit(number, 64)?),
        _ => Err(Stop::Malformed),
    }
}
