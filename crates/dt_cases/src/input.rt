//! What goes into a case.

use crate::numbers::number;
use crate::outcome::Stop;
use hex::decode;
use itoa::Buffer;
use std::alloc::{AllocError, Global};

/// What goes into a case behind its first input.
#[derive(Drop)]
pub struct Other<'a> {
    /// The calls that it goes through first.
    pub calls: &'a str,
    pub bytes: Vec<u8>,
}

/// The bytes that the lines of a case spell, one line's behind the other's, up to the first line that begins another input.
pub fn input_of(alloc: Global, lines: &[&str], table: &[&str]) -> Result<Vec<u8>, Stop> {
    let mut input = Vec::new(alloc);
    push_input(&mut input, alloc, lines, table)?;
    Ok(input)
}

fn push_input(
    input: &mut Vec<u8>,
    alloc: Global,
    lines: &[&str],
    table: &[&str],
) -> Result<(), Stop> {
    for line in lines
        .iter()
        .skip_while(|line| line.starts_with('#'))
        .skip(1)
        .take_while(|line| !line.starts_with("--"))
    {
        push_line(input, alloc, line, table)?;
    }
    Ok(())
}

/// The other inputs, each behind a line `--` with the calls that it goes through first.
pub fn others_of<'a>(
    alloc: Global,
    lines: &[&'a str],
    table: &[&str],
) -> Result<Vec<Other<'a>>, Stop> {
    let mut others = Vec::new(alloc);
    push_others(&mut others, alloc, lines, table)?;
    Ok(others)
}

fn push_others<'a>(
    others: &mut Vec<Other<'a>>,
    alloc: Global,
    lines: &[&'a str],
    table: &[&str],
) -> Result<(), Stop> {
    for line in lines.iter().skip_while(|line| !line.starts_with("--")) {
        match line.strip_prefix("--") {
            Some(calls) => others.push(Other {
                calls: calls.trim_start(),
                bytes: Vec::new(alloc),
            })?,
            None => push_to_last(others, alloc, line, table)?,
        }
    }
    Ok(())
}

fn push_to_last(
    others: &mut [Other<'_>],
    alloc: Global,
    line: &str,
    table: &[&str],
) -> Result<(), Stop> {
    match others.last_mut() {
        Some(other) => push_line(&mut other.bytes, alloc, line, table),
        None => Err(Stop::Malformed),
    }
}

/// Appends the bytes that a line spells, or those of the sample that it names.
fn push_line(input: &mut Vec<u8>, alloc: Global, line: &str, table: &[&str]) -> Result<(), Stop> {
    match line.strip_prefix("@ ") {
        Some(name) => push_sample(input, alloc, table, name),
        None => push_piece(input, alloc, line),
    }
}

/// Appends the bytes of the table's sample of a name.
fn push_sample(input: &mut Vec<u8>, alloc: Global, table: &[&str], name: &str) -> Result<(), Stop> {
    let mut is_found = false;
    for line in table {
        match line.strip_prefix("sample ") {
            Some(found) => is_found = found == name,
            None if line.is_empty() => is_found = false,
            None if is_found => push_piece(input, alloc, line)?,
            None => {}
        }
    }
    Ok(())
}

/// Appends the bytes that a line spells.
fn push_piece(input: &mut Vec<u8>, alloc: Global, line: &str) -> Result<(), Stop> {
    let (sign, text) = line.split_once(' ').ok_or(Stop::Malformed)?;
    match sign {
        "|" => Ok(input.extend_from_slice(text.as_bytes())?),
        "x" => push_bytes(input, alloc, 0, 1, text),
        "*" => push_texts(input, text),
        "*a" => push_runs(input, alloc, text),
        "*x" => push_many_bytes(input, alloc, text),
        "=" | "#" => Ok(()),
        _ => Err(Stop::Malformed),
    }
}

/// Appends the bytes that hexadecimal digits spell, once for each number that is said before them.
fn push_many_bytes(input: &mut Vec<u8>, alloc: Global, text: &str) -> Result<(), Stop> {
    let (first, end, digits) = repetition(text).ok_or(Stop::Malformed)?;
    push_bytes(input, alloc, first, end, digits)
}

/// Appends a text once for each number that is said before it.
fn push_texts(input: &mut Vec<u8>, text: &str) -> Result<(), Stop> {
    let (first, end, piece) = repetition(text).ok_or(Stop::Malformed)?;
    Ok(push_numbered(input, first, end, piece)?)
}

/// Appends a text once for each number that is said before it, down to the end where the first is greater, with as many letters
/// `a` in the place of each `{}`.
fn push_runs(input: &mut Vec<u8>, alloc: Global, text: &str) -> Result<(), Stop> {
    let (first, end, piece) = repetition(text).ok_or(Stop::Malformed)?;
    for count in first..end {
        push_run(input, alloc, count, piece)?;
    }
    for count in (end..first).rev() {
        push_run(input, alloc, count, piece)?;
    }
    Ok(())
}

fn push_run(input: &mut Vec<u8>, alloc: Global, count: u64, piece: &str) -> Result<(), AllocError> {
    let mut run = String::new(alloc);
    for _ in 0..count {
        run.push('a')?;
    }
    push_parts(input, run.as_str(), piece)
}

/// Appends the bytes that hexadecimal digits spell, once for each number.
fn push_bytes(
    input: &mut Vec<u8>,
    alloc: Global,
    first: u64,
    end: u64,
    digits: &str,
) -> Result<(), Stop> {
    let bytes = bytes_of(alloc, digits)?;
    Ok(push_repeated(input, first, end, &bytes)?)
}

/// The numbers from the first, 0 if it isn't said, up to the end, and the text behind them.
fn repetition(text: &str) -> Option<(u64, u64, &str)> {
    let (times, piece) = text.split_once(' ')?;
    let (first, end) = times.split_once("..").unwrap_or(("0", times));
    Some((number(first)?, number(end)?, piece))
}

/// The bytes that pairs of hexadecimal digits spell, with blanks between them.
pub fn bytes_of(alloc: Global, digits: &str) -> Result<Vec<u8>, Stop> {
    let joined = without_blanks(alloc, digits)?;
    match decode(alloc, joined.as_str()) {
        Ok(bytes) => Ok(bytes),
        Err(hex::FromHexError::OutOfMemory) => Err(Stop::from(AllocError)),
        Err(_) => Err(Stop::Malformed),
    }
}

fn without_blanks(alloc: Global, digits: &str) -> Result<String, AllocError> {
    let mut joined = String::new(alloc);
    for word in digits.split_whitespace() {
        joined.push_str(word)?;
    }
    Ok(joined)
}

/// Appends a text once for each number, which replaces each `{}`.
fn push_numbered(input: &mut Vec<u8>, first: u64, end: u64, piece: &str) -> Result<(), AllocError> {
    for count in first..end {
        let mut buffer = Buffer::new();
        push_parts(input, buffer.format(count), piece)?;
    }
    Ok(())
}

fn push_parts(input: &mut Vec<u8>, inserted: &str, piece: &str) -> Result<(), AllocError> {
    for (at, part) in piece.split("{}").enumerate() {
        if at > 0 {
            input.extend_from_slice(inserted.as_bytes())?;
        }
        input.extend_from_slice(part.as_bytes())?;
    }
    Ok(())
}

/// Appends bytes once for each number.
fn push_repeated(
    input: &mut Vec<u8>,
    first: u64,
    end: u64,
    bytes: &[u8],
) -> Result<(), AllocError> {
    for _ in first..end {
        input.extend_from_slice(bytes)?;
    }
    Ok(())
}
