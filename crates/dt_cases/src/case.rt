//! One case: what goes in, the calls that it goes through, and what has to come out.

ghost use Rattle.std.specs.Prelude.{◌≡◌, ◌↔◌, IsTrue};

use crate::calls::call;
use crate::input::{Other, input_of, others_of};
use crate::outcome::{Outcome, Stop};
use std::alloc::{AllocError, Global};

/// A case's lines, and the lines of its table.
#[derive(Clone, Copy)]
pub struct Case<'a> {
    pub lines: &'a [&'a str],
    pub table: &'a [&'a str],
}

/// The first line that is no comment.
pub fn head_of<'a>(lines: &'a [&'a str]) -> Option<&'a str> {
    lines.iter().find(|line| !line.starts_with('#')).copied()
}

/// What has to come out: the lines behind `= `.
pub fn wanted_of(alloc: Global, lines: &[&str]) -> Result<String, AllocError> {
    let mut wanted = String::new(alloc);
    for line in lines {
        if let Some(text) = line.strip_prefix("= ") {
            wanted.push_str(text)?;
            wanted.push('\n')?;
        }
    }
    Ok(wanted)
}

/// Answers what comes out of one call after another, on the first input with the others.
fn call_all(
    alloc: Global,
    calls: &str,
    input: Vec<u8>,
    others: &[&[u8]],
    out: &mut Outcome,
) -> Result<(), Stop> {
    out.give(input);
    for name in calls.split(", ").filter(|name| !name.is_empty()) {
        if !out.is_told() {
            let bytes = out.taken();
            call(alloc, name, &bytes, others, out)?;
        }
    }
    Ok(())
}

/// The other inputs, behind the calls that each goes through first.
fn made(alloc: Global, others: Vec<Other<'_>>) -> Result<Vec<Vec<u8>>, Stop> {
    let mut made = Vec::new(alloc);
    for other in others {
        made.push(made_of(alloc, other)?)?;
    }
    Ok(made)
}

fn made_of(alloc: Global, other: Other<'_>) -> Result<Vec<u8>, Stop> {
    let mut out = Outcome::new(alloc);
    call_all(alloc, other.calls, other.bytes, &[], &mut out)?;
    if out.is_told() {
        return Err(Stop::Malformed);
    }
    Ok(out.taken())
}

/// Answers what comes out of a case.
fn try_calls(alloc: Global, case: Case<'_>, out: &mut Outcome) -> Result<(), Stop> {
    let others = made(alloc, others_of(alloc, case.lines, case.table)?)?;
    try_with_others(alloc, case, &others, out)
}

fn try_with_others(
    alloc: Global,
    case: Case<'_>,
    others: &[Vec<u8>],
    out: &mut Outcome,
) -> Result<(), Stop> {
    let calls = head_of(case.lines).ok_or(Stop::Malformed)?;
    let others: Vec<&[u8]> = others.iter().map(|other| other.as_slice()).collect(alloc)?;
    let input = input_of(alloc, case.lines, case.table)?;
    call_all(alloc, calls, input, &others, out)
}

fn tried(alloc: Global, case: Case<'_>) -> Result<String, Stop> {
    let mut out = Outcome::new(alloc);
    try_calls(alloc, case, &mut out)?;
    out.into_text()
}

/// What comes out of a case, as lines.
pub fn answer_of(alloc: Global, case: Case<'_>) -> Result<String, AllocError> {
    match tried(alloc, case) {
        Ok(lines) => Ok(lines),
        Err(Stop::Refused(fault)) => format!(in alloc; "{fault}\n"),
        Err(Stop::RefusedInput(input, fault)) => format!(in alloc; "input {input}: {fault}\n"),
        Err(Stop::Malformed) => String::from_str(alloc, "malformed\n"),
    }
}

/// Whether what comes out of a case is what has to.
pub fn holds(answer: &str, wanted: &str) -> bool
    ensures { IsTrue result ↔ (answer.now ≡ wanted.now) }
{
    answer == wanted
}
