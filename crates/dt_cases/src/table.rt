//! A table of cases.

use crate::case::{Case, answer_of, head_of, holds, wanted_of};
use std::alloc::AllocError;
use std::io::Result as IoResult;

/// How many cases there are, and how many of them hold.
#[derive(Clone, Copy)]
pub struct Tally {
    pub all: usize,
    pub held: usize,
}

/// Tries the cases of a table, which empty lines separate, and reports each that fails.
pub fn try_table<R: Eprint + AllocGlobal>(rt: &R, name: &str, text: &str) -> IoResult<Tally> {
    let lines: Vec<&str> = text.lines().collect(rt.alloc())?;
    try_lines(rt, name, &lines)
}

/// Tries the cases that stand in the lines of a table.
fn try_lines<R: Eprint + AllocGlobal>(rt: &R, name: &str, lines: &[&str]) -> IoResult<Tally> {
    let mut tally = Tally { all: 0, held: 0 };
    let mut first = 0usize;
    for at in 0..=lines.len() {
        let is_end = match lines.get(at) {
            Some(line) => line.is_empty(),
            None => true,
        };
        if is_end {
            try_block(rt, &mut tally, name, first, at, lines)?;
            first = at.saturating_add(1);
        }
    }
    Ok(tally)
}

/// Tries the case in some lines of a table, if there is one.
fn try_block<R: Eprint + AllocGlobal>(
    rt: &R,
    tally: &mut Tally,
    name: &str,
    first: usize,
    end: usize,
    table: &[&str],
) -> IoResult<()> {
    let lines = table.get(first..end).unwrap_or(&[]);
    let is_case = match head_of(lines) {
        Some(head) => !head.starts_with("sample "),
        None => false,
    };
    if !is_case {
        return Ok(());
    }
    tally.all = tally.all.saturating_add(1);
    if try_case(rt, name, first, Case { lines, table })? {
        tally.held = tally.held.saturating_add(1);
    }
    Ok(())
}

/// Tries a case, and reports it if it fails.
fn try_case<R: Eprint + AllocGlobal>(
    rt: &R,
    name: &str,
    first: usize,
    case: Case<'_>,
) -> IoResult<bool> {
    let wanted = wanted_of(rt.alloc(), case.lines)?;
    let answer = answer_of(rt.alloc(), case)?;
    compare(rt, name, first, answer.as_str(), wanted.as_str())
}

/// Whether an answer is the wanted one. Reports one that isn't.
fn compare<R: Eprint>(
    rt: &R,
    name: &str,
    first: usize,
    answer: &str,
    wanted: &str,
) -> IoResult<bool> {
    if holds(answer, wanted) {
        return Ok(true);
    }
    let line = first.saturating_add(1);
    eprintln!(rt; "{name}:{line}: the answer is\n{answer}and not\n{wanted}")?;
    Ok(false)
}
