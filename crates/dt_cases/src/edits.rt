//! Blobs that are edited step by step. A step that is refused leaves the blob as it was, and the next one is taken.

use crate::edited::{Cell, Edited, Lent};
use crate::input::bytes_of;
use crate::numbers::index;
use crate::outcome::{Lines, Outcome, Stop, is_other};
use dt_edit::BlobBuf;
use dt_names::FaultKind;
use dt_read::Blob;
use std::alloc::Global;

/// The call's name, the steps, and the blob that they are taken on.
#[derive(Clone, Copy)]
struct Edits<'a> {
    name: &'a str,
    steps: &'a str,
    blob: &'a [u8],
}

/// `edit-in SIZE STEPS` takes steps on a blob in a buffer of so many bytes, and prints for each that is refused its fault, for `read` the tree's
/// lines, and for `size` how long the blob is. `edited-in SIZE STEPS` gives the blob behind the last step. Steps end with `;`, and are
/// `set PATH NAME [HEX]`, `cell PATH NAME OFFSET NUMBER` and `node PATH NAME`. Where no step meets a limit, the same steps are taken on a blob in
/// memory of its own and on the blob's tree in memory: it prints `differs` where these don't say the same.
pub fn call(
    alloc: Global,
    name: &str,
    words: &str,
    blob: &[u8],
    out: &mut Outcome,
) -> Result<(), Stop> {
    let (size, steps) = words.split_once(' ').unwrap_or((words, ""));
    let size = index(size).ok_or(Stop::Malformed)?;
    let edits = Edits { name, steps, blob };
    match name {
        "edit-in" => {
            let said = said_by_lent(alloc, &edits, size)?;
            tell(alloc, &edits, &said, out.lines())
        }
        _ => {
            out.give(lent_behind(alloc, &edits, size)?);
            Ok(())
        }
    }
}

/// `edit STEPS` and `edited STEPS`: the same on a blob in memory of its own, and beside it in a buffer.
pub fn call_owned(
    alloc: Global,
    name: &str,
    steps: &str,
    blob: &[u8],
    out: &mut Outcome,
) -> Result<(), Stop> {
    let edits = Edits { name, steps, blob };
    match name {
        "edit" => {
            let said = said_by_owned(alloc, &edits)?;
            tell(alloc, &edits, &said, out.lines())
        }
        _ => {
            out.give(owned_behind(alloc, &edits)?);
            Ok(())
        }
    }
}

/// Puts what the steps said, and `differs` where they say something else on another form of the blob.
fn tell(alloc: Global, edits: &Edits<'_>, said: &str, lines: &mut Lines) -> Result<(), Stop> {
    lines.put(said);
    if said.contains("Limit") {
        return Ok(());
    }
    // A step of so many letters adds at most four times as many bytes.
    let room = edits
        .blob
        .len()
        .saturating_add(edits.steps.len().saturating_mul(4));
    if is_other(said, said_by_lent(alloc, edits, room)?)
        || is_other(said, said_by_owned(alloc, edits)?)
        || is_other_of_tree(alloc, edits, said)?
    {
        lines.put("differs\n");
    }
    Ok(())
}

/// Whether the steps say something else on the blob's tree in memory, which has no sizes.
fn is_other_of_tree(alloc: Global, edits: &Edits<'_>, said: &str) -> Result<bool, Stop> {
    let without_sizes = without_sizes(alloc, said)?;
    Ok(is_other(&without_sizes, said_by_tree(alloc, edits)?))
}

/// The lines that are no size.
fn without_sizes(alloc: Global, said: &str) -> Result<String, Stop> {
    let mut lines = Lines::new(alloc);
    for line in said.lines() {
        if index(line).is_none() {
            writeln!(lines, "{line}");
        }
    }
    lines.into_text()
}

fn said_by_lent(alloc: Global, edits: &Edits<'_>, size: usize) -> Result<String, Stop> {
    let mut lent = Lent::new(alloc, edits.blob, size)?;
    let said = said_by(alloc, edits.steps, &mut lent);
    // Let go of by hand: what goes at an exit by itself is proved there field by field.
    drop(lent);
    said
}

fn said_by_owned(alloc: Global, edits: &Edits<'_>) -> Result<String, Stop> {
    let seed = Blob::check(edits.blob)?.seed();
    let mut owned = BlobBuf::new(alloc, edits.blob, seed)?;
    let said = said_by(alloc, edits.steps, &mut owned);
    drop(owned);
    said
}

fn said_by_tree(alloc: Global, edits: &Edits<'_>) -> Result<String, Stop> {
    let mut tree = Blob::check(edits.blob)?.to_flat(alloc)?;
    let said = said_by(alloc, edits.steps, &mut tree);
    drop(tree);
    said
}

/// The blob behind the steps.
fn lent_behind(alloc: Global, edits: &Edits<'_>, size: usize) -> Result<Vec<u8>, Stop> {
    let mut lent = Lent::new(alloc, edits.blob, size)?;
    let taken = said_by(alloc, edits.steps, &mut lent);
    let blob = lent.blob(alloc);
    drop(lent);
    drop(taken?);
    blob
}

fn owned_behind(alloc: Global, edits: &Edits<'_>) -> Result<Vec<u8>, Stop> {
    let seed = Blob::check(edits.blob)?.seed();
    let mut owned = BlobBuf::new(alloc, edits.blob, seed)?;
    let taken = said_by(alloc, edits.steps, &mut owned);
    let blob = owned.into_bytes();
    drop(taken?);
    Ok(blob)
}

/// What the steps say.
fn said_by<E: Edited>(alloc: Global, steps: &str, edited: &mut E) -> Result<String, Stop> {
    let mut lines = Lines::new(alloc);
    match take_all(alloc, steps, edited, &mut lines) {
        Ok(()) => lines.into_text(),
        Err(stop) => {
            drop(lines);
            Err(stop)
        }
    }
}

fn take_all<E: Edited>(
    alloc: Global,
    steps: &str,
    edited: &mut E,
    lines: &mut Lines,
) -> Result<(), Stop> {
    for step in steps.split_terminator(';') {
        match take(alloc, step.trim(), edited, lines) {
            Ok(()) => {}
            Err(Stop::Refused(fault)) if fault.kind != FaultKind::NoMemory => {
                writeln!(lines, "{fault}");
            }
            Err(stop) => return Err(stop),
        }
    }
    Ok(())
}

/// Takes one step.
fn take<E: Edited>(
    alloc: Global,
    step: &str,
    edited: &mut E,
    lines: &mut Lines,
) -> Result<(), Stop> {
    let (verb, words) = step.split_once(' ').unwrap_or((step, ""));
    match verb {
        "read" => edited.put(alloc, lines),
        "size" => {
            if let Some(size) = edited.size() {
                writeln!(lines, "{size}");
            }
            Ok(())
        }
        _ => change(alloc, verb, words, edited),
    }
}

/// Takes a step whose words are a path, a name, and perhaps more.
fn change<E: Edited>(alloc: Global, verb: &str, words: &str, edited: &mut E) -> Result<(), Stop> {
    let (path, words) = words.split_once(' ').ok_or(Stop::Malformed)?;
    let (name, more) = words.split_once(' ').unwrap_or((words, ""));
    let path = path.as_bytes();
    match verb {
        "set" => {
            let value = bytes_of(alloc, more)?;
            edited.set(path, name.as_bytes(), &value)
        }
        "cell" => {
            let cell = cell_of(more).ok_or(Stop::Malformed)?;
            edited.patch(alloc, path, name.as_bytes(), cell)
        }
        "node" => edited.add(path, name.as_bytes()),
        _ => Err(Stop::Malformed),
    }
}

/// The cell that the words say: an offset and a number.
fn cell_of(words: &str) -> Option<Cell> {
    let (offset, number) = words.split_once(' ')?;
    let number = u32::try_from(index(number)?).ok()?;
    Some(Cell {
        offset: index(offset)?,
        number,
    })
}
