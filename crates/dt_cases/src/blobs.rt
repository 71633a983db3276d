//! Sources, blobs, and what blobs hold.

ghost use Rattle.dt_model.specs.Path.{Path};
ghost use Rattle.dt_trees.specs.Placed.{IsAt};

use crate::input::bytes_of;
use crate::numbers::index;
use crate::outcome::{Lines, Outcome, Stop};
use crate::reading::{put_property, put_tree};
use dt_chain::{compile, compile_raw};
use dt_flat::FlatTree;
use dt_names::{Fault, NodeId};
use dt_read::Blob;
use dt_write::write_blob;
use std::alloc::{AllocError, Global};

/// `compile` gives a source's blob, `compile-raw` that of a raw source; `check` prints what a blob holds, in a line, `read` its
/// tree and `root` its root; `rewrite`
/// gives the blob of its tree. Of any bytes, `size` prints how many they are, `first N` gives the first ones, and
/// `change AT HEX` gives them with others at a place. `structure HEX` gives a blob with the bytes as its structure block, and with
/// these ones as its strings block.
pub fn call(
    alloc: Global,
    name: &str,
    words: &str,
    input: &[u8],
    out: &mut Outcome,
) -> Result<(), Stop> {
    match name {
        "size" => {
            out.tell(input.len());
            Ok(())
        }
        "check" | "root" | "read" => tell_blob(alloc, name, &Blob::check(input)?, out),
        _ => {
            out.give(made(alloc, name, words, input)?);
            Ok(())
        }
    }
}

/// Tells what a blob holds.
fn tell_blob(alloc: Global, name: &str, blob: &Blob<'_>, out: &mut Outcome) -> Result<(), Stop> {
    match name {
        "check" => tell_counts(blob, out),
        "root" => put_blob(out.lines(), blob),
        _ => {
            let tree = blob.to_flat(alloc)?;
            put_tree(out.lines(), alloc, &tree);
            // Let go of by hand: what goes at an exit by itself is proved there field by field.
            drop(tree);
        }
    }
    Ok(())
}

/// The bytes that a call gives.
fn made(alloc: Global, name: &str, words: &str, input: &[u8]) -> Result<Vec<u8>, Stop> {
    match name {
        "compile" => Ok(compile(alloc, input)?),
        "compile-raw" => Ok(compile_raw(alloc, input)?),
        "rewrite" => Ok(rewritten(alloc, input)?),
        "first" => front(alloc, words, input),
        "change" => changed(alloc, words, input),
        "structure" => structured(alloc, words, input),
        _ => Err(Stop::Malformed),
    }
}

/// The tree of a blob, as one that can be changed.
pub fn tree_of(alloc: Global, input: &[u8]) -> Result<FlatTree, Fault> {
    Blob::check(input)?.to_flat(alloc)
}

/// The same blob as a writer makes it of its tree.
pub fn rewritten(alloc: Global, input: &[u8]) -> Result<Vec<u8>, Fault> {
    let tree = tree_of(alloc, input)?;
    let blob = write_blob(alloc, &tree);
    drop(tree);
    blob
}

fn front(alloc: Global, words: &str, input: &[u8]) -> Result<Vec<u8>, Stop> {
    let size = index(words).ok_or(Stop::Malformed)?;
    Ok(Vec::from_slice(alloc, input.get(..size).ok_or(Stop::Malformed)?)?)
}

fn tell_counts(blob: &Blob<'_>, out: &mut Outcome) {
    let counts = blob.counts();
    let nodes = counts.nodes;
    let properties = counts.properties;
    let reservations = counts.reservations;
    out.tell(format_args!("{nodes} nodes, {properties} properties, {reservations} reservations"));
}

/// Puts what the calls of a blob answer of it and of its root.
pub fn put_blob(lines: &mut Lines, blob: &Blob<'_>) {
    let boot_cpu = blob.boot_cpu();
    writeln!(lines, "boot {boot_cpu}");
    put_reservations(lines, blob);
    let root = blob.root();
    let size = blob.name(root).len();
    writeln!(lines, "root at {root}, its name {size} bytes");
    put_properties(lines, blob, root);
    put_children(lines, blob, root);
}

fn put_reservations(lines: &mut Lines, blob: &Blob<'_>) {
    for (address, size) in blob.reservations() {
        writeln!(lines, "reserve {address:#x} {size:#x}");
    }
}

/// Puts where a node's children stand.
pub fn put_children(lines: &mut Lines, blob: &Blob<'_>, node: NodeId)
    requires { (path : Path) × IsAt blob.now path node }
{
    for child in blob.children(node) {
        writeln!(lines, "child at {child}");
    }
}

/// Puts a node's properties, each looked up by its name too.
pub fn put_properties(lines: &mut Lines, blob: &Blob<'_>, node: NodeId)
    requires { (path : Path) × IsAt blob.now path node }
{
    for (name, value) in blob.props(node) {
        put_property(lines, name, value);
        if blob.value(node, name) != Some(value) {
            lines.put("  and another value by its name\n");
        }
    }
}

fn changed(alloc: Global, words: &str, input: &[u8]) -> Result<Vec<u8>, Stop> {
    let (at, digits) = words.split_once(' ').ok_or(Stop::Malformed)?;
    let at = index(at).ok_or(Stop::Malformed)?;
    let others = bytes_of(alloc, digits)?;
    replaced(alloc, input, at, &others)
}

/// The input with other bytes at a place.
fn replaced(alloc: Global, input: &[u8], at: usize, others: &[u8]) -> Result<Vec<u8>, Stop> {
    let end = at.saturating_add(others.len());
    let (Some(front), Some(back)) = (input.get(..at), input.get(end..)) else {
        return Err(Stop::Malformed);
    };
    let mut changed = Vec::from_slice(alloc, front)?;
    push_both(&mut changed, others, back)?;
    Ok(changed)
}

fn push_both(bytes: &mut Vec<u8>, first: &[u8], second: &[u8]) -> Result<(), AllocError> {
    bytes.extend_from_slice(first)?;
    bytes.extend_from_slice(second)
}

/// A blob without reservations whose header fits the two blocks.
fn structured(alloc: Global, words: &str, structure: &[u8]) -> Result<Vec<u8>, Stop> {
    let strings = bytes_of(alloc, words)?;
    Ok(with_header(alloc, &strings, structure)?)
}

fn with_header(alloc: Global, strings: &[u8], structure: &[u8]) -> Result<Vec<u8>, AllocError> {
    let end = structure.len().saturating_add(56);
    let total = end.saturating_add(strings.len());
    let header = [
        0xd00d_feed,
        total,
        56,
        end,
        40,
        17,
        16,
        0,
        strings.len(),
        structure.len(),
        0,
        0,
        0,
        0,
    ];
    let mut blob = Vec::new(alloc);
    push_words(&mut blob, &header)?;
    push_both(&mut blob, structure, strings)?;
    Ok(blob)
}

fn push_words(bytes: &mut Vec<u8>, numbers: &[usize]) -> Result<(), AllocError> {
    for number in numbers {
        let number = u32::try_from(*number).unwrap_or(u32::MAX);
        bytes.extend_from_slice(&number.to_be_bytes())?;
    }
    Ok(())
}
