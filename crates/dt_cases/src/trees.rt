//! Trees that are changed step by step. A step that is refused leaves the tree as it was, and the next one is taken.

use crate::input::bytes_of;
use crate::numbers::{index, number};
use crate::outcome::{Lines, Outcome, Stop};
use crate::reading::{put_tree, put_value};
use dt_flat::FlatTree;
use dt_names::{FaultKind, NodeName, PropName};
use dt_write::write_blob;
use std::alloc::Global;

/// `tree [CPU]` prints what the steps on a new tree answer: a step that is refused its fault, one that names a missing node `no node`, `read`
/// the tree's lines, `count` how many nodes there are, and `value NODE NAME` a value. `tree-blob [CPU]` gives the blob of the tree behind the last
/// step, if memory was refused to none. Steps end with `;`. They are `reserve ADDRESS SIZE`,
/// `node PARENT NAME`, `set NODE NAME [HEX]`, `set-number NODE NAME NUMBER` and `set-size NODE NAME SIZE`, of a value of so many
/// bytes. A node is its number: 0 is
/// the root's, and each new node has the next one.
pub fn call(
    alloc: Global,
    name: &str,
    words: &str,
    input: &[u8],
    out: &mut Outcome,
) -> Result<(), Stop> {
    let steps = str::from_utf8(input).map_err(|_| Stop::Malformed)?;
    let boot_cpu = boot_cpu_of(words).ok_or(Stop::Malformed)?;
    let mut tree = FlatTree::new(alloc, boot_cpu);
    let taken = take_all(&mut tree, alloc, name, steps, out);
    // Let go of by hand: what goes at an exit by itself is proved there field by field.
    drop(tree);
    taken
}

/// The boot CPU that the words say, 0 where they say none.
fn boot_cpu_of(words: &str) -> Option<u32> {
    match words {
        "" => Some(0),
        _ => u32::try_from(number(words)?).ok(),
    }
}

fn take_all(
    tree: &mut FlatTree,
    alloc: Global,
    name: &str,
    steps: &str,
    out: &mut Outcome,
) -> Result<(), Stop> {
    match name {
        "tree" => tell_all(tree, out.lines(), alloc, steps, true),
        _ => {
            tell_all(tree, &mut Lines::new(alloc), alloc, steps, false)?;
            out.give(write_blob(alloc, tree)?);
            Ok(())
        }
    }
}

/// Takes the steps, and puts what they answer. Where `goes_on` holds, a step to which memory was refused doesn't end them.
fn tell_all(
    tree: &mut FlatTree,
    lines: &mut Lines,
    alloc: Global,
    steps: &str,
    goes_on: bool,
) -> Result<(), Stop> {
    for step in steps.split_terminator(';') {
        match take(tree, lines, alloc, step.trim()) {
            Ok(()) => {}
            Err(Stop::Refused(fault)) if goes_on || fault.kind != FaultKind::NoMemory => {
                writeln!(lines, "{fault}");
            }
            Err(stop) => return Err(stop),
        }
    }
    Ok(())
}

/// Takes one step.
fn take(tree: &mut FlatTree, lines: &mut Lines, alloc: Global, step: &str) -> Result<(), Stop> {
    let (verb, words) = step.split_once(' ').unwrap_or((step, ""));
    match verb {
        "" => Ok(()),
        "reserve" => reserve(tree, words),
        "count" => {
            let count = tree.node_count();
            writeln!(lines, "{count}");
            Ok(())
        }
        "read" => {
            put_tree(lines, alloc, tree);
            Ok(())
        }
        _ => take_at_node(tree, lines, alloc, verb, words),
    }
}

/// Takes a step whose words are a node's number, a name and others.
fn take_at_node(
    tree: &mut FlatTree,
    lines: &mut Lines,
    alloc: Global,
    verb: &str,
    words: &str,
) -> Result<(), Stop> {
    let (node, words) = words.split_once(' ').ok_or(Stop::Malformed)?;
    let node = index(node).ok_or(Stop::Malformed)?;
    let (name, words) = words.split_once(' ').unwrap_or((words, ""));
    at_node(tree, lines, alloc, verb, node, name.as_bytes(), words)
}

fn reserve(tree: &mut FlatTree, words: &str) -> Result<(), Stop> {
    let (address, size) = words.split_once(' ').ok_or(Stop::Malformed)?;
    let (Some(address), Some(size)) = (number(address), number(size)) else {
        return Err(Stop::Malformed);
    };
    Ok(tree.reserve(address, size)?)
}

/// Takes a step that speaks of a node and a name.
fn at_node(
    tree: &mut FlatTree,
    lines: &mut Lines,
    alloc: Global,
    verb: &str,
    node: usize,
    name: &[u8],
    words: &str,
) -> Result<(), Stop> {
    if node >= tree.node_count() {
        lines.put("no node\n");
        return Ok(());
    }
    match verb {
        "node" => {
            tree.add_node(node, &NodeName::new(name)?)?;
            Ok(())
        }
        "value" => {
            match tree.value(node, name) {
                Some(value) => put_value(lines, value),
                None => lines.put("none"),
            }
            lines.put("\n");
            Ok(())
        }
        _ => {
            let value = value_of(alloc, verb, words)?;
            set(tree, node, name, &value)
        }
    }
}

fn set(tree: &mut FlatTree, node: usize, name: &[u8], value: &[u8]) -> Result<(), Stop> {
    if node >= tree.node_count() {
        return Err(Stop::Malformed);
    }
    Ok(tree.set_prop(node, &PropName::new(name)?, value)?)
}

/// The value that a step sets.
fn value_of(alloc: Global, verb: &str, words: &str) -> Result<Vec<u8>, Stop> {
    match verb {
        "set" => bytes_of(alloc, words),
        "set-number" => match u32::try_from(number(words).ok_or(Stop::Malformed)?) {
            Ok(number) => Ok(Vec::from_slice(alloc, &number.to_be_bytes())?),
            Err(_) => Err(Stop::Malformed),
        },
        "set-size" => {
            let size = index(words).ok_or(Stop::Malformed)?;
            Ok(vec![in alloc; 7; size]?)
        }
        _ => Err(Stop::Malformed),
    }
}
