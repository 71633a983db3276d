//! What takes no memory: calls between two requests of sizes for which nothing else asks. Under bench/refused_memory.py each request
//! between the two is refused, and counted.

ghost use Rattle.std.specs.Prelude.{◌<◌, length};

use crate::edited::{Cell, Edited, Lent};
use crate::expressions::steps_of;
use crate::names::text_of;
use crate::outcome::{Lines, Stop};
use crate::{still_edits, still_nodes, still_texts};
use dt_edit::{BlobBuf, open_into};
use dt_expr::{Expr, eval};
use dt_flat::FlatTree;
use dt_names::{Fault, NodeId};
use dt_parse::{Source, parse};
use dt_phandle::{Numbering, number};
use dt_read::Blob;
use dt_source::{Mode, build_base};
use dt_source_named_tree::NamedTree;
use dt_view::Index;
use std::alloc::{AllocError, Global};

/// From a request of this size on nothing may ask for memory,
const BEGIN: usize = 65_521;
/// up to the next one of this size.
const END: usize = 65_519;

/// `still bytes`, `still blob`, `still source`, `still expression` and `still edits` make what these calls are asked of, and then ask each call that takes no
/// memory that such an input can be asked with; they answer how much came back: how many bytes, numbers, and answers that aren't refusals.
pub fn answered(alloc: Global, words: &str, input: &[u8]) -> Result<usize, Stop> {
    match words {
        "bytes" => of_bytes(alloc, input),
        "blob" => of_blob(alloc, input),
        "source" => of_source(alloc, input),
        "expression" => of_expression(alloc, input),
        "edits" => of_edits(alloc, input),
        _ => Err(Stop::Malformed),
    }
}

/// Asks for so many bytes, and lets them go.
fn ask_for(alloc: Global, size: usize) -> Result<(), AllocError> {
    let _bytes = vec![in alloc; 1u8; size]?;
    Ok(())
}

/// What was answered since memory was asked for, if it was there then and is there now.
fn finish(alloc: Global, begun: Result<(), AllocError>, answered: usize) -> Result<usize, Stop> {
    begun?;
    ask_for(alloc, END)?;
    Ok(answered)
}

fn of_bytes(alloc: Global, input: &[u8]) -> Result<usize, Stop> {
    let mut changed = Vec::from_slice(alloc, input)?;
    let begun = ask_for(alloc, BEGIN);
    let answered = still_texts::in_bytes(input, &mut changed);
    finish(alloc, begun, answered)
}

fn of_expression(alloc: Global, input: &[u8]) -> Result<usize, Stop> {
    let steps = steps_of(alloc, input)?;
    let begun = ask_for(alloc, BEGIN);
    let answered = match Expr::new(&steps) {
        Some(expression) => expression
            .steps()
            .len()
            .saturating_add(usize::from(eval(&expression).is_ok())),
        None => 0,
    };
    finish(alloc, begun, answered)
}

fn of_source(alloc: Global, input: &[u8]) -> Result<usize, Stop> {
    let source = parse(alloc, input)?;
    let answered = of_parsed(alloc, &source);
    // Let go of by hand: what goes at an exit by itself is proved there field by field.
    drop(source);
    answered
}

fn of_parsed(alloc: Global, source: &Source<'_>) -> Result<usize, Stop> {
    let tree = build_base(alloc, source, Mode::Base)?;
    let answered = of_named(alloc, &tree);
    drop(tree);
    answered
}

fn of_named(alloc: Global, tree: &NamedTree<'_>) -> Result<usize, Stop> {
    let numbering = number(alloc, tree)?;
    let begun = ask_for(alloc, BEGIN);
    let answered = numbers_of(&numbering, tree.nodes().len());
    finish(alloc, begun, answered)
}

/// How many of so many nodes, and of the one behind them, have a number.
fn numbers_of(numbering: &Numbering, nodes: usize) -> usize {
    let mut numbered = 0usize;
    for node in 0..=nodes {
        if numbering.of(node).is_some() {
            numbered = numbered.saturating_add(1);
        }
    }
    numbered
}

fn of_edits(alloc: Global, input: &[u8]) -> Result<usize, Stop> {
    let seed = Blob::check(input)?.seed();
    let mut owned = BlobBuf::new(alloc, input, seed)?;
    owned.set(b"/", b"still", b"\0\0\0\0\0")?;
    let mut lent = Lent::new(alloc, input, input.len().saturating_add(4096))?;
    let mut copy = Vec::new(alloc);
    copy.resize(input.len().saturating_add(64), 0)?;
    let begun = ask_for(alloc, BEGIN);
    let opened = usize::from(opened(input, &mut copy).is_ok());
    let answered = opened
        .saturating_add(still_edits::taken(alloc, &mut lent))
        .saturating_add(rewritten(alloc, owned));
    finish(alloc, begun, answered)
}

/// Copies a blob to the front of a buffer.
fn opened(blob: &[u8], buffer: &mut [u8]) -> Result<(), Fault> {
    drop(Blob::check(blob)?);
    open_into(blob, buffer)
}

/// A cell written again in a blob in memory of its own, and how many bytes that has.
fn rewritten(alloc: Global, mut owned: BlobBuf) -> usize {
    let cell = Cell {
        offset: 0,
        number: 9,
    };
    let written = usize::from(owned.patch(alloc, b"/", b"still", cell).is_ok());
    let is_read = usize::from(owned.blob().value(owned.blob().root(), b"still").is_some());
    written
        .saturating_add(is_read)
        .saturating_add(owned.into_bytes().len())
}

fn of_blob(alloc: Global, input: &[u8]) -> Result<usize, Stop> {
    let blob = Blob::check(input)?;
    let index = Index::new(alloc, &blob)?;
    let answered = of_index(alloc, &index);
    drop(index);
    answered
}

fn of_index(alloc: Global, index: &Index<'_>) -> Result<usize, Stop> {
    let tree = index.blob().to_flat(alloc)?;
    let mut lines = Lines::to_count(alloc);
    let answered = put_all(alloc, index, &tree, &mut lines);
    drop(tree);
    answered
}

/// Puts what a blob, its index and its tree answer. Answers how much that was.
fn put_all(
    alloc: Global,
    index: &Index<'_>,
    tree: &FlatTree,
    lines: &mut Lines,
) -> Result<usize, Stop> {
    let begun = ask_for(alloc, BEGIN);
    still_nodes::put_whole(index.blob(), tree, lines);
    let mut count = finish(alloc, begun, lines.count())?;
    for node in 0..tree.node_count() {
        count = put_at(alloc, index, tree, node, lines)?;
    }
    Ok(count)
}

/// Puts what the views answer of a node.
fn put_at(
    alloc: Global,
    index: &Index<'_>,
    tree: &FlatTree,
    node: NodeId,
    lines: &mut Lines,
) -> Result<usize, Stop>
    requires { node < length tree.now.slots }
{
    let path = tree.path(alloc, node)?;
    let text = text_of(alloc, &path)?;
    let begun = ask_for(alloc, BEGIN);
    still_nodes::put_views(index.blob(), index, tree, &text, lines);
    still_nodes::put_slot(tree, node, &path, lines);
    finish(alloc, begun, lines.count())
}
