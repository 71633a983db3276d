//! The calls that a case can name.

use crate::outcome::{Outcome, Stop};
use crate::{
    blobs, chains, damage, edits, expressions, grammar, marks, names, numbers, printing, resolving,
    still, tokens, trees,
};
use std::alloc::Global;

/// What a call answers to some bytes, and to the other inputs of the case where it takes more than one: its name and, behind a
/// blank each, its words.
pub fn call(
    alloc: Global,
    call: &str,
    input: &[u8],
    others: &[&[u8]],
    out: &mut Outcome,
) -> Result<(), Stop> {
    let (name, words) = call.split_once(' ').unwrap_or((call, ""));
    match name {
        "node-name" | "property-name" | "label" | "node-path" | "path" | "path-text" | "push" => {
            names::call(alloc, name, words, input, out)
        }
        "be32" | "be64" | "text-at" | "put32" | "fit" => {
            numbers::call(alloc, name, words, input, out)
        }
        "phandle" => numbers::phandle(input, out),
        "tokens" | "token-count" | "text" => tokens::call(alloc, name, input, out),
        "expression" => expressions::call(alloc, input, out),
        _ => call_on_trees(alloc, name, words, input, others, out),
    }
}

/// The same of a call that reads or makes a tree.
fn call_on_trees(
    alloc: Global,
    name: &str,
    words: &str,
    input: &[u8],
    others: &[&[u8]],
    out: &mut Outcome,
) -> Result<(), Stop> {
    match name {
        "parse" | "item-count" => grammar::call(alloc, name, input, out),
        "tree" | "tree-blob" => trees::call(alloc, name, words, input, out),
        "damage" => damage::call(alloc, input, out),
        "edit-in" | "edited-in" => edits::call(alloc, name, words, input, out),
        "edit" | "edited" => edits::call_owned(alloc, name, words, input, out),
        "apply" | "apply-bytes" | "build" => chains::call(alloc, name, input, others, out),
        "print" | "printed" | "again" | "values" => printing::call(alloc, name, words, input, out),
        "regs" | "irqs" => resolving::call(alloc, name, input, out),
        "dma" | "spec" => resolving::ask_node(alloc, name, words, input, out),
        "specifier-at" => resolving::specifier(words, input, out),
        "interrupt-at" => resolving::interrupt(words, input, out),
        "node-at" => resolving::node(words, input, out),
        "views" | "paths" => resolving::views(alloc, name, input, out),
        "fixups" | "local-fixups" => marks::call(alloc, name, input, out),
        "still" => {
            out.tell(still::answered(alloc, words, input)?);
            Ok(())
        }
        _ => blobs::call(alloc, name, words, input, out),
    }
}
