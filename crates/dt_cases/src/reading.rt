//! A tree as lines: its boot CPU where it isn't 0, its reservations, and its nodes in the order in which they were made, each
//! with its path, and behind it its properties in order, two blanks before each.

ghost use Rattle.std.specs.Prelude.{◌<◌, length};

use crate::outcome::Lines;
use dt_flat::FlatTree;
use dt_names::NodeId;
use std::alloc::Global;

/// Puts the lines of a tree.
pub fn put_tree(lines: &mut Lines, alloc: Global, tree: &FlatTree) {
    put_head(lines, tree);
    for node in 0..tree.node_count() {
        lines.path(tree.path(alloc, node));
        lines.put("\n");
        put_properties(lines, tree, node);
    }
}

/// Puts what a tree has besides its nodes.
pub fn put_head(lines: &mut Lines, tree: &FlatTree) {
    let boot_cpu = tree.boot_cpu();
    if boot_cpu != 0 {
        writeln!(lines, "boot {boot_cpu}");
    }
    for (address, size) in tree.reservations() {
        writeln!(lines, "reserve {address:#x} {size:#x}");
    }
}

/// Puts a node's properties.
pub fn put_properties(lines: &mut Lines, tree: &FlatTree, node: NodeId)
    requires { node < length tree.now.slots }
{
    for (name, value) in tree.props(node) {
        put_property(lines, name, value);
    }
}

/// Puts a property's name and, if it isn't empty, its value.
pub fn put_property(lines: &mut Lines, name: &[u8], value: &[u8]) {
    lines.put("  ");
    lines.name(name);
    if !value.is_empty() {
        lines.put(" = ");
        put_value(lines, value);
    }
    lines.put("\n");
}

/// Puts a value: as texts, or else in hexadecimal.
pub fn put_value(lines: &mut Lines, value: &[u8]) {
    match texts_of(value) {
        Some(texts) => put_texts(lines, texts),
        None => lines.hexadecimal(value),
    }
}

/// The texts of a value without the last one's NUL, where it is nothing but texts of visible characters that aren't empty.
fn texts_of(value: &[u8]) -> Option<&str> {
    let texts = value.strip_suffix(b"\0".as_slice())?;
    let is_visible = |b: &u8| *b == 0 || (32..127).contains(b) && *b != b'"' && *b != b'\\';
    if !texts.iter().all(is_visible) || texts.split(|b| *b == 0).any(|text| text.is_empty()) {
        return None;
    }
    str::from_utf8(texts).ok()
}

fn put_texts(lines: &mut Lines, texts: &str) {
    for (at, text) in texts.split('\0').enumerate() {
        lines.put(if at > 0 { ", \"" } else { "\"" });
        lines.put(text);
        lines.put("\"");
    }
}
