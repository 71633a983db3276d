//! What texts say in the grammar.

use crate::outcome::{Lines, Outcome, Stop};
use dt_parse::{Form, Item, Reference, Source, Value, parse};
use std::alloc::Global;

/// `parse` prints whether a source is an overlay's, its reservations and its items, nearly as a source writes them, with
/// the bytes of values in hexadecimal; `item-count` how many items there are.
pub fn call(alloc: Global, name: &str, input: &[u8], out: &mut Outcome) -> Result<(), Stop> {
    let source = parse(alloc, input)?;
    put(name, &source, out);
    Ok(())
}

fn put(name: &str, source: &Source<'_>, out: &mut Outcome) {
    match name {
        "parse" => put_source(out.lines(), source),
        _ => out.tell(source.items().len()),
    }
}

fn put_source<'a>(lines: &mut Lines, source: &'a Source<'a>) {
    if source.is_overlay() {
        lines.put("/plugin/\n");
    }
    put_reservations(lines, source);
    let items = source.items();
    for index in 0..items.len() {
        put_item(lines, items.get(index));
        lines.put("\n");
    }
}

fn put_reservations(lines: &mut Lines, source: &Source<'_>) {
    for reservation in source.reservations() {
        let address = reservation.address;
        let size = reservation.size;
        writeln!(lines, "/memreserve/ {address:#x} {size:#x}");
    }
}

fn put_item(lines: &mut Lines, item: Item<'_>) {
    match item {
        Item::Root => lines.put("/ {"),
        Item::Block(reference) => {
            put_reference(lines, reference);
            lines.put(" {");
        }
        Item::DeleteNode(reference) => {
            lines.put("/delete-node/ ");
            put_reference(lines, reference);
        }
        Item::Child(name) => put_words(lines, "", name.as_bytes(), " {"),
        Item::Label(label) => put_words(lines, "", label.as_bytes(), ":"),
        Item::Property(name, value) => {
            put_words(lines, "", name.as_bytes(), " =");
            put_value(lines, value);
        }
        Item::DeleteProperty(name) => put_words(lines, "/delete-property/ ", name.as_bytes(), ""),
        Item::DeleteChild(name) => put_words(lines, "/delete-node/ ", name.as_bytes(), ""),
        Item::Close => lines.put("}"),
    }
}

/// Puts a name between two texts.
fn put_words(lines: &mut Lines, before: &str, name: &[u8], behind: &str) {
    lines.put(before);
    lines.name(name);
    lines.put(behind);
}

fn put_reference(lines: &mut Lines, reference: &Reference<'_>) {
    match reference {
        Reference::Label(label) => put_words(lines, "&", label.as_bytes(), ""),
        Reference::Path(path) => put_words(lines, "&{", path.text(), "}"),
    }
}

fn put_value(lines: &mut Lines, value: Value<'_>) {
    let mut rest = value.bytes;
    for piece in value.pieces {
        let (before, behind) = rest.split_at(piece.before.min(rest.len()));
        rest = behind;
        put_bytes(lines, before);
        match piece.form {
            Form::Cell => {
                lines.put(" <");
                put_reference(lines, &piece.reference);
                lines.put(">");
            }
            Form::Text => {
                lines.put(" ");
                put_reference(lines, &piece.reference);
            }
        }
    }
    put_bytes(lines, rest);
}

fn put_bytes(lines: &mut Lines, bytes: &[u8]) {
    if !bytes.is_empty() {
        lines.put(" ");
        lines.hexadecimal(bytes);
    }
}
