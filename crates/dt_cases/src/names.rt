//! Names, labels and paths.

use crate::outcome::{Lines, Outcome, Stop};
use dt_names::{Fault, Label, NodeName, Out, Path, PathRef, PropName};
use std::alloc::Global;

/// `node-name`, `property-name` and `label` print whether bytes are one; `path` prints how many names a path has, and each of
/// them; `path-text` gives its text, and `push NAME` that of the path with a name more; `node-path` prints whether bytes are the
/// text of a path of any length.
pub fn call(
    alloc: Global,
    name: &str,
    words: &str,
    input: &[u8],
    out: &mut Outcome,
) -> Result<(), Stop> {
    match name {
        "node-name" => tell_itself(NodeName::new(input)?.as_bytes(), input, out),
        "property-name" => tell_itself(PropName::new(input)?.as_bytes(), input, out),
        "label" => tell_itself(Label::new(input)?.as_bytes(), input, out),
        "node-path" => match PathRef::new(input) {
            Some(path) => tell_itself(path.text(), input, out),
            None => out.tell("none"),
        },
        _ => return call_of_path(alloc, name, words, &mut Path::parse(alloc, input)?, out),
    }
    Ok(())
}

fn tell_itself(found: &[u8], input: &[u8], out: &mut Outcome) {
    out.tell(if found == input { "itself" } else { "another" });
}

fn call_of_path(
    alloc: Global,
    name: &str,
    words: &str,
    path: &mut Path,
    out: &mut Outcome,
) -> Result<(), Stop> {
    match name {
        "path" => {
            put_names(path, out.lines());
            return Ok(());
        }
        "path-text" => {}
        _ => path.push(&NodeName::new(words.as_bytes())?)?,
    }
    out.give(text_of(alloc, path)?);
    Ok(())
}

/// How many names a path has, and each in a line.
pub fn put_names(path: &Path, lines: &mut Lines) {
    let count = path.len();
    writeln!(lines, "{count} names");
    for index in 0..=count {
        if let Some(name) = path.name(index) {
            lines.name(name);
            lines.put("\n");
        }
    }
}

/// The text of a path.
pub fn text_of(alloc: Global, path: &Path) -> Result<Vec<u8>, Fault> {
    let mut text = Out::new(Vec::new(alloc));
    path.write_to(&mut text)?;
    Ok(text.into_inner())
}
