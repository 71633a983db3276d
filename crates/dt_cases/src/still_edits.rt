//! What takes no memory, of blobs that are edited.

use crate::edited::{Cell, Edited};
use std::alloc::Global;

/// How many edits aren't refused: a property that is new, longer, of the same length, shorter and empty, at the root and at a node that was added; a
/// cell; a node that is there; and a number that is no phandle.
pub fn taken<E: Edited>(alloc: Global, edited: &mut E) -> usize {
    let mut taken = set_all(edited, b"/");
    taken = taken.saturating_add(usize::from(edited.add(b"/", b"still").is_ok()));
    taken = taken.saturating_add(set_all(edited, b"/still"));
    taken = taken.saturating_add(patched(alloc, edited));
    taken = taken.saturating_add(usize::from(edited.add(b"/", b"still").is_ok()));
    taken.saturating_add(usize::from(edited.set(b"/still", b"phandle", b"\0\0\0\0").is_ok()))
}

fn set_all<E: Edited>(edited: &mut E, path: &[u8]) -> usize {
    let mut taken = 0usize;
    for value in [
        b"\0\0\0\x01".as_slice(),
        b"still there",
        b"still",
        b"other",
        b"",
    ] {
        if edited.set(path, b"still", value).is_ok() {
            taken = taken.saturating_add(1);
        }
    }
    taken
}

/// Whether a cell is written, of a value that is made for it.
fn patched<E: Edited>(alloc: Global, edited: &mut E) -> usize {
    let cell = Cell {
        offset: 1,
        number: 7,
    };
    let is_there = edited.set(b"/", b"still", b"\0\0\0\0\0").is_ok();
    usize::from(is_there && edited.patch(alloc, b"/", b"still", cell).is_ok())
}
