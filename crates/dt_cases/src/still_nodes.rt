//! What takes no memory, of trees.

ghost use Rattle.std.specs.Prelude.{◌<◌, length};
ghost use Rattle.dt_trees.specs.Placed.{IsNode};

use crate::blobs::{put_blob, put_children, put_properties};
use crate::names::put_names;
use crate::outcome::Lines;
use crate::reading;
use crate::resolving::put_told;
use crate::still_texts::is_written;
use dt_flat::FlatTree;
use dt_marks_read::{fixups, local_fixups};
use dt_names::{NodeId, Path};
use dt_read::{Blob, Step};
use dt_view::{Index, TreeView, node_at};

/// Puts what the calls of a blob answer, and those of its tree.
pub fn put_whole(blob: &Blob<'_>, tree: &FlatTree, lines: &mut Lines) {
    put_blob(lines, blob);
    put_steps(blob, lines);
    put_listed(blob, lines);
    lines.yes(blob.counts().nodes == tree.node_count());
    reading::put_head(lines, tree);
}

/// Puts all names and values, in one walk.
fn put_steps(blob: &Blob<'_>, lines: &mut Lines) {
    for step in blob.steps() {
        match step {
            Step::Open { name, .. } => lines.name(name),
            Step::Property { name, value } => reading::put_property(lines, name, value),
            Step::Close => lines.put(";"),
        }
    }
}

/// Puts the labels and properties of the cells that an object lists.
fn put_listed(blob: &Blob<'_>, lines: &mut Lines) {
    for listed in fixups(blob) {
        if let Ok((label, cell)) = listed {
            lines.name(label);
            lines.name(cell.property);
        }
    }
    for listed in local_fixups(blob) {
        if let Ok(cell) = listed {
            lines.name(cell.property);
        }
    }
}

/// Puts what each view answers of a node; a blob answers more.
pub fn put_views(
    blob: &Blob<'_>,
    index: &Index<'_>,
    tree: &FlatTree,
    text: &[u8],
    lines: &mut Lines,
) {
    let told = [
        put_told(blob, text, lines).is_ok(),
        put_told(index, text, lines).is_ok(),
        put_told(tree, text, lines).is_ok(),
    ];
    for is_told in told {
        lines.yes(is_told);
    }
    lines.yes(blob.node_count() == index.node_count());
    if let Ok(node) = node_at(blob, text) {
        put_node(blob, node, lines);
    }
}

/// Puts what a blob's own calls answer of a node.
fn put_node(blob: &Blob<'_>, node: NodeId, lines: &mut Lines)
    requires { IsNode blob.now node }
{
    put_properties(lines, blob, node);
    put_children(lines, blob, node);
    for _ in blob.steps_in(node) {
        lines.put(";");
    }
}

/// Puts what a tree's own calls answer of a node, and the names of its path.
pub fn put_slot(tree: &FlatTree, node: NodeId, path: &Path, lines: &mut Lines)
    requires { node < length tree.now.slots }
{
    lines.yes(tree.node(path) == Some(node));
    reading::put_properties(lines, tree, node);
    for _ in tree.children(node) {
        lines.put(";");
    }
    lines.names(path);
    put_names(path, lines);
    lines.yes(is_written(path));
}
