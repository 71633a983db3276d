//! The text of a node's path.

ghost use Rattle.std.specs.Prelude.{◌≡◌, ◌+◌, ◌<◌, ◌≤◌, ◌++◌, MatchOption, length, drop, reverse, take};
ghost use Rattle.std.specs.Bool.{OnTrue, OnFalse};
ghost use Rattle.dt_model.specs.Path.{path_text, path_value};
ghost use Rattle.dt_read.specs.Checked.{IsBlob, placed_of};
ghost use Rattle.dt_trees.specs.Placed.{path_at, IsNode};
ghost use Rattle.dt_trees.specs.Views.{AreAbove};
ghost use Rattle.dt_view.specs.Ways.{names_text};

use crate::looking::blob_of;
use dt_names::NodeId;
use dt_read::{Blob, OpenNodes};
use dt_view::put_nodes_above;

/// Writes some bytes at a place, the last one first, where there is room for them, and answers where they end.
fn put_reversed(out: &mut [u8], at: usize, bytes: &[u8]) -> Option<usize>
    requires { at ≤ length out.old }
    ensures { MatchOption result ((length out.old < at + length bytes.now) × (out.new ≡ out.old)) (λ end.
        (end ≡ at + length bytes.now) × (end ≤ length out.old) × (out.new ≡ take at out.old ++ (reverse bytes.now ++ drop end out.old))) }
{
    let end = at + bytes.len();
    if end > out.len() {
        return None;
    }
    let room = &mut out[at..end];
    room.copy_from_slice(bytes);
    room.reverse();
    Some(end)
}

/// Turns the bytes in front of a place round.
fn turn_front(out: &mut [u8], end: usize)
    requires { end ≤ length out.old }
    ensures { out.new ≡ reverse (take end out.old) ++ drop end out.old }
{
    out[..end].reverse();
}

/// Writes the names of a node and of those above it to the front, each behind a slash, where there is room for all, and answers where they end. The
/// innermost comes first, and each name's last byte.
fn put_names(blob: &Blob<'_>, node: NodeId, above: &mut OpenNodes, out: &mut [u8]) -> Option<usize>
    requires node { IsNode blob.now node }
    requires above { AreAbove blob.now node above.old }
    ensures { MatchOption result ((length out.old < length (names_text (path_at blob.now node))) × (length out.new ≡ length out.old)) (λ end.
        (end ≡ length (names_text (path_at blob.now node))) × (end ≤ length out.old)
        × (out.new ≡ reverse (names_text (path_at blob.now node)) ++ drop end out.old)) }
{
    let mut here = node;
    let mut end = 0;
    while let Some(next) = above.innermost() {
        end = put_reversed(out, end, blob.name(here))?;
        end = put_reversed(out, end, b"/")?;
        here = next;
        above.pop();
    }
    Some(end)
}

/// Writes the path of a node to the front, where there is room for it, and answers where it ends.
fn put_path(blob: &Blob<'_>, node: NodeId, out: &mut [u8]) -> Option<usize>
    requires { IsNode blob.now node }
    ensures { MatchOption result (length out.old < length (path_text (path_at blob.now node))) (λ end.
        (end ≡ length (path_text (path_at blob.now node))) × (end ≤ length out.old)
        × (out.new ≡ path_text (path_at blob.now node) ++ drop end out.old)) }
{
    let mut above = OpenNodes::new();
    put_nodes_above(blob, node, &mut above);
    if above.innermost().is_none() {
        return put_reversed(out, 0, b"/");
    }
    let end = put_names(blob, node, &mut above, out)?;
    turn_front(out, end);
    Some(end)
}

/// Writes the path of a node with a NUL behind it; false where there is no room for it.
#[unsafe(no_mangle)]
pub extern "C" fn dtool_path(bytes: &[u8], node: usize, out: &mut [u8]) -> bool
    requires blob { IsBlob bytes.now }
    requires node { IsNode (placed_of bytes.now) node }
    ensures is { OnTrue result (out.new ≡ path_value (path_at (placed_of bytes.now) node)
        ++ drop (length (path_value (path_at (placed_of bytes.now) node))) out.old) }
    ensures room { OnFalse result (length out.old < length (path_value (path_at (placed_of bytes.now) node))) }
{
    let blob = blob_of(bytes);
    let Some(end) = put_path(&blob, node, out) else {
        return false;
    };
    put_reversed(out, end, b"\0").is_some()
}
