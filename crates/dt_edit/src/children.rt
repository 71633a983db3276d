//! A node added: a plan, which looks, and its carrying out, which can't be refused.

ghost use Rattle.std.specs.Prelude.{◌≡◌, ◌↔◌, ◌+◌, ◌<◌, ◌++◌, ◌∷◌, [], true, None, IsTrue, IsOk, IfOk, IfErr, length};
ghost use Rattle.dt_edit.specs.Editable.{reading_in, path_in, size_with_node, IsEditable, MayAddWithin, WhyNotAddedWithin};
ghost use Rattle.dt_edit.specs.Moving.{node_bytes};
ghost use Rattle.dt_edit.specs.Plans.{HasOtherBlocks, IsNodePlan, HasNodeRoom};
ghost use Rattle.dt_model.specs.Checks.{strings_of, structure_of};
ghost use Rattle.dt_model.specs.Limits.{most_names, most_nodes};
ghost use Rattle.dt_model.specs.Tree.{stands_in};
ghost use Rattle.dt_model.specs.Valid.{node_count};
ghost use Rattle.dt_read.specs.Checked.{IsBlob, placed_of};
ghost use Rattle.dt_read.specs.Cuts.{spliced};
ghost use Rattle.dt_trees.specs.Placed.{path_at, IsNode};

use crate::layout::{HEADER_SIZE, Layout, layout_of};
use crate::moving::{Span, padded_len, splice_node};
use dt_names::limits::{MOST_BYTES, MOST_NAMES, MOST_NODES};
use dt_names::{Fault, FaultKind, Seed};
use dt_read::{Blob, NodeId, OpenNodes, end_cut, structure_bytes};
use dt_view::put_nodes_above;
use dt_write::set_header;

/// How many bytes a node takes at least: BEGIN_NODE, a NUL and its padding, and END_NODE.
const LEAST_NODE_SIZE: usize = 12;

/// How many names the path of a node has.
fn depth_of(blob: &Blob<'_>, node: NodeId) -> usize
    requires { IsNode blob.now node }
    ensures { result ≡ length (path_at blob.now node) }
{
    let mut above = OpenNodes::new();
    put_nodes_above(blob, node, &mut above);
    above.len()
}

/// Whether a node of a blob has a child of a name.
fn has_child(bytes: &[u8], node: NodeId, name: &[u8]) -> bool
    requires blob { IsBlob bytes.now }
    requires node { IsNode (placed_of bytes.now) node }
    ensures { IsTrue result ↔ (stands_in (reading_in bytes.now) (path_in bytes.now node ++ name.now ∷ []) ≡ true) }
{
    Blob::of(bytes, Seed::fixed()).child(node, name).is_some()
}

/// Whether a blob may have one node more, by the limit. A node takes 12 bytes at least, so a short blob isn't counted.
fn may_grow(bytes: &[u8]) -> bool
    requires { IsBlob bytes.now }
    ensures { IsTrue result ↔ (1 + node_count (reading_in bytes.now).children < most_nodes) }
{
    if structure_bytes(bytes).len() < LEAST_NODE_SIZE * MOST_NODES {
        return true;
    }
    Blob::of(bytes, Seed::fixed()).counts().nodes < MOST_NODES
}

/// Whether a blob may have a child below a node, and one node more, by the limits.
fn has_room_below(bytes: &[u8], node: NodeId) -> bool
    requires blob { IsBlob bytes.now }
    requires node { IsNode (placed_of bytes.now) node }
    ensures { IsTrue result ↔ (length (path_in bytes.now node) < most_names) × (1 + node_count (reading_in bytes.now).children < most_nodes) }
{
    may_grow(bytes) && depth_of(&Blob::of(bytes, Seed::fixed()), node) < MOST_NAMES
}

/// Where a node is added: the blob's layout, the offset of its parent's END_NODE in the structure block, and how long the blob then is.
#[derive(Clone, Copy)]
pub(crate) struct NodePlan {
    pub layout: Layout,
    pub cut: usize,
    pub size: usize,
}

/// How a child is added to a node in so many bytes.
///
/// # Errors
///
/// `Duplicate` where the node has a child of that name; else `Limit`, by the path, the number of nodes, or the size. None has a place.
pub(crate) fn plan_node(
    bytes: &[u8],
    room: usize,
    node: NodeId,
    name: &[u8],
) -> Result<NodePlan, Fault>
    requires editable { IsEditable bytes.now }
    requires node { IsNode (placed_of bytes.now) node }
    requires name { length name.now < 256 }
    ensures plan { IfOk result (λ plan. IsNodePlan bytes.now node plan) }
    ensures size { IfOk result (λ plan. plan.size ≡ size_with_node bytes.now name.now) }
    ensures allowed { IsOk result → MayAddWithin room bytes.now node name.now }
    ensures refused { IfErr result (λ fault. WhyNotAddedWithin room fault.kind bytes.now node name.now × (fault.at ≡ None)) }
{
    if has_child(bytes, node, name) {
        return Err(Fault::of(FaultKind::Duplicate));
    }
    if !has_room_below(bytes, node) {
        return Err(Fault::of(FaultKind::Limit));
    }
    let layout = layout_of(bytes);
    let size = layout.structure_at
        + layout.structure
        + layout.strings
        + padded_len(5 + name.len())
        + 4;
    if size > room || size > MOST_BYTES {
        return Err(Fault::of(FaultKind::Limit));
    }
    let cut = end_cut(bytes, node);
    Ok(NodePlan { layout, cut, size })
}

/// Adds a node as it was planned.
pub(crate) fn carry_out(bytes: &mut [u8], plan: &NodePlan, name: &[u8])
    requires editable { IsEditable bytes.old }
    requires room { HasNodeRoom bytes.old plan.now name.now }
    ensures { HasOtherBlocks bytes.old bytes.new (spliced plan.now.cut 0 (node_bytes name.now) (structure_of bytes.old)) (strings_of bytes.old ++ []) }
{
    let NodePlan { layout, cut, .. } = *plan;
    let own = padded_len(5 + name.len()) + 4;
    let span = Span {
        at: layout.structure_at + cut,
        size: 0,
        end: layout.structure_at + layout.structure + layout.strings,
    };
    splice_node(bytes, span, name);
    let reservations = layout.structure_at - HEADER_SIZE;
    set_header(
        bytes,
        layout.boot_cpu,
        reservations,
        layout.structure + own,
        layout.strings,
    );
}
