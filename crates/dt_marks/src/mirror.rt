//! The node `__local_fixups__`.

ghost use Rattle.std.specs.Prelude.{◌≡◌, ◌<◌, ◌+◌, ◌||◌, ◌&&◌, ◌++◌, ◌∷◌, [], ℕ, true, false};
ghost use Rattle.std.specs.Prelude.{None, map, length, nat_eq, codes, slice_index, slice_index_or, if◌then◌else◌, OnOk, IfOk, IfErr};
ghost use Rattle.std.specs.List.{AllByRecursion};
ghost use Rattle.dt_model.specs.Fixups.{local_properties};
ghost use Rattle.dt_model.specs.Named.{tree_of};
ghost use Rattle.dt_source_named_tree.specs.Said.{node_said};
ghost use Rattle.dt_flat.specs.Arena.{named_children, child_of, with_child};
ghost use Rattle.dt_flat.specs.Planted.{with_properties};
ghost use Rattle.dt_marks.specs.Cells.{has_cells};
ghost use Rattle.dt_marks.specs.Mirrored.{needed_by, copied, mirrored, visited, marked_at, with_mirror_root, with_inside, IsNoPhandle, MayCopy, MayMirror};
ghost use Rattle.dt_marks.specs.Paths.{MayFollow};
ghost use Rattle.dt_marks.specs.Refusals.{WhyNotPlanted};

use crate::cells::{holds_cells, set_cells};
use dt_flat::FlatTree;
use dt_names::{Fault, NodeId, NodeName};
use dt_source_named_tree::{NamedNode, NamedTree};
use std::alloc::Global;

/// A node that has such cells, or is above one that has, is needed, and so is its parent.
fn mark_node(needed: &mut [bool], node: NodeId, parent: NodeId, holds: bool)
    requires node { node < length needed.old }
    requires parent { parent < length needed.old }
    ensures { (j : ℕ) → marked_at needed.new j ≡
        (marked_at needed.old j || ((nat_eq parent j || nat_eq node j) && (holds || marked_at needed.old node))) }
{
    if holds || needed[node] {
        needed[node] = true;
        needed[parent] = true;
    }
}

/// Which nodes are made again: from the last one back, so that a node comes behind those below it.
fn mark(needed: &mut [bool], others: &[NamedNode<'_>])
    requires all { length needed.old ≡ length others.now + 1 }
    requires follow { MayFollow 1 (map node_said others.now) }
    requires none { (j : ℕ) → marked_at needed.old j ≡ false }
    ensures { (j : ℕ) → marked_at needed.new j ≡ needed_by 1 (map node_said others.now) j }
{
    for i in (0..others.len()).rev() {
        let node = &others[i];
        mark_node(needed, 1 + i, node.parent, holds_cells(node));
    }
}

/// Makes a node again below the copy of its parent.
fn copy_node(
    tree: &mut FlatTree,
    copies: &[NodeId],
    out: &mut Vec<u8>,
    node: &NamedNode<'_>,
) -> Result<NodeId, Fault>
    requires { MayCopy tree.old.slots copies.now (node_said node.now) }
    ensures tree { OnOk result (tree.new ≡ record tree.old
        { slots = copied tree.old.slots (slice_index copies.now node.now.parent) (node_said node.now) }) }
    ensures node { IfOk result (λ copy. copy ≡ length tree.old.slots) }
    ensures refused { IfErr result (λ fault. WhyNotPlanted fault.kind
        (copied tree.old.slots (slice_index copies.now node.now.parent) (node_said node.now)) × (fault.at ≡ None)) }
{
    let name = NodeName::new(node.name.as_slice())?;
    let copy = tree.add_node(copies[node.parent], &name)?;
    set_cells(tree, copy, out, &node.properties)?;
    Ok(copy)
}

/// Makes a node again, if it is needed, and notes its copy.
fn visit(
    tree: &mut FlatTree,
    copies: &mut Vec<NodeId>,
    out: &mut Vec<u8>,
    is_needed: bool,
    node: &NamedNode<'_>,
) -> Result<(), Fault>
    requires { is_needed ≡ true → MayCopy tree.old.slots copies.old.items (node_said node.now) }
    ensures tree { OnOk result (tree.new ≡ record tree.old
        { slots = visited is_needed tree.old.slots copies.old.items (node_said node.now) }) }
    ensures copies { OnOk result (copies.new.items ≡ copies.old.items ++ (if is_needed then length tree.old.slots else 0) ∷ []) }
    ensures refused { IfErr result (λ fault. WhyNotPlanted fault.kind
        (visited is_needed tree.old.slots copies.old.items (node_said node.now)) × (fault.at ≡ None)) }
{
    if !is_needed {
        copies.push(0)?;
        return Ok(());
    }
    let copy = copy_node(tree, copies, out, node)?;
    copies.push(copy)?;
    Ok(())
}

/// Makes those of the nodes again that are needed, one after another.
fn add_copies(
    tree: &mut FlatTree,
    copies: &mut Vec<NodeId>,
    out: &mut Vec<u8>,
    needed: &[bool],
    others: &[NamedNode<'_>],
) -> Result<(), Fault>
    requires all { length needed.now ≡ length others.now + 1 }
    requires may { MayMirror (marked_at needed.now) 1 tree.old.slots copies.old.items (map node_said others.now) }
    ensures tree { OnOk result (tree.new ≡ record tree.old
        { slots = mirrored (marked_at needed.now) 1 tree.old.slots copies.old.items (map node_said others.now) }) }
    ensures refused { IfErr result (λ fault. WhyNotPlanted fault.kind
        (mirrored (marked_at needed.now) 1 tree.old.slots copies.old.items (map node_said others.now)) × (fault.at ≡ None)) }
{
    for (i, node) in others.iter().enumerate() {
        visit(tree, copies, out, needed[1 + i], node)?;
    }
    Ok(())
}

/// The node with the cells of the root.
fn add_root(tree: &mut FlatTree, out: &mut Vec<u8>, root: &NamedNode<'_>) -> Result<NodeId, Fault>
    requires absent { child_of (named_children tree.old.slots 0) (codes "__local_fixups__") ≡ None }
    requires plain { AllByRecursion IsNoPhandle (local_properties (node_said root.now).content) }
    ensures tree { OnOk result (tree.new ≡ record tree.old
        { slots = with_mirror_root tree.old.slots (node_said root.now).content }) }
    ensures node { IfOk result (λ node. node ≡ length tree.old.slots) }
    ensures refused { IfErr result
        (λ fault. WhyNotPlanted fault.kind (with_mirror_root tree.old.slots (node_said root.now).content) × (fault.at ≡ None)) }
{
    let name = NodeName::new(b"__local_fixups__".as_slice())?;
    let node = tree.add_node(tree.root(), &name)?;
    set_cells(tree, node, out, &root.properties)?;
    Ok(node)
}

/// The node with the copies below it.
fn add_mirror(
    tree: &mut FlatTree,
    copies: &mut Vec<NodeId>,
    out: &mut Vec<u8>,
    needed: &[bool],
    root: &NamedNode<'_>,
    others: &[NamedNode<'_>],
) -> Result<(), Fault>
    requires absent { child_of (named_children tree.old.slots 0) (codes "__local_fixups__") ≡ None }
    requires begins { copies.old.items ≡ [] }
    requires all { length needed.now ≡ length others.now + 1 }
    requires plain { AllByRecursion IsNoPhandle (local_properties (node_said root.now).content) }
    requires may { MayMirror (marked_at needed.now) 1 (with_mirror_root tree.old.slots (node_said root.now).content)
        (length tree.old.slots ∷ []) (map node_said others.now) }
    ensures tree { OnOk result (tree.new ≡ record tree.old {
      slots = mirrored (marked_at needed.now) 1 (with_mirror_root tree.old.slots (node_said root.now).content)
          (length tree.old.slots ∷ []) (map node_said others.now);
    }) }
    ensures refused { IfErr result (λ fault. WhyNotPlanted fault.kind
        (mirrored (marked_at needed.now) 1 (with_mirror_root tree.old.slots (node_said root.now).content)
        (length tree.old.slots ∷ []) (map node_said others.now)) × (fault.at ≡ None)) }
{
    let node = add_root(tree, out, root)?;
    copies.push(node)?;
    add_copies(tree, copies, out, needed, others)
}

/// Is the root made again?
fn is_wanted(needed: &[bool], root: &NamedNode<'_>) -> bool
    requires { 0 < length needed.now }
    ensures { result ≡ (marked_at needed.now 0 || has_cells root.now.properties.items) }
{
    needed[0] || holds_cells(root)
}

/// Marks the nodes, and makes those again that are needed.
fn add_marked(
    tree: &mut FlatTree,
    needed: &mut [bool],
    copies: &mut Vec<NodeId>,
    out: &mut Vec<u8>,
    named: &NamedTree<'_>,
) -> Result<(), Fault>
    requires absent { child_of (named_children tree.old.slots 0) (codes "__local_fixups__") ≡ None }
    requires begins { copies.old.items ≡ [] }
    requires all { length needed.old ≡ length named.now.nodes }
    requires none { (j : ℕ) → marked_at needed.old j ≡ false }
    ensures tree { OnOk result (tree.new ≡ record tree.old { slots = with_inside tree.old.slots (tree_of named.now) }) }
    ensures refused { IfErr result
        (λ fault. WhyNotPlanted fault.kind (with_inside tree.old.slots (tree_of named.now)) × (fault.at ≡ None)) }
{
    named.validity();
    let Some((root, others)) = named.nodes().split_first() else {
        return Ok(());
    };
    mark(needed, others);
    if !is_wanted(needed, root) {
        return Ok(());
    }
    add_mirror(tree, copies, out, needed, root, others)
}

/// Adds the node `__local_fixups__`, where a cell holds a number of a node of the tree itself. `Limit`: the nodes would pass
/// the limits. `NoMemory`: memory was refused.
pub(crate) fn add_inside(
    alloc: Global,
    tree: &mut FlatTree,
    named: &NamedTree<'_>,
) -> Result<(), Fault>
    requires absent { child_of (named_children tree.old.slots 0) (codes "__local_fixups__") ≡ None }
    ensures tree { OnOk result (tree.new ≡ record tree.old { slots = with_inside tree.old.slots (tree_of named.now) }) }
    ensures refused { IfErr result
        (λ fault. WhyNotPlanted fault.kind (with_inside tree.old.slots (tree_of named.now)) × (fault.at ≡ None)) }
{
    let mut needed = vec![in alloc; false; named.nodes().len()]?;
    let mut copies = Vec::new(alloc);
    let mut out = Vec::new(alloc);
    add_marked(tree, &mut needed, &mut copies, &mut out, named)
}
