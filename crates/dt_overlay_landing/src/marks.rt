//! What an object's lists say of its fragments' targets.

ghost use Rattle.std.specs.Prelude.{◌≡◌, ℕ, None, OnOk, IfOk};
ghost use Rattle.dt_overlay_landing.specs.Marks.{with_own, with_labels};
ghost use Rattle.dt_overlay_base.specs.NodeNumbers.{at_node, PutsAt};

use dt_names::{NodeId, Seed};
use dt_overlay_object::Write;
use std::alloc::{AllocError, Global};
use std::collections::HashMap;

/// How the number in a fragment's property `target` is to be read, where a list names it. Else it is that of a node of the tree so far.
#[derive(Clone, Copy)]
pub(crate) enum TargetMark {
    /// As that of a node of the object, which is listed among its own.
    Own,
    /// It isn't: the target waits for labels. The last one has this number in the base.
    Label(u32),
}

/// The marks of targets, by their nodes.
pub(crate) type TargetMarks = HashMap<NodeId, TargetMark, Seed>;

fn put_mark(marks: &mut TargetMarks, node: NodeId, mark: TargetMark) -> Result<(), AllocError>
    ensures { OnOk result (PutsAt marks.old.entries marks.new.entries node mark) }
{
    marks.insert(node, mark)?;
    Ok(())
}

/// Marks the targets into which numbers of the object's own nodes are written.
fn mark_own(writes: &[Write<'_>], marks: &mut TargetMarks) -> Result<(), AllocError>
    ensures { OnOk result ((k : ℕ) → at_node marks.new.entries k ≡ with_own writes.now k (at_node marks.old.entries k)) }
{
    for write in writes {
        if write.property == b"target".as_slice() {
            put_mark(marks, write.node, TargetMark::Own)?;
        }
    }
    Ok(())
}

/// Marks the targets into which labels' numbers are written.
fn mark_labels(writes: &[Write<'_>], marks: &mut TargetMarks) -> Result<(), AllocError>
    ensures { OnOk result ((k : ℕ) → at_node marks.new.entries k ≡ with_labels writes.now k (at_node marks.old.entries k)) }
{
    for write in writes {
        if write.property == b"target".as_slice() {
            put_mark(marks, write.node, TargetMark::Label(write.number))?;
        }
    }
    Ok(())
}

/// The marks of an object's targets: a label's comes before one of the object's own. Nodes are hashed behind the seed.
///
/// # Errors
///
/// Where memory is refused.
pub(crate) fn target_marks(
    alloc: Global,
    seed: Seed,
    own: &[Write<'_>],
    labels: &[Write<'_>],
) -> Result<TargetMarks, AllocError>
    ensures { IfOk result (λ marks. (k : ℕ) → at_node marks.entries k ≡ with_labels labels.now k (with_own own.now k None)) }
{
    let mut marks = HashMap::with_hasher(alloc, seed);
    mark_own(own, &mut marks)?;
    mark_labels(labels, &mut marks)?;
    Ok(marks)
}
