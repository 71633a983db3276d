//! The nodes that list where the cells of an overlay's object are.

ghost use Rattle.std.specs.Prelude.{◌≡◌, None, codes, OnOk, IfErr};
ghost use Rattle.dt_model.specs.Fixups.{with_fixups};
ghost use Rattle.dt_model.specs.Named.{tree_of};
ghost use Rattle.dt_flat.specs.Arena.{reading, named_children, child_of};
ghost use Rattle.dt_marks.specs.Refusals.{WhyNoFixups};

use crate::fixup_texts::add_outside;
use crate::mirror::add_inside;
use dt_flat::FlatTree;
use dt_names::Fault;
use dt_source_named_tree::NamedTree;
use std::alloc::Global;

/// Adds the cells of an overlay's tree to a tree whose root has no child `__fixups__` and no child `__local_fixups__`, as
/// such children, the last two, each where it isn't empty (dtc's notes on overlay objects). `__fixups__` has for each label
/// that the source doesn't give the places of the cells that wait for its node, as texts `path:property:offset`, labels and
/// cells in the order of the source's tree. `__local_fixups__` has the nodes and properties that hold numbers of the
/// overlay's own nodes, each property with the offsets of those as cells.
///
/// # Errors
///
/// `Limit` where the tree would have more than 65,536 nodes with these, or a path of more than 64 names; and `NoMemory`. None has a
/// place. At a fault the tree may have a part of this.
pub fn add_fixups(alloc: Global, tree: &mut FlatTree, named: &NamedTree<'_>) -> Result<(), Fault>
    requires fixups { child_of (named_children tree.old.slots 0) (codes "__fixups__") ≡ None }
    requires locals { child_of (named_children tree.old.slots 0) (codes "__local_fixups__") ≡ None }
    ensures added { OnOk result (reading tree.new ≡ with_fixups (tree_of named.now) (reading tree.old)) }
    ensures refused { IfErr result
        (λ fault. WhyNoFixups fault.kind (with_fixups (tree_of named.now) (reading tree.old)) × (fault.at ≡ None)) }
{
    named.validity();
    tree.validity();
    add_outside(alloc, tree, named.nodes())?;
    add_inside(alloc, tree, named)
}
