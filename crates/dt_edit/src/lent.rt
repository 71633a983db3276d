//! Edits of a blob in a buffer that the caller lends.

ghost use Rattle.std.specs.Prelude.{◌≡◌, ◌<◌, ◌≤◌, ◌++◌, ◌∷◌, [], ℕ, None, drop, IsOk, IfOk, OnOk, OnErr, IfErr};
ghost use Rattle.dt_edit.specs.Editable.{reading_in, path_in, size_with_node, size_with_value, value_patched, HasCellAt, IsEditable};
ghost use Rattle.dt_edit.specs.Editable.{MayAddIn, MayPatchIn, MaySetIn, WhyNotAddedIn, WhyNotPatchedIn, WhyNotSetIn};
ghost use Rattle.dt_edit.specs.Plans.{added_name, IsPatched};
ghost use Rattle.dt_model.specs.Changes.{with_child_at, with_property_at};
ghost use Rattle.dt_model.specs.Checks.{number, strings_of};
ghost use Rattle.dt_model.specs.Checks.{number as header_number};
ghost use Rattle.dt_model.specs.Path.{Path};
ghost use Rattle.dt_read.specs.Checked.{placed_of};
ghost use Rattle.dt_trees.specs.Placed.{IsAt, IsNode};

use crate::cells::{may_patch, patch};
use crate::children;
use crate::children::plan_node;
use crate::properties::{carry_out, plan_property};
use dt_names::{Fault, FaultKind, NodeName, PropName};
use dt_read::NodeId;

/// Sets a property of a node (Devicetree Specification v0.4, 5.4): one that is there keeps its place, a new one goes last. The bytes behind the blob
/// stay. Takes no memory.
///
/// # Errors
///
/// `BlobPhandle` where the property is `phandle`, and the value isn't four bytes of a number from 1 to 0xfffffffe that no other node has; else
/// `Limit` where the blob would be longer than the buffer or than 16 MiB. None has a place. At a fault the bytes are unchanged.
pub fn set_prop(
    bytes: &mut [u8],
    node: NodeId,
    name: &PropName<'_>,
    value: &[u8],
) -> Result<(), Fault>
    requires editable { IsEditable bytes.old }
    requires node { IsNode (placed_of bytes.old) node }
    ensures editable { IsEditable bytes.new }
    ensures ok { OnOk result (reading_in bytes.new ≡ with_property_at (path_in bytes.old node) name.now value.now (reading_in bytes.old)) }
    ensures places { IsOk result → (path : Path) (place : ℕ) → IsAt (placed_of bytes.old) path place → place ≤ node
        → IsAt (placed_of bytes.new) path place }
    ensures strings { OnOk result (strings_of bytes.new ≡ strings_of bytes.old ++ added_name bytes.old name.now) }
    ensures size { OnOk result (number bytes.new 4 ≡ size_with_value bytes.old node name.now value.now) }
    ensures behind { OnOk result (drop (number bytes.new 4) bytes.new ≡ drop (number bytes.new 4) bytes.old) }
    ensures allowed { IsOk result → MaySetIn bytes.old node name.now value.now }
    ensures err { OnErr result (bytes.new ≡ bytes.old) }
    ensures refused { IfErr result (λ fault. WhyNotSetIn fault.kind bytes.old node name.now value.now × (fault.at ≡ None)) }
{
    let key = name.as_bytes();
    let plan = plan_property(bytes, bytes.len(), node, key, value)?;
    carry_out(bytes, &plan, key, value);
    Ok(())
}

/// Adds a child at the end of the children of a node (Devicetree Specification v0.4, 5.4), and answers it. The bytes behind the blob stay. Takes no
/// memory.
///
/// # Errors
///
/// `Duplicate` where the node has a child of that name; else `Limit` where the path has 64 names, the tree 65,536 nodes, or the blob would be longer
/// than the buffer or than 16 MiB. None has a place. At a fault the bytes are unchanged.
pub fn add_node(bytes: &mut [u8], parent: NodeId, name: &NodeName<'_>) -> Result<NodeId, Fault>
    requires editable { IsEditable bytes.old }
    requires parent { IsNode (placed_of bytes.old) parent }
    ensures editable { IsEditable bytes.new }
    ensures ok { OnOk result (reading_in bytes.new ≡ with_child_at (path_in bytes.old parent) name.now (reading_in bytes.old)) }
    ensures node { IfOk result (λ node. IsAt (placed_of bytes.new) (path_in bytes.old parent ++ name.now ∷ []) node) }
    ensures places { IfOk result (λ node. (path : Path) (place : ℕ) → IsAt (placed_of bytes.old) path place → place < node
        → IsAt (placed_of bytes.new) path place) }
    ensures strings { OnOk result (strings_of bytes.new ≡ strings_of bytes.old) }
    ensures size { OnOk result (number bytes.new 4 ≡ size_with_node bytes.old name.now) }
    ensures behind { OnOk result (drop (number bytes.new 4) bytes.new ≡ drop (number bytes.new 4) bytes.old) }
    ensures allowed { IsOk result → MayAddIn bytes.old parent name.now }
    ensures err { OnErr result (bytes.new ≡ bytes.old) }
    ensures refused { IfErr result (λ fault. WhyNotAddedIn fault.kind bytes.old parent name.now × (fault.at ≡ None)) }
{
    let key = name.as_bytes();
    let plan = plan_node(bytes, bytes.len(), parent, key)?;
    children::carry_out(bytes, &plan, key);
    Ok(plan.layout.structure_at + plan.cut)
}

/// Writes a number into a cell of a property's value, the highest byte first, at an offset of the value. No other byte changes, and each node keeps its
/// place. Takes no memory.
///
/// # Errors
///
/// `BlobPhandle`, without a place, where the property is `phandle`, and the number is 0, 0xffffffff, or another node's. At a fault the bytes are
/// unchanged.
pub fn patch_cell(
    bytes: &mut [u8],
    node: NodeId,
    name: &PropName<'_>,
    offset: usize,
    number: u32,
) -> Result<(), Fault>
    requires editable { IsEditable bytes.old }
    requires node { IsNode (placed_of bytes.old) node }
    requires cell { HasCellAt bytes.old node name.now offset }
    ensures editable { IsEditable bytes.new }
    ensures ok { OnOk result (reading_in bytes.new
        ≡ with_property_at (path_in bytes.old node) name.now (value_patched bytes.old node name.now offset number) (reading_in bytes.old)) }
    ensures places { IsOk result → (path : Path) (place : ℕ) → IsAt (placed_of bytes.old) path place → IsAt (placed_of bytes.new) path place }
    ensures strings { OnOk result (strings_of bytes.new ≡ strings_of bytes.old) }
    ensures size { OnOk result (header_number bytes.new 4 ≡ header_number bytes.old 4) }
    ensures cell { IsOk result → IsPatched bytes.old bytes.new node name.now offset number }
    ensures allowed { IsOk result → MayPatchIn bytes.old node name.now offset number }
    ensures err { OnErr result (bytes.new ≡ bytes.old) }
    ensures refused { IfErr result (λ fault. WhyNotPatchedIn fault.kind bytes.old node name.now offset number × (fault.at ≡ None)) }
{
    let key = name.as_bytes();
    if !may_patch(bytes, node, key, number) {
        return Err(Fault::of(FaultKind::BlobPhandle));
    }
    patch(bytes, node, key, offset, number);
    Ok(())
}
