//! Edits of a blob in a buffer that C lends.

ghost use Rattle.std.specs.Prelude.{◌≡◌, ◌<◌, ◌≤◌, ◌∷◌, ◌++◌, [], ℕ, None, drop, IsTrue, IsOk, IfOk, IfErr, OnOk, OnErr};
ghost use Rattle.std.specs.Bool.{OnTrue, OnFalse};
ghost use Rattle.dt_c.specs.Crossing.{IsRefused};
ghost use Rattle.dt_c.specs.Edits.{WhyNotAddedNamed, WhyNotPatchedNamed, WhyNotSetNamed};
ghost use Rattle.dt_edit.specs.Editable.{reading_in, path_in, opened_size, value_patched, IsEditable, WhyNotOpened};
ghost use Rattle.dt_edit.specs.Plans.{IsPatched};
ghost use Rattle.dt_model.specs.Changes.{with_child_at, with_property_at};
ghost use Rattle.dt_model.specs.Checks.{number};
ghost use Rattle.dt_model.specs.Path.{Path};
ghost use Rattle.dt_read.specs.Checked.{IsBlob, placed_of};
ghost use Rattle.dt_trees.specs.Placed.{IsAt, IsNode};

use crate::crossing::{CFault, put_fault};
use dt_edit::{add_node, has_cell, open_into, patch_cell, set_prop};
use dt_names::{Fault, FaultKind, NodeId, NodeName, PropName};

/// Copies a blob to the front of a buffer, where it can be edited.
#[unsafe(no_mangle)]
pub extern "C" fn dtool_open_into(bytes: &[u8], out: &mut [u8], fault: &mut CFault) -> bool
    requires { IsBlob bytes.now }
    ensures editable { IsTrue result → IsEditable out.new }
    ensures reads { OnTrue result (reading_in out.new ≡ reading_in bytes.now) }
    ensures behind { OnTrue result (drop (number out.new 4) out.new ≡ drop (number out.new 4) out.old) }
    ensures kept { OnFalse result (out.new ≡ out.old) }
    ensures refused { OnFalse result (IsRefused (λ e. WhyNotOpened e.kind out.old (opened_size bytes.now) × (e.at ≡ None)) fault.new) }
    ensures no_fault { OnTrue result (fault.new ≡ fault.old) }
{
    match open_into(bytes, out) {
        Ok(()) => true,
        Err(why) => {
            put_fault(why, fault);
            false
        }
    }
}

/// Sets a property whose name is bytes.
fn set_named(bytes: &mut [u8], node: NodeId, name: &[u8], value: &[u8]) -> Result<(), Fault>
    requires editable { IsEditable bytes.old }
    requires node { IsNode (placed_of bytes.old) node }
    ensures editable { IsEditable bytes.new }
    ensures ok { OnOk result (reading_in bytes.new ≡ with_property_at (path_in bytes.old node) name.now value.now (reading_in bytes.old)) }
    ensures places { IsOk result → (path : Path) (place : ℕ) → IsAt (placed_of bytes.old) path place → place ≤ node
        → IsAt (placed_of bytes.new) path place }
    ensures behind { OnOk result (drop (number bytes.new 4) bytes.new ≡ drop (number bytes.new 4) bytes.old) }
    ensures kept { OnErr result (bytes.new ≡ bytes.old) }
    ensures refused { IfErr result (λ e. WhyNotSetNamed e.kind bytes.old node name.now value.now × (e.at ≡ None)) }
{
    let name = PropName::new(name)?;
    set_prop(bytes, node, &name, value)
}

/// Sets a property of a node.
#[unsafe(no_mangle)]
pub extern "C" fn dtool_set_prop(
    bytes: &mut [u8],
    node: usize,
    name: &[u8],
    value: &[u8],
    fault: &mut CFault,
) -> bool
    requires editable { IsEditable bytes.old }
    requires node { IsNode (placed_of bytes.old) node }
    ensures editable { IsEditable bytes.new }
    ensures is { OnTrue result (reading_in bytes.new ≡ with_property_at (path_in bytes.old node) name.now value.now (reading_in bytes.old)) }
    ensures places { IsTrue result → (path : Path) (place : ℕ) → IsAt (placed_of bytes.old) path place → place ≤ node
        → IsAt (placed_of bytes.new) path place }
    ensures behind { OnTrue result (drop (number bytes.new 4) bytes.new ≡ drop (number bytes.new 4) bytes.old) }
    ensures kept { OnFalse result (bytes.new ≡ bytes.old) }
    ensures refused { OnFalse result (IsRefused (λ e. WhyNotSetNamed e.kind bytes.old node name.now value.now × (e.at ≡ None)) fault.new) }
    ensures no_fault { OnTrue result (fault.new ≡ fault.old) }
{
    match set_named(bytes, node, name, value) {
        Ok(()) => true,
        Err(why) => {
            put_fault(why, fault);
            false
        }
    }
}

/// Adds a child whose name is bytes.
fn add_named(bytes: &mut [u8], parent: NodeId, name: &[u8]) -> Result<NodeId, Fault>
    requires editable { IsEditable bytes.old }
    requires parent { IsNode (placed_of bytes.old) parent }
    ensures editable { IsEditable bytes.new }
    ensures ok { OnOk result (reading_in bytes.new ≡ with_child_at (path_in bytes.old parent) name.now (reading_in bytes.old)) }
    ensures node { IfOk result (λ node. IsAt (placed_of bytes.new) (path_in bytes.old parent ++ name.now ∷ []) node) }
    ensures places { IfOk result (λ node. (path : Path) (place : ℕ) → IsAt (placed_of bytes.old) path place → place < node
        → IsAt (placed_of bytes.new) path place) }
    ensures behind { OnOk result (drop (number bytes.new 4) bytes.new ≡ drop (number bytes.new 4) bytes.old) }
    ensures kept { OnErr result (bytes.new ≡ bytes.old) }
    ensures refused { IfErr result (λ e. WhyNotAddedNamed e.kind bytes.old parent name.now × (e.at ≡ None)) }
{
    let name = NodeName::new(name)?;
    add_node(bytes, parent, &name)
}

/// Adds a child to a node.
#[unsafe(no_mangle)]
pub extern "C" fn dtool_add_node(
    bytes: &mut [u8],
    parent: usize,
    name: &[u8],
    out: &mut usize,
    fault: &mut CFault,
) -> bool
    requires editable { IsEditable bytes.old }
    requires parent { IsNode (placed_of bytes.old) parent }
    ensures editable { IsEditable bytes.new }
    ensures is { OnTrue result (reading_in bytes.new ≡ with_child_at (path_in bytes.old parent) name.now (reading_in bytes.old)) }
    ensures node { OnTrue result (IsAt (placed_of bytes.new) (path_in bytes.old parent ++ name.now ∷ []) out.new) }
    ensures places { IsTrue result → (path : Path) (place : ℕ) → IsAt (placed_of bytes.old) path place → place < out.new
        → IsAt (placed_of bytes.new) path place }
    ensures behind { OnTrue result (drop (number bytes.new 4) bytes.new ≡ drop (number bytes.new 4) bytes.old) }
    ensures kept { OnFalse result ((bytes.new ≡ bytes.old) × (out.new ≡ out.old)) }
    ensures refused { OnFalse result (IsRefused (λ e. WhyNotAddedNamed e.kind bytes.old parent name.now × (e.at ≡ None)) fault.new) }
    ensures no_fault { OnTrue result (fault.new ≡ fault.old) }
{
    match add_named(bytes, parent, name) {
        Ok(node) => {
            *out = node;
            true
        }
        Err(why) => {
            put_fault(why, fault);
            false
        }
    }
}

/// Patches a cell of a property whose name is bytes.
fn patch_named(
    bytes: &mut [u8],
    node: NodeId,
    name: &[u8],
    offset: usize,
    number: u32,
) -> Result<(), Fault>
    requires editable { IsEditable bytes.old }
    requires node { IsNode (placed_of bytes.old) node }
    ensures editable { IsEditable bytes.new }
    ensures ok { OnOk result (reading_in bytes.new
        ≡ with_property_at (path_in bytes.old node) name.now (value_patched bytes.old node name.now offset number) (reading_in bytes.old)) }
    ensures places { IsOk result → (path : Path) (place : ℕ) → IsAt (placed_of bytes.old) path place → IsAt (placed_of bytes.new) path place }
    ensures cell { IsOk result → IsPatched bytes.old bytes.new node name.now offset number }
    ensures kept { OnErr result (bytes.new ≡ bytes.old) }
    ensures refused { IfErr result (λ e. WhyNotPatchedNamed e.kind bytes.old node name.now offset number × (e.at ≡ None)) }
{
    let name = PropName::new(name)?;
    if !has_cell(bytes, node, name.as_bytes(), offset) {
        return Err(Fault::of(FaultKind::Limit));
    }
    patch_cell(bytes, node, &name, offset, number)
}

/// Writes a number into a cell of a node's property.
#[unsafe(no_mangle)]
pub extern "C" fn dtool_patch_cell(
    bytes: &mut [u8],
    node: usize,
    name: &[u8],
    offset: usize,
    value: u32,
    fault: &mut CFault,
) -> bool
    requires editable { IsEditable bytes.old }
    requires node { IsNode (placed_of bytes.old) node }
    ensures editable { IsEditable bytes.new }
    ensures is { OnTrue result (reading_in bytes.new
        ≡ with_property_at (path_in bytes.old node) name.now (value_patched bytes.old node name.now offset value) (reading_in bytes.old)) }
    ensures places { IsTrue result → (path : Path) (place : ℕ) → IsAt (placed_of bytes.old) path place → IsAt (placed_of bytes.new) path place }
    ensures cell { IsTrue result → IsPatched bytes.old bytes.new node name.now offset value }
    ensures kept { OnFalse result (bytes.new ≡ bytes.old) }
    ensures refused { OnFalse result (IsRefused (λ e. WhyNotPatchedNamed e.kind bytes.old node name.now offset value × (e.at ≡ None)) fault.new) }
    ensures no_fault { OnTrue result (fault.new ≡ fault.old) }
{
    match patch_named(bytes, node, name, offset, value) {
        Ok(()) => true,
        Err(why) => {
            put_fault(why, fault);
            false
        }
    }
}
