//! A blob in memory of its own, which grows with it.

ghost use Rattle.std.specs.Prelude.{◌≡◌, ◌-◌, ◌<◌, ◌≤◌, ◌++◌, ◌∷◌, [], ℕ, None, length, replicate, IsOk, IfOk, IfErr, OnOk, OnErr};
ghost use Rattle.dt_edit.specs.Editable.{reading_in, path_in, opened_size, size_with_node, size_with_value, value_patched};
ghost use Rattle.dt_edit.specs.Editable.{HasCellAt, IsWhole, MayAddWithin, MayPatchIn, MaySetWithin};
ghost use Rattle.dt_edit.specs.Editable.{WhyNotAddedOwned, WhyNotOwned, WhyNotPatchedIn, WhyNotSetOwned};
ghost use Rattle.dt_edit.specs.Plans.{added_name, IsPatched};
ghost use Rattle.dt_model.specs.Changes.{with_child_at, with_property_at};
ghost use Rattle.dt_model.specs.Checks.{strings_of, structure_of};
ghost use Rattle.dt_model.specs.Limits.{most_bytes};
ghost use Rattle.dt_model.specs.Path.{Path};
ghost use Rattle.dt_read.specs.Checked.{IsBlob, placed_of};
ghost use Rattle.dt_trees.specs.Placed.{IsAt, IsNode};

use crate::children::plan_node;
use crate::opening::{open_into, opened_size};
use crate::properties::plan_property;
use crate::{children, lent, properties};
use dt_names::limits::MOST_BYTES;
use dt_names::{Fault, FaultKind, NodeName, PropName, Seed};
use dt_read::{Blob, NodeId};
use std::alloc::{AllocError, Global};
use std::marker::Model;

/// Makes bytes so many, with zeros behind them, where they are fewer.
fn grow(bytes: &mut Vec<u8>, size: usize) -> Result<(), AllocError>
    ensures grown { OnOk result (bytes.new.items ≡ bytes.old.items ++ replicate (size - length bytes.old.items) 0) }
    ensures err { OnErr result (bytes.new.items ≡ bytes.old.items) }
{
    if size > bytes.len() {
        bytes.resize(size, 0)?;
    }
    Ok(())
}

/// Sets a property of a blob behind which nothing is.
pub(crate) fn set_in(
    bytes: &mut Vec<u8>,
    node: NodeId,
    name: &PropName<'_>,
    value: &[u8],
) -> Result<(), Fault>
    requires whole { IsWhole bytes.old.items }
    requires node { IsNode (placed_of bytes.old.items) node }
    ensures whole { IsWhole bytes.new.items }
    ensures ok { OnOk result (reading_in bytes.new.items ≡ with_property_at (path_in bytes.old.items node) name.now value.now (reading_in bytes.old.items)) }
    ensures places { IsOk result → (path : Path) (place : ℕ) → IsAt (placed_of bytes.old.items) path place → place ≤ node
        → IsAt (placed_of bytes.new.items) path place }
    ensures strings { OnOk result (strings_of bytes.new.items ≡ strings_of bytes.old.items ++ added_name bytes.old.items name.now) }
    ensures size { OnOk result (length bytes.new.items ≡ size_with_value bytes.old.items node name.now value.now) }
    ensures allowed { IsOk result → MaySetWithin most_bytes bytes.old.items node name.now value.now }
    ensures err { OnErr result (bytes.new.items ≡ bytes.old.items) }
    ensures refused { IfErr result (λ fault. WhyNotSetOwned fault.kind bytes.old.items node name.now value.now × (fault.at ≡ None)) }
{
    let key = name.as_bytes();
    let plan = plan_property(bytes, MOST_BYTES, node, key, value)?;
    grow(bytes, plan.size)?;
    properties::carry_out(bytes, &plan, key, value);
    bytes.truncate(plan.size);
    Ok(())
}

/// Adds a child in a blob behind which nothing is.
pub(crate) fn add_in(
    bytes: &mut Vec<u8>,
    parent: NodeId,
    name: &NodeName<'_>,
) -> Result<NodeId, Fault>
    requires whole { IsWhole bytes.old.items }
    requires parent { IsNode (placed_of bytes.old.items) parent }
    ensures whole { IsWhole bytes.new.items }
    ensures ok { OnOk result (reading_in bytes.new.items ≡ with_child_at (path_in bytes.old.items parent) name.now (reading_in bytes.old.items)) }
    ensures node { IfOk result (λ node. IsAt (placed_of bytes.new.items) (path_in bytes.old.items parent ++ name.now ∷ []) node) }
    ensures places { IfOk result (λ node. (path : Path) (place : ℕ) → IsAt (placed_of bytes.old.items) path place → place < node
        → IsAt (placed_of bytes.new.items) path place) }
    ensures strings { OnOk result (strings_of bytes.new.items ≡ strings_of bytes.old.items) }
    ensures size { OnOk result (length bytes.new.items ≡ size_with_node bytes.old.items name.now) }
    ensures allowed { IsOk result → MayAddWithin most_bytes bytes.old.items parent name.now }
    ensures err { OnErr result (bytes.new.items ≡ bytes.old.items) }
    ensures refused { IfErr result (λ fault. WhyNotAddedOwned fault.kind bytes.old.items parent name.now × (fault.at ≡ None)) }
{
    let key = name.as_bytes();
    let plan = plan_node(bytes, MOST_BYTES, parent, key)?;
    grow(bytes, plan.size)?;
    children::carry_out(bytes, &plan, key);
    Ok(plan.layout.structure_at + plan.cut)
}

/// Patches a cell in a blob behind which nothing is.
pub(crate) fn patch_in(
    bytes: &mut Vec<u8>,
    node: NodeId,
    name: &PropName<'_>,
    offset: usize,
    number: u32,
) -> Result<(), Fault>
    requires whole { IsWhole bytes.old.items }
    requires node { IsNode (placed_of bytes.old.items) node }
    requires cell { HasCellAt bytes.old.items node name.now offset }
    ensures whole { IsWhole bytes.new.items }
    ensures ok { OnOk result (reading_in bytes.new.items ≡ with_property_at (path_in bytes.old.items node) name.now
        (value_patched bytes.old.items node name.now offset number) (reading_in bytes.old.items)) }
    ensures places { IsOk result → (path : Path) (place : ℕ) → IsAt (placed_of bytes.old.items) path place → IsAt (placed_of bytes.new.items) path place }
    ensures strings { OnOk result (strings_of bytes.new.items ≡ strings_of bytes.old.items) }
    ensures size { OnOk result (length bytes.new.items ≡ length bytes.old.items) }
    ensures cell { IsOk result → IsPatched bytes.old.items bytes.new.items node name.now offset number }
    ensures allowed { IsOk result → MayPatchIn bytes.old.items node name.now offset number }
    ensures err { OnErr result (bytes.new.items ≡ bytes.old.items) }
    ensures refused { IfErr result (λ fault. WhyNotPatchedIn fault.kind bytes.old.items node name.now offset number × (fault.at ≡ None)) }
{
    lent::patch_cell(bytes, node, name, offset, number)
}

/// A blob that can be edited, in memory of its own. It is seen as the blob's bytes, in the order in which a writer puts the blocks, with nothing behind
/// them.
#[derive(Drop)]
pub struct BlobBuf {
    pub(crate) bytes: Vec<u8>,
    pub(crate) seed: Seed,
}

impl Model for BlobBuf {
    ghost use Rattle.std.specs.Prelude.{List, ℕ};
    ghost use Rattle.dt_edit.specs.Editable.{IsWhole};

    ghost Value = { List ℕ };

    ghost view = { λ b. b.bytes.items };

    ghost invariant = { λ b. IsWhole b.bytes.items };
}

impl BlobBuf {
    /// A copy of a blob that was checked, its blocks one behind the other: it reads as the blob, and a NOP stays one. The seed is the checked blob's;
    /// tables made of the copy hash behind it.
    ///
    /// # Errors
    ///
    /// `Limit` where its blocks one behind the other are longer than 16 MiB; and `NoMemory`. Neither has a place.
    pub fn new(alloc: Global, blob: &[u8], seed: Seed) -> Result<BlobBuf, Fault>
        requires { IsBlob blob.now }
        ensures reads { IfOk result (λ copy. reading_in copy ≡ reading_in blob.now) }
        ensures structure { IfOk result (λ copy. structure_of copy ≡ structure_of blob.now) }
        ensures strings { IfOk result (λ copy. strings_of copy ≡ strings_of blob.now) }
        ensures size { IfOk result (λ copy. length copy ≡ opened_size blob.now) }
        ensures fits { IsOk result → opened_size blob.now ≤ most_bytes }
        ensures refused { IfErr result (λ fault. WhyNotOwned fault.kind (opened_size blob.now) × (fault.at ≡ None)) }
    {
        let size = opened_size(blob);
        if size > MOST_BYTES {
            return Err(Fault::of(FaultKind::Limit));
        }
        let mut bytes = vec![in alloc; 0u8; size]?;
        open_into(blob, &mut bytes)?;
        Ok(BlobBuf { bytes, seed })
    }

    /// What is true of each: the blob can be edited, and nothing is behind it. Does nothing.
    pub fn validity(&self)
        ensures { IsWhole self.now }
    {
        // The invariant says it, and it is known where a field is named.
        let _ = &self.bytes;
    }

    /// The blob's bytes.
    pub fn as_bytes(&self) -> &[u8]
        ensures { result.now ≡ self.now }
    {
        &self.bytes
    }

    /// The blob. Its bytes aren't checked again. Takes no memory.
    pub fn blob(&self) -> Blob<'_>
        ensures { result ≡ placed_of self.now }
    {
        Blob::of(&self.bytes, self.seed)
    }

    /// Sets a property of a node (Devicetree Specification v0.4, 5.4): one that is there keeps its place, a new one goes last.
    ///
    /// # Errors
    ///
    /// `BlobPhandle` where the property is `phandle`, and the value isn't four bytes of a number from 1 to 0xfffffffe that no other node has; else
    /// `Limit` where the blob would be longer than 16 MiB; and `NoMemory`. None has a place. At a fault the blob is unchanged.
    pub fn set_prop(&mut self, node: NodeId, name: &PropName<'_>, value: &[u8]) -> Result<(), Fault>
        requires node { IsNode (placed_of self.old) node }
        ensures ok { OnOk result (reading_in self.new ≡ with_property_at (path_in self.old node) name.now value.now (reading_in self.old)) }
        ensures places { IsOk result → (path : Path) (place : ℕ) → IsAt (placed_of self.old) path place → place ≤ node
            → IsAt (placed_of self.new) path place }
        ensures strings { OnOk result (strings_of self.new ≡ strings_of self.old ++ added_name self.old name.now) }
        ensures size { OnOk result (length self.new ≡ size_with_value self.old node name.now value.now) }
        ensures allowed { IsOk result → MaySetWithin most_bytes self.old node name.now value.now }
        ensures err { OnErr result (self.new ≡ self.old) }
        ensures refused { IfErr result (λ fault. WhyNotSetOwned fault.kind self.old node name.now value.now × (fault.at ≡ None)) }
    {
        set_in(&mut self.bytes, node, name, value)
    }

    /// Adds a child at the end of the children of a node (Devicetree Specification v0.4, 5.4), and answers it.
    ///
    /// # Errors
    ///
    /// `Duplicate` where the node has a child of that name; else `Limit` where the path has 64 names, the tree 65,536 nodes, or the blob would be
    /// longer than 16 MiB; and `NoMemory`. None has a place. At a fault the blob is unchanged.
    pub fn add_node(&mut self, parent: NodeId, name: &NodeName<'_>) -> Result<NodeId, Fault>
        requires parent { IsNode (placed_of self.old) parent }
        ensures ok { OnOk result (reading_in self.new ≡ with_child_at (path_in self.old parent) name.now (reading_in self.old)) }
        ensures node { IfOk result (λ node. IsAt (placed_of self.new) (path_in self.old parent ++ name.now ∷ []) node) }
        ensures places { IfOk result (λ node. (path : Path) (place : ℕ) → IsAt (placed_of self.old) path place → place < node
            → IsAt (placed_of self.new) path place) }
        ensures strings { OnOk result (strings_of self.new ≡ strings_of self.old) }
        ensures size { OnOk result (length self.new ≡ size_with_node self.old name.now) }
        ensures allowed { IsOk result → MayAddWithin most_bytes self.old parent name.now }
        ensures err { OnErr result (self.new ≡ self.old) }
        ensures refused { IfErr result (λ fault. WhyNotAddedOwned fault.kind self.old parent name.now × (fault.at ≡ None)) }
    {
        add_in(&mut self.bytes, parent, name)
    }

    /// Writes a number into a cell of a property's value, the highest byte first, at an offset of the value. No other byte changes, and each node keeps
    /// its place. Takes no memory.
    ///
    /// # Errors
    ///
    /// `BlobPhandle`, without a place, where the property is `phandle`, and the number is 0, 0xffffffff, or another node's. At a fault the blob is
    /// unchanged.
    pub fn patch_cell(
        &mut self,
        node: NodeId,
        name: &PropName<'_>,
        offset: usize,
        number: u32,
    ) -> Result<(), Fault>
        requires node { IsNode (placed_of self.old) node }
        requires cell { HasCellAt self.old node name.now offset }
        ensures ok { OnOk result (reading_in self.new
            ≡ with_property_at (path_in self.old node) name.now (value_patched self.old node name.now offset number) (reading_in self.old)) }
        ensures places { IsOk result → (path : Path) (place : ℕ) → IsAt (placed_of self.old) path place → IsAt (placed_of self.new) path place }
        ensures strings { OnOk result (strings_of self.new ≡ strings_of self.old) }
        ensures size { OnOk result (length self.new ≡ length self.old) }
        ensures cell { IsOk result → IsPatched self.old self.new node name.now offset number }
        ensures allowed { IsOk result → MayPatchIn self.old node name.now offset number }
        ensures err { OnErr result (self.new ≡ self.old) }
        ensures refused { IfErr result (λ fault. WhyNotPatchedIn fault.kind self.old node name.now offset number × (fault.at ≡ None)) }
    {
        patch_in(&mut self.bytes, node, name, offset, number)
    }

    /// The blob's bytes. Nothing is copied.
    pub fn into_bytes(self) -> Vec<u8>
        ensures { result.items ≡ self }
    {
        self.bytes
    }
}
