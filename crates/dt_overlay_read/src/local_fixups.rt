//! The cells that hold numbers of the object's own nodes.

ghost use Rattle.std.specs.Prelude.{◌≡◌, ◌↔◌, IsTrue, ◌∷◌, [], ℕ, List, true, Some, None, length, OnOk, IfErr, MatchOption, codes};
ghost use Rattle.std.specs.Int.{w32, from_be_bytes};
ghost use Rattle.dt_model.specs.Path.{Path};
ghost use Rattle.dt_model.specs.Lists.{IsIn};
ghost use Rattle.dt_model.specs.Tree.{Property, stands_in};
ghost use Rattle.dt_names.specs.declared.fault.FaultKind.TheVariants.{NoMemory, BadLocalFixup};
ghost use Rattle.dt_overlay_laws.specs.Objects.{IsLocalFixup, IsMirror};
ghost use Rattle.dt_overlay_read.specs.LocalFixups.{AreCounterparts, HasBadMirror, IsCellAt, IsLocalFault, IsNumberAt, ListsMirror, ListsProperties};
ghost use Rattle.dt_overlay_read.specs.LocalFixups.{MayName, WhereBroughtBy, properties_of};
ghost use Rattle.dt_overlay_object.specs.Plans.{AreBroughtBy, ListsLocalFixups};
ghost use Rattle.dt_names.specs.Fault.{IsMemoryOr};
ghost use Rattle.dt_trees.specs.Placed.{path_at, reading_of, IsNode};
ghost use Rattle.dt_trees.specs.Views.{prop_said};

use dt_names::{Fault, FaultKind, NodeId};
use dt_overlay_object::{Brought, Write};
use dt_overlay_texts::has_cell;
use dt_trees::{Prop, TreeView};

/// The number in a cell.
fn cell_number(bytes: &[u8]) -> u32
    requires { length bytes.now ≡ 4 }
    ensures { result ≡ from_be_bytes w32 bytes.now }
{
    u32::from_be_bytes([bytes[0], bytes[1], bytes[2], bytes[3]])
}

/// May a cell of a node name another? What a fragment brings names nothing else.
fn may_name<V: TreeView>(object: &V, brought: &Brought, node: NodeId, named: NodeId) -> bool
    requires node { IsNode (V.tree object.now) node }
    requires named { IsNode (V.tree object.now) named }
    ensures { WhereBroughtBy (V.tree object.now) brought.now (λ _. IsTrue result ↔ MayName (V.tree object.now) node named) }
{
    !brought.brings(object, node) || brought.brings(object, named)
}

/// The number that a cell of a value, of a node, gets: its node's new one, or its own where that gets none. None where there is
/// no such cell, or no node that it may name.
fn local_number<V: TreeView>(
    object: &V,
    brought: &Brought,
    node: NodeId,
    value: &[u8],
    offset: usize,
) -> Option<u32>
    requires { IsNode (V.tree object.now) node }
    ensures { WhereBroughtBy (V.tree object.now) brought.now (λ numbers. MatchOption result
        (¬ IsCellAt (V.tree object.now) node value.now offset) (IsNumberAt (V.tree object.now) numbers node value.now offset)) }
{
    object.validity();
    if !has_cell(value, offset) {
        return None;
    }
    let number = cell_number(&value[offset..offset + 4]);
    let named = object.by_phandle(number)?;
    if !may_name(object, brought, node, named) {
        return None;
    }
    Some(brought.number(named).unwrap_or(number))
}

/// The cells of a property of a node, by its name and the value that lists their offsets.
fn list_offsets<'o, V: TreeView>(
    object: &V,
    brought: &Brought,
    node: NodeId,
    listed: &Prop<'o>,
    out: &mut Vec<Write<'o>>,
) -> Result<(), Fault>
    requires node { IsNode (V.tree object.now) node }
    requires brought { (numbers : List (Path × ℕ)) × AreBroughtBy (V.tree object.now) numbers brought.now }
    ensures listed { WhereBroughtBy (V.tree object.now) brought.now (λ numbers.
        OnOk result (ListsProperties (V.tree object.now) numbers (path_at (V.tree object.now) node)
        (prop_said listed.now ∷ []) out.old.items out.new.items)) }
    ensures refused { IfErr result (IsLocalFault (¬ IsLocalFixup (reading_of (V.tree object.now)) (path_at (V.tree object.now) node)
        (prop_said listed.now))) }
{
    let Some(value) = object.value(node, listed.name) else {
        return Err(Fault::of(FaultKind::BadLocalFixup));
    };
    if listed.value.len() % 4 != 0 {
        return Err(Fault::of(FaultKind::BadLocalFixup));
    }
    for bytes in listed.value.chunks_exact(4) {
        let offset = cell_number(bytes) as usize;
        let Some(number) = local_number(object, brought, node, value, offset) else {
            return Err(Fault::of(FaultKind::BadLocalFixup));
        };
        out.push(Write {
            node,
            property: listed.name,
            offset,
            number,
        })?;
    }
    Ok(())
}

/// The cells of a node, which the properties of its mirror list.
fn list_properties<'o, V: TreeView>(
    object: &'o V,
    brought: &Brought,
    mirror: NodeId,
    node: NodeId,
    out: &mut Vec<Write<'o>>,
) -> Result<(), Fault>
    requires mirror { IsNode (V.tree object.now) mirror }
    requires node { IsNode (V.tree object.now) node }
    requires brought { (numbers : List (Path × ℕ)) × AreBroughtBy (V.tree object.now) numbers brought.now }
    ensures listed { WhereBroughtBy (V.tree object.now) brought.now (λ numbers.
        OnOk result (ListsProperties (V.tree object.now) numbers (path_at (V.tree object.now) node)
        (properties_of (V.tree object.now) mirror) out.old.items out.new.items)) }
    ensures refused { IfErr result (IsLocalFault ((x : Property) × IsIn x (properties_of (V.tree object.now) mirror)
        × ¬ IsLocalFixup (reading_of (V.tree object.now)) (path_at (V.tree object.now) node) x)) }
{
    let props = object.props(brought.alloc(), mirror)?;
    for listed in &props {
        list_offsets(object, brought, node, listed, out)?;
    }
    Ok(())
}

/// The cells of a node and of those below it, which a node of the mirror lists.
fn list_mirrored<'o, V: TreeView>(
    object: &'o V,
    brought: &Brought,
    mirror: NodeId,
    node: NodeId,
    out: &mut Vec<Write<'o>>,
) -> Result<(), Fault>
    requires counterparts { AreCounterparts (V.tree object.now) mirror node }
    requires brought { (numbers : List (Path × ℕ)) × AreBroughtBy (V.tree object.now) numbers brought.now }
    ensures listed { WhereBroughtBy (V.tree object.now) brought.now (λ numbers.
        OnOk result (ListsMirror (V.tree object.now) numbers (path_at (V.tree object.now) node) out.old.items out.new.items)) }
    ensures refused { IfErr result (IsLocalFault (HasBadMirror (reading_of (V.tree object.now)))) }
{
    object.validity();
    list_properties(object, brought, mirror, node, out)?;
    let mut next = object.first_child(mirror);
    while let Some(child) = next {
        let Some(counterpart) = object.child(node, object.name(child)) else {
            return Err(Fault::of(FaultKind::BadLocalFixup));
        };
        list_mirrored(object, brought, child, counterpart, out)?;
        next = object.next_sibling(child);
    }
    Ok(())
}

/// Lists what is written into the cells that the object's `__local_fixups__` lists (dtc's notes on overlay objects), in preorder: the
/// number that the node gets whose own number the cell holds, or that number, where it gets none.
///
/// # Errors
///
/// `BadLocalFixup` where a node below `__local_fixups__` has no counterpart in the object, a property none in that one, offsets aren't
/// cells, the value has no such cell, or the number in the cell is that of no node that it may name; and `NoMemory`. None has a place.
pub(crate) fn list_local_fixups<'o, V: TreeView>(
    object: &'o V,
    brought: &Brought,
    out: &mut Vec<Write<'o>>,
) -> Result<(), Fault>
    requires { (numbers : List (Path × ℕ)) × AreBroughtBy (V.tree object.now) numbers brought.now }
    ensures listed { WhereBroughtBy (V.tree object.now) brought.now (λ numbers.
        OnOk result (ListsLocalFixups (V.tree object.now) numbers out.old.items out.new.items)) }
    ensures refused { IfErr result (IsMemoryOr (λ kind. (kind ≡ BadLocalFixup)
        × ((p : Path) × (stands_in (reading_of (V.tree object.now)) (codes "__local_fixups__" ∷ p) ≡ true)
        × ¬ IsMirror (reading_of (V.tree object.now)) p))) }
{
    object.validity();
    let root = object.root();
    match object.child(root, b"__local_fixups__".as_slice()) {
        Some(mirror) => list_mirrored(object, brought, mirror, root, out),
        None => Ok(()),
    }
}
