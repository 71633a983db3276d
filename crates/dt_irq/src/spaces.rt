//! Specifier spaces, and the cells that specifiers have in them (Devicetree Specification v0.4, 2.4.1 and 2.5.1).

ghost use Rattle.std.specs.Prelude.{◌≡◌, ◌<◌, ◌≤◌, ◌++◌, IfOk, length, option_map};
ghost use Rattle.std.specs.Bool.{OnTrue, OnFalse};
ghost use Rattle.std.specs.Option.{option_copied};
ghost use Rattle.dt_model.specs.Tree.{value_in};
ghost use Rattle.dt_trees.specs.Placed.{path_at, reading_of, IsNode};
ghost use Rattle.dt_resolve_model.specs.Answers.{told, told_as};
ghost use Rattle.dt_resolve_model.specs.World.{value_of_bytes};
ghost use Rattle.dt_resolve_model.specs.Interrupts.{size_told, specifier_count};
ghost use Rattle.dt_resolve_model.specs.Specifiers.{provider_count};
ghost use Rattle.dt_irq.specs.Seen.{row_cells_in};
ghost use Rattle.dt_irq.specs.Spaces.{count_in, widths_in};
ghost use Rattle.dt_view.specs.Worlds.{world_of};

use crate::reached::MOST_CELLS;
use arrayvec::ArrayVec;
use dt_names::limits::MOST_NAME_BYTES;
use dt_names::{Fault, FaultKind, NodeId};
use dt_view::{TreeView, address_cells, one_cell};

/// What specifiers are of: interrupts, or providers of a kind, such as `gpio`, by which the names of the properties are made.
#[derive(Clone, Copy)]
pub(crate) enum Space<'k> {
    Interrupts,
    Kind(&'k [u8]),
}

/// The cells that a map's row has of its parent's address and specifier.
#[derive(Clone, Copy)]
pub(crate) struct RowCells {
    pub address: usize,
    pub specifier: usize,
}

/// Puts a part of a property's name behind those before it; false where no name is so long.
fn joined(name: &mut ArrayVec<u8, MOST_NAME_BYTES>, part: &[u8]) -> bool
    ensures joined { OnTrue result (name.new.items ≡ name.old.items ++ part.now) }
    ensures long { OnFalse result (255 < length (name.old.items ++ part.now)) }
{
    name.try_extend_from_slice(part).is_ok()
}

/// The value of a node's property, whose name is a kind with something before and behind it. Apart, since the name
/// is a quarter of a KiB of the stack.
#[inline(never)]
pub(crate) fn value_named<'v, V: TreeView>(
    view: &'v V,
    node: NodeId,
    before: &[u8],
    kind: &[u8],
    behind: &[u8],
) -> Option<&'v [u8]>
    requires { IsNode (V.tree view.now) node }
    ensures { option_copied result ≡ value_in (reading_of (V.tree view.now)) (path_at (V.tree view.now) node) (before.now ++ kind.now ++ behind.now) }
{
    view.validity();
    let mut name = ArrayVec::new();
    if !joined(&mut name, before) {
        return None;
    }
    if !joined(&mut name, kind) {
        return None;
    }
    if !joined(&mut name, behind) {
        return None;
    }
    view.value(node, name.as_slice())
}

/// The number of a specifier's cells that a value holds. `BadCells` if it holds none from the least one to 8, or is absent.
fn counted(value: Option<&[u8]>, least: usize) -> Result<usize, Fault>
    ensures is { told result ≡ size_told least (option_map value_of_bytes (option_copied value.entry)) }
    ensures some { IfOk result (λ n. least ≤ n) }
    ensures few { IfOk result (λ n. n ≤ 8) }
{
    let Some(value) = value else {
        return Err(Fault::of(FaultKind::BadCells));
    };
    let count = one_cell(value)? as usize;
    if count < least || count > MOST_CELLS {
        return Err(Fault::of(FaultKind::BadCells));
    }
    Ok(count)
}

/// The cells of an interrupt's specifier at a node: 1 to 8. `BadCells` where `#interrupt-cells` says something else, or is absent.
pub(crate) fn interrupt_cells<V: TreeView>(view: &V, node: NodeId) -> Result<usize, Fault>
    requires { IsNode (V.tree view.now) node }
    ensures is { told result ≡ specifier_count (world_of (V.tree view.now)) (path_at (V.tree view.now) node) }
    ensures some { IfOk result (λ n. 1 ≤ n) }
    ensures few { IfOk result (λ n. n ≤ 8) }
{
    counted(view.value(node, b"#interrupt-cells"), 1)
}

/// The cells of a specifier at a provider of a kind: none to 8. `BadCells` where `#KIND-cells` says something else, or is absent.
fn provider_cells<V: TreeView>(view: &V, node: NodeId, kind: &[u8]) -> Result<usize, Fault>
    requires { IsNode (V.tree view.now) node }
    ensures is { told result ≡ provider_count (world_of (V.tree view.now)) kind.now (path_at (V.tree view.now) node) }
    ensures few { IfOk result (λ n. n ≤ 8) }
{
    counted(value_named(view, node, b"#", kind, b"-cells"), 0)
}

impl<'k> Space<'k> {
    /// The cells of a specifier at a node. `BadCells` where the node has no count of them, or a wrong one.
    pub fn specifier_cells<V: TreeView>(self, view: &V, node: NodeId) -> Result<usize, Fault>
        requires { IsNode (V.tree view.now) node }
        ensures is { told result ≡ count_in self.entry (world_of (V.tree view.now)) (path_at (V.tree view.now) node) }
        ensures few { IfOk result (λ n. n ≤ 8) }
    {
        match self {
            Space::Interrupts => interrupt_cells(view, node),
            Space::Kind(kind) => provider_cells(view, node, kind),
        }
    }

    /// The cells that a map's row has of its parent: of a specifier, and for an interrupt of an address too.
    pub fn row_cells<V: TreeView>(self, view: &V, parent: NodeId) -> Result<RowCells, Fault>
        requires { IsNode (V.tree view.now) parent }
        ensures is { told_as row_cells_in result ≡ widths_in self.entry (world_of (V.tree view.now)) (path_at (V.tree view.now) parent) }
        ensures few { IfOk result (λ c. (c.address ≤ 4) × (c.specifier ≤ 8)) }
    {
        match self {
            Space::Interrupts => {
                let address = address_cells(view, parent, 0)? as usize;
                let specifier = interrupt_cells(view, parent)?;
                Ok(RowCells { address, specifier })
            }
            Space::Kind(kind) => {
                let specifier = provider_cells(view, parent, kind)?;
                Ok(RowCells {
                    address: 0,
                    specifier,
                })
            }
        }
    }
}
