//! What a bus says of its addresses.

ghost use Rattle.std.specs.Prelude.{◌≡◌, ◌≤◌, IfOk, IfErr, option_map};
ghost use Rattle.dt_names.specs.declared.fault.FaultKind.TheVariants.{BadCells};
ghost use Rattle.dt_model.specs.Tree.{value_in};
ghost use Rattle.dt_trees.specs.Placed.{path_at, reading_of, IsNode};
ghost use Rattle.dt_resolve_model.specs.Answers.{answer, told};
ghost use Rattle.dt_resolve_model.specs.World.{value_of_bytes};
ghost use Rattle.dt_resolve_model.specs.Regions.{address_count, bus_cells, count_of, is_pci, only_number};
ghost use Rattle.dt_view.specs.Worlds.{world_of};

use dt_bytes::be32;
use dt_names::{Fault, FaultKind, NodeId};
use dt_resolve_model::BusCells;
use dt_trees::TreeView;

/// The most cells of an address or of a size.
const MOST_CELLS: u32 = 4;

/// The text `pci` with its NUL, as one cell.
const PCI: u32 = 0x7063_6900;

/// The number in a value of four bytes.
///
/// # Errors
///
/// `BadCells`, without a place, where it has another length.
pub fn one_cell(value: &[u8]) -> Result<u32, Fault>
    ensures is { told result ≡ only_number (value_of_bytes value.now) }
    ensures kind { IfErr result (λ fault. fault.kind ≡ BadCells) }
{
    match be32(value, 0) {
        Some(number) if value.len() == 4 => Ok(number),
        _ => Err(Fault::of(FaultKind::BadCells)),
    }
}

/// A count of cells that a node has, or what an absent one is.
fn count<V: TreeView>(view: &V, node: NodeId, name: &[u8], absent: u32) -> Result<u32, Fault>
    requires node { IsNode (V.tree view.now) node }
    requires absent { absent ≤ 4 }
    ensures is { told result ≡ count_of absent (option_map value_of_bytes (value_in (reading_of (V.tree view.now)) (path_at (V.tree view.now) node) name.now)) }
    ensures few { IfOk result (λ n. n ≤ 4) }
    ensures kind { IfErr result (λ fault. fault.kind ≡ BadCells) }
{
    let Some(value) = view.value(node, name) else {
        return Ok(absent);
    };
    let count = one_cell(value)?;
    if count > MOST_CELLS {
        return Err(Fault::of(FaultKind::BadCells));
    }
    Ok(count)
}

/// The cells of an address at a node, or what an absent `#address-cells` is (Devicetree Specification v0.4, 2.3.5).
///
/// # Errors
///
/// `BadCells` where `#address-cells` isn't four bytes of at most 4.
pub fn address_cells<V: TreeView>(view: &V, node: NodeId, absent: u32) -> Result<u32, Fault>
    requires node { IsNode (V.tree view.now) node }
    requires absent { absent ≤ 4 }
    ensures is { told result ≡ address_count (world_of (V.tree view.now)) (path_at (V.tree view.now) node) absent }
    ensures few { IfOk result (λ n. n ≤ 4) }
    ensures kind { IfErr result (λ fault. fault.kind ≡ BadCells) }
{
    count(view, node, b"#address-cells", absent)
}

/// The cells of an address and of a size on a bus (Devicetree Specification v0.4, 2.3.5): 2 and 1 where they aren't written.
///
/// # Errors
///
/// `BadCells` where one is written that isn't four bytes of at most 4.
pub fn cells<V: TreeView>(view: &V, bus: NodeId) -> Result<BusCells, Fault>
    requires { IsNode (V.tree view.now) bus }
    ensures is { told result ≡ bus_cells (world_of (V.tree view.now)) (path_at (V.tree view.now) bus) }
    ensures few { IfOk result (λ c. (c.address ≤ 4) × (c.size ≤ 4)) }
    ensures kind { IfErr result (λ fault. fault.kind ≡ BadCells) }
{
    let address = address_cells(view, bus, 2)?;
    let size = count(view, bus, b"#size-cells", 1)?;
    Ok(BusCells { address, size })
}

/// Whether a bus says that it is one of PCI: its `device_type` is the text `pci`.
pub fn is_pci<V: TreeView>(view: &V, bus: NodeId) -> bool
    requires { IsNode (V.tree view.now) bus }
    ensures { is_pci (world_of (V.tree view.now)) (path_at (V.tree view.now) bus) ≡ answer result }
{
    match view.value(bus, b"device_type") {
        Some(kind) => match one_cell(kind) {
            Ok(text) => text == PCI,
            Err(_) => false,
        },
        None => false,
    }
}
