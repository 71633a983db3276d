//! The words of a line.

ghost use Rattle.std.specs.Prelude.{◌≡◌, ◌++◌, ◌∷◌, [], OnOk, IfErr, codes, if◌then◌else◌};
ghost use Rattle.std.specs.Int.{w128, w32, to_be_bytes};
ghost use Rattle.dt_model.specs.Printed.{hexadecimal};
ghost use Rattle.dt_names.specs.Sink.{joined};
ghost use Rattle.dt_trees.specs.Placed.{path_at, IsNode};
ghost use Rattle.dt_text_writer.specs.Written.{Puts, FailsAt};
ghost use Rattle.dt_irq.specs.Seen.{route_in, HasArrived};
ghost use Rattle.dt_resolve_lines.specs.Lines.{cells_words, fault_words, place_words, region_words, route_words};

use crate::paths::put_node_path;
use dt_irq::Route;
use dt_names::{Fault, NodeId, Sink};
use dt_resolve_model::Region;
use dt_text_writer::{Writer, without_zeros, write_digits};
use dt_view::TreeView;

/// The pieces of a number between other words.
fn pieces_around<'a>(before: &'a [u8], digits: &'a str, behind: &'a [u8]) -> [&'a [u8]; 3]
    ensures { joined result ≡ before.entry.now ++ (digits.entry.now ++ behind.entry.now) }
{
    [before, digits.as_bytes(), behind]
}

/// Writes what a node's line for an index begins with.
pub(crate) fn put_place<V: TreeView, S: Sink>(
    view: &V,
    writer: &mut Writer<'_, S>,
    node: NodeId,
    index: u64,
) -> Result<(), Fault>
    requires { IsNode (V.tree view.now) node }
    ensures written { OnOk result (Puts S.taken (place_words (path_at (V.tree view.now) node) index) writer.old writer.new) }
    ensures refused { IfErr result (λ failure. FailsAt S.taken failure (place_words (path_at (V.tree view.now) node) index) writer.old writer.new) }
{
    let mut digits = itoa::Buffer::new();
    let index = digits.format(index);
    put_node_path(view, writer, node)?;
    writer.put_pieces(&pieces_around(b" ", index, b" "))
}

/// The pieces of a fault.
fn fault_pieces<'a>(number: &'a str, name: &'a str, at: &'a str, place: &'a str) -> [&'a [u8]; 7]
    ensures { joined result ≡ ((codes "fault " ++ (number.entry.now ++ (codes " " ++ name.entry.now))) ++ (at.entry.now ++ place.entry.now)) ++ 10 ∷ [] }
{
    [
        b"fault ",
        number.as_bytes(),
        b" ",
        name.as_bytes(),
        at.as_bytes(),
        place.as_bytes(),
        b"\n",
    ]
}

/// Writes a fault.
pub(crate) fn put_fault<S: Sink>(writer: &mut Writer<'_, S>, fault: Fault) -> Result<(), Fault>
    ensures written { OnOk result (Puts S.taken (fault_words fault) writer.old writer.new) }
    ensures refused { IfErr result (λ failure. FailsAt S.taken failure (fault_words fault) writer.old writer.new) }
{
    let mut number_digits = itoa::Buffer::new();
    let mut place_digits = itoa::Buffer::new();
    let number = number_digits.format(fault.number());
    match fault.at {
        None => writer.put_pieces(&fault_pieces(number, fault.name(), "", "")),
        Some(place) => writer.put_pieces(&fault_pieces(
            number,
            fault.name(),
            " at ",
            place_digits.format(place),
        )),
    }
}

/// The pieces of a region.
fn region_pieces<'a>(address: &'a [u8], size: &'a [u8], whole: bool) -> [&'a [u8]; 5]
    ensures { joined result ≡ (codes "0x" ++ address.entry.now)
        ++ ((codes " 0x" ++ size.entry.now) ++ (if whole then codes " whole\n" else codes " cut\n")) }
{
    let extent: &[u8] = if whole { b" whole\n" } else { b" cut\n" };
    [b"0x", address, b" 0x", size, extent]
}

/// The digits of a number, zeros in front among them. Nearly all numbers have 64 bits at most.
fn digits_of(number: u128) -> [u8; 32]
    ensures { result ≡ hexadecimal (to_be_bytes w128 number) }
{
    let mut digits = [b'0'; 32];
    match u64::try_from(number) {
        Ok(low) => write_digits(&low.to_be_bytes(), &mut digits[16..]),
        Err(_) => write_digits(&number.to_be_bytes(), &mut digits),
    }
    digits
}

/// Writes a region.
pub(crate) fn put_region<S: Sink>(writer: &mut Writer<'_, S>, region: Region) -> Result<(), Fault>
    ensures written { OnOk result (Puts S.taken (region_words region) writer.old writer.new) }
    ensures refused { IfErr result (λ failure. FailsAt S.taken failure (region_words region) writer.old writer.new) }
{
    let address = digits_of(region.address);
    let size = digits_of(region.size);
    writer.put_pieces(&region_pieces(without_zeros(&address), without_zeros(&size), region.whole))
}

/// The digits of a cell, zeros in front among them.
fn digits_of_cell(cell: u32) -> [u8; 8]
    ensures { result ≡ hexadecimal (to_be_bytes w32 cell) }
{
    let mut digits = [0u8; 8];
    write_digits(&cell.to_be_bytes(), &mut digits);
    digits
}

/// Writes cells.
fn put_cells<S: Sink>(writer: &mut Writer<'_, S>, cells: &[u32]) -> Result<(), Fault>
    ensures written { OnOk result (Puts S.taken (cells_words cells.now) writer.old writer.new) }
    ensures refused { IfErr result (λ failure. FailsAt S.taken failure (cells_words cells.now) writer.old writer.new) }
{
    for cell in cells {
        let digits = digits_of_cell(*cell);
        writer.put_pieces(&[b" 0x", without_zeros(&digits)])?;
    }
    Ok(())
}

/// Writes a route.
pub(crate) fn put_route<V: TreeView, S: Sink>(
    view: &V,
    writer: &mut Writer<'_, S>,
    route: &Route,
) -> Result<(), Fault>
    requires { HasArrived (V.tree view.now) route.now }
    ensures written { OnOk result (Puts S.taken (route_words (route_in (V.tree view.now) route.now)) writer.old writer.new) }
    ensures refused { IfErr result (λ failure. FailsAt S.taken failure (route_words (route_in (V.tree view.now) route.now)) writer.old writer.new) }
{
    let mut digits = itoa::Buffer::new();
    let hops = digits.format(route.hops);
    put_node_path(view, writer, route.controller)?;
    put_cells(writer, &route.cells[..route.len])?;
    writer.put_pieces(&pieces_around(b" hops ", hops, b"\n"))
}
