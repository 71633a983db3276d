//! The lines of all nodes of a blob.

ghost use Rattle.std.specs.Prelude.{List, ℕ, OnOk, IfErr};
ghost use Rattle.std.specs.List.{concat};
ghost use Rattle.dt_names.specs.Sink.{Takes, IsRefused};
ghost use Rattle.dt_trees.specs.Placed.{path_at, reading_of, IsNode};
ghost use Rattle.dt_resolve_lines.specs.Given.{PutsLines, FailsAtLines};
ghost use Rattle.dt_resolve_lines.specs.declared.listing.Listing.TheVariants.{Regions, Routes};
ghost use Rattle.dt_resolve_lines.specs.Listed.{AreAll, AreAllBegun, AreOwn, AreOwnBegun, AreLinesOf, WhyNotListed};

use crate::regions::put_regions;
use crate::routes::put_routes;
use dt_names::{Fault, NodeId, Sink};
use dt_read::{Blob, NodeStep};
use dt_text_writer::Writer;
use dt_view::{Index, TreeView};
use std::alloc::Global;

/// What the lines hold.
#[derive(Clone, Copy)]
pub enum Listing {
    /// The regions of `reg`.
    Regions,
    /// The routes of interrupts.
    Routes,
}

/// Writes the lines of a node.
fn put_node<V: TreeView, S: Sink>(
    view: &V,
    writer: &mut Writer<'_, S>,
    node: NodeId,
    listing: Listing,
) -> Result<(), Fault>
    requires { IsNode (V.tree view.now) node }
    ensures written { OnOk result (PutsLines S.taken (AreOwn listing (reading_of (V.tree view.now)) (path_at (V.tree view.now) node)) writer.old writer.new) }
    ensures refused { IfErr result (λ fault. FailsAtLines S.taken (AreOwnBegun listing (reading_of (V.tree view.now))
        (path_at (V.tree view.now) node)) fault writer.old writer.new) }
{
    match listing {
        Listing::Regions => put_regions(view, writer, node),
        Listing::Routes => put_routes(view, writer, node),
    }
}

/// Writes the lines of all nodes.
fn put_nodes<S: Sink>(
    index: &Index<'_>,
    writer: &mut Writer<'_, S>,
    listing: Listing,
) -> Result<(), Fault>
    ensures written { OnOk result (PutsLines S.taken (AreAll listing (reading_of index.now)) writer.old writer.new) }
    ensures refused { IfErr result (λ fault. FailsAtLines S.taken (AreAllBegun listing (reading_of index.now)) fault writer.old writer.new) }
{
    index.validity();
    for step in index.blob().node_steps() {
        match step {
            NodeStep::Open { node, .. } => put_node(index, writer, node, listing)?,
            NodeStep::Close => {}
        }
    }
    Ok(())
}

/// Writes all lines. Apart, so that the buffer isn't on the stack while the blob is checked.
#[inline(never)]
fn put_lines<S: Sink>(index: &Index<'_>, out: &mut S, listing: Listing) -> Result<(), Fault>
    ensures written { OnOk result ((lines : List (List ℕ)) × AreAll listing (reading_of index.now) lines
        × Takes (concat lines) (S.taken out.old) (S.taken out.new)) }
    ensures refused { IfErr result (λ fault. (lines : List (List ℕ)) × AreAllBegun listing (reading_of index.now) lines
        × IsRefused fault (concat lines) (S.taken out.old) (S.taken out.new)) }
{
    let mut writer = Writer::new(out);
    put_nodes(index, &mut writer, listing)?;
    writer.flush()
}

/// Writes the lines of a blob.
fn put_listing<S: Sink>(
    alloc: Global,
    bytes: &[u8],
    out: &mut S,
    listing: Listing,
) -> Result<(), Fault>
    ensures written { OnOk result ((lines : List (List ℕ)) × AreLinesOf listing bytes.now lines × Takes (concat lines) (S.taken out.old) (S.taken out.new)) }
    ensures refused { IfErr result (WhyNotListed listing bytes.now (S.taken out.old) (S.taken out.new)) }
{
    let blob = Blob::check(bytes)?;
    let index = Index::without_children(alloc, &blob)?;
    let listed = put_lines(&index, out, listing);
    // Let go of by hand: what goes at an exit by itself is proved there field by field.
    drop(index);
    listed
}

/// Writes the regions of a blob (Devicetree Specification v0.4, 2.3.6 and 2.3.8), of all nodes in preorder, bookkeeping ones among them, and of
/// each for its indices from 0 on, a line for each: the node's path, the index, and `0xADDRESS 0xSIZE whole`, or `cut` where not all of it is
/// mapped, or `fault` with its number and its name. A node's lines end at `NoReg`, without one, and behind that of `BadCells`.
///
/// # Errors
///
/// The first fault of bytes that are no blob, and `NoMemory`, where nothing is written; `WriteFault`, where the sink took a front of the lines.
pub fn regs<S: Sink>(alloc: Global, bytes: &[u8], out: &mut S) -> Result<(), Fault>
    ensures written { OnOk result ((lines : List (List ℕ)) × AreLinesOf Regions bytes.now lines × Takes (concat lines) (S.taken out.old) (S.taken out.new)) }
    ensures refused { IfErr result (WhyNotListed Regions bytes.now (S.taken out.old) (S.taken out.new)) }
{
    put_listing(alloc, bytes, out, Listing::Regions)
}

/// Writes the routes of a blob's interrupts (Devicetree Specification v0.4, 2.4), of all nodes in preorder, bookkeeping ones among them, and of
/// each for its indices from 0 on, a line for each: the node's path, the index, and the controller's path, the cells of the specifier there in
/// hexadecimal, and `hops` with the number of interrupt maps on the way, or `fault` with its number and its name. A node's lines end at
/// `NoInterrupts`, without one, and behind that of any other fault.
///
/// # Errors
///
/// The first fault of bytes that are no blob, and `NoMemory`, where nothing is written; `WriteFault`, where the sink took a front of the lines.
pub fn irqs<S: Sink>(alloc: Global, bytes: &[u8], out: &mut S) -> Result<(), Fault>
    ensures written { OnOk result ((lines : List (List ℕ)) × AreLinesOf Routes bytes.now lines × Takes (concat lines) (S.taken out.old) (S.taken out.new)) }
    ensures refused { IfErr result (WhyNotListed Routes bytes.now (S.taken out.old) (S.taken out.new)) }
{
    put_listing(alloc, bytes, out, Listing::Routes)
}
