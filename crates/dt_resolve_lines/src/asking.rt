//! One question to one node of a blob, and the line that answers it.

ghost use Rattle.std.specs.Prelude.{◌≡◌, ℕ, List, OnOk, IfErr};
ghost use Rattle.dt_names.specs.Sink.{Takes, IsRefused};
ghost use Rattle.dt_trees.specs.Placed.{path_at, IsNode};
ghost use Rattle.dt_resolve_model.specs.Answers.{answer};
ghost use Rattle.dt_irq.specs.Seen.{route_in, HasArrived};
ghost use Rattle.dt_resolve_lines.specs.Asked.{answer_words, dma_words, specifier_words, IsAnswer, WhyNotAsked, WhyUntold};
ghost use Rattle.dt_resolve_lines.specs.Lines.{region_words, route_words};
ghost use Rattle.dt_view.specs.Worlds.{world_of};

use crate::words::{put_region, put_route};
use dt_irq::{Route, specifier_route};
use dt_names::{Fault, NodeId, Sink};
use dt_ranges::dma_region;
use dt_read::Blob;
use dt_resolve_model::{Question, Region};
use dt_text_writer::Writer;
use dt_view::{Index, TreeView, node_at};
use std::alloc::Global;

/// Writes a region.
fn tell_region<S: Sink>(out: &mut S, region: Region) -> Result<(), Fault>
    ensures written { OnOk result (Takes (region_words region) (S.taken out.old) (S.taken out.new)) }
    ensures refused { IfErr result (λ fault. IsRefused fault (region_words region) (S.taken out.old) (S.taken out.new)) }
{
    let mut writer = Writer::new(out);
    put_region(&mut writer, region)?;
    writer.flush()
}

/// Writes a route.
fn tell_route<V: TreeView, S: Sink>(view: &V, out: &mut S, route: &Route) -> Result<(), Fault>
    requires { HasArrived (V.tree view.now) route.now }
    ensures written { OnOk result (Takes (route_words (route_in (V.tree view.now) route.now)) (S.taken out.old) (S.taken out.new)) }
    ensures refused { IfErr result (λ fault. IsRefused fault (route_words (route_in (V.tree view.now) route.now)) (S.taken out.old) (S.taken out.new)) }
{
    let mut writer = Writer::new(out);
    put_route(view, &mut writer, route)?;
    writer.flush()
}

/// Writes what a node reaches by DMA.
fn tell_dma<V: TreeView, S: Sink>(
    view: &V,
    node: NodeId,
    address: u128,
    size: u128,
    out: &mut S,
) -> Result<(), Fault>
    requires { IsNode (V.tree view.now) node }
    ensures written { OnOk result ((line : List ℕ)
        × (dma_words (world_of (V.tree view.now)) (path_at (V.tree view.now) node) address size ≡ answer line)
        × Takes line (S.taken out.old) (S.taken out.new)) }
    ensures refused { IfErr result (WhyUntold (dma_words (world_of (V.tree view.now)) (path_at (V.tree view.now) node) address size)
        (S.taken out.old) (S.taken out.new)) }
{
    let region = dma_region(view, node, address, size)?;
    tell_region(out, region)
}

/// Writes where a specifier of a node comes to.
fn tell_specifier<V: TreeView, S: Sink>(
    view: &V,
    node: NodeId,
    property: &[u8],
    kind: &[u8],
    index: u64,
    out: &mut S,
) -> Result<(), Fault>
    requires { IsNode (V.tree view.now) node }
    ensures written { OnOk result ((line : List ℕ)
        × (specifier_words (world_of (V.tree view.now)) (path_at (V.tree view.now) node) property.now kind.now index ≡ answer line)
        × Takes line (S.taken out.old) (S.taken out.new)) }
    ensures refused { IfErr result (WhyUntold (specifier_words (world_of (V.tree view.now))
        (path_at (V.tree view.now) node) property.now kind.now index) (S.taken out.old) (S.taken out.new)) }
{
    let route = specifier_route(view, node, property, kind, index)?;
    tell_route(view, out, &route)
}

/// Writes the answer of a node. Apart, so that the buffer isn't on the stack while the blob is checked.
#[inline(never)]
fn tell<V: TreeView, S: Sink>(
    view: &V,
    node: NodeId,
    question: Question<'_>,
    out: &mut S,
) -> Result<(), Fault>
    requires { IsNode (V.tree view.now) node }
    ensures written { OnOk result ((line : List ℕ)
        × (answer_words question.entry (world_of (V.tree view.now)) (path_at (V.tree view.now) node) ≡ answer line)
        × Takes line (S.taken out.old) (S.taken out.new)) }
    ensures refused { IfErr result (WhyUntold (answer_words question.entry (world_of (V.tree view.now)) (path_at (V.tree view.now) node))
        (S.taken out.old) (S.taken out.new)) }
{
    match question {
        Question::Dma { address, size } => tell_dma(view, node, address, size, out),
        Question::Specifier {
            property,
            kind,
            index,
        } => tell_specifier(view, node, property, kind, index, out),
    }
}

/// Writes what the node of a path answers to a question, in a line: `0xADDRESS 0xSIZE whole`, or `cut` where not all of it is mapped; or the path of the
/// node that a specifier comes to, the cells there in hexadecimal, and `hops` with the number of maps on the way.
///
/// # Errors
///
/// The first fault of bytes that are no blob; `BadName`, without a place, where the text is no path's, and `NoNode`, where its path is no node's; why the
/// node has no answer (`dma_region` of dt_ranges, `specifier_route` of dt_irq); and `NoMemory`. At these nothing is written. And `WriteFault`, where the
/// sink took a front of the line.
#[inline(never)]
pub fn ask<S: Sink>(
    alloc: Global,
    bytes: &[u8],
    path: &[u8],
    question: Question<'_>,
    out: &mut S,
) -> Result<(), Fault>
    ensures written { OnOk result ((line : List ℕ) × IsAnswer question.entry bytes.now path.now (answer line)
        × Takes line (S.taken out.old) (S.taken out.new)) }
    ensures refused { IfErr result (WhyNotAsked question.entry bytes.now path.now (S.taken out.old) (S.taken out.new)) }
{
    let blob = Blob::check(bytes)?;
    let index = Index::new(alloc, &blob)?;
    index.validity();
    match node_at(&index, path) {
        Ok(node) => {
            let told = tell(&index, node, question, out);
            // Let go of by hand: what goes at an exit by itself is proved there field by field.
            drop(index);
            told
        }
        Err(fault) => {
            drop(index);
            Err(fault)
        }
    }
}
