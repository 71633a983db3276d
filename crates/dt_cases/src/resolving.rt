//! Addresses and interrupts of blobs, and nodes by their paths.

ghost use Rattle.std.specs.Prelude.{◌<◌, length, IfOk};
ghost use Rattle.dt_trees.specs.Placed.{IsNode};
ghost use Rattle.dt_irq.specs.Seen.{HasArrived};

use crate::names::text_of;
use crate::numbers::{number, wide};
use crate::outcome::{Lines, Outcome, Stop, is_other};
use dt_flat::FlatTree;
use dt_irq::{Route, Routes, interrupt_at, route, specifier_at, specifier_route};
use dt_names::{Fault, NodeId, Out};
use dt_ranges::{Regions, dma_region, region};
use dt_read::Blob;
use dt_resolve_lines::{Question, ask, irqs, regs};
use dt_resolve_model::Region;
use dt_view::{Index, TreeView, address_cells, cells, is_pci, node_at, one_cell};
use std::alloc::Global;

/// `regs` prints the regions of a blob, and `irqs` its routes.
pub fn call(alloc: Global, name: &str, blob: &[u8], out: &mut Outcome) -> Result<(), Stop> {
    let mut lines = Out::new(Vec::new(alloc));
    match name {
        "regs" => regs(alloc, blob, &mut lines)?,
        _ => irqs(alloc, blob, &mut lines)?,
    }
    out.lines().name(&lines.into_inner());
    Ok(())
}

/// `dma PATH ADDRESS SIZE` and `spec PATH PROP KIND INDEX` print what the node of a path answers.
pub fn ask_node(
    alloc: Global,
    name: &str,
    words: &str,
    blob: &[u8],
    out: &mut Outcome,
) -> Result<(), Stop> {
    let Some((path, words)) = words.split_once(' ') else {
        return Err(Stop::Malformed);
    };
    let Some(question) = question_of(name, words) else {
        return Err(Stop::Malformed);
    };
    let mut line = Out::new(Vec::new(alloc));
    ask(alloc, blob, path.as_bytes(), question, &mut line)?;
    out.lines().name(&line.into_inner());
    Ok(())
}

fn question_of<'a>(name: &str, words: &'a str) -> Option<Question<'a>> {
    match name {
        "dma" => dma_of(words),
        _ => specifier_of(words),
    }
}

fn dma_of(words: &str) -> Option<Question<'_>> {
    let (address, size) = words.split_once(' ')?;
    Some(Question::Dma {
        address: wide(address)?,
        size: wide(size)?,
    })
}

fn specifier_of(words: &str) -> Option<Question<'_>> {
    let (property, words) = words.split_once(' ')?;
    let (kind, index) = words.split_once(' ')?;
    Some(Question::Specifier {
        property: property.as_bytes(),
        kind: kind.as_bytes(),
        index: number(index)?,
    })
}

/// `specifier-at PATH PROP KIND BYTE` prints the route of the specifier that begins at a byte.
pub fn specifier(words: &str, blob: &[u8], out: &mut Outcome) -> Result<(), Stop> {
    let Some((path, words)) = words.split_once(' ') else {
        return Err(Stop::Malformed);
    };
    let Some(
        Question::Specifier {
            property,
            kind,
            index,
        },
    ) = specifier_of(words)
    else {
        return Err(Stop::Malformed);
    };
    let blob = Blob::check(blob)?;
    let node = node_at(&blob, path.as_bytes())?;
    put_route(
        &blob,
        specifier_at(&blob, node, property, kind, index),
        out.lines(),
    );
    Ok(())
}

/// `interrupt-at PATH BYTE` prints the route of the interrupt that begins at a byte.
pub fn interrupt(words: &str, blob: &[u8], out: &mut Outcome) -> Result<(), Stop> {
    let Some((path, words)) = words.split_once(' ') else {
        return Err(Stop::Malformed);
    };
    let Some(at) = number(words) else {
        return Err(Stop::Malformed);
    };
    let blob = Blob::check(blob)?;
    let node = node_at(&blob, path.as_bytes())?;
    put_route(&blob, interrupt_at(&blob, node, at), out.lines());
    Ok(())
}

/// Tells of the node of a path what a blob has around it.
pub fn node(path: &str, blob: &[u8], out: &mut Outcome) -> Result<(), Stop> {
    let blob = Blob::check(blob)?;
    let node = node_at(&blob, path.as_bytes())?;
    put_around(&blob, node, out.lines());
    Ok(())
}

/// `views` prints the nodes of which a blob's index or its `FlatTree` answers otherwise than the blob, `the same` if there are none. `paths` prints
/// how many nodes a blob has, where its index finds each by its path.
pub fn views(alloc: Global, name: &str, blob: &[u8], out: &mut Outcome) -> Result<(), Stop> {
    let blob = Blob::check(blob)?;
    let index = Index::new(alloc, &blob)?;
    let told = tell_views(alloc, name, &index, out);
    // Let go of by hand: what goes at an exit by itself is proved there field by field.
    drop(index);
    told
}

fn tell_views(alloc: Global, name: &str, index: &Index<'_>, out: &mut Outcome) -> Result<(), Stop> {
    let tree = index.blob().to_flat(alloc)?;
    let told = match name {
        "views" => compare_all(alloc, index, &tree, out),
        _ => find_all(alloc, index, &tree, out),
    };
    drop(tree);
    told
}

fn find_all(
    alloc: Global,
    index: &Index<'_>,
    tree: &FlatTree,
    out: &mut Outcome,
) -> Result<(), Stop> {
    for node in 0..tree.node_count() {
        find(alloc, index, tree, node)?;
    }
    let count = tree.node_count();
    writeln!(out.lines(), "{count}");
    Ok(())
}

fn find(alloc: Global, index: &Index<'_>, tree: &FlatTree, node: NodeId) -> Result<NodeId, Stop>
    requires { node < length tree.now.slots }
{
    let text = text_of(alloc, &tree.path(alloc, node)?)?;
    Ok(index.node_at(&text)?)
}

fn compare_all(
    alloc: Global,
    index: &Index<'_>,
    tree: &FlatTree,
    out: &mut Outcome,
) -> Result<(), Stop> {
    for node in 0..tree.node_count() {
        compare_at(alloc, index, tree, node, out)?;
    }
    if !out.is_told() {
        out.tell("the same");
    }
    Ok(())
}

/// Prints a node if the three views answer differently of it, or the index finds it by another path.
fn compare_at(
    alloc: Global,
    index: &Index<'_>,
    tree: &FlatTree,
    node: NodeId,
    out: &mut Outcome,
) -> Result<(), Stop>
    requires { node < length tree.now.slots }
{
    let text = text_of(alloc, &tree.path(alloc, node)?)?;
    if differ(alloc, index, tree, &text)? {
        out.lines().name(&text);
        out.lines().put("\n");
    }
    Ok(())
}

/// Whether the three views answer differently of the node of a path.
fn differ(alloc: Global, index: &Index<'_>, tree: &FlatTree, path: &[u8]) -> Result<bool, Stop> {
    let blob = index.blob();
    if index.node_at(path)? != node_at(blob, path)? {
        return Ok(true);
    }
    let of_blob = told_by(alloc, blob, path)?;
    Ok(
        is_other(&of_blob, told_by(alloc, index, path)?)
            || is_other(&of_blob, told_by(alloc, tree, path)?),
    )
}

fn told_by<V: TreeView>(alloc: Global, view: &V, path: &[u8]) -> Result<String, Stop> {
    let mut lines = Lines::new(alloc);
    put_told(view, path, &mut lines)?;
    lines.into_text()
}

/// Puts what a view answers of the node of a path: the nodes around it, the node of its number, what it says of its children's addresses, its first
/// regions and routes, also those for DMA and of GPIOs.
pub fn put_told<V: TreeView>(view: &V, path: &[u8], lines: &mut Lines) -> Result<(), Fault> {
    let node = node_at(view, path)?;
    put_around(view, node, lines);
    put_numbered(view, node, lines);
    put_bus(view, node, lines);
    put_first(view, node, lines);
    for index in 0..3 {
        put_region(region(view, node, index), lines);
        put_route(view, route(view, node, index), lines);
        put_route(
            view,
            specifier_route(view, node, b"gpios", b"gpio", index),
            lines,
        );
    }
    put_region(dma_region(view, node, 0x1000, 2), lines);
    Ok(())
}

/// Puts a node, its parent, its first child and its next sibling.
fn put_around<V: TreeView>(view: &V, node: NodeId, lines: &mut Lines)
    requires { IsNode (V.tree view.now) node }
{
    put_node(view, "", node, lines);
    if let Some(parent) = view.parent(node) {
        put_node(view, ", parent ", parent, lines);
    }
    if let Some(child) = view.first_child(node) {
        put_node(view, ", first child ", child, lines);
    }
    if let Some(sibling) = view.next_sibling(node) {
        put_node(view, ", next sibling ", sibling, lines);
    }
    lines.put("\n");
}

fn put_node<V: TreeView>(view: &V, what: &str, node: NodeId, lines: &mut Lines)
    requires { IsNode (V.tree view.now) node }
{
    lines.put(what);
    let name = view.name(node);
    if name.is_empty() {
        lines.put("/");
    } else {
        lines.name(name);
    }
}

fn put_numbered<V: TreeView>(view: &V, node: NodeId, lines: &mut Lines)
    requires { IsNode (V.tree view.now) node }
{
    let Some(value) = view.value(node, b"phandle") else {
        return;
    };
    let Ok(number) = one_cell(value) else {
        return;
    };
    if let Some(numbered) = view.by_phandle(number) {
        put_node(view, "number of ", numbered, lines);
    }
}

/// Puts whether a node has a child of the name `n`, counts of cells, a count for addresses, and whether it is a PCI bus.
fn put_bus<V: TreeView>(view: &V, node: NodeId, lines: &mut Lines)
    requires { IsNode (V.tree view.now) node }
{
    lines.yes(view.child(node, b"n").is_some());
    lines.yes(cells(view, node).is_ok());
    lines.yes(address_cells(view, node, 2).is_ok());
    lines.yes(is_pci(view, node));
}

/// Puts whether a node has a first region and a first route, as they are listed.
fn put_first<V: TreeView>(view: &V, node: NodeId, lines: &mut Lines)
    requires { IsNode (V.tree view.now) node }
{
    if let Ok(mut regions) = Regions::of(view, node) {
        lines.yes(matches!(regions.next(view), Some(Ok(_))));
    }
    if let Ok(mut routes) = Routes::of(view, node) {
        lines.yes(matches!(routes.next(view), Some(Ok(_))));
    }
}

fn put_region(region: Result<Region, Fault>, lines: &mut Lines) {
    match region {
        Ok(region) => writeln!(
            lines,
            "{:#x} {:#x} {}",
            region.address, region.size, region.whole
        ),
        Err(fault) => lines.fault(fault),
    }
}

fn put_route<V: TreeView>(view: &V, route: Result<Route, Fault>, lines: &mut Lines)
    requires { IfOk route (HasArrived (V.tree view.now)) }
{
    match route {
        Ok(route) => put_arrival(view, &route, lines),
        Err(fault) => lines.fault(fault),
    }
}

fn put_arrival<V: TreeView>(view: &V, route: &Route, lines: &mut Lines)
    requires { HasArrived (V.tree view.now) route.now }
{
    put_node(view, "", route.controller, lines);
    for cell in route.cells {
        write!(lines, " {cell:#x}");
    }
    writeln!(lines, " {} {}", route.len, route.hops);
}
