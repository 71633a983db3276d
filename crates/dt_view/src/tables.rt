//! Tables from the nodes of a tree to the nodes above them and to the values of their properties, from phandles to nodes, and from nodes and
//! names to children.

ghost use Rattle.std.specs.Prelude.{◌≡◌, ◌↔◌, ◌≤◌, ◌∷◌, ℕ, [], Some, nat_eq, length, map, slice_index, OnOk, IfOk, IfSome, IsSome, cond, codes};
ghost use Rattle.std.specs.Int.{w32, from_be_bytes};
ghost use Rattle.std.specs.List.{between};
ghost use Rattle.std.specs.Option.{option_copied};
ghost use Rattle.dt_model.specs.Meaning.{cell};
ghost use Rattle.dt_model.specs.Tree.{nodes_of, value_in, value_of};
ghost use Rattle.dt_model.specs.Valid.{AreDistinct, IsPhandle};
ghost use Rattle.dt_trees.specs.Placed.{path_at, reading_of};
ghost use Rattle.dt_read.specs.Walked.{leading, past_leading};
ghost use Rattle.dt_view.specs.Tables.{asked_said, at_number, ends_as_kind, first_found, is_kind_name, is_whole_name};
ghost use Rattle.dt_view.specs.Tables.{AreParents, ArePhandles, IsNoted, AreNoted, AreValues, PutsValue, NotesValue, AreKept, AreKinds};
ghost use Rattle.dt_view.specs.Tables.{PutsChild, AreChildren};

use dt_names::{NodeId, Seed, phandle_of};
use dt_read::{Blob, NodeStep, OpenNodes, Step, Steps};
use std::alloc::AllocError;
use std::collections::HashMap;

/// What the tables have of a node: the node above it, None above the root, and where its values begin and end.
#[derive(Clone, Copy)]
pub(crate) struct Row {
    pub above: Option<NodeId>,
    pub first: usize,
    pub behind: usize,
}

/// A property that the rules of addresses and interrupts ask for. A node has few, whatever names its properties have.
#[derive(Clone, Copy)]
pub(crate) struct Asked<'a> {
    pub name: &'a [u8],
    pub value: &'a [u8],
}

/// The row of each node.
pub(crate) type Rows = HashMap<NodeId, Row, Seed>;

/// The value of each property of a kind, by its node and its name.
pub(crate) type Kinds<'a> = HashMap<(NodeId, &'a [u8]), &'a [u8], Seed>;

/// The node of each phandle.
pub(crate) type Phandles = HashMap<u32, NodeId, Seed>;

/// Each node but the root, by the node above it and its name.
pub(crate) type Children<'a> = HashMap<(NodeId, &'a [u8]), NodeId, Seed>;

fn put_row(rows: &mut Rows, node: NodeId, row: Row) -> Result<(), AllocError>
    ensures { OnOk result ((k : ℕ) → at_number rows.new.entries k ≡ cond (nat_eq node k) (Some row) (at_number rows.old.entries k)) }
{
    rows.insert(node, row)?;
    Ok(())
}

fn put_phandle(phandles: &mut Phandles, number: u32, node: NodeId) -> Result<(), AllocError>
    ensures { OnOk result ((n : ℕ) → at_number phandles.new.entries n ≡ cond (nat_eq number n) (Some node) (at_number phandles.old.entries n)) }
{
    phandles.insert(number, node)?;
    Ok(())
}

/// The number that a value of `phandle` is.
fn number_of(value: &[u8]) -> Option<u32>
    ensures valid { IsSome result ↔ IsPhandle value.now }
    ensures number { IfSome result (λ number. number ≡ from_be_bytes w32 value.now) }
    ensures cell { IfSome result (λ number. value.now ≡ cell number) }
{
    phandle_of(value)
}

/// Puts the number of a node into the table, where it has one.
fn note_phandle(
    blob: &Blob<'_>,
    phandles: &mut Phandles,
    node: NodeId,
    value: Option<&[u8]>,
) -> Result<(), AllocError>
    requires { option_copied value ≡ value_in (reading_of blob.now) (path_at blob.now node) (codes "phandle") }
    ensures { OnOk result (IsNoted blob.now node phandles.old.entries phandles.new.entries) }
{
    blob.validity();
    let Some(value) = value else {
        return Ok(());
    };
    let Some(number) = number_of(value) else {
        return Ok(());
    };
    put_phandle(phandles, number, node)
}

/// The byte at a place of a name; 0 behind its end.
fn byte_at(name: &[u8], place: usize) -> u8
    ensures { result ≡ slice_index name.now place }
{
    if place < name.len() { name[place] } else { 0 }
}

/// Whether it is one of the names that the rules of addresses and interrupts ask for (Devicetree Specification v0.4, 2.3.5 to 2.4.3). Their
/// lengths tell most others apart.
pub(crate) fn is_whole_name(name: &[u8]) -> bool
    ensures { result ≡ is_whole_name name.now }
{
    match name.len() {
        3 => name == b"reg".as_slice(),
        6 => name == b"ranges".as_slice(),
        10 => name == b"dma-ranges".as_slice() || name == b"interrupts".as_slice(),
        11 => name == b"device_type".as_slice() || name == b"#size-cells".as_slice(),
        13 => name == b"interrupt-map".as_slice(),
        14 => name == b"#address-cells".as_slice(),
        16 => name == b"interrupt-parent".as_slice() || name == b"#interrupt-cells".as_slice(),
        18 => name == b"interrupt-map-mask".as_slice(),
        19 => name == b"interrupts-extended".as_slice(),
        20 => name == b"interrupt-controller".as_slice(),
        _ => false,
    }
}

/// Whether a name begins with `#`, or ends as `KIND-map`, `KIND-map-mask` or `KIND-map-pass-thru` do.
fn ends_as_kind(name: &[u8]) -> bool
    ensures { result ≡ ends_as_kind name.now }
{
    let last = byte_at(name, name.len().saturating_sub(1));
    byte_at(name, 0) == b'#' || last == b'p' || last == b'k' || last == b'u'
}

/// Whether it is another name that a rule of specifiers may ask for (Devicetree Specification v0.4, 2.5.1): `#KIND-cells`, or `KIND-map` and its
/// companions.
pub(crate) fn is_kind_name(name: &[u8]) -> bool
    ensures { result ≡ is_kind_name name.now }
{
    !is_whole_name(name) && ends_as_kind(name)
}

fn put_kind<'a>(
    kinds: &mut Kinds<'a>,
    node: NodeId,
    name: &'a [u8],
    value: &'a [u8],
) -> Result<(), AllocError>
    ensures { OnOk result (PutsValue kinds.old.entries kinds.new.entries node name.now value.now) }
{
    kinds.insert((node, name), value)?;
    Ok(())
}

/// Adds a property to the values where it is asked for whole, and puts it into the table of kinds where it is of one.
fn note_property<'a>(
    values: &mut Vec<Asked<'a>>,
    kinds: &mut Kinds<'a>,
    node: NodeId,
    name: &'a [u8],
    value: &'a [u8],
) -> Result<(), AllocError>
    ensures noted { OnOk result (AreNoted values.old.items values.new.items (record { name = name.now; value = value.now } ∷ [])) }
    ensures kept { OnOk result (NotesValue kinds.old.entries kinds.new.entries node name.now value.now) }
{
    if is_whole_name(name) {
        values.push(Asked { name, value })?;
    } else if ends_as_kind(name) {
        put_kind(kinds, node, name, value)?;
    }
    Ok(())
}

/// The properties of a row.
fn of_row<'v, 'a>(values: &'v [Asked<'a>], row: Row) -> &'v [Asked<'a>]
    requires { (row.first ≤ row.behind) × (row.behind ≤ length values.now) }
    ensures { result.now ≡ between row.first row.behind values.now }
{
    &values[row.first..row.behind]
}

/// The value of a row's property of a name.
pub(crate) fn value_in_row<'a>(values: &[Asked<'a>], row: Row, name: &[u8]) -> Option<&'a [u8]>
    requires { (row.first ≤ row.behind) × (row.behind ≤ length values.now) }
    ensures { option_copied result ≡ value_of (map asked_said (between row.first row.behind values.now)) name.now }
{
    value_among(of_row(values, row), name)
}

/// The value of the property of a name among those that the rules ask for.
fn value_among<'a>(asked: &[Asked<'a>], name: &[u8]) -> Option<&'a [u8]>
    ensures { option_copied result ≡ value_of (map asked_said asked.now) name.now }
{
    for property in asked {
        if name == property.name {
            return Some(property.value);
        }
    }
    None
}

/// The value of `phandle`, after one more property of its node.
fn phandle_after<'a>(found: Option<&'a [u8]>, name: &[u8], value: &'a [u8]) -> Option<&'a [u8]>
    ensures { option_copied result ≡ first_found (option_copied found.entry) (value_of (record { name = name.now; value = value.now } ∷ []) (codes "phandle")) }
{
    match found {
        None if name == b"phandle".as_slice() => Some(value),
        _ => found,
    }
}

/// Adds the properties that a walk meets next, a node's, where the rules may ask for them, and answers the value of `phandle`, where it is one of them.
fn note_values<'a>(
    steps: &mut Steps<'a>,
    values: &mut Vec<Asked<'a>>,
    kinds: &mut Kinds<'a>,
    node: NodeId,
) -> Result<Option<&'a [u8]>, AllocError>
    requires { AreDistinct (map (λ p. p.name) (leading steps.old)) }
    ensures noted { OnOk result (AreNoted values.old.items values.new.items (leading steps.old)) }
    ensures kept { OnOk result (AreKept node (leading steps.old) (leading steps.old) kinds.old.entries kinds.new.entries) }
    ensures phandle { IfOk result (λ value. option_copied value ≡ value_of (leading steps.old) (codes "phandle")) }
    ensures left { OnOk result (steps.new ≡ past_leading steps.old) }
{
    let mut phandle = None;
    while let Some((name, value)) = steps.next_property() {
        phandle = phandle_after(phandle, name, value);
        note_property(values, kinds, node, name, value)?;
    }
    Ok(phandle)
}

/// Puts a node into the table, by its name and the node above it; not the root, which has none.
fn put_child<'a>(
    children: &mut Children<'a>,
    above: Option<NodeId>,
    name: &'a [u8],
    node: NodeId,
) -> Result<(), AllocError>
    ensures { OnOk result (PutsChild children.old.entries children.new.entries above name.now node) }
{
    if let Some(above) = above {
        children.insert((above, name), node)?;
    }
    Ok(())
}

/// Fills the table of the children of a blob's nodes.
pub(crate) fn fill_children<'a>(
    blob: &Blob<'a>,
    children: &mut Children<'a>,
) -> Result<(), AllocError>
    requires { children.old.entries ≡ [] }
    ensures { OnOk result (AreChildren blob.now (nodes_of (reading_of blob.now)) children.new.entries) }
{
    blob.validity();
    let mut open_nodes = OpenNodes::new();
    for step in blob.node_steps() {
        match step {
            NodeStep::Open { node, name } => {
                let above = open_nodes.innermost();
                put_child(children, above, name, node)?;
                open_nodes.push(node);
            }
            NodeStep::Close => open_nodes.pop(),
        }
    }
    Ok(())
}

/// Fills the tables of a blob's tree but that of children, and counts its nodes.
pub(crate) fn fill<'a>(
    blob: &Blob<'a>,
    rows: &mut Rows,
    phandles: &mut Phandles,
    values: &mut Vec<Asked<'a>>,
    kinds: &mut Kinds<'a>,
) -> Result<usize, AllocError>
    requires rows { rows.old.entries ≡ [] }
    requires phandles { phandles.old.entries ≡ [] }
    requires values { values.old.items ≡ [] }
    requires kinds { kinds.old.entries ≡ [] }
    ensures parents { OnOk result (AreParents blob.now (nodes_of (reading_of blob.now)) rows.new.entries) }
    ensures phandles { OnOk result (ArePhandles blob.now (nodes_of (reading_of blob.now)) phandles.new.entries) }
    ensures values { OnOk result (AreValues blob.now (nodes_of (reading_of blob.now)) values.new.items rows.new.entries) }
    ensures kinds { OnOk result (AreKinds blob.now (nodes_of (reading_of blob.now)) kinds.new.entries) }
    ensures count { IfOk result (λ count. count ≡ length (nodes_of (reading_of blob.now))) }
{
    blob.validity();
    let mut open_nodes = OpenNodes::new();
    let mut count = 0usize;
    let mut steps = blob.steps();
    while let Some(step) = steps.next() {
        match step {
            Step::Open { node, .. } => {
                let above = open_nodes.innermost();
                let first = values.len();
                let phandle = note_values(&mut steps, values, kinds, node)?;
                let behind = values.len();
                put_row(
                    rows,
                    node,
                    Row {
                        above,
                        first,
                        behind,
                    },
                )?;
                note_phandle(blob, phandles, node, phandle)?;
                open_nodes.push(node);
                count += 1;
            }
            Step::Property { .. } => {}
            Step::Close => open_nodes.pop(),
        }
    }
    Ok(count)
}
