//! Checks and looks.

ghost use Rattle.std.specs.Prelude.{◌≡◌, ◌↔◌, ◌∷◌, ◌++◌, ◌<◌, ℕ, [], List, Some, None, IfSome, IsTrue, option_map, length};
ghost use Rattle.std.specs.Bool.{OnTrue, OnFalse};
ghost use Rattle.std.specs.List.{slice_get, sum_by};
ghost use Rattle.dt_model.specs.Applied.{node_numbered};
ghost use Rattle.dt_model.specs.Checks.{BlobFault, IsFirstFault};
ghost use Rattle.dt_model.specs.Tree.{Property, nodes_of, value_in};
ghost use Rattle.dt_read.specs.Checked.{IsBlob, placed_of};
ghost use Rattle.dt_read.specs.Kinds.{kind_of};
ghost use Rattle.dt_read.specs.Lying.{Lies};
ghost use Rattle.dt_trees.specs.Placed.{last_name, path_at, place_of, properties_at, reading_of, IsAt, IsNode};
ghost use Rattle.dt_trees.specs.Views.{first_child_of, next_sibling_of, IsAbove, IsFoundBy, WhyNotFound};
ghost use Rattle.dt_c.specs.Crossing.{given, span_of, IsRefused};

use crate::crossing::{CCounts, CFault, CProperty, CReservation, CSpan, put_fault, put_node};
use dt_names::Seed;
use dt_read::{Blob, name_span, property_spans, value_span};
use dt_view::{TreeView, is_node, node_at};

/// The blob of bytes that are one. No look of this library hashes anything, so the seed is any. It isn't inlined: each export would have a copy.
#[inline(never)]
pub(crate) fn blob_of(bytes: &[u8]) -> Blob<'_>
    requires { IsBlob bytes.now }
    ensures { result ≡ placed_of bytes.now }
{
    Blob::of(bytes, Seed::fixed())
}

/// Whether some bytes are a blob within the limits; else their first fault. The table is words of any values, at least one.
#[unsafe(no_mangle)]
pub extern "C" fn dtool_check(bytes: &[u8], table: &mut [u64], fault: &mut CFault) -> bool
    requires { 0 < length table.old }
    ensures blob { OnTrue result (IsBlob bytes.now) }
    ensures refused { OnFalse result ((f : BlobFault) × IsRefused (λ e. (e.kind ≡ kind_of f) × IsFirstFault bytes.now f e.at) fault.new) }
    ensures no_fault { OnTrue result (fault.new ≡ fault.old) }
{
    match Blob::check_with(bytes, table) {
        Ok(_) => true,
        Err(why) => {
            put_fault(why, fault);
            false
        }
    }
}

/// The root.
#[unsafe(no_mangle)]
pub extern "C" fn dtool_root(bytes: &[u8]) -> usize
    requires { IsBlob bytes.now }
    ensures root { IsAt (placed_of bytes.now) [] result }
{
    blob_of(bytes).root()
}

/// The node of a path.
#[unsafe(no_mangle)]
pub extern "C" fn dtool_node_at(
    bytes: &[u8],
    path: &[u8],
    out: &mut usize,
    fault: &mut CFault,
) -> bool
    requires { IsBlob bytes.now }
    ensures is { OnTrue result (IsFoundBy (placed_of bytes.now) path.now out.new) }
    ensures node { OnTrue result (IsNode (placed_of bytes.now) out.new) }
    ensures refused { OnFalse result (IsRefused (λ e. WhyNotFound e.kind (placed_of bytes.now) path.now × (e.at ≡ None)) fault.new) }
    ensures kept { OnFalse result (out.new ≡ out.old) }
    ensures no_fault { OnTrue result (fault.new ≡ fault.old) }
{
    let blob = blob_of(bytes);
    match node_at(&blob, path) {
        Ok(node) => {
            *out = node;
            true
        }
        Err(why) => {
            put_fault(why, fault);
            false
        }
    }
}

/// The node above a node.
#[unsafe(no_mangle)]
pub extern "C" fn dtool_parent(bytes: &[u8], node: usize, out: &mut usize) -> bool
    requires blob { IsBlob bytes.now }
    requires node { IsNode (placed_of bytes.now) node }
    ensures above { IsAbove (placed_of bytes.now) node (given result out.new) }
    ensures kept { OnFalse result (out.new ≡ out.old) }
{
    let blob = blob_of(bytes);
    put_node(TreeView::parent(&blob, node), out)
}

/// The child of a node that has a name.
#[unsafe(no_mangle)]
pub extern "C" fn dtool_child(bytes: &[u8], node: usize, name: &[u8], out: &mut usize) -> bool
    requires blob { IsBlob bytes.now }
    requires node { IsNode (placed_of bytes.now) node }
    ensures is { given result out.new ≡ place_of (placed_of bytes.now) (path_at (placed_of bytes.now) node ++ name.now ∷ []) }
    ensures node { IfSome (given result out.new) (IsNode (placed_of bytes.now)) }
    ensures kept { OnFalse result (out.new ≡ out.old) }
{
    let blob = blob_of(bytes);
    put_node(TreeView::child(&blob, node, name), out)
}

/// The first child of a node.
#[unsafe(no_mangle)]
pub extern "C" fn dtool_first_child(bytes: &[u8], node: usize, out: &mut usize) -> bool
    requires blob { IsBlob bytes.now }
    requires node { IsNode (placed_of bytes.now) node }
    ensures is { given result out.new ≡ first_child_of (placed_of bytes.now) (path_at (placed_of bytes.now) node) }
    ensures node { IfSome (given result out.new) (IsNode (placed_of bytes.now)) }
    ensures kept { OnFalse result (out.new ≡ out.old) }
{
    let blob = blob_of(bytes);
    put_node(TreeView::first_child(&blob, node), out)
}

/// The sibling behind a node.
#[unsafe(no_mangle)]
pub extern "C" fn dtool_next_sibling(bytes: &[u8], node: usize, out: &mut usize) -> bool
    requires blob { IsBlob bytes.now }
    requires node { IsNode (placed_of bytes.now) node }
    ensures is { given result out.new ≡ next_sibling_of (placed_of bytes.now) (path_at (placed_of bytes.now) node) }
    ensures node { IfSome (given result out.new) (IsNode (placed_of bytes.now)) }
    ensures kept { OnFalse result (out.new ≡ out.old) }
{
    let blob = blob_of(bytes);
    put_node(TreeView::next_sibling(&blob, node), out)
}

/// The node that has a number as its phandle.
#[unsafe(no_mangle)]
pub extern "C" fn dtool_by_phandle(bytes: &[u8], number: u32, out: &mut usize) -> bool
    requires { IsBlob bytes.now }
    ensures is { option_map (path_at (placed_of bytes.now)) (given result out.new) ≡ node_numbered (nodes_of (reading_of (placed_of bytes.now))) number }
    ensures node { IfSome (given result out.new) (IsNode (placed_of bytes.now)) }
    ensures kept { OnFalse result (out.new ≡ out.old) }
{
    let blob = blob_of(bytes);
    put_node(TreeView::by_phandle(&blob, number), out)
}

/// Whether a number from elsewhere is a node.
#[unsafe(no_mangle)]
pub extern "C" fn dtool_is_node(bytes: &[u8], node: usize) -> bool
    requires { IsBlob bytes.now }
    ensures { IsTrue result ↔ IsNode (placed_of bytes.now) node }
{
    is_node(&blob_of(bytes), node)
}

/// Where the name of a node lies; the root's is empty.
#[unsafe(no_mangle)]
pub extern "C" fn dtool_name(bytes: &[u8], node: usize) -> CSpan
    requires blob { IsBlob bytes.now }
    requires node { IsNode (placed_of bytes.now) node }
    ensures { Lies bytes.now (span_of result) (last_name (path_at (placed_of bytes.now) node)) }
{
    CSpan::from(name_span(bytes, node))
}

/// Where the value of a node's property lies; false where the node has no property of that name.
#[unsafe(no_mangle)]
pub extern "C" fn dtool_value(bytes: &[u8], node: usize, name: &[u8], out: &mut CSpan) -> bool
    requires blob { IsBlob bytes.now }
    requires node { IsNode (placed_of bytes.now) node }
    ensures absent { OnFalse result (value_in (reading_of (placed_of bytes.now)) (path_at (placed_of bytes.now) node) name.now ≡ None) }
    ensures kept { OnFalse result (out.new ≡ out.old) }
    ensures present { OnTrue result ((value : List ℕ)
        × (value_in (reading_of (placed_of bytes.now)) (path_at (placed_of bytes.now) node) name.now ≡ Some value) × Lies bytes.now (span_of out.new) value) }
{
    match value_span(bytes, node, name) {
        Some(value) => {
            *out = CSpan::from(value);
            true
        }
        None => false,
    }
}

/// Where the property of a number, counted from 0, of a node lies; false where the node has no more.
#[unsafe(no_mangle)]
pub extern "C" fn dtool_property(bytes: &[u8], node: usize, index: u64, out: &mut CProperty) -> bool
    requires blob { IsBlob bytes.now }
    requires node { IsNode (placed_of bytes.now) node }
    ensures absent { OnFalse result (slice_get (properties_at (placed_of bytes.now) (path_at (placed_of bytes.now) node)) index ≡ None) }
    ensures kept { OnFalse result (out.new ≡ out.old) }
    ensures present { OnTrue result ((property : Property)
        × (slice_get (properties_at (placed_of bytes.now) (path_at (placed_of bytes.now) node)) index ≡ Some property)
        × Lies bytes.now (span_of out.new.name) property.name × Lies bytes.now (span_of out.new.value) property.value) }
{
    match property_spans(bytes, node, index) {
        Some(found) => {
            *out = CProperty {
                name: CSpan::from(found.name),
                value: CSpan::from(found.value),
            };
            true
        }
        None => false,
    }
}

/// How many nodes, properties and memory reservations there are.
#[unsafe(no_mangle)]
pub extern "C" fn dtool_count(bytes: &[u8]) -> CCounts
    requires { IsBlob bytes.now }
    ensures nodes { result.nodes ≡ length (nodes_of (reading_of (placed_of bytes.now))) }
    ensures properties { result.properties ≡ sum_by (λ n. length n.properties) (nodes_of (reading_of (placed_of bytes.now))) }
    ensures reservations { result.reservations ≡ length (placed_of bytes.now).reservations }
{
    let counts = blob_of(bytes).counts();
    CCounts {
        nodes: counts.nodes,
        properties: counts.properties,
        reservations: counts.reservations,
    }
}

/// The memory reservation of a number, counted from 0; false where there are no more.
#[unsafe(no_mangle)]
pub extern "C" fn dtool_reservation(bytes: &[u8], index: u64, out: &mut CReservation) -> bool
    requires { IsBlob bytes.now }
    ensures is { given result (out.new.address, out.new.size) ≡ slice_get (placed_of bytes.now).reservations index }
    ensures kept { OnFalse result (out.new ≡ out.old) }
{
    let mut before = index;
    for (address, size) in blob_of(bytes).reservations() {
        if before == 0 {
            *out = CReservation { address, size };
            return true;
        }
        before -= 1;
    }
    false
}

/// The number of the processor that boots.
#[unsafe(no_mangle)]
pub extern "C" fn dtool_boot_cpu(bytes: &[u8]) -> u32
    requires { IsBlob bytes.now }
    ensures { result ≡ (placed_of bytes.now).boot_cpu }
{
    blob_of(bytes).boot_cpu()
}
