//! Addresses and routes.

ghost use Rattle.std.specs.Prelude.{◌≡◌};
ghost use Rattle.std.specs.Bool.{OnTrue, OnFalse};
ghost use Rattle.dt_irq.specs.Seen.{route_in, HasArrived};
ghost use Rattle.dt_read.specs.Checked.{IsBlob, placed_of};
ghost use Rattle.dt_trees.specs.Placed.{path_at, IsNode};
ghost use Rattle.dt_resolve_model.specs.Answers.{answer, refused};
ghost use Rattle.dt_resolve_model.specs.Interrupts.{IsRoute, interrupt_at};
ghost use Rattle.dt_resolve_model.specs.Regions.{region, dma_region};
ghost use Rattle.dt_resolve_model.specs.Specifiers.{specifier_at, specifier_route};
ghost use Rattle.dt_view.specs.Worlds.{world_of};
ghost use Rattle.dt_c.specs.Crossing.{region_of, route_of, wide, IsRefused};

use crate::crossing::{CFault, CRegion, CRoute, joined, put_fault, put_region, put_route};
use crate::looking::blob_of;
use dt_irq::{interrupt_at, route, specifier_at, specifier_route};
use dt_ranges::{dma_region, region};

/// The region that an entry of a node's `reg` is.
#[unsafe(no_mangle)]
pub extern "C" fn dtool_region(
    bytes: &[u8],
    node: usize,
    index: u64,
    out: &mut CRegion,
    fault: &mut CFault,
) -> bool
    requires blob { IsBlob bytes.now }
    requires node { IsNode (placed_of bytes.now) node }
    ensures is { OnTrue result (region (world_of (placed_of bytes.now)) (path_at (placed_of bytes.now) node) index ≡ answer (region_of out.new)) }
    ensures refused { OnFalse result (IsRefused (λ e.
        region (world_of (placed_of bytes.now)) (path_at (placed_of bytes.now) node) index ≡ refused e) fault.new) }
    ensures kept { OnFalse result (out.new ≡ out.old) }
    ensures no_fault { OnTrue result (fault.new ≡ fault.old) }
{
    let blob = blob_of(bytes);
    match region(&blob, node, index) {
        Ok(region) => {
            put_region(region, out);
            true
        }
        Err(why) => {
            put_fault(why, fault);
            false
        }
    }
}

/// The region that a device reaches by DMA.
#[unsafe(no_mangle)]
pub extern "C" fn dtool_dma_region(
    bytes: &[u8],
    node: usize,
    address_low: u64,
    address_high: u64,
    size_low: u64,
    size_high: u64,
    out: &mut CRegion,
    fault: &mut CFault,
) -> bool
    requires blob { IsBlob bytes.now }
    requires node { IsNode (placed_of bytes.now) node }
    ensures is { OnTrue result (dma_region (world_of (placed_of bytes.now)) (path_at (placed_of bytes.now) node)
        (wide address_low address_high) (wide size_low size_high) ≡ answer (region_of out.new)) }
    ensures refused { OnFalse result (IsRefused (λ e. dma_region (world_of (placed_of bytes.now)) (path_at (placed_of bytes.now) node)
        (wide address_low address_high) (wide size_low size_high) ≡ refused e) fault.new) }
    ensures kept { OnFalse result (out.new ≡ out.old) }
    ensures no_fault { OnTrue result (fault.new ≡ fault.old) }
{
    let blob = blob_of(bytes);
    let address = joined(address_low, address_high);
    let size = joined(size_low, size_high);
    match dma_region(&blob, node, address, size) {
        Ok(region) => {
            put_region(region, out);
            true
        }
        Err(why) => {
            put_fault(why, fault);
            false
        }
    }
}

/// The route of an interrupt of a node.
#[unsafe(no_mangle)]
pub extern "C" fn dtool_route(
    bytes: &[u8],
    node: usize,
    index: u64,
    out: &mut CRoute,
    fault: &mut CFault,
) -> bool
    requires blob { IsBlob bytes.now }
    requires node { IsNode (placed_of bytes.now) node }
    ensures is { OnTrue result (IsRoute (world_of (placed_of bytes.now)) (path_at (placed_of bytes.now) node) index
        (answer (route_in (placed_of bytes.now) (route_of out.new)))) }
    ensures arrived { OnTrue result (HasArrived (placed_of bytes.now) (route_of out.new)) }
    ensures refused { OnFalse result (IsRefused (λ e.
        IsRoute (world_of (placed_of bytes.now)) (path_at (placed_of bytes.now) node) index (refused e)) fault.new) }
    ensures kept { OnFalse result (out.new ≡ out.old) }
    ensures no_fault { OnTrue result (fault.new ≡ fault.old) }
{
    let blob = blob_of(bytes);
    match route(&blob, node, index) {
        Ok(route) => {
            put_route(route, out);
            true
        }
        Err(why) => {
            put_fault(why, fault);
            false
        }
    }
}

/// The route of a specifier of a node's property.
#[unsafe(no_mangle)]
pub extern "C" fn dtool_specifier_route(
    bytes: &[u8],
    node: usize,
    property: &[u8],
    kind: &[u8],
    index: u64,
    out: &mut CRoute,
    fault: &mut CFault,
) -> bool
    requires blob { IsBlob bytes.now }
    requires node { IsNode (placed_of bytes.now) node }
    ensures is { OnTrue result (specifier_route (world_of (placed_of bytes.now)) (path_at (placed_of bytes.now) node) property.now kind.now index
        ≡ answer (route_in (placed_of bytes.now) (route_of out.new))) }
    ensures arrived { OnTrue result (HasArrived (placed_of bytes.now) (route_of out.new)) }
    ensures refused { OnFalse result (IsRefused (λ e. specifier_route (world_of (placed_of bytes.now)) (path_at (placed_of bytes.now) node)
        property.now kind.now index ≡ refused e) fault.new) }
    ensures kept { OnFalse result (out.new ≡ out.old) }
    ensures no_fault { OnTrue result (fault.new ≡ fault.old) }
{
    let blob = blob_of(bytes);
    match specifier_route(&blob, node, property, kind, index) {
        Ok(route) => {
            put_route(route, out);
            true
        }
        Err(why) => {
            put_fault(why, fault);
            false
        }
    }
}

/// The route of the interrupt that begins at a byte of a node's `interrupts-extended`.
#[unsafe(no_mangle)]
pub extern "C" fn dtool_interrupt_at(
    bytes: &[u8],
    node: usize,
    at: u64,
    out: &mut CRoute,
    fault: &mut CFault,
) -> bool
    requires blob { IsBlob bytes.now }
    requires node { IsNode (placed_of bytes.now) node }
    ensures is { OnTrue result (interrupt_at (world_of (placed_of bytes.now)) (path_at (placed_of bytes.now) node) at
        ≡ answer (route_in (placed_of bytes.now) (route_of out.new))) }
    ensures arrived { OnTrue result (HasArrived (placed_of bytes.now) (route_of out.new)) }
    ensures refused { OnFalse result (IsRefused (λ e.
        interrupt_at (world_of (placed_of bytes.now)) (path_at (placed_of bytes.now) node) at ≡ refused e) fault.new) }
    ensures kept { OnFalse result (out.new ≡ out.old) }
    ensures no_fault { OnTrue result (fault.new ≡ fault.old) }
{
    let blob = blob_of(bytes);
    match interrupt_at(&blob, node, at) {
        Ok(route) => {
            put_route(route, out);
            true
        }
        Err(why) => {
            put_fault(why, fault);
            false
        }
    }
}

/// The route of the specifier that begins at a byte of a node's property.
#[unsafe(no_mangle)]
pub extern "C" fn dtool_specifier_at(
    bytes: &[u8],
    node: usize,
    property: &[u8],
    kind: &[u8],
    at: u64,
    out: &mut CRoute,
    fault: &mut CFault,
) -> bool
    requires blob { IsBlob bytes.now }
    requires node { IsNode (placed_of bytes.now) node }
    ensures is { OnTrue result (specifier_at (world_of (placed_of bytes.now)) (path_at (placed_of bytes.now) node) property.now kind.now at
        ≡ answer (route_in (placed_of bytes.now) (route_of out.new))) }
    ensures arrived { OnTrue result (HasArrived (placed_of bytes.now) (route_of out.new)) }
    ensures refused { OnFalse result (IsRefused (λ e. specifier_at (world_of (placed_of bytes.now)) (path_at (placed_of bytes.now) node)
        property.now kind.now at ≡ refused e) fault.new) }
    ensures kept { OnFalse result (out.new ≡ out.old) }
    ensures no_fault { OnTrue result (fault.new ≡ fault.old) }
{
    let blob = blob_of(bytes);
    match specifier_at(&blob, node, property, kind, at) {
        Ok(route) => {
            put_route(route, out);
            true
        }
        Err(why) => {
            put_fault(why, fault);
            false
        }
    }
}
