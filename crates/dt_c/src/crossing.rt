//! What crosses to C: structs with C's layout, and how answers are written into them.

ghost use Rattle.std.specs.Prelude.{◌≡◌};
ghost use Rattle.std.specs.Bool.{OnFalse};
ghost use Rattle.dt_c.specs.Crossing.{given, wide, region_of, route_of, IsFault};

use dt_irq::Route;
use dt_names::{Fault, NodeId};
use dt_read::Span;
use dt_resolve_model::Region;

/// `struct dtool_fault`: the number of a fault's kind, and its place in the blob where it has one.
#[repr(C)]
#[derive(Clone, Copy)]
pub struct CFault {
    pub number: u32,
    pub has_place: bool,
    pub place: usize,
}

/// `struct dtool_span`: bytes of the blob.
#[repr(C)]
#[derive(Clone, Copy)]
pub struct CSpan {
    pub at: usize,
    pub len: usize,
}

/// `struct dtool_property`: where a property's name and its value lie in the blob.
#[repr(C)]
#[derive(Clone, Copy)]
pub struct CProperty {
    pub name: CSpan,
    pub value: CSpan,
}

/// `struct dtool_counts`: how many nodes, properties and memory reservations there are.
#[repr(C)]
#[derive(Clone, Copy)]
pub struct CCounts {
    pub nodes: usize,
    pub properties: usize,
    pub reservations: usize,
}

/// `struct dtool_reservation`: a memory reservation.
#[repr(C)]
#[derive(Clone, Copy)]
pub struct CReservation {
    pub address: u64,
    pub size: u64,
}

/// `struct dtool_region`: a region of the root's bus. Its numbers of 128 bits are in halves.
#[repr(C)]
#[derive(Clone, Copy)]
pub struct CRegion {
    pub address_low: u64,
    pub address_high: u64,
    pub size_low: u64,
    pub size_high: u64,
    pub whole: bool,
}

/// `struct dtool_route`: the end of a route.
#[repr(C)]
#[derive(Clone, Copy)]
pub struct CRoute {
    pub controller: usize,
    pub cells: [u32; 8],
    pub len: usize,
    pub hops: usize,
}

pub(crate) fn put_fault(fault: Fault, out: &mut CFault)
    ensures { IsFault fault out.new }
{
    let (has_place, place) = match fault.at {
        Some(place) => (true, place),
        None => (false, 0),
    };
    *out = CFault {
        number: u32::from(fault.number()),
        has_place,
        place,
    };
}

/// Writes a node, where there is one.
pub(crate) fn put_node(node: Option<NodeId>, out: &mut usize) -> bool
    ensures is { given result out.new ≡ node }
    ensures kept { OnFalse result (out.new ≡ out.old) }
{
    match node {
        Some(node) => {
            *out = node;
            true
        }
        None => false,
    }
}

impl From<Span> for CSpan {
    ghost use Rattle.std.specs.Prelude.{◌≡◌};
    ghost use Rattle.dt_c.specs.Crossing.{span_of};

    ghost from_gives = { λ span result. span_of result ≡ span };

    fn from(span: Span) -> CSpan {
        CSpan {
            at: span.at,
            len: span.len,
        }
    }
}

/// The number of two halves.
pub(crate) fn joined(low: u64, high: u64) -> u128
    ensures { result ≡ wide low high }
{
    u128::from(low) + 0x1_0000_0000_0000_0000 * u128::from(high)
}

/// The lower and the higher half of a number.
fn halves(number: u128) -> (u64, u64)
    ensures { wide result.0 result.1 ≡ number }
{
    (
        (number % 0x1_0000_0000_0000_0000) as u64,
        (number / 0x1_0000_0000_0000_0000) as u64,
    )
}

pub(crate) fn put_region(region: Region, out: &mut CRegion)
    ensures { region_of out.new ≡ region }
{
    let (address_low, address_high) = halves(region.address);
    let (size_low, size_high) = halves(region.size);
    *out = CRegion {
        address_low,
        address_high,
        size_low,
        size_high,
        whole: region.whole,
    };
}

pub(crate) fn put_route(route: Route, out: &mut CRoute)
    ensures { route_of out.new ≡ route }
{
    let cells = route.cells;
    *out = CRoute {
        controller: route.controller,
        cells,
        len: route.len,
        hops: route.hops,
    };
}
