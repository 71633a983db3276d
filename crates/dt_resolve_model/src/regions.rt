//! Regions of addresses.

/// The cells that an address and a size have on a bus (Devicetree Specification v0.4, 2.3.5).
#[derive(Clone, Copy, PartialEq, Eq)]
pub struct BusCells {
    pub address: u32,
    pub size: u32,
}

/// The cells of a range's parts: of the address on the bus, of that on the bus above, and of the length (2.3.8).
#[derive(Clone, Copy)]
pub struct RangeCells {
    pub child: u32,
    pub above: u32,
    pub length: u32,
}

/// An address of some bus on its way up to the root's, and whether the whole size is mapped with it.
#[derive(Clone, Copy)]
pub struct BusAddress {
    pub address: u128,
    pub whole: bool,
}

/// A region of the root's bus: the address that the CPU uses, the size in bytes, and whether the whole of it is mapped there without a break.
#[derive(Clone, Copy, PartialEq, Eq)]
pub struct Region {
    pub address: u128,
    pub size: u128,
    pub whole: bool,
}
