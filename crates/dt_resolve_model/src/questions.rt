//! What is asked of one node.

/// What is asked of a node.
#[derive(Clone, Copy)]
pub enum Question<'a> {
    /// Where an address and a size, in bytes, that it puts on its bus for DMA are on the root's bus (Devicetree Specification v0.4, 2.3.9).
    Dma {
        address: u128,
        size: u128,
    },
    /// Where the specifier of an index in a property, which is a list of phandles with specifiers of a kind such as `gpio`, comes to (2.5).
    Specifier {
        property: &'a [u8],
        kind: &'a [u8],
        index: u64,
    },
}
