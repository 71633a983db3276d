//! Addresses of a tree's nodes as the root's bus has them, which are the CPU's (Devicetree Specification v0.4, 2.3), over any `TreeView`,
//! whose nodes they are asked of. A [`Region`] is an address, a size, and whether the whole of it is mapped there.
//!
//! ```text
//! let node = node_at(&view, b"/soc/bus/u@1f00")?;
//! region(&view, node, 0)                          // Ok: 0x40001f00, 0x100, whole
//! dma_region(&view, node, 0x80000010, 16)         // what the device reaches there
//! ```
//!
//! The first is the first case of addresses.cases, with its source; DMA has its own in dma.cases (docs/CASES.md).
#![tactic(auto)]

mod cells;
mod dma;
mod listing;
mod translating;

pub use dma::dma_region;
pub use listing::{Regions, region};
