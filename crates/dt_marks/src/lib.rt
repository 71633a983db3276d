//! What the blob of a source's tree keeps beside it: its labels, and the cells of an overlay (dtc's notes on overlay objects). Both are
//! added to a `FlatTree` that is the instance of a `NamedTree`, as children of the root.
//!
//! ```text
//! add_symbols(alloc, &mut flat, &tree)?;      // of `/dts-v1/; / { gic: ic { }; };` /__symbols__ has gic = "/ic"
//! add_fixups(alloc, &mut flat, &tree)?;       // of an overlay also /__fixups__ and /__local_fixups__
//! ```
//!
//! The first is a case of applied.cases (docs/CASES.md).
#![tactic(auto)]

mod cells;
mod fixup_texts;
mod laws;
mod mirror;
mod overlays;
mod paths;
mod symbols;
mod waiting;

pub use laws::one_outcome;
pub use overlays::add_fixups;
pub use symbols::add_symbols;
