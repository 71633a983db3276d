//! The cells that the bookkeeping nodes of an object list, by labels and by nodes (dtc's notes on overlay objects). Nothing here takes memory. A
//! [`ListedCell`] is a node of the `Blob`, by its place, one of its properties, and an offset in that one's value.
//!
//! ```text
//! for cell in fixups(&blob) { .. }                // each cell by a label, or why its text is off
//! for cell in local_fixups(&blob) { .. }          // each cell that holds a number of the object's own nodes
//! ```
//!
//! Such lists are cases of overlays.cases (docs/CASES.md).
#![tactic(auto)]

mod laws;
mod listed;
mod listed_fixups;
mod listed_locals;
mod objects;

pub use laws::one_list;
pub use listed::ListedCell;
pub use listed_fixups::Fixups;
pub use listed_locals::LocalFixups;
pub use objects::{fixups, local_fixups};
