//! The fragments of an overlay's source: the names that new ones get, the targets that they hold, and that what they bring
//! refers to nothing that no fragment brings (dtc's notes on overlay objects).
//!
//! ```text
//! let names = fragment_names(alloc, seed, source.items(), 1)?;    // of `/dts-v1/; /plugin/; &{/} { d { }; };`: fragment@0
//! let fragments = checked_fragments(alloc, tree.nodes())?;        // one, of node 1; its target is the path `/`
//! ```
//!
//! That source is a case of overlays.cases, compiled (docs/CASES.md).
#![tactic(auto)]

mod brought;
mod fragments;
mod new_names;

pub use brought::checked_fragments;
pub use fragments::{Fragment, SourceTarget};
pub use new_names::fragment_names;
