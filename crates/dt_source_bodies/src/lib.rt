//! The items of a source, read into a tree that grows: its bodies merged, its deletions done (Devicetree Specification v0.4, chapter 6); of an overlay's source
//! each block that opens no node of its own opens the content of a new fragment (dtc's notes on overlay objects).
//!
//! ```text
//! let growing = grow(alloc, source.seed(), Mode::Base, source.items())?; // of `/ { a { }; l: b { }; };`
//! growing.labelled(b"l");                                                // Some(2), the index of /b
//! ```
//!
//! That source is a case of meanings.cases, compiled (docs/CASES.md).
#![tactic(auto)]

mod arena;
mod overlaying;
mod reading;

pub use arena::Arena;
pub use overlaying::grow_overlay;
pub use reading::{Mode, grow};
