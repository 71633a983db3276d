//! A tree under construction, as the items of a source make it grow: nodes, properties and labels in the order in which they were met, what of them
//! stands once some were deleted, and the nodes to which references refer by then (Devicetree Specification v0.4, chapter 6).
//!
//! ```text
//! let mut growing = Growing::new(alloc, seed, items)?;
//! growing.open_root()?;                                                // `/ {`, the item 0
//! let (child, _) = growing.open_child(0, NameText::Written(b"n"), 1)?; // `n {`, the item 1
//! growing.give(b"l", child)?;                                          // `l:`
//! ```
//!
//! A node is named by its index, in the order in which nodes were opened; nothing is walked but a path. dt_source_bodies makes
//! such a tree of a source's items, and
//! dt_source_nodes its named nodes.
//!
//! A source with these items is a case of meanings.cases, compiled (docs/CASES.md).
#![tactic(auto)]

mod changing;
mod growing;
mod referring;
mod table;

pub use growing::{Giving, Growing, NameText, Node, Property, PropertyValue};
pub use referring::Unnamed;
pub use table::{Last, NameTable, Table};
