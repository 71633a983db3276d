//! The named nodes of a grown tree: those that weren't deleted, in preorder, each with its properties and labels in the order of the text; in
//! their values references are read, to places among these nodes, and the phandles that are written differ (Devicetree Specification v0.4, 2.3.3).
//!
//! ```text
//! let nodes = named_nodes(alloc, seed, &growing, Unnamed::Refused)?; // of `/ { a { b { }; }; c { }; };`
//! nodes[3].parent;                                 // 0: /c is below the root
//! ```
//!
//! That source is a case of meanings.cases, compiled (docs/CASES.md).
#![tactic(auto)]

mod belongings;
mod contents;
mod groups;
mod listing;
mod nodes;
mod phandles;
mod values;

pub use nodes::named_nodes;
