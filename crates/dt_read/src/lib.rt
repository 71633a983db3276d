//! The checked reader of flattened devicetree blobs (Devicetree Specification v0.4, chapter 5). A [`Blob`] is bytes that were checked once,
//! whole; every look at it then gives parts of them, without memory. A node is named by its place, the offset of its first token in the
//! blob: `root`, `child`, `children` and `next_sibling` give it, and so does each step of a walk.
//!
//! ```text
//! let blob = Blob::check(bytes)?;                         // of the blob of `/dts-v1/; / { a = <1>; n { }; };`
//! let node = blob.child(blob.root(), b"n");               // Some(place)
//! let value = blob.value(blob.root(), b"a");              // Some([0, 0, 0, 1])
//! ```
//!
//! Such blobs, damaged and whole, are cases of blobs.cases (docs/CASES.md).
#![tactic(auto)]

mod blob;
mod block_bytes;
mod blocks;
mod counts;
mod cursor;
mod cuts;
mod distinct;
mod fault;
mod filter;
mod flatten;
mod header;
mod keys;
mod known;
mod laws;
mod name;
mod open_nodes;
mod parts;
mod phandle;
mod property;
mod reservations;
mod scan;
mod spans;
mod steps;
mod structure;
mod token;
mod tree_view;
mod walk;

pub use blob::Blob;
pub use block_bytes::{reservation_bytes, strings_bytes, structure_bytes};
pub use counts::Counts;
pub use cuts::{Cut, end_cut, property_cut};
pub use dt_names::NodeId;
pub use laws::{one_answer, placed_is_read};
pub use open_nodes::OpenNodes;
pub use reservations::Reservations;
pub use spans::{PropertySpans, Span, name_span, property_spans, value_span};
pub use steps::{NodeStep, NodeSteps, Step, Steps};
pub use tree_view::{is_node, put_nodes_above};
pub use walk::{Children, Props};
