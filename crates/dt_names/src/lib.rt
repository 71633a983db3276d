//! What the other crates speak with: names of nodes and properties, labels, paths and phandles, the limits and the faults, and streams of
//! bytes that fail for good. A name, a label and a [`PathRef`] borrow the bytes that were taken as one; a [`Path`] owns its text, and has at
//! most 64 names; a [`Fault`] is a kind and, where it has one, a place in bytes.
//!
//! ```text
//! let path = Path::parse(alloc, b"/soc/uart@10")?;    // two names, soc and uart@10
//! path.push(&NodeName::new(b"port")?)?;
//! Path::parse(alloc, b"/soc/");                       // fault 49 BadName
//! ```
//!
//! The first and the last are cases of names.cases (docs/CASES.md).
#![tactic(auto)]

mod fault;
mod key;
mod laws;
pub mod limits;
mod name;
mod path;
mod phandle;
mod seed;
mod stream;

pub use fault::{Fault, FaultKind};
pub use key::NameKey;
pub use laws::{one_outcome, one_path};
pub use name::{Label, NodeName, PropName, is_bookkeeping_name};
pub use path::{Path, PathNames, PathRef};
pub use phandle::phandle_of;
pub use seed::Seed;
pub use stream::{Feed, In, Out, Sink, put_all};

/// A node by its number: in a tree that is built, nodes are numbered in the order in which they were made; in a `NamedTree`, a node's
/// number is its place in preorder; in a blob, it is the place of its BEGIN_NODE, in bytes from the front of the blob.
pub type NodeId = usize;
