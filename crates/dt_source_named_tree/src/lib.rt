//! Trees that sources mean: their nodes have no numbers yet, and references stand in their values (Devicetree Specification
//! v0.4, chapter 6). A [`NamedTree`] is a list of its nodes in preorder, each with the place of its parent, which is how a node is named: the
//! root is 0. `dt_source` makes it of a source, and gives the references in it such places; `dt_phandle` makes numbers of them.
//!
//! ```text
//! let nodes = tree.nodes();               // of `/dts-v1/; / { a: b { c = <&a>; }; };` the root, and b at 1
//! nodes[1].properties                     // c, a reference to 1
//! ```
//!
//! It is a case of meanings.cases, compiled (docs/CASES.md).
#![tactic(auto)]

mod named;

pub use named::{NamedNode, NamedPiece, NamedProperty, NamedReference, NamedTree, NamedValue};
