//! The numbers of a source's nodes, and the tree under them (Devicetree Specification v0.4, 2.3.3 and 6.3). A [`Numbering`] has a
//! number, or none, for each node of a `NamedTree`, by the node's place in preorder.
//!
//! ```text
//! let numbering = number(alloc, &tree)?;              // of `/dts-v1/; / { gic: ic { }; };`
//! numbering.of(1)                                     // Some(1), the least that is left; the root, 0, has none
//! let flat = instance(alloc, &tree, &numbering)?;     // /ic has phandle = 00000001
//! ```
//!
//! It is a case of applied.cases, with the labels (docs/CASES.md).
#![tactic(auto)]

mod asked;
mod free;
mod numbered;
mod numbering;

pub use numbered::instance;
pub use numbering::{Numbering, number};
