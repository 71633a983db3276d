//! Routes of interrupts from the nodes that send them to their controllers, and of other specifiers to their providers (Devicetree Specification
//! v0.4, 2.4 and 2.5), over any `TreeView`, whose nodes they are asked of. A [`Route`] is the node at its end, the specifier there, at most
//! eight cells, and how many maps it went through.
//!
//! ```text
//! let node = node_at(&view, b"/d@1234")?;
//! route(&view, node, 0)                                           // Ok: /ic, 0 5 4, one hop
//! specifier_route(&view, node, b"led-gpios", b"gpio", 0)          // where its GPIO is
//! specifier_at(&view, node, b"led-gpios", b"gpio", 12)            // where that is whose phandle begins at byte 12 of the list
//! ```
//!
//! The first is the first case of routes.cases, with its source; the other has cases in specifiers.cases (docs/CASES.md).
#![tactic(auto)]

mod hops;
mod lists;
mod parents;
mod providers;
mod reached;
mod routing;
mod rows;
mod sending;
mod spaces;

pub use providers::{specifier_at, specifier_route};
pub use reached::Route;
pub use routing::{Routes, interrupt_at, route};
