//! Trees as their readers see them, whatever holds them. A [`TreeView`] is a `Blob` of dt_read, an `Index` of dt_view or a `FlatTree`; a node is named as
//! its own crate names it, and `node_at` finds the one of a path's text.
//!
//! ```text
//! let node = node_at(&tree, b"/ab/x/y")?;     // of `/dts-v1/; / { p; a { q; }; ab { x { y { }; }; z { }; }; b@1 { }; };`
//! let above = TreeView::parent(&tree, node);  // that of /ab/x
//! ```
//!
//! Such looks are cases of views.cases (docs/CASES.md).
#![tactic(auto)]

mod finding;
mod flat;
mod laws;
mod view;

pub use finding::{node_at, node_of};
pub use laws::{one_finding, tree_is_seen};
pub use view::{Prop, TreeView};
