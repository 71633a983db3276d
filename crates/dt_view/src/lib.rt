//! Trees as the resolvers of addresses and interrupts ask them. A [`TreeView`] is a `Blob`, a `FlatTree` or an [`Index`], a blob with tables
//! in which the node above, a child, the node of a phandle and the values that the rules ask for are found at once; a node is named as its
//! own crate names it, and `node_at` finds the one of a path's text.
//!
//! ```text
//! let node = node_at(&blob, b"/ab/x/y")?;     // of `/dts-v1/; / { p; a { q; }; ab { x { y { }; }; z { }; }; b@1 { }; };`
//! let above = blob.parent(node);              // that of /ab/x
//! ```
//!
//! Such looks are cases of views.cases (docs/CASES.md).
#![tactic(auto)]

mod counts;
mod index;
mod tables;
mod values;
mod ways;

pub use counts::{address_cells, cells, is_pci, one_cell};
pub use dt_read::{is_node, put_nodes_above};
pub use dt_trees::{TreeView, node_at, one_finding, tree_is_seen};
pub use index::Index;
pub use values::{cell_at, cells_after, first_cells};
pub use ways::way_to;
