//! A devicetree in memory that can be changed: an ordered tree of nodes with byte values (Devicetree Specification v0.4, chapter 2), built
//! node by node and property by property. In the field's words it is *unflattened*, for a flat tree is a blob: a [`FlatTree`] has its name from
//! being one that a blob may hold, within the limits on nodes and depth. `dt_write` makes a blob of it, and `dt_read` makes it of a blob. A
//! node is named by its number, in the order in which nodes were made; the root is 0.
//!
//! ```text
//! let mut tree = FlatTree::new(alloc, 0);
//! let uart = tree.add_node(tree.root(), &NodeName::new(b"uart@10")?)?;    // 1
//! tree.set_prop(uart, &PropName::new(b"reg")?, &[0, 0, 0, 16])?;
//! tree.child(tree.root(), b"uart@10")                                     // Some(1)
//! ```
//!
//! Such changes, and what then is read, are cases of trees.cases (docs/CASES.md).
#![tactic(auto)]

mod chain;
mod children;
mod keys;
mod laws;
mod names;
mod nodes;
mod phandles;
mod places;
mod planting;
mod properties;
mod recent;
mod tree;
mod values;
mod ways;

pub use children::Children;
pub use dt_names::NodeId;
pub use laws::{
    after_a_child, after_a_property, changes_by_path, nodes_are_counted, one_outcome,
    reading_by_path,
};
pub use planting::{may_be_planted, planted_reads};
pub use properties::Props;
pub use recent::RecentNumbers;
pub use tree::FlatTree;
