//! Trees that take overlays, and the places of them on which an object's nodes land (dtc's notes on overlay objects). A [`Target`] is a
//! tree whose nodes are named by their paths, as a `FlatTree` is; [`Places`] has the places on which nodes have landed so far, each once, with
//! the number that it got, and the numbers of those nodes.
//!
//! ```text
//! target.find(&path);                                         // whether there is a node of the path
//! note_content(&tree, &object, node, &path, &mut places)?;       // what a fragment brings lands: each place once, and gets its number
//! ```
//!
//! Objects that land are cases of applied.cases (docs/CASES.md).
#![tactic(auto)]

mod flat_target;
mod looks;
mod places;
mod target;
mod texts;

pub use flat_target::tree_room_is_counted;
pub use looks::{is_bookkeeping, note_content};
pub use places::Places;
pub use target::Target;
pub use texts::{child_path, put_path};
