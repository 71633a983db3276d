//! Applying an overlay's object to a tree (dtc's notes on overlay objects): to anything that is a [`Target`], such as a `FlatTree`, whose nodes are
//! named by their paths.
//!
//! ```text
//! let object = Blob::check(bytes)?;           // of `/dts-v1/; /plugin/; &{/} { d { q = <&gic>; }; };`
//! apply(alloc, &mut tree, &object)?;          // the base's tree then has /d, its q the number of the base's gic
//! ```
//!
//! Such bases and overlays are cases of applied.cases (docs/CASES.md).
#![tactic(auto)]

mod applying;

pub use applying::apply;
pub use dt_overlay_base::{Target, tree_room_is_counted};
