//! What a source of a devicetree means, as one tree: its bodies merged, its deletions done, its references read
//! (Devicetree Specification v0.4, chapter 6). It is a `NamedTree` (dt_source_named_tree), for an overlay's source with its fragments.
//!
//! ```text
//! let source = parse(alloc, b"/dts-v1/; / { a = <1>; n { p; }; }; / { c; n { q; }; };")?;
//! let tree = build_base(alloc, &source, Mode::Base)?;     // /: a, c; /n: p, q
//! ```
//!
//! Such a source is a case of meanings.cases (docs/CASES.md). A source's items grow into a tree (dt_source_growing,
//! dt_source_bodies), from which named nodes are made
//! (dt_source_nodes); here they become a tree, or why not.
#![tactic(auto)]

mod building;
mod laws;
mod overlays;

pub use building::build_base;
pub use dt_source_bodies::Mode;
pub use dt_source_fragments::{Fragment, SourceTarget};
pub use laws::{one_outcome, one_overlay_outcome};
pub use overlays::{NamedOverlay, build_overlay};
