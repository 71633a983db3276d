//! What is kept of an overlay's object while it is applied (dtc's notes on overlay objects). An [`Object`] has its tree, its fragments, the cells that get
//! numbers, its labels, and which fragment brings a node; its tree is any view, by whose numbers a node is named. A [`Landing`] has its sites, and the
//! places on which its nodes land. dt_overlay_read fills the one, dt_overlay_landing the other, and lands what they say.
//!
//! ```text
//! let mut brought = Brought::new(alloc, seed);
//! bring_all(&tree, &fragments, &mut brought)?;     // of `/plugin/; &{/} { d { }; };`
//! brought.brings(&tree, node);                     // the content and /d: true; the others: false
//! ```
//!
//! That object is a case of overlays.cases, and it lands in one of applied.cases (docs/CASES.md).
#![tactic(auto)]

mod brought;
mod kept;
mod landing;
mod object;

pub use brought::{Brought, bring_all};
pub use kept::{ObjectFragment, ObjectTarget, Symbol, Write};
pub use landing::{Landing, SymbolsPath};
pub use object::Object;
