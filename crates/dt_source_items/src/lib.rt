//! What a source of a devicetree says, item by item, in the order of its text (Devicetree Specification v0.4, chapter 6). A [`Source`] is
//! what `dt_parse::parse` answers: whether it is an overlay's, its memory reservations, and its items, which are nodes that open and close,
//! labels, properties and deletions. Names and bytes are parts of the text.
//!
//! ```text
//! let items = source.items();             // of `/dts-v1/; / { a: b { c = <1>; }; };`
//! for index in 0..items.len() {
//!     match items.get(index) { .. }       // the root opens, b opens, the label a, c, b closes, the root closes
//! }
//! ```
//!
//! Such sources are cases of grammar.cases (docs/CASES.md).
#![tactic(auto)]

mod items;
mod source;

pub use items::{Bare, Items};
pub use source::{Form, Item, Piece, Reference, Reservation, Source, Value};
