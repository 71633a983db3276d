//! Sources of devicetree: the grammar of DTS version 1 (Devicetree Specification v0.4, chapter 6). It answers a `Source`
//! (dt_source_items), or the first fault and its place.
//!
//! ```text
//! let source = parse(alloc, b"/dts-v1/; / { a: b { c = <(1 + 2) &a>; }; };")?;
//! source.is_overlay()                     // false; source.items() are what it says, in its order
//! ```
//!
//! Such a source is a case of grammar.cases, with the items that it says (docs/CASES.md).
#![tactic(auto)]

mod body;
mod cursor;
mod expression;
mod laws;
mod number;
mod parser;
mod referring;
mod seeding;
mod statement;
mod stop;
mod value;

pub use dt_source_items::{Form, Item, Items, Piece, Reference, Reservation, Source, Value};
pub use laws::{one_outcome, parsed_has_places};
pub use parser::parse;
