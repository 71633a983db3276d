//! The text of a blob, of DTS version 1 (Devicetree Specification v0.4, chapter 6).
//!
//! ```text
//! let blob = Blob::check(bytes)?;             // of `/dts-v1/; / { n { reg = <0 0x10>; }; };`
//! text_of(&blob, &mut out)                    // n { reg = <0x0 0x10>; }, each node and property in a line of its own
//! ```
//!
//! Such texts are cases of printed.cases (docs/CASES.md).
#![tactic(auto)]

mod cells;
mod lines;
mod reservations;
mod steps;
mod text;
mod texts;
mod value;

pub use text::text_of;
