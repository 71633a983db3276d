//! The tokens of devicetree source (Devicetree Specification v0.4, chapter 6).
//!
//! A text is read from left to right in one of three modes: names stand at its start and after `{`, `;`, `/delete-node/` and
//! `/delete-property/`; bytes stand between `[` and `]`; integers, characters and texts stand elsewhere. Blanks, comments and
//! line markers are skipped. At each place the first rule that has a word there gives the token, which is as long as it can
//! be; where no rule has one, the text has its first fault. A [`Token`] is its kind, with the number of an integer, and its first and last place
//! in the text.
//!
//! ```text
//! tokens(alloc, b"n = <0x1F>;")       // Ok: a name at 0..1, the mark `=` at 2..3, `<`, the integer 31 at 5..9, `>`, `;`
//! tokens(alloc, b"/include/")         // fault 11 BadToken at 0
//! ```
//!
//! Such texts are cases of tokens.cases (docs/CASES.md).
#![tactic(auto)]

mod byte;
mod cut;
mod label;
mod laws;
mod leader;
mod letter;
mod lexer;
mod number;
mod outcome;
mod piece;
mod quoted;
mod rule;
mod token;
mod word;

pub use laws::{one_answer, one_outcome, texts_are_read};
pub use letter::push_text;
pub use lexer::tokens;
pub use token::{Keyword, Mark, Token, TokenKind, keyword_bytes, mark_bytes};
