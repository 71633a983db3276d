//! Theorems about the text of a tree, as it is printed: it is a source, which is compiled to the tree. No code.
#![tactic(auto)]

mod lexing;
mod meaning;
mod parsing;

pub use lexing::text_has_tokens;
pub use meaning::{read_trees_hold_bytes, text_is_tree, tokens_are_source};
pub use parsing::text_is_parsed;
