//! The grammar of DTS version 1 (Devicetree Specification v0.4, chapter 6), and theorems about it alone: that tokens say one
//! thing at most, that the descent with one token of look-ahead reads it exactly, and which fault shows first. They stand
//! apart from the code that reads a source, so that they aren't checked again with it.
#![tactic(auto)]

mod laws;

pub use laws::{
    descent_is_exact, one_expression, one_fault, one_number, one_reference, one_relaxed,
    one_source, one_value, source_has_no_fault, source_has_places, source_is_checked,
    source_is_nested, syntax_is_where_none_goes_on,
};
