//! Theorems about the flattened format alone (Devicetree Specification v0.4, chapter 5): bytes that are no blob have one first fault,
//! and a blob has none. They stand apart from `dt_model` so that they aren't checked again with each crate that uses its definitions. No
//! code.
#![tactic(auto)]

mod laws;

pub use laws::{blob_has_no_fault, damaged_blobs, first_fault_is_one, name_tests};
