//! What devicetree sources, blobs and names mean: definitions, and the laws that hold of them. It has no code of the
//! product; every other crate's contracts speak in its words.
#![tactic(auto)]

mod laws;
mod rows;

pub use laws::{nested_places, one_reading};
