//! An overlay's object, read as what it does to a base (dtc's notes on overlay objects): its fragments with their targets, the cells that wait for labels of
//! the base, those that hold numbers of its own nodes, and its labels; or the first thing that is wrong with it.
//!
//! ```text
//! read(&tree, &landing, &mut object)?; // of `/plugin/; &{/} { d { }; }; &gic { };`
//! object.fragments;                    // two
//! ```
//!
//! That object is a case of overlays.cases (docs/CASES.md).
#![tactic(auto)]

mod fixups;
mod fragments;
mod local_fixups;
mod reading;
mod symbols;

pub use reading::read;
