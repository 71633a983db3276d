//! Where what an object's fragments bring lands, under which numbers, and the landing itself (dtc's notes on overlay objects). A site is the path of a node
//! of the tree, one for each fragment; all sites are found before anything is changed.
//!
//! ```text
//! find_sites(&tree, &object, &mut landing)?;      // of `/plugin/; &{/} { d { }; };`: the root
//! number_all(&mut landing, &mut object);
//! renumber(&mut object);
//! land_all(&mut tree, &object, &landing)?;        // /d is there
//! set_symbols(&mut tree, &object, &mut landing)?;
//! ```
//!
//! That object lands in a case of applied.cases (docs/CASES.md).
#![tactic(auto)]

mod landing;
mod marks;
mod numbers;
mod sites;
mod symbol_landing;
mod values;

pub use landing::land_all;
pub use numbers::{number_all, renumber};
pub use sites::find_sites;
pub use symbol_landing::set_symbols;
