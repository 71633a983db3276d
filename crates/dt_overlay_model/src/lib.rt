//! Laws about applying an overlay's object to a tree where nodes that land on one path are joined: they become one node with one
//! phandle. No code.
#![tactic(auto)]

mod merging;
mod rows;

pub use merging::{
    applied_is_one, applying_is_merging, fold_is_in_turn, in_turn_is_fold, least_is_free,
    sites_are_one,
};
pub use rows::rows_are_joined;
