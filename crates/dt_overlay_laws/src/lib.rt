//! Laws about applying an overlay's object to a tree, step by step: where its nodes may land, what landing them change by change
//! comes to, and why an object isn't applied. No code.
#![tactic(auto)]

mod landing;
mod outcomes;
mod writing;

pub use landing::{
    allowed_may_land, child_is_added, fragments_are_merged, landing_is_merging, nodes_are_kept,
    places_are_kept, symbols_are_merged, symbols_are_plain,
};
pub use outcomes::{
    applied_is_not_refused, limit_is_exceeded, one_refusal, refused_is_undefined, room_is_counted,
    sited_is_applied,
};
pub use writing::cells_are_written;
