//! Theorems about the definitions of dt_model alone: what is true of each meaning that a source has, and of the trees that sources are
//! compiled to. They stand apart from dt_model so that they aren't checked again with each crate that uses the definitions.
#![tactic(auto)]

mod compiled;
mod laws;
mod lists;
mod named;
mod objects;
mod overlay_checks;
mod overlay_sources;
mod overlay_trees;
mod premises;
mod samples;
mod sources;

pub use compiled::{
    compiled_base_represents, compiled_is_not_refused, compiled_tree_is_one,
    compiled_tree_is_valid, refusal_is_one,
};
pub use laws::merged_is_a_meaning;
pub use lists::least_numbers_are_one;
pub use named::{
    instance_is_meant, instance_is_valid, least_is_low, list_is_of_its_tree, many_stand,
    meant_is_named, named_is_not_refused, nodes_are_shallow, root_stands, tree_is_meant,
};
pub use objects::{object_encodes, object_is_valid};
pub use overlay_checks::{checked_overlay_is_meant, nodes_are_behind, overlay_values_are_plain};
pub use overlay_sources::{
    overlay_is_one, overlay_is_placed, overlay_nodes_are_shallow, overlay_refusal_is_one,
};
pub use overlay_trees::{
    named_overlay_is_not_refused, named_overlay_is_one, object_is_one, overlay_is_named,
};
pub use sources::{
    fragment_is_new, label_is_one_nodes, order_is_one, overlay_source_is_an_overlay,
    second_in_one_body, source_is_a_meaning,
};
