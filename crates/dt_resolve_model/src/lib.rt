//! Addresses, and routes of interrupts and of other specifiers, in the standard's words (Devicetree Specification v0.4, 2.3 to 2.5): what they are
//! in a blob's tree, what a source's meaning determines of them, and that each blob of the meaning has it so. No code but the parts that contracts share.
#![tactic(auto)]

mod laws;
mod questions;
mod regions;
mod rows;

pub use laws::{
    entries_are_at_their_bytes, faults_are_named, meaning_is_resolved, parent_is_one, route_is_one,
    written_numbers_are_found,
};
pub use questions::Question;
pub use regions::{BusAddress, BusCells, RangeCells, Region};
pub use rows::{
    addresses_at_the_end, addresses_of_a_board, addresses_sent_by_a_device,
    numbers_used_as_phandles, parents_in_circles, routes_through_a_nexus, specifiers_compared_late,
    specifiers_that_go_round, specifiers_through_a_connector,
};
