//! The lines with the regions and the routes of a blob's nodes, and what one node answers to one question. A node is named by its path.
//!
//! ```text
//! regs(alloc, bytes, &mut out)?;      // /soc/bus/u@1f00 0 0x40001f00 0x100 whole
//! irqs(alloc, bytes, &mut out)?;      // /d@1234 0 /ic 0x0 0x5 0x4 hops 1
//! ```
//!
//! Both are the first cases of their tables, addresses.cases and routes.cases (docs/CASES.md).
#![tactic(auto)]

mod asking;
mod laws;
mod listing;
mod paths;
mod regions;
mod routes;
mod words;

pub use asking::ask;
pub use dt_resolve_model::Question;
pub use laws::{one_answering, one_listing};
pub use listing::{Listing, irqs, regs};
