//! Blobs edited where they lie, as a boot loader does (libfdt's `fdt_open_into`, `fdt_setprop` and `fdt_add_subnode`): a property set, a node
//! added, a cell patched in the flat bytes, in a buffer that the caller lends. Takes no memory. A [`BlobBuf`] has bytes of its own, which grow.
#![tactic(auto)]

mod cells;
mod children;
mod finding;
mod laws;
mod layout;
mod lent;
mod moving;
mod names;
mod numbers;
mod opening;
mod owned;
mod phandles;
mod properties;
mod target;

pub use cells::has_cell;
pub use laws::{nodes_stand_between, one_outcome, one_owned_outcome};
pub use lent::{add_node, patch_cell, set_prop};
pub use opening::open_into;
pub use owned::BlobBuf;
