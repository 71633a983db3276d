//! The texts with which the bookkeeping nodes of an object name nodes and cells (dtc's notes on overlay objects): a value cut into texts, a cell's
//! `path:property:offset`, and a path's text with its NUL; and the cell of an object that such a text names, whatever the object is seen through. All but
//! `symbol_path` takes no memory.
//!
//! ```text
//! texts(b"/:a:0\0/:b:4\0")                        // two texts
//! cell_text(b"/fragment@0/__overlay__/d:p:1")     // the path, p, 1
//! ```
//!
//! Each is what `__fixups__` holds in a case of overlays.cases (docs/CASES.md).
#![tactic(auto)]

mod cells;
mod cuts;
mod laws;
mod reading;

pub use cells::cell_at;
pub use cuts::{Texts, cut};
pub use laws::{cell_texts_are_texts, one_symbol_path, texts_are_one};
pub use reading::{CellText, cell_text, decimal, has_cell, is_path_value, symbol_path, texts};
