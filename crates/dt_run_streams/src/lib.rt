//! The edges of a run, over any files and any sinks: the files that it loads, what it prints of a blob or of a fault, and all bytes of an
//! input. Files are named by texts, and [`Files`] says what asking for one answers; [`SystemFiles`] are the system's.
//!
//! ```text
//! let texts = load_all(alloc, &mut files, &["base.dtb", "stdin"])?;   // in this order; a second `stdin` is empty
//! check(&texts[0], &mut out)?;                                        // ok nodes 225 properties 1448 reservations 0
//! report(&mut err, 0, Fault::at(FaultKind::Syntax, 7))                // dtool: input 0: fault 12 Syntax at 7
//! ```
//!
//! Such files and reports are in the tests of dtool.
#![tactic(auto)]

mod checking;
mod files;
mod input;
mod laws;
mod printing;
mod prompt;
mod reporting;
mod text;

pub use checking::check;
pub use files::{Files, SystemFiles, load_all};
pub use input::read_all;
pub use laws::one_report;
pub use printing::print;
pub use prompt::Prompt;
pub use reporting::report;
