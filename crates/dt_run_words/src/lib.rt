//! The words of the tool's command line, and what they ask for. A [`Line`] is a job, whether its blob is written in hexadecimal, and the names
//! of its files; a job that asks one node has the node's path and the other words of its question.
//!
//! ```text
//! line(alloc, &["dtool", "compile", "--hex", "a.dts"])    // Ok: Job::Compile, in hexadecimal, of a.dts
//! line(alloc, &["dtool", "compile"])                      // clap's error: a file is missing
//! ```
//!
//! Both are among the tests of dtool.
#![tactic(auto)]

mod command_line;
mod commands;
mod laws;
mod words;

pub use command_line::{Job, Line};
pub use laws::one_line;
pub use words::{LineFault, line};
