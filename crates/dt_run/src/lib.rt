//! A run of the tool, from the words of its command line on: the line that they ask for, the files that it names, the job that is done on
//! them, and how a fault is reported. It is proved over any [`Files`] and any sinks; `dtool` gives it the system's.
//!
//! ```text
//! run(alloc, line(alloc, words), &mut files, &mut out, &mut err)
//! // the exit status: 0; 1 at a fault, which err gets as `dtool: input 0: fault 24 UnresolvedReference`; 2 where the words are no command
//! ```
//!
//! Such runs are tests of dtool.
#![tactic(auto)]

mod job;
mod laws;
mod running;
mod showing;
mod task;

pub use dt_run_streams::{Files, Prompt, SystemFiles, load_all, report};
pub use job::perform;
pub use laws::one_outcome;
pub use running::run;
pub use task::{Making, Report, Task, task_of};
