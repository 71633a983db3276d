//! `dtool`, a tool for devicetrees: `dtool compile [--hex] [--raw] FILE` makes a blob of a devicetree source, an object of an
//! overlay's source; `dtool apply [--hex] BASE [OVERLAY..]` applies the objects of overlays to a base's blob; `dtool build [--hex]
//! BASE [OVERLAY..]` makes a blob of a base's source with the overlays of other sources applied; `dtool print FILE` writes the source
//! of a blob; `dtool check FILE` checks a blob and counts what it holds; `dtool regs FILE` and `dtool irqs FILE` print its addresses and
//! the routes of its interrupts; and `dtool dma FILE PATH ADDRESS SIZE` and `dtool spec FILE PATH PROP KIND INDEX` what one node reaches by
//! DMA, and where a specifier of it comes to.
//!
//! The word `stdin` in place of a file is standard input, which is read once: a second one is empty. The exit status is 0, 1 at
//! a fault of an input, which is reported on standard error with the input's number, counted from 0, or 2 where the words of the
//! command line aren't a command.
#![tactic(auto)]

#[cfg(test)]
mod tests;

use dt_names::Out;
use dt_run::{Prompt, SystemFiles, run};
use dt_run_words::{Line, LineFault, line};
use std::io::ErrorKind;
use std::process::ExitCode;
use std::{env, io};

/// The words of the command line. The first is the program's name.
fn given(rt: &HostRuntime) -> io::Result<Vec<String>> {
    Ok(env::args(rt)?.collect(rt.alloc())?)
}

/// Does what a line asks for, on the system's files and streams; the exit status.
fn run_line(rt: &HostRuntime, asked: Result<Line<'_>, LineFault>) -> u8 {
    run(
        rt.alloc(),
        asked,
        &mut SystemFiles::new(rt),
        &mut Out::new(Prompt::new(rt.stdout())),
        &mut Out::new(rt.stderr()),
    )
}

/// Does what the words of the command line ask for.
fn main(rt: HostRuntime) -> ExitCode {
    let words = given(&rt);
    ExitCode::from(match &words {
        Ok(words) => run_line(&rt, line(rt.alloc(), words.as_slice())),
        Err(error) if error.kind() == ErrorKind::OutOfMemory => run_line(
            &rt,
            Err(LineFault::Memory),
        ),
        Err(error) => {
            let _ = rt.eprintln(error);
            2
        }
    })
}
