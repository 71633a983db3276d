//! A run of the program, from what the words of the command line ask for on.

ghost use Rattle.std.specs.Prelude.{◌≡◌, OnOk, IfOk, IfErr, length, map};
ghost use Rattle.dt_run.specs.Run.{Ending, Ends, IsDone, IsMadeOf, IsReported, IsSaid, WhyNotDone, WhyNotMadeOf, faulty, file_names, no_command, status_of};
ghost use Rattle.dt_run_streams.specs.Report.{fault_line};

use crate::job::perform;
use clap::Error;
use dt_names::{Fault, FaultKind, Sink, put_all};
use dt_run_streams::{Files, load_all, report};
use dt_run_words::{Line, LineFault};
use std::alloc::{AllocError, Global};
use std::fmt::Display;

/// Loads the files of a line in order, before anything else, and does its job on them. Answers the exit status: 0; 1 at a fault, which
/// is reported on `err` in a line of its own; 2 where the words are no command or ask for help or the version, and then `err` gets clap's text. An
/// `err` that fails doesn't change the status.
pub fn run<'a, F: Files, O: Sink, E: Sink>(
    alloc: Global,
    line: Result<Line<'a>, LineFault>,
    files: &mut F,
    out: &mut O,
    err: &mut E,
) -> u8
    ensures { (ending : Ending) × (result ≡ status_of ending)
        × Ends F.loads files.old files.new line.entry (O.taken out.old) (O.taken out.new) ending
        × IsReported (⟦<Error as Display>⟧.output) ending (E.taken err.old) (E.taken err.new) }
{
    match line {
        Ok(line) => match work(alloc, &line, files, out) {
            Ok(()) => 0,
            Err((input, fault)) => tell(err, input, fault),
        },
        Err(LineFault::Memory) => tell(err, 0, Fault::of(FaultKind::NoMemory)),
        Err(LineFault::Words(error)) => tell_words(alloc, err, &error),
    }
}

/// Does the job of a line on its files.
fn work<F: Files, O: Sink>(
    alloc: Global,
    line: &Line<'_>,
    files: &mut F,
    out: &mut O,
) -> Result<(), (usize, Fault)>
    ensures done { OnOk result (IsDone F.loads files.old files.new line.now (O.taken out.old) (O.taken out.new)) }
    ensures refused { IfErr result (λ e. WhyNotDone F.loads files.old files.new line.now (O.taken out.old) (O.taken out.new) e.0 e.1) }
{
    let texts = load_all(alloc, files, line.files.as_slice())?;
    answer(alloc, line, texts.as_slice(), out)
}

/// Does it on the texts of its files.
fn answer<O: Sink>(
    alloc: Global,
    line: &Line<'_>,
    texts: &[Vec<u8>],
    out: &mut O,
) -> Result<(), (usize, Fault)>
    requires { length texts.now ≡ length (file_names line.now) }
    ensures done { OnOk result (IsMadeOf line.now (map (λ text. text.items) texts.now) (O.taken out.old) (O.taken out.new)) }
    ensures refused { IfErr result (λ e. WhyNotMadeOf line.now (map (λ text. text.items) texts.now) (O.taken out.old) (O.taken out.new) e.0 e.1) }
{
    match slices(alloc, texts) {
        Ok(inputs) => perform(alloc, line.job, line.hex, inputs.as_slice(), out),
        Err(_) => Err((0, Fault::of(FaultKind::NoMemory))),
    }
}

/// The bytes of the texts.
fn slices<'a>(alloc: Global, texts: &'a [Vec<u8>]) -> Result<Vec<&'a [u8]>, AllocError>
    ensures { IfOk result (λ inputs. map (λ input. input.now) inputs.items ≡ map (λ text. text.items) texts.entry.now) }
{
    texts.iter().map(|text| text.as_slice()).collect(alloc)
}

/// Tells a fault of an input, and answers the exit status.
fn tell<E: Sink>(err: &mut E, input: usize, fault: Fault) -> u8
    ensures status { result ≡ 1 }
    ensures said { IsSaid (fault_line input fault) (E.taken err.old) (E.taken err.new) }
{
    let _ = report(err, input, fault);
    1
}

/// Tells clap's text, and answers the exit status.
fn tell_words<E: Sink>(alloc: Global, err: &mut E, error: &Error) -> u8
    ensures status { result ≡ 2 }
    ensures said { IsReported (⟦<Error as Display>⟧.output) (no_command error.now) (E.taken err.old) (E.taken err.new) }
{
    if let Ok(text) = error.to_string(alloc) {
        let _ = put_all(err, text.as_bytes());
    }
    2
}
