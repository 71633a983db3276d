//! What the tool does with its inputs.

ghost use Rattle.std.specs.Prelude.{◌∷◌, [], Bool, List, ℕ, length, map, OnOk, IfOk, IfErr};
ghost use Rattle.dt_names.specs.Sink.{Takes};
ghost use Rattle.dt_run.specs.Job.{IsWritten, WhyNotDoneBy, WhyNotPerformed};
ghost use Rattle.dt_run.specs.Showing.{HasInputs, WhyInput};
ghost use Rattle.dt_run.specs.Task.{IsMade, IsReport};
ghost use Rattle.dt_run.specs.declared.task.Task.TheVariants.{Report as ReportTask};
ghost use Rattle.dt_run_words.specs.Asked.{IsAsked};

use crate::showing::{of_first, show};
use crate::task::{Making, Report, Task, task_of};
use dt_chain::{apply_list, build, compile, compile_raw};
use dt_names::{Fault, Sink};
use dt_resolve_lines::{ask, irqs, regs};
use dt_run_streams::{check, print};
use dt_run_words::Job;
use std::alloc::Global;

/// The blob that is made of the inputs.
fn make(alloc: Global, making: Making, inputs: &[&[u8]]) -> Result<Vec<u8>, (usize, Fault)>
    requires { HasInputs making (length inputs.now) }
    ensures made { IfOk result (λ blob. IsMade making (map (λ input. input.now) inputs.now) blob.items) }
    ensures refused { IfErr result (λ e. WhyInput making (map (λ input. input.now) inputs.now) e.0 e.1) }
{
    let (first, others) = (inputs[0], &inputs[1..]);
    match making {
        Making::Compile => of_first(compile(alloc, first)),
        Making::CompileRaw => of_first(compile_raw(alloc, first)),
        Making::Apply => apply_list(alloc, first, others),
        Making::Build => build(alloc, first, others),
    }
}

/// Writes what is reported of a blob.
#[inline(never)]
fn put_report<S: Sink>(alloc: Global, report: Report, blob: &[u8], out: &mut S) -> Result<(), Fault>
    ensures written { OnOk result ((bytes : List ℕ) × IsReport report blob.now bytes × Takes bytes (S.taken out.old) (S.taken out.new)) }
    ensures refused { (hex : Bool) → IfErr result
        (λ e. WhyNotDoneBy (ReportTask report) 0 e.kind e.at hex (blob.now ∷ []) (S.taken out.old) (S.taken out.new)) }
{
    match report {
        Report::Print => print(blob, out),
        Report::Check => check(blob, out),
        Report::Regs => regs(alloc, blob, out),
        Report::Irqs => irqs(alloc, blob, out),
    }
}

/// Does a job on its inputs, and writes what it makes: a blob as bytes, or with `hex` as lower-case hexadecimal and a
/// line feed; or text, whatever `hex`.
///
/// # Errors
///
/// A refusal names the input, counted from 0. A sink that fails, and memory that is refused while hexadecimal is made, are of
/// input 0, without a place.
/// Nothing is written but at `WriteFault`, where the sink took a front of what was to be written.
pub fn perform<S: Sink>(
    alloc: Global,
    job: Job<'_>,
    hex: bool,
    inputs: &[&[u8]],
    out: &mut S,
) -> Result<(), (usize, Fault)>
    requires { IsAsked job (length inputs.now) }
    ensures written { OnOk result ((bytes : List ℕ) × IsWritten job.entry hex (map (λ input. input.now) inputs.now) bytes
        × Takes bytes (S.taken out.old) (S.taken out.new)) }
    ensures refused { IfErr result (λ e. WhyNotPerformed e.0 e.1.kind e.1.at job.entry hex (map (λ input. input.now) inputs.now)
        (S.taken out.old) (S.taken out.new)) }
{
    match task_of(job) {
        Task::Make(making) => show(alloc, hex, make(alloc, making, inputs), out),
        Task::Report(report) => of_first(put_report(alloc, report, inputs[0], out)),
        Task::Ask { path, question } => of_first(ask(alloc, inputs[0], path, question, out)),
    }
}
