//! The lines of a walk through a tree.

ghost use Rattle.std.specs.Prelude.{◌≡◌, ◌<◌, ◌^◌, ◌+◌, ◌++◌, OnOk, IfErr};
ghost use Rattle.dt_read.specs.StepsLeft.{step_view};
ghost use Rattle.dt_text_writer.specs.Written.{Puts, FailsAt};
ghost use Rattle.dt_decompile.specs.Lines.{line_of, lines_of, depth_after, opened};

use crate::lines::{put_close, put_open, put_property};
use dt_names::{Fault, Sink};
use dt_read::{Step, Steps};
use dt_text_writer::Writer;

/// Writes the line of a step inside so many nodes.
fn put_step<S: Sink>(writer: &mut Writer<'_, S>, depth: usize, step: Step) -> Result<(), Fault>
    ensures written { OnOk result (Puts S.taken (line_of depth (step_view step.entry)) writer.old writer.new) }
    ensures refused { IfErr result (λ fault. FailsAt S.taken fault (line_of depth (step_view step.entry)) writer.old writer.new) }
{
    match step {
        Step::Open { name, .. } => put_open(writer, depth, name),
        Step::Property { name, value } => put_property(writer, depth, name, value),
        Step::Close => put_close(writer, depth.saturating_sub(1)),
    }
}

/// How many nodes are open at the next step.
fn depth_behind(depth: usize, step: Step) -> usize
    requires { depth + 1 < 2 ^ 64 }
    ensures { result ≡ depth_after depth (step_view step.entry) }
{
    match step {
        Step::Open { .. } => depth + 1,
        Step::Property { .. } => depth,
        Step::Close => depth.saturating_sub(1),
    }
}

/// Writes the lines of a walk that begins at the root.
pub(crate) fn put_steps<S: Sink>(writer: &mut Writer<'_, S>, steps: Steps) -> Result<(), Fault>
    requires { opened steps < 2 ^ 32 }
    ensures written { OnOk result (Puts S.taken (lines_of 0 steps.entry) writer.old writer.new) }
    ensures refused { IfErr result (λ fault. FailsAt S.taken fault (lines_of 0 steps.entry) writer.old writer.new) }
{
    let mut depth = 0usize;
    for step in steps {
        put_step(writer, depth, step)?;
        depth = depth_behind(depth, step);
    }
    Ok(())
}
