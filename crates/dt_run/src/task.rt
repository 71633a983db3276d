//! What a job comes to.

ghost use Rattle.dt_run.specs.Task.{IsTaskOf};

use dt_resolve_lines::Question;
use dt_run_words::Job;

/// A blob that is made of the inputs.
#[derive(Clone, Copy)]
pub enum Making {
    /// Of a source: of a base, or of an overlay, which is its object.
    Compile,
    /// Of a source as it is.
    CompileRaw,
    /// Of a base, which is the first input, with the objects of overlays applied, which are the others.
    Apply,
    /// Of a base's source, which is the first input, with the overlays of other sources applied.
    Build,
}

/// What is reported of a blob.
#[derive(Clone, Copy)]
pub enum Report {
    /// Its source.
    Print,
    /// How many nodes, properties and reservations it has, in a line.
    Check,
    /// The regions of its nodes, in lines.
    Regs,
    /// The routes of its interrupts, in lines.
    Irqs,
}

/// What is to be done.
#[derive(Clone, Copy)]
pub enum Task<'a> {
    /// A blob is made.
    Make(Making),
    /// Something is reported of a blob.
    Report(Report),
    /// The node of a path of a blob answers a question, in a line.
    Ask {
        path: &'a [u8],
        question: Question<'a>,
    },
}

/// The task that a job is.
pub fn task_of(job: Job<'_>) -> Task<'_>
    ensures { IsTaskOf job.entry result }
{
    match job {
        Job::Compile => Task::Make(Making::Compile),
        Job::CompileRaw => Task::Make(Making::CompileRaw),
        Job::Apply => Task::Make(Making::Apply),
        Job::Build => Task::Make(Making::Build),
        Job::Print => Task::Report(Report::Print),
        Job::Check => Task::Report(Report::Check),
        Job::Regs => Task::Report(Report::Regs),
        Job::Irqs => Task::Report(Report::Irqs),
        Job::Dma {
            path,
            address,
            size,
        } => Task::Ask {
            path: path.as_bytes(),
            question: Question::Dma {
                address: address.into(),
                size: size.into(),
            },
        },
        Job::Spec {
            path,
            property,
            kind,
            index,
        } => Task::Ask {
            path: path.as_bytes(),
            question: Question::Specifier {
                property: property.as_bytes(),
                kind: kind.as_bytes(),
                index,
            },
        },
    }
}
