//! Laws of what a job does.

ghost use Rattle.dt_run.specs.Laws.{OneOutput, OneRefusal, WrittenIsNotRefused};
ghost use Rattle.dt_run.specs.Outcomes.{MakesOne, ReportsOne};

use dt_chain_promises::{one_blob, one_outcome as one_compiling};
use dt_resolve_lines::{one_answering, one_listing};
use dt_run_streams::one_report;

/// One blob is made, or one input is refused.
fn one_making()
    ensures { MakesOne }
{
    one_compiling();
    one_blob();
}

/// One thing is reported of a blob, and a node answers one thing, or there is one refusal.
fn one_reporting()
    ensures { ReportsOne }
{
    one_report();
    one_listing();
    one_answering();
}

/// A job writes one thing of its inputs, or refuses one input for one fault, and not both, unless memory is wanted.
pub fn one_outcome()
    ensures written { OneOutput }
    ensures only { WrittenIsNotRefused }
    ensures refused { OneRefusal }
{
    one_making();
    one_reporting();
}
