//! The text of a blob.

ghost use Rattle.std.specs.Prelude.{◌++◌, OnOk, IfErr};
ghost use Rattle.dt_model.specs.Printed.{printed};
ghost use Rattle.dt_names.specs.Sink.{Takes, IsRefused};
ghost use Rattle.dt_trees.specs.Placed.{reading_of};
ghost use Rattle.dt_text_writer.specs.Written.{Puts, FailsAt};

use crate::reservations::put_reservations;
use crate::steps::put_steps;
use dt_names::{Fault, Sink};
use dt_read::Blob;
use dt_text_writer::Writer;

/// Writes a tree.
fn put_text<S: Sink>(writer: &mut Writer<'_, S>, blob: &Blob) -> Result<(), Fault>
    ensures written { OnOk result (Puts S.taken (printed (reading_of blob.now)) writer.old writer.new) }
    ensures refused { IfErr result (λ fault. FailsAt S.taken fault (printed (reading_of blob.now)) writer.old writer.new) }
{
    // A blob has few enough nodes that their depth fits.
    blob.validity();
    writer.put(b"/dts-v1/;\n")?;
    put_reservations(writer, blob.reservations())?;
    put_steps(writer, blob.steps())
}

/// Writes a blob's tree as a source of DTS version 1 (Devicetree Specification v0.4, chapter 6): the reservations, and each
/// node with its properties, then its children, one more tab for each node around it. A value is printed as texts, cells or
/// bytes. The boot CPU isn't written. Takes no memory; reads each token once.
///
/// # Errors
///
/// `WriteFault` where the sink fails: it took a front of the text.
// Apart, so that its buffer isn't on the stack while the blob is checked.
#[inline(never)]
pub fn text_of<S: Sink>(blob: &Blob, out: &mut S) -> Result<(), Fault>
    ensures written { OnOk result (Takes (printed (reading_of blob.now)) (S.taken out.old) (S.taken out.new)) }
    ensures refused { IfErr result (λ fault. IsRefused fault (printed (reading_of blob.now)) (S.taken out.old) (S.taken out.new)) }
{
    let mut writer = Writer::new(out);
    put_text(&mut writer, blob)?;
    writer.flush()
}
