//! The text of a property's value.

ghost use Rattle.std.specs.Prelude.{◌++◌, OnOk, IfErr};
ghost use Rattle.dt_model.specs.Printed.{value_text};
ghost use Rattle.dt_text_writer.specs.Written.{Puts, FailsAt};

use crate::cells::{put_bytes, put_cells};
use crate::texts::{are_texts, put_texts};
use dt_names::{Fault, Sink};
use dt_text_writer::Writer;

/// Writes what follows a property's name: nothing for no bytes, else texts, cells or bytes, the first of these that fits.
pub(crate) fn put_value<S: Sink>(writer: &mut Writer<'_, S>, value: &[u8]) -> Result<(), Fault>
    ensures written { OnOk result (Puts S.taken (value_text value.now) writer.old writer.new) }
    ensures refused { IfErr result (λ fault. FailsAt S.taken fault (value_text value.now) writer.old writer.new) }
{
    if value.is_empty() {
        return Ok(());
    }
    if are_texts(value) {
        return put_texts(writer, value);
    }
    if value.len() % 4 == 0 {
        return put_cells(writer, value);
    }
    put_bytes(writer, value)
}
