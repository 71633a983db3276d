//! The lines of a tree.

ghost use Rattle.std.specs.Prelude.{◌≡◌, ◌++◌, codes, OnOk, IfErr};
ghost use Rattle.dt_model.specs.Tree.{Property};
ghost use Rattle.dt_model.specs.Printed.{tabs, property_line};
ghost use Rattle.dt_text_writer.specs.Written.{Puts, FailsAt};
ghost use Rattle.dt_decompile.specs.Lines.{shown_name, open_line, close_line};

use crate::value::put_value;
use dt_names::{Fault, Sink};
use dt_text_writer::Writer;

const TABS: &[u8; 8] = b"\t\t\t\t\t\t\t\t";

/// Writes so many tabs.
fn put_tabs<S: Sink>(writer: &mut Writer<'_, S>, count: usize) -> Result<(), Fault>
    ensures written { OnOk result (Puts S.taken (tabs count) writer.old writer.new) }
    ensures refused { IfErr result (λ fault. FailsAt S.taken fault (tabs count) writer.old writer.new) }
{
    // Eight at a time.
    let mut left = count;
    while left > 8 {
        writer.put(TABS)?;
        left -= 8;
    }
    writer.put(&TABS[..left])
}

/// The name of a node inside so many others; the root's is a slash.
fn shown(depth: usize, name: &[u8]) -> &[u8]
    ensures { result.now ≡ shown_name depth name.now }
{
    if depth == 0 { b"/" } else { name }
}

/// Writes the line at which a node begins, inside so many others.
pub(crate) fn put_open<S: Sink>(
    writer: &mut Writer<'_, S>,
    depth: usize,
    name: &[u8],
) -> Result<(), Fault>
    ensures written { OnOk result (Puts S.taken (open_line depth name.now) writer.old writer.new) }
    ensures refused { IfErr result (λ fault. FailsAt S.taken fault (open_line depth name.now) writer.old writer.new) }
{
    put_tabs(writer, depth)?;
    writer.put(shown(depth, name))?;
    writer.put(b" {\n")
}

/// Writes the line of a property, inside so many nodes.
pub(crate) fn put_property<S: Sink>(
    writer: &mut Writer<'_, S>,
    depth: usize,
    name: &[u8],
    value: &[u8],
) -> Result<(), Fault>
    ensures written { OnOk result (Puts S.taken (property_line depth (record { name = name.now; value = value.now })) writer.old writer.new) }
    ensures refused { IfErr result (λ fault. FailsAt S.taken fault
        (property_line depth (record { name = name.now; value = value.now })) writer.old writer.new) }
{
    put_tabs(writer, depth)?;
    writer.put(name)?;
    put_value(writer, value)?;
    writer.put(b";\n")
}

/// Writes the line at which a node ends, inside so many others.
pub(crate) fn put_close<S: Sink>(writer: &mut Writer<'_, S>, depth: usize) -> Result<(), Fault>
    ensures written { OnOk result (Puts S.taken (close_line depth) writer.old writer.new) }
    ensures refused { IfErr result (λ fault. FailsAt S.taken fault (close_line depth) writer.old writer.new) }
{
    put_tabs(writer, depth)?;
    writer.put(b"};\n")
}
