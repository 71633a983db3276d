//! A value as cells, or as bytes.

ghost use Rattle.std.specs.Prelude.{◌≡◌, ◌<◌, ◌%◌, ◌∷◌, ◌++◌, [], length, codes, OnOk, IfErr};
ghost use Rattle.dt_model.specs.Printed.{hexadecimal, significant, cells_text, bytes_text};
ghost use Rattle.dt_text_writer.specs.Written.{Puts, FailsAt};
ghost use Rattle.dt_decompile.specs.Pieces.{cells_behind, bytes_behind};

use dt_names::{Fault, Sink};
use dt_text_writer::{Writer, without_zeros, write_digits};

/// Writes a cell behind what leads to it.
fn put_cell<S: Sink>(writer: &mut Writer<'_, S>, lead: &[u8], cell: &[u8; 4]) -> Result<(), Fault>
    ensures written { OnOk result (Puts S.taken (lead.now ++ significant (hexadecimal cell.now)) writer.old writer.new) }
    ensures refused { IfErr result (λ fault. FailsAt S.taken fault (lead.now ++ significant (hexadecimal cell.now)) writer.old writer.new) }
{
    let mut digits = [0u8; 8];
    write_digits(cell, &mut digits);
    writer.put(lead)?;
    writer.put(without_zeros(&digits))
}

/// Writes cells behind a cell.
fn put_cells_behind<S: Sink>(writer: &mut Writer<'_, S>, cells: &[u8]) -> Result<(), Fault>
    ensures written { OnOk result (Puts S.taken (cells_behind cells.now) writer.old writer.new) }
    ensures refused { IfErr result (λ fault. FailsAt S.taken fault (cells_behind cells.now) writer.old writer.new) }
{
    let mut rest = cells;
    while let Some((cell, behind)) = rest.split_first_chunk::<4>() {
        put_cell(writer, b" 0x", cell)?;
        rest = behind;
    }
    Ok(())
}

/// Writes cells between angle brackets.
pub(crate) fn put_cells<S: Sink>(writer: &mut Writer<'_, S>, cells: &[u8]) -> Result<(), Fault>
    requires some { 0 < length cells.now }
    requires whole { length cells.now % 4 ≡ 0 }
    ensures written { OnOk result (Puts S.taken (codes " = <" ++ (cells_text cells.now ++ codes ">")) writer.old writer.new) }
    ensures refused { IfErr result (λ fault. FailsAt S.taken fault (codes " = <" ++ (cells_text cells.now ++ codes ">")) writer.old writer.new) }
{
    let Some((first, behind)) = cells.split_first_chunk::<4>() else {
        return Ok(());
    };
    put_cell(writer, b" = <0x", first)?;
    put_cells_behind(writer, behind)?;
    writer.put(b">")
}

/// Writes a byte behind what leads to it.
fn put_byte<S: Sink>(writer: &mut Writer<'_, S>, lead: &[u8], byte: u8) -> Result<(), Fault>
    ensures written { OnOk result (Puts S.taken (lead.now ++ hexadecimal (byte ∷ [])) writer.old writer.new) }
    ensures refused { IfErr result (λ fault. FailsAt S.taken fault (lead.now ++ hexadecimal (byte ∷ [])) writer.old writer.new) }
{
    let mut digits = [0u8; 2];
    write_digits(&[byte], &mut digits);
    writer.put(lead)?;
    writer.put(&digits)
}

/// Writes bytes behind a byte.
fn put_bytes_behind<S: Sink>(writer: &mut Writer<'_, S>, bytes: &[u8]) -> Result<(), Fault>
    ensures written { OnOk result (Puts S.taken (bytes_behind bytes.now) writer.old writer.new) }
    ensures refused { IfErr result (λ fault. FailsAt S.taken fault (bytes_behind bytes.now) writer.old writer.new) }
{
    for byte in bytes {
        put_byte(writer, b" ", *byte)?;
    }
    Ok(())
}

/// Writes bytes between square brackets.
pub(crate) fn put_bytes<S: Sink>(writer: &mut Writer<'_, S>, bytes: &[u8]) -> Result<(), Fault>
    requires { 0 < length bytes.now }
    ensures written { OnOk result (Puts S.taken (codes " = [" ++ (bytes_text bytes.now ++ codes "]")) writer.old writer.new) }
    ensures refused { IfErr result (λ fault. FailsAt S.taken fault (codes " = [" ++ (bytes_text bytes.now ++ codes "]")) writer.old writer.new) }
{
    let Some((first, behind)) = bytes.split_first() else {
        return Ok(());
    };
    put_byte(writer, b" = [", *first)?;
    put_bytes_behind(writer, behind)?;
    writer.put(b"]")
}
