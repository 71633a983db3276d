//! The lines of memory reservations.

ghost use Rattle.std.specs.Prelude.{◌++◌, codes, OnOk, IfErr};
ghost use Rattle.std.specs.Int.{w64, to_be_bytes};
ghost use Rattle.dt_model.specs.Printed.{hexadecimal, reservation_line, reservation_lines};
ghost use Rattle.dt_text_writer.specs.Written.{Puts, FailsAt};

use dt_names::{Fault, Sink};
use dt_read::Reservations;
use dt_text_writer::{Writer, write_digits};

/// Writes a number of sixteen digits behind what leads to it.
fn put_number<S: Sink>(writer: &mut Writer<'_, S>, lead: &[u8], number: u64) -> Result<(), Fault>
    ensures written { OnOk result (Puts S.taken (lead.now ++ hexadecimal (to_be_bytes w64 number)) writer.old writer.new) }
    ensures refused { IfErr result (λ fault. FailsAt S.taken fault (lead.now ++ hexadecimal (to_be_bytes w64 number)) writer.old writer.new) }
{
    let mut digits = [0u8; 16];
    write_digits(&number.to_be_bytes(), &mut digits);
    writer.put(lead)?;
    writer.put(&digits)
}

/// Writes the line of a reservation.
fn put_reservation<S: Sink>(
    writer: &mut Writer<'_, S>,
    address: u64,
    size: u64,
) -> Result<(), Fault>
    ensures written { OnOk result (Puts S.taken (reservation_line (address, size)) writer.old writer.new) }
    ensures refused { IfErr result (λ fault. FailsAt S.taken fault (reservation_line (address, size)) writer.old writer.new) }
{
    put_number(writer, b"/memreserve/ 0x", address)?;
    put_number(writer, b" 0x", size)?;
    writer.put(b";\n")
}

/// Writes a line for each reservation.
pub(crate) fn put_reservations<S: Sink>(
    writer: &mut Writer<'_, S>,
    reservations: Reservations,
) -> Result<(), Fault>
    ensures written { OnOk result (Puts S.taken (reservation_lines reservations.entry) writer.old writer.new) }
    ensures refused { IfErr result (λ fault. FailsAt S.taken fault (reservation_lines reservations.entry) writer.old writer.new) }
{
    for (address, size) in reservations {
        put_reservation(writer, address, size)?;
    }
    Ok(())
}
