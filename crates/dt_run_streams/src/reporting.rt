//! How a fault is reported.

ghost use Rattle.std.specs.Prelude.{◌≡◌, codes, ◌++◌, ◌∷◌, [], OnOk, IfErr};
ghost use Rattle.dt_names.specs.Sink.{Takes, IsRefused, joined};
ghost use Rattle.dt_run_streams.specs.Report.{fault_line};

use crate::text::put_pieces;
use dt_names::{Fault, Sink};
use itoa::Buffer;

/// Tells a fault of an input, counted from 0, in a line of its own: `dtool: input K: ` and the fault's text, `fault N Name`, with
/// ` at P` behind it where the fault has a place, in bytes from the input's start. It needs no memory.
///
/// # Errors
///
/// `WriteFault` where the sink fails: it took a front of the line.
pub fn report<S: Sink>(err: &mut S, input: usize, fault: Fault) -> Result<(), Fault>
    ensures told { OnOk result (Takes (fault_line input fault) (S.taken err.old) (S.taken err.new)) }
    ensures refused { IfErr result (λ failure. IsRefused failure (fault_line input fault) (S.taken err.old) (S.taken err.new)) }
{
    let mut input_digits = Buffer::new();
    let mut number_digits = Buffer::new();
    let mut place_digits = Buffer::new();
    let input = input_digits.format(input);
    let number = number_digits.format(fault.number());
    match fault.at {
        None => put_pieces(err, &pieces(input, number, fault.name(), "", "")),
        Some(place) => put_pieces(
            err,
            &pieces(
                input,
                number,
                fault.name(),
                " at ",
                place_digits.format(place),
            ),
        ),
    }
}

/// The pieces of the line.
fn pieces<'a>(
    input: &'a str,
    number: &'a str,
    name: &'a str,
    at: &'a str,
    place: &'a str,
) -> [&'a str; 9]
    ensures { joined result ≡ codes "dtool: input " ++ input.entry.now ++ codes ": "
        ++ ((codes "fault " ++ (number.entry.now ++ (codes " " ++ name.entry.now))) ++ (at.entry.now ++ place.entry.now)) ++ 10 ∷ [] }
{
    [
        "dtool: input ",
        input,
        ": fault ",
        number,
        " ",
        name,
        at,
        place,
        "\n",
    ]
}
