//! Texts in pieces.

ghost use Rattle.std.specs.Prelude.{OnOk, IfErr};
ghost use Rattle.dt_names.specs.Sink.{Takes, IsRefused, joined};

use dt_names::{Fault, Sink, put_all};

/// Gives a sink all of some texts, one behind the other.
///
/// # Errors
///
/// `WriteFault` where the sink fails: it took a front of the texts.
pub(crate) fn put_pieces<S: Sink>(sink: &mut S, pieces: &[&str]) -> Result<(), Fault>
    ensures written { OnOk result (Takes (joined pieces.now) (S.taken sink.old) (S.taken sink.new)) }
    ensures refused { IfErr result (λ fault. IsRefused fault (joined pieces.now) (S.taken sink.old) (S.taken sink.new)) }
{
    for piece in pieces {
        put_all(sink, piece.as_bytes())?;
    }
    Ok(())
}
