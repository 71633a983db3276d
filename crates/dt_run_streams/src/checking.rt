//! What a blob holds, in a line.

ghost use Rattle.std.specs.Prelude.{◌≡◌, codes, ◌++◌, ◌∷◌, [], List, ℕ, OnOk, IfErr};
ghost use Rattle.dt_names.specs.Sink.{Takes, IsRefused, joined};
ghost use Rattle.dt_run_streams.specs.Told.{line_of, IsCounted, WhyNotTold};

use crate::text::put_pieces;
use dt_names::{Fault, Sink};
use dt_read::{Blob, Counts};
use itoa::Buffer;

/// Checks a blob, and prints how many nodes, properties and reservations it has, in a line of its own. Takes no memory.
///
/// # Errors
///
/// The first fault of the blob, where nothing is written; and `WriteFault`, without a place, where the sink took a front of
/// the line.
pub fn check<S: Sink>(bytes: &[u8], out: &mut S) -> Result<(), Fault>
    ensures written { OnOk result ((line : List ℕ) × IsCounted bytes.now line × Takes line (S.taken out.old) (S.taken out.new)) }
    ensures refused { IfErr result (λ fault. WhyNotTold fault bytes.now (IsCounted bytes.now) (S.taken out.old) (S.taken out.new)) }
{
    let blob = Blob::check(bytes)?;
    put_counts(out, blob.counts())
}

/// Writes the line.
fn put_counts<S: Sink>(out: &mut S, counts: Counts) -> Result<(), Fault>
    ensures written { OnOk result (Takes (line_of counts) (S.taken out.old) (S.taken out.new)) }
    ensures refused { IfErr result (λ fault. IsRefused fault (line_of counts) (S.taken out.old) (S.taken out.new)) }
{
    let mut nodes = Buffer::new();
    let mut properties = Buffer::new();
    let mut reservations = Buffer::new();
    let nodes = nodes.format(counts.nodes);
    let properties = properties.format(counts.properties);
    let reservations = reservations.format(counts.reservations);
    put_pieces(out, &pieces(nodes, properties, reservations))
}

/// The pieces of the line.
fn pieces<'a>(nodes: &'a str, properties: &'a str, reservations: &'a str) -> [&'a str; 7]
    ensures { joined result ≡ codes "ok nodes " ++ nodes.entry.now ++ codes " properties " ++ properties.entry.now
        ++ codes " reservations " ++ reservations.entry.now ++ 10 ∷ [] }
{
    [
        "ok nodes ",
        nodes,
        " properties ",
        properties,
        " reservations ",
        reservations,
        "\n",
    ]
}
