//! Overlays applied to a base.

use crate::blobs::rewritten;
use crate::outcome::{Outcome, Stop};
use dt_chain::{apply_bytes, apply_list, build};
use dt_names::{Fault, FaultKind};
use std::alloc::Global;

/// How long a base and an object are at most that are applied both ways: edits of bytes take a time that is their number times the base's size.
const MOST_BOTH_WAYS: usize = 1 << 16;

/// `apply` gives the blob of a base with objects applied, `apply-bytes` that with one, and `build` that of a base's source with the overlays of
/// other sources. `apply` of one object goes both ways, and reports where they differ.
pub fn call(
    alloc: Global,
    name: &str,
    base: &[u8],
    overlays: &[&[u8]],
    out: &mut Outcome,
) -> Result<(), Stop> {
    match (name, overlays) {
        ("apply", [overlay]) if base.len() <= MOST_BOTH_WAYS && overlay.len() <= MOST_BOTH_WAYS => {
            return apply_both_ways(alloc, base, overlay, out);
        }
        ("apply", _) => out.give(apply_list(alloc, base, overlays)?),
        ("build", _) => out.give(build(alloc, base, overlays)?),
        (_, [overlay]) => out.give(apply_bytes(alloc, base, overlay)?),
        _ => return Err(Stop::Malformed),
    }
    Ok(())
}

/// What is refused once a list was applied is refused for the object.
fn of_object(outcome: Result<Vec<u8>, Fault>) -> Result<Vec<u8>, Stop> {
    match outcome {
        Ok(blob) => Ok(blob),
        Err(fault) => Err(Stop::RefusedInput(1, fault)),
    }
}

/// Applies an object, as a list of one and to the base's bytes.
fn apply_both_ways(
    alloc: Global,
    base: &[u8],
    overlay: &[u8],
    out: &mut Outcome,
) -> Result<(), Stop> {
    match apply_list(alloc, base, &[overlay]) {
        Ok(blob) => {
            let edited = of_object(apply_bytes(alloc, base, overlay))?;
            if of_object(rewritten(alloc, &edited))? == blob {
                out.give(blob);
            } else {
                out.tell("apply-bytes answers another tree");
            }
            Ok(())
        }
        Err((input, fault)) => match refusal(alloc, base, overlay) {
            Some(other) if other.kind == FaultKind::NoMemory => Err(Stop::from((input, other))),
            Some(other) if other == fault => Err(Stop::from((input, fault))),
            _ if fault.kind == FaultKind::NoMemory => Err(Stop::from((input, fault))),
            _ => {
                out.tell("apply-bytes answers another fault");
                Ok(())
            }
        },
    }
}

/// Why an object isn't applied to a base's bytes.
fn refusal(alloc: Global, base: &[u8], overlay: &[u8]) -> Option<Fault> {
    match apply_bytes(alloc, base, overlay) {
        Ok(_) => None,
        Err(fault) => Some(fault),
    }
}
