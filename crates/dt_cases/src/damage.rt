//! Blobs that are cut, or have one wrong byte.

use crate::blobs::tree_of;
use crate::outcome::{Outcome, Stop};
use dt_flat::FlatTree;
use dt_names::{Fault, FaultKind};
use dt_write::write_blob;
use std::alloc::Global;

/// `damage` tries each proper front of a blob, and the blob with each byte changed to each other one, and prints how many it tried, and how many
/// of them aren't as they have to be: a front is refused for its size; a changed blob is refused with a fault of blobs, or is
/// written and read as the same tree.
pub fn call(alloc: Global, input: &[u8], out: &mut Outcome) -> Result<(), Stop> {
    let (fronts, bad_fronts) = try_fronts(alloc, input);
    let mut changed = Vec::from_slice(alloc, input)?;
    let (changes, bad_changes) = try_changes(alloc, &mut changed)?;
    out.tell(format_args!(
        "{fronts} fronts, {bad_fronts} bad; {changes} changes, {bad_changes} bad"
    ));
    Ok(())
}

/// How many proper fronts there are, and how many of them aren't refused for their size.
fn try_fronts(alloc: Global, input: &[u8]) -> (usize, usize) {
    let mut bad = 0usize;
    for (size, _) in input.iter().enumerate() {
        let kind = if size < 40 {
            FaultKind::ShortHeader
        } else {
            FaultKind::BadTotal
        };
        let fault = tree_of(alloc, input.get(..size).unwrap_or(&[])).err();
        if fault != Some(Fault::of(kind)) {
            bad = bad.saturating_add(1);
        }
    }
    (input.len(), bad)
}

/// How many changes of a byte there are, and how many of them are neither reported nor kept.
fn try_changes(alloc: Global, bytes: &mut [u8]) -> Result<(usize, usize), Fault> {
    let mut all = 0usize;
    let mut bad = 0usize;
    for at in 0..bytes.len() {
        for change in 1..=255u8 {
            turn(bytes, at, change);
            if !is_told_or_kept(alloc, bytes)? {
                bad = bad.saturating_add(1);
            }
            turn(bytes, at, change);
            all = all.saturating_add(1);
        }
    }
    Ok((all, bad))
}

/// Changes a byte; twice with the same change, it is as it was.
fn turn(bytes: &mut [u8], at: usize, change: u8) {
    if let Some(byte) = bytes.get_mut(at) {
        *byte ^= change;
    }
}

/// Whether bytes have a fault of blobs, or are a blob that is written and read as the same tree.
fn is_told_or_kept(alloc: Global, bytes: &[u8]) -> Result<bool, Fault> {
    match tree_of(alloc, bytes) {
        Ok(tree) => {
            let is_kept = is_kept(alloc, &tree);
            // Let go of by hand: what goes at an exit by itself is proved there field by field.
            drop(tree);
            is_kept
        }
        Err(fault) => Ok(fault.number() == 2 || (40..=55).contains(&fault.number())),
    }
}

fn is_kept(alloc: Global, tree: &FlatTree) -> Result<bool, Fault> {
    let written = write_blob(alloc, tree)?;
    is_written_again(alloc, &written)
}

fn is_written_again(alloc: Global, written: &[u8]) -> Result<bool, Fault> {
    match tree_of(alloc, written) {
        Ok(tree) => {
            let is_same = is_blob_of(alloc, &tree, written);
            drop(tree);
            is_same
        }
        Err(fault) => Err(fault),
    }
}

fn is_blob_of(alloc: Global, tree: &FlatTree, blob: &[u8]) -> Result<bool, Fault> {
    let written = write_blob(alloc, tree)?;
    Ok(written.as_slice() == blob)
}
