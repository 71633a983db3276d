//! A whole blob of its blocks (Devicetree Specification v0.4, 5.2 and 5.3).

ghost use Rattle.std.specs.Prelude.{◌≡◌, ◌+◌, ◌≤◌, ◌++◌, [], length, drop, OnOk, IfOk, IfErr, None};
ghost use Rattle.dt_model.specs.Limits.{most_bytes};
ghost use Rattle.dt_model.specs.Format.{reservation_block};
ghost use Rattle.dt_flat.specs.Arena.{reading};
ghost use Rattle.dt_write.specs.Written.{header, names_of, strings_block, structure_block};
ghost use Rattle.dt_write.specs.Parts.{IsFront, IsBlob};
ghost use Rattle.dt_write.specs.Refusals.{WhyNoBytes, WhyNotWritten};

use crate::names::Names;
use crate::strings::Strings;
use crate::structure::put_node;
use crate::words::{fits, put_pair, put_word, set_words};
use dt_flat::FlatTree;
use dt_names::limits::MOST_BYTES;
use dt_names::{Fault, FaultKind};
use std::alloc::{AllocError, Global};

const MAGIC: u32 = 0xd00d_feed;

const VERSION: u32 = 17;

const LAST_COMPATIBLE_VERSION: u32 = 16;

const HEADER_SIZE: usize = 40;

const PAIR_SIZE: usize = 16;

const END: u32 = 9;

/// Sets the ten words of a header, from the sizes of the blocks (Devicetree Specification v0.4, 5.2).
pub fn set_header(
    bytes: &mut [u8],
    boot_cpu: u32,
    reservations: usize,
    structure: usize,
    strings: usize,
)
    requires room { 40 ≤ length bytes.old }
    requires fits { 40 + reservations + structure + strings ≤ most_bytes }
    ensures { bytes.new ≡ header boot_cpu reservations structure strings ++ drop 40 bytes.old }
{
    let structure_offset = HEADER_SIZE + reservations;
    let strings_offset = structure_offset + structure;
    let words = [
        MAGIC,
        (strings_offset + strings) as u32,
        structure_offset as u32,
        strings_offset as u32,
        HEADER_SIZE as u32,
        VERSION,
        LAST_COMPATIBLE_VERSION,
        boot_cpu,
        strings as u32,
        structure as u32,
    ];
    set_words(bytes, &words);
}

fn put_reservations(out: &mut Vec<u8>, reservations: &[(u64, u64)]) -> Result<(), AllocError>
    ensures { OnOk result (out.new.items ≡ out.old.items ++ reservation_block reservations.now) }
{
    for (address, size) in reservations {
        put_pair(out, *address, *size)?;
    }
    put_pair(out, 0, 0)
}

/// Puts room for the header, and the block of reservations.
fn put_front(tree: &FlatTree, out: &mut Vec<u8>) -> Result<(), AllocError>
    requires { out.old.items ≡ [] }
    ensures { OnOk result (IsFront tree.now.reservations out.new.items) }
{
    out.extend_from_slice(&[0; HEADER_SIZE])?;
    put_reservations(out, tree.reservations())
}

/// Puts the structure block.
fn put_structure(tree: &FlatTree, strings: &Strings<'_>, out: &mut Vec<u8>) -> Result<(), Fault>
    requires names { strings.now ≡ names_of (reading tree.now) }
    requires front { IsFront tree.now.reservations out.old.items }
    ensures body { OnOk result (out.new.items ≡ out.old.items ++ structure_block (reading tree.now)) }
    ensures refused { IfErr result (λ fault. WhyNotWritten (reading tree.now) fault.kind × (fault.at ≡ None)) }
{
    put_node(tree, tree.root(), strings, &mut 0, out)?;
    put_word(out, END)?;
    Ok(())
}

/// Puts the strings block, where the blob is not too long with it.
fn put_strings(strings: &Strings<'_>, out: &mut Vec<u8>) -> Result<(), Fault>
    ensures put { OnOk result (out.new.items ≡ out.old.items ++ strings_block strings.now) }
    ensures size { OnOk result (length out.new.items ≤ most_bytes) }
    ensures refused { IfErr result
        (λ fault. WhyNoBytes fault.kind (length out.old.items + length (strings_block strings.now)) × (fault.at ≡ None)) }
{
    if !fits(out.len(), strings.size()) {
        return Err(Fault::of(FaultKind::Limit));
    }
    strings.put(out)?;
    Ok(())
}

/// Puts the blocks of a blob one after the other, and then sets its header.
fn put_blocks(tree: &FlatTree, strings: &Strings<'_>, out: &mut Vec<u8>) -> Result<(), Fault>
    requires names { strings.now ≡ names_of (reading tree.now) }
    requires empty { out.old.items ≡ [] }
    ensures blob { OnOk result (IsBlob (reading tree.now) out.new.items) }
    ensures refused { IfErr result (λ fault. WhyNotWritten (reading tree.now) fault.kind × (fault.at ≡ None)) }
{
    put_front(tree, out)?;
    let structure_start = out.len();
    put_structure(tree, strings, out)?;
    let strings_start = out.len();
    put_strings(strings, out)?;
    set_header(
        out,
        tree.boot_cpu(),
        structure_start - HEADER_SIZE,
        strings_start - structure_start,
        strings.size(),
    );
    Ok(())
}

/// The strings block of a tree's names.
fn strings_of(alloc: Global, tree: &FlatTree) -> Result<Strings<'_>, Fault>
    ensures names { IfOk result (λ strings. strings ≡ names_of (reading tree.now)) }
    ensures refused { IfErr result (λ fault. WhyNotWritten (reading tree.now) fault.kind × (fault.at ≡ None)) }
{
    tree.validity();
    let mut names = Names::new(alloc, tree.seed());
    names.note_node(tree, tree.root())?;
    Strings::new(alloc, names)
}

/// Puts the blob of a tree into an empty buffer, which doesn't grow far beyond the limit where the blob would be too long.
pub(crate) fn put_blob(alloc: Global, tree: &FlatTree, out: &mut Vec<u8>) -> Result<(), Fault>
    requires { out.old.items ≡ [] }
    ensures blob { OnOk result (IsBlob (reading tree.now) out.new.items) }
    ensures refused { IfErr result (λ fault. WhyNotWritten (reading tree.now) fault.kind × (fault.at ≡ None)) }
{
    // reservations that fill a blob alone aren't put at all
    if tree.reservations().len() > MOST_BYTES / PAIR_SIZE {
        return Err(Fault::of(FaultKind::Limit));
    }
    let strings = strings_of(alloc, tree)?;
    put_blocks(tree, &strings, out)
}
