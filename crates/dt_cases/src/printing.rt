//! Blobs printed as sources.

use crate::numbers::index;
use crate::outcome::{Outcome, Stop};
use dt_chain::{compile, compile_raw, decompile};
use dt_names::{Fault, FaultKind};
use std::alloc::{AllocError, Global};

/// `print` prints the text of a blob. A source is compiled as it is, or to its object if it is an overlay's; then
/// `printed` prints the text of the blob, and `again` whether that text is compiled to the same blob. `values SIZE` gives a
/// source that has each value of up to so many of the input's bytes.
pub fn call(
    alloc: Global,
    name: &str,
    words: &str,
    input: &[u8],
    out: &mut Outcome,
) -> Result<(), Stop> {
    match name {
        "print" => out.lines().name(&decompile(alloc, input)?),
        "printed" => out.lines().name(&printed(alloc, input)?),
        "again" => tell_again(is_compiled_again(alloc, input)?, out),
        _ => {
            let most = index(words).ok_or(Stop::Malformed)?;
            out.give(source_of_values(alloc, input, most)?);
        }
    }
    Ok(())
}

/// The blob of a source as it is, or the object of an overlay's source.
fn blob_of(alloc: Global, source: &[u8]) -> Result<Vec<u8>, Fault> {
    match compile_raw(alloc, source) {
        Err(fault) if fault.kind == FaultKind::BadVersionTag => compile(alloc, source),
        compiled => compiled,
    }
}

/// The text of a source's blob.
fn printed(alloc: Global, source: &[u8]) -> Result<Vec<u8>, Fault> {
    let blob = blob_of(alloc, source)?;
    decompile(alloc, &blob)
}

/// Whether the text of a source's blob is compiled to the same blob.
fn is_compiled_again(alloc: Global, source: &[u8]) -> Result<bool, Fault> {
    let blob = blob_of(alloc, source)?;
    is_text_of(alloc, &blob)
}

fn is_text_of(alloc: Global, blob: &[u8]) -> Result<bool, Fault> {
    let text = decompile(alloc, blob)?;
    let again = compile_raw(alloc, &text)?;
    Ok(again.as_slice() == blob)
}

fn tell_again(is_same: bool, out: &mut Outcome) {
    out.tell(if is_same {
        "the same blob"
    } else {
        "another blob"
    });
}

/// A source whose root has each value of up to so many of some bytes, named by its digits, the shorter ones first.
fn source_of_values(alloc: Global, bytes: &[u8], most: usize) -> Result<Vec<u8>, AllocError> {
    let mut source = String::from_str(alloc, "/dts-v1/; / { v = [];")?;
    let mut values = vec![in alloc; Vec::new(alloc)]?;
    for _ in 0..most {
        values = longer(alloc, &values, bytes)?;
        push_values(&mut source, alloc, &values)?;
    }
    source.push_str(" };")?;
    Ok(source.into_bytes())
}

/// Each value with each byte behind it.
fn longer(alloc: Global, values: &[Vec<u8>], bytes: &[u8]) -> Result<Vec<Vec<u8>>, AllocError> {
    let mut longer = Vec::new(alloc);
    for value in values {
        for byte in bytes {
            let mut value = value.clone()?;
            value.push(*byte)?;
            longer.push(value)?;
        }
    }
    Ok(longer)
}

fn push_values(source: &mut String, alloc: Global, values: &[Vec<u8>]) -> Result<(), AllocError> {
    for value in values {
        let digits = hex::encode(alloc, value.as_slice())?;
        write!(source, " v{digits} = [{digits}];")?;
    }
    Ok(())
}
