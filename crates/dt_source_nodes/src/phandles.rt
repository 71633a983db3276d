//! The phandles that are written in nodes (Devicetree Specification v0.4, 2.3.3).

ghost use Rattle.std.specs.Prelude.{◌≡◌, ℕ, false, OnOk, IfOk, MatchResult, not, nat_eq, ◌||◌};
ghost use Rattle.std.specs.Option.{option_map_or};
ghost use Rattle.dt_model.specs.Source.{number_of_parts};
ghost use Rattle.dt_source_items.specs.Said.{reference_of, value_said};
ghost use Rattle.dt_source_growing.specs.Grown.{target_value, value_held};
ghost use Rattle.dt_source_nodes.specs.Phandles.{has_place, is_phandle, is_unwritten, phandle_written, has_seen};
ghost use Rattle.dt_source_nodes.specs.Phandles.{AreWritten, AreOwn, WhyNotWritten, WhyNotOwn, WhyNotNumbered};

use dt_names::{Fault, FaultKind, Seed, phandle_of};
use dt_source_growing::{Property, PropertyValue};
use dt_source_items::{Reference, Value};
use std::alloc::{AllocError, Global};
use std::collections::HashSet;

/// The phandle that a value of the property `phandle` writes: four bytes without a reference, of 1 to 0xfffffffe.
fn written_number(value: Value<'_>) -> Option<u32>
    ensures { result ≡ number_of_parts (value_said value.entry) }
{
    if !value.pieces.is_empty() {
        return None;
    }
    phandle_of(value.bytes)
}

/// The phandle that the target of a new fragment would write: the text of a path of three bytes and its NUL are four bytes.
fn number_of_target(reference: &Reference<'_>) -> Option<u32>
    ensures { result ≡ number_of_parts (target_value (reference_of reference.now)) }
{
    match reference {
        Reference::Label(_) => None,
        Reference::Path(path) => {
            let text = path.text();
            if text.len() != 3 {
                return None;
            }
            phandle_of(&[text[0], text[1], text[2], 0])
        }
    }
}

/// The phandle that what a property holds would write.
fn number_held(value: PropertyValue<'_>) -> Option<u32>
    ensures { result ≡ number_of_parts (value_held value.entry) }
{
    match value {
        PropertyValue::Written(value) => written_number(value),
        PropertyValue::Target(reference) => number_of_target(reference),
    }
}

/// Whether a node has a place, and so stands.
fn has_place(places: &[Option<usize>], node: usize) -> bool
    ensures { result ≡ has_place places.now node }
{
    match places.get(node) {
        Some(place) => place.is_some(),
        None => false,
    }
}

/// Whether it is the property `phandle` of a node that stands.
fn is_phandle(property: &Property<'_>, places: &[Option<usize>]) -> bool
    ensures { result ≡ is_phandle places.now property.now }
{
    property.stands && has_place(places, property.node) && property.name == b"phandle".as_slice()
}

/// The phandle that a property writes in a node that stands.
fn phandle_written(property: &Property<'_>, places: &[Option<usize>]) -> Option<u32>
    ensures { result ≡ phandle_written places.now property.now }
{
    if is_phandle(property, places) {
        number_held(property.value)
    } else {
        None
    }
}

/// Whether it is the property `phandle` of a node that stands, and writes no number.
fn is_unwritten(property: &Property<'_>, places: &[Option<usize>]) -> bool
    ensures { result ≡ is_unwritten places.now property.now }
{
    is_phandle(property, places) && number_held(property.value).is_none()
}

/// Each `phandle` writes a number. `BadPhandle` where one doesn't.
fn check_written(properties: &[Property<'_>], places: &[Option<usize>]) -> Result<(), Fault>
    ensures { MatchResult result
        (λ _. AreWritten places.now properties.now)
        (λ fault. WhyNotWritten places.now properties.now fault) }
{
    for property in properties {
        if is_unwritten(property, places) {
            return Err(Fault::of(FaultKind::BadPhandle));
        }
    }
    Ok(())
}

/// One more phandle; whether it is a new one.
fn add_phandle(seen: &mut HashSet<u32, Seed>, phandle: u32) -> Result<bool, AllocError>
    ensures new { IfOk result (λ new. new ≡ not (has_seen seen.old phandle)) }
    ensures added { OnOk result ((n : ℕ) → has_seen seen.new n ≡ (nat_eq n phandle || has_seen seen.old n)) }
{
    let new = seen.insert(phandle)?;
    Ok(new)
}

/// Adds the phandle that a property writes, if any; whether it was seen before.
fn meet(
    seen: &mut HashSet<u32, Seed>,
    property: &Property<'_>,
    places: &[Option<usize>],
) -> Result<bool, AllocError>
    ensures before { IfOk result (λ before. before ≡ option_map_or (has_seen seen.old) (phandle_written places.now property.now) false) }
    ensures added { OnOk result ((n : ℕ) → has_seen seen.new n ≡
        (option_map_or (nat_eq n) (phandle_written places.now property.now) false || has_seen seen.old n)) }
{
    match phandle_written(property, places) {
        Some(phandle) => Ok(!add_phandle(seen, phandle)?),
        None => Ok(false),
    }
}

/// Finds no phandle that is written twice, where none was seen.
fn find_twice(
    seen: &mut HashSet<u32, Seed>,
    properties: &[Property<'_>],
    places: &[Option<usize>],
) -> Result<(), Fault>
    requires { (n : ℕ) → has_seen seen.old n ≡ false }
    ensures { MatchResult result
        (λ _. AreOwn places.now properties.now)
        (λ fault. WhyNotOwn places.now properties.now fault) }
{
    for property in properties {
        if meet(seen, property, places)? {
            return Err(Fault::of(FaultKind::DuplicatePhandle));
        }
    }
    Ok(())
}

/// Each property `phandle` of a node that stands writes a number that no other does, where the nodes that stand are those with
/// a place. `BadPhandle` where one writes none; else `DuplicatePhandle` where two write the same. Phandles are hashed behind the seed.
pub(crate) fn check_phandles(
    alloc: Global,
    seed: Seed,
    properties: &[Property<'_>],
    places: &[Option<usize>],
) -> Result<(), Fault>
    ensures { MatchResult result
        (λ _. AreWritten places.now properties.now × AreOwn places.now properties.now)
        (λ fault. WhyNotNumbered places.now properties.now fault) }
{
    check_written(properties, places)?;
    let mut seen = HashSet::with_hasher(alloc, seed);
    find_twice(&mut seen, properties, places)
}
