//! What is wrong with a token: the first of its rows that holds.

ghost use Rattle.std.specs.Prelude.{◌≡◌, ◌<◌, ◌^◌, length, drop};
ghost use Rattle.std.specs.Option.{option_map, option_copied};
ghost use Rattle.dt_model.specs.Checks.{begin_fault, name_fault, property_fault, end_fault, token_fault};
ghost use Rattle.dt_model.specs.Format.{word_at};
ghost use Rattle.dt_model.specs.Lexing.{text_in};
ghost use Rattle.dt_read.specs.Kinds.{kind_of};
ghost use Rattle.dt_read.specs.View.{position_of};

use crate::name::may_name_a_property;
use crate::scan::ScanState;
use crate::token::padded_len;
use dt_bytes::{be32, text_at};
use dt_names::FaultKind;

/// What is wrong with the beginning of a node.
fn fault_of_begin(place: ScanState, rest: &[u8]) -> Option<FaultKind>
    requires { length rest.now < 2 ^ 32 }
    ensures { result ≡ option_map kind_of (begin_fault (position_of place) rest.now (text_in (drop 4 rest.now))) }
{
    let Some(name) = text_at(rest, 4) else {
        return Some(FaultKind::StructureCut);
    };
    if rest.len() < padded_len(4 + name.len() + 1) {
        return Some(FaultKind::StructureCut);
    }
    if place.is_behind() {
        return Some(FaultKind::BadNesting);
    }
    if !place.may_be_called(name) {
        return Some(FaultKind::BadName);
    }
    if !place.has_room() {
        return Some(FaultKind::Limit);
    }
    None
}

/// What is wrong with the name at an offset of the strings block.
fn fault_of_name(strings: &[u8], offset: usize) -> Option<FaultKind>
    ensures { result ≡ option_map kind_of (name_fault (text_in (drop offset strings.now))) }
{
    let Some(name) = text_at(strings, offset) else {
        return Some(FaultKind::BadNameOffset);
    };
    if may_name_a_property(name) {
        None
    } else {
        Some(FaultKind::BadName)
    }
}

/// What is wrong with a property.
fn fault_of_property(strings: &[u8], place: ScanState, rest: &[u8]) -> Option<FaultKind>
    ensures { result ≡ option_map kind_of
        (property_fault strings.now (position_of place) rest.now (word_at rest.now 4) (word_at rest.now 8)) }
{
    let Some(value_len) = be32(rest, 4) else {
        return Some(FaultKind::StructureCut);
    };
    let Some(offset) = be32(rest, 8) else {
        return Some(FaultKind::StructureCut);
    };
    if rest.len() < padded_len(12 + value_len as usize) {
        return Some(FaultKind::StructureCut);
    }
    if place.depth == 0 {
        return Some(FaultKind::BadNesting);
    }
    if place.late {
        return Some(FaultKind::LateProperty);
    }
    fault_of_name(strings, offset as usize)
}

/// What is wrong with END.
fn fault_of_end(place: ScanState, rest: &[u8]) -> Option<FaultKind>
    ensures { result ≡ option_map kind_of (end_fault (position_of place) rest.now) }
{
    if !place.is_behind() {
        Some(FaultKind::BadNesting)
    } else if rest.len() != 4 {
        Some(FaultKind::BadEnd)
    } else {
        None
    }
}

/// What is wrong with the token at the front of some bytes, which is at that place.
pub(crate) fn fault_at(strings: &[u8], place: ScanState, rest: &[u8]) -> Option<FaultKind>
    requires { length rest.now < 2 ^ 32 }
    ensures { result ≡ option_map kind_of (token_fault strings.now (position_of place) rest.now) }
{
    let Some(tag) = be32(rest, 0) else {
        return Some(FaultKind::StructureCut);
    };
    match tag {
        1 => fault_of_begin(place, rest),
        2 if place.depth == 0 => Some(FaultKind::BadNesting),
        2 | 4 => None,
        3 => fault_of_property(strings, place, rest),
        9 => fault_of_end(place, rest),
        _ => Some(FaultKind::BadTag),
    }
}
