//! Reads the values with which an object's bookkeeping nodes name nodes and cells (dtc's notes on overlay objects).

ghost use Rattle.std.specs.Prelude.{◌≡◌, ◌≢◌, ◌≤◌, ◌<◌, ◌+◌, ◌^◌, ◌↔◌, ℕ, List, [], None, IsTrue, length, MatchOption, IfOk, IfErr};
ghost use Rattle.dt_model.specs.Limits.{most_names};
ghost use Rattle.dt_model.specs.Object.{Cell, IsCellText};
ghost use Rattle.dt_model.specs.Path.{Path as Names};
ghost use Rattle.dt_overlay_texts.specs.Cuts.{IsNumeralOf};
ghost use Rattle.dt_overlay_texts.specs.Texts.{AreTexts, IsPathValue, WhyNoSymbolPath};

use crate::cuts::{Texts, cut};
use dt_names::{Fault, FaultKind, Path, PathRef, PropName};
use std::alloc::Global;

/// Cuts a value into texts. None where it has none, or bytes behind the last NUL. Takes no memory.
pub fn texts(value: &[u8]) -> Option<Texts<'_>>
    ensures { MatchOption result ((xs : List (List ℕ)) → xs ≢ [] → ¬ AreTexts value.now xs) (λ t. AreTexts value.now t × (t ≢ [])) }
{
    let Some((0, _)) = value.split_last() else {
        return None;
    };
    Some(Texts { rest: value })
}

/// The cell that an object names by a text `path:property:offset`, the offset in decimal digits (dtc's notes on
/// overlay objects).
#[derive(Drop)]
pub struct CellText<'a> {
    pub path: PathRef<'a>,
    pub property: &'a [u8],
    pub offset: usize,
}

/// The number that decimal digits write; None where the bytes aren't such digits, or the number is 2^64 or more. Takes no memory.
pub fn decimal(digits: &[u8]) -> Option<usize>
    ensures { MatchOption result ((n : ℕ) → n < 2 ^ 64 → ¬ IsNumeralOf digits.now n) (IsNumeralOf digits.now) }
{
    // `parse` would take a sign.
    if digits.first() == Some(&b'+') {
        return None;
    }
    str::from_utf8(digits).ok()?.parse().ok()
}

/// The cell of a text. None where it is no such text, or the offset is 2^64 or more. Takes no memory.
pub fn cell_text(text: &[u8]) -> Option<CellText<'_>>
    ensures { MatchOption result ((c : Cell) → c.offset < 2 ^ 64 → ¬ IsCellText text.now c)
        (λ x. IsCellText text.now (record { path = x.path; property = x.property.now; offset = x.offset })) }
{
    let (path, rest) = cut(text, b':')?;
    let (property, digits) = cut(rest, b':')?;
    let path = PathRef::new(path)?;
    PropName::new(property).ok()?;
    let offset = decimal(digits)?;
    Some(CellText {
        path,
        property,
        offset,
    })
}

/// Are there four bytes at an offset of a value? Takes no memory.
pub fn has_cell(value: &[u8], offset: usize) -> bool
    ensures { IsTrue result ↔ (offset + 4 ≤ length value.now) }
{
    value.len() >= 4 && offset <= value.len() - 4
}

/// Is the value the text of a path with a NUL? Takes no memory.
pub fn is_path_value(value: &[u8]) -> bool
    ensures { IsTrue result ↔ ((path : Names) × IsPathValue value.now path) }
{
    match value.split_last() {
        Some((0, text)) => PathRef::new(text).is_some(),
        _ => false,
    }
}

/// The path of the node that a symbol names: its value is the path's text with a NUL.
///
/// # Errors
///
/// `BadSymbol` where it is no path's; `Limit` where the path has more than 64 names; and `NoMemory`. None has a place.
pub fn symbol_path(alloc: Global, value: &[u8]) -> Result<Path, Fault>
    ensures value { IfOk result (λ path. IsPathValue value.now path × (length path ≤ most_names)) }
    ensures refused { IfErr result (λ fault. WhyNoSymbolPath fault.kind value.now × (fault.at ≡ None)) }
{
    let Some((0, text)) = value.split_last() else {
        return Err(Fault::of(FaultKind::BadSymbol));
    };
    match Path::parse(alloc, text) {
        Err(fault) if fault.kind == FaultKind::BadName => Err(Fault::of(FaultKind::BadSymbol)),
        parsed => parsed,
    }
}
