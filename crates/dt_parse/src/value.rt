//! The values of properties.

ghost use Rattle.std.specs.Prelude.{true, ◌≡◌, ◌++◌, ◌∷◌, [], ◌-◌, ◌<◌, ◌^◌, IfOk, IfErr, OnOk};
ghost use Rattle.std.specs.Prelude.{Some, List, ℕ, map, drop, MatchOption, MatchResult, length, IsTrue, ◌↔◌};
ghost use Rattle.std.specs.Int.{to_be_bytes};
ghost use Rattle.dt_names.specs.declared.fault.FaultKind.TheVariants.{BadName, Syntax};
ghost use Rattle.dt_model.specs.Source.{one};
ghost use Rattle.dt_lex.specs.declared.token.TokenKind.TheVariants as kind;
ghost use Rattle.dt_lex.specs.Texts.{text_bytes};
ghost use Rattle.dt_expr.specs.Fits.{IsWidth};
ghost use Rattle.dt_grammar.specs.Unchecked.{Target, a_label, RawCell, RawItem, cell_item, RawComponent};
ghost use Rattle.dt_grammar.specs.Unchecked.{all_but_last, width_of, reference_in, cells_parts, item_parts, value_parts};
ghost use Rattle.dt_grammar.specs.Relaxed.{reference_kind};
ghost use Rattle.dt_grammar.specs.Strict.{IsLabelText, IsReferenceText};
ghost use Rattle.dt_grammar.specs.Wanted.{SomeLabels, SomeCells, SomeBytes, OneItem, BitsNumber, BitsOpen, OneValue, Done};
ghost use Rattle.dt_grammar.specs.Wanted.{refuse, want, made_labels, made_cells, made_item, made_value, kind_at, bytes_at};
ghost use Rattle.dt_grammar.specs.Descent.{first, move_at};
ghost use Rattle.dt_parse.specs.declared.value.Opening.TheVariants as opening;
ghost use Rattle.dt_parse.specs.Openings.{opening_of, cell_opening, byte_opening};
ghost use Rattle.dt_grammar.specs.Faults.{Around, in_elements};
ghost use Rattle.dt_parse.specs.Reading.{IsRead, IsBroken};
ghost use Rattle.dt_source_items.specs.Gathered.{with_parts, with_value};
ghost use Rattle.dt_source_items.specs.Said.{reference_of, referring};

use crate::cursor::Cursor;
use crate::expression::Room;
use crate::number::number;
use crate::referring::referred_path;
use crate::stop::Stop;
use dt_lex::{Keyword, Mark, TokenKind};
use dt_names::{FaultKind, Label};
use dt_source_items::{Form, Items, Reference};
use std::alloc::{AllocError, Global};

/// The width of elements where `/bits/` gives none, in bits.
const CELL: u32 = 32;

/// What a token begins in a value.
#[derive(Clone, Copy)]
pub(crate) enum Opening {
    Cells,
    /// `/bits/`
    SizedCells,
    Text,
    Bytes,
    Reference,
    Nothing,
}

/// What a token begins between `<` and `>`.
#[derive(Clone, Copy)]
pub(crate) enum CellOpening {
    Label,
    Reference,
    Number,
    Nothing,
}

/// What a token is between `[` and `]`.
#[derive(Clone, Copy)]
pub(crate) enum ByteOpening {
    Label,
    Byte(u8),
    Nothing,
}

fn opening_of(next: Option<TokenKind>) -> Opening
    ensures { result ≡ opening_of next }
{
    match next {
        Some(TokenKind::Mark(Mark::Less)) => Opening::Cells,
        Some(TokenKind::Mark(Mark::OpenBracket)) => Opening::Bytes,
        Some(TokenKind::Keyword(Keyword::Bits)) => Opening::SizedCells,
        Some(TokenKind::Text) => Opening::Text,
        Some(TokenKind::LabelReference) => Opening::Reference,
        Some(TokenKind::PathReference) => Opening::Reference,
        _ => Opening::Nothing,
    }
}

fn cell_opening(next: Option<TokenKind>) -> CellOpening
    ensures { result ≡ cell_opening next }
{
    match next {
        Some(TokenKind::Label) => CellOpening::Label,
        Some(TokenKind::LabelReference) => CellOpening::Reference,
        Some(TokenKind::PathReference) => CellOpening::Reference,
        Some(TokenKind::Integer(_)) => CellOpening::Number,
        Some(TokenKind::Character(_)) => CellOpening::Number,
        Some(TokenKind::Mark(Mark::OpenParenthesis)) => CellOpening::Number,
        _ => CellOpening::Nothing,
    }
}

fn byte_opening(next: Option<TokenKind>) -> ByteOpening
    ensures { result ≡ byte_opening next }
{
    match next {
        Some(TokenKind::Label) => ByteOpening::Label,
        Some(TokenKind::Byte(byte)) => ByteOpening::Byte(byte),
        _ => ByteOpening::Nothing,
    }
}

/// Appends an element of so many bits, big-endian.
fn push_element(items: &mut Items<'_>, bits: u32, element: u64) -> Result<(), AllocError>
    requires width { IsWidth bits }
    requires fits { element < 2 ^ bits }
    ensures { OnOk result (items.new ≡ with_parts items.old (map one (to_be_bytes (width_of bits) element))) }
{
    match bits {
        8 => items.push_byte(element as u8),
        16 => items.push_bytes(&(element as u16).to_be_bytes()),
        32 => items.push_bytes(&(element as u32).to_be_bytes()),
        _ => items.push_bytes(&element.to_be_bytes()),
    }
}

/// The label that the next token is; `BadName` where it isn't one.
#[inline(never)]
pub(crate) fn label<'a>(cursor: &Cursor<'a, '_>) -> Result<Label<'a>, Stop>
    ensures { MatchResult result
        (λ l. IsLabelText (bytes_at (first cursor.now)) × (l ≡ all_but_last (bytes_at (first cursor.now))))
        (λ stop. ¬ IsLabelText (bytes_at (first cursor.now)) × (stop.kind ≡ BadName) × (stop.left ≡ length cursor.now)) }
{
    let bytes = cursor.bytes();
    if bytes.is_empty() || bytes[bytes.len() - 1] != b':' {
        return Err(cursor.stop(FaultKind::BadName));
    }
    match Label::new(&bytes[..bytes.len() - 1]) {
        Ok(label) => Ok(label),
        Err(_) => Err(cursor.stop(FaultKind::BadName)),
    }
}

/// The label behind `&`; none where there is none.
fn label_referred_to<'a>(bytes: &'a [u8]) -> Option<Label<'a>>
    ensures { MatchOption result (¬ IsReferenceText a_label bytes.now) (λ l. IsReferenceText a_label bytes.now × (l ≡ drop 1 bytes.now)) }
{
    if bytes.is_empty() || bytes[0] != b'&' {
        return None;
    }
    match Label::new(&bytes[1..]) {
        Ok(label) => Some(label),
        Err(_) => None,
    }
}

/// The reference of a token of this kind; none where its label or its path isn't one.
fn reference_of<'a>(kind: Option<TokenKind>, bytes: &'a [u8]) -> Option<Reference<'a>>
    ensures { (t : Target) → kind ≡ Some (reference_kind t) → MatchOption result (¬ IsReferenceText t bytes.now)
        (λ r. IsReferenceText t bytes.now × (reference_of r ≡ reference_in t bytes.now)) }
{
    match kind {
        Some(TokenKind::PathReference) => Some(Reference::Path(referred_path(bytes)?)),
        _ => Some(Reference::Label(label_referred_to(bytes)?)),
    }
}

/// The reference that the next token is; `BadName` where its label or its path isn't one.
pub(crate) fn reference<'a>(cursor: &Cursor<'a, '_>) -> Result<Reference<'a>, Stop>
    ensures { (t : Target) → kind_at (first cursor.now) ≡ Some (reference_kind t) → MatchResult result
        (λ r. IsReferenceText t (bytes_at (first cursor.now)) × (reference_of r ≡ reference_in t (bytes_at (first cursor.now))))
        (λ stop. ¬ IsReferenceText t (bytes_at (first cursor.now)) × (stop.kind ≡ BadName) × (stop.left ≡ length cursor.now)) }
{
    match reference_of(cursor.kind(), cursor.bytes()) {
        Some(reference) => Ok(reference),
        None => Err(cursor.stop(FaultKind::BadName)),
    }
}

/// Whether a token is a label.
fn is_label(next: Option<TokenKind>) -> bool
    ensures { IsTrue result ↔ next ≡ Some kind.Label }
{
    matches!(next, Some(TokenKind::Label))
}

/// Reads labels, as many as stand there.
#[inline(always)]
pub(crate) fn labels<'a>(alloc: Global, cursor: &mut Cursor<'a, '_>) -> Result<Vec<Label<'a>>, Stop>
    ensures ok { IfOk result (λ names. (ls : List (List ℕ)) × ((a : Around) → IsRead a SomeLabels cursor.old (made_labels ls) cursor.new)
        × (names.items ≡ map all_but_last ls)) }
    ensures err { IfErr result (λ stop. (a : Around) → IsBroken a SomeLabels cursor.old stop) }
{
    let mut names = Vec::new(alloc);
    while is_label(cursor.kind()) {
        names.push(label(cursor)?)?;
        cursor.advance();
    }
    Ok(names)
}

/// Steps over labels, as many as stand there.
#[inline(always)]
fn skip_labels(cursor: &mut Cursor<'_, '_>) -> Result<(), Stop>
    ensures ok { OnOk result ((ls : List (List ℕ)) × ((a : Around) → IsRead a SomeLabels cursor.old (made_labels ls) cursor.new)) }
    ensures err { IfErr result (λ stop. (a : Around) → IsBroken a SomeLabels cursor.old stop) }
{
    while is_label(cursor.kind()) {
        label(cursor)?;
        cursor.advance();
    }
    Ok(())
}

/// Reads what is between `<` and `>`, in elements of so many bits.
fn cells<'a>(
    room: &mut Room,
    bits: u32,
    cursor: &mut Cursor<'a, '_>,
    items: &mut Items<'a>,
) -> Result<(), Stop>
    requires { IsWidth bits }
    ensures ok { OnOk result ((cs : List RawCell) × ((a : Around) → IsRead (in_elements bits a) SomeCells cursor.old (made_cells cs) cursor.new)
        × (items.new ≡ with_parts items.old (cells_parts bits cs))) }
    ensures err { IfErr result (λ stop. (a : Around) → IsBroken (in_elements bits a) SomeCells cursor.old stop) }
{
    'cells: loop {
        match cell_opening(cursor.kind()) {
            CellOpening::Label => {
                label(cursor)?;
                cursor.advance();
            }
            CellOpening::Reference => {
                let target = reference(cursor)?;
                if bits != CELL {
                    return Err(cursor.stop(FaultKind::BadReferenceWidth));
                }
                cursor.advance();
                items.push_reference(Form::Cell, target)?;
            }
            CellOpening::Number => {
                let element = number(room, bits, cursor)?;
                push_element(items, bits, element)?;
            }
            CellOpening::Nothing => return Ok(()),
        }
    }
}

/// Reads what is between `[` and `]`.
fn bytes<'a>(cursor: &mut Cursor<'a, '_>, items: &mut Items<'a>) -> Result<(), Stop>
    ensures ok { OnOk result ((cs : List RawCell) × ((a : Around) → IsRead a SomeBytes cursor.old (made_cells cs) cursor.new)
        × (items.new ≡ with_parts items.old (cells_parts 8 cs))) }
    ensures err { IfErr result (λ stop. (a : Around) → IsBroken a SomeBytes cursor.old stop) }
{
    'bytes: loop {
        match byte_opening(cursor.kind()) {
            ByteOpening::Label => {
                label(cursor)?;
                cursor.advance();
            }
            ByteOpening::Byte(byte) => {
                cursor.advance();
                items.push_byte(byte)?;
            }
            ByteOpening::Nothing => return Ok(()),
        }
    }
}

/// Reads a cell list from its `<` to its `>`, in elements of so many bits.
fn cell_list<'a>(
    room: &mut Room,
    bits: u32,
    cursor: &mut Cursor<'a, '_>,
    items: &mut Items<'a>,
) -> Result<(), Stop>
    requires { IsWidth bits }
    ensures ok { OnOk result ((cs : List RawCell) × ((a : Around) → IsRead a (BitsOpen bits) cursor.old (made_item (cell_item bits cs)) cursor.new)
        × (items.new ≡ with_parts items.old (cells_parts bits cs))) }
    ensures err { IfErr result (λ stop. (a : Around) → IsBroken a (BitsOpen bits) cursor.old stop) }
{
    cursor.expect(TokenKind::Mark(Mark::Less))?;
    cells(room, bits, cursor, items)?;
    cursor.expect(TokenKind::Mark(Mark::Greater))
}

/// The width that the next token is; `Syntax` where it isn't one.
fn width(cursor: &Cursor<'_, '_>) -> Result<u32, Stop>
    ensures { MatchResult result
        (λ bits. IsWidth bits × (move_at BitsNumber (first cursor.now) ≡ want true (BitsOpen bits) Done))
        (λ stop. (move_at BitsNumber (first cursor.now) ≡ refuse) × (stop.kind ≡ Syntax) × (stop.left ≡ length cursor.now)) }
{
    match cursor.kind() {
        Some(TokenKind::Integer(8)) => Ok(8),
        Some(TokenKind::Integer(16)) => Ok(16),
        Some(TokenKind::Integer(32)) => Ok(32),
        Some(TokenKind::Integer(64)) => Ok(64),
        _ => Err(cursor.stop(FaultKind::Syntax)),
    }
}

/// Reads a cell list behind its `/bits/`.
fn sized_cells<'a>(
    room: &mut Room,
    cursor: &mut Cursor<'a, '_>,
    items: &mut Items<'a>,
) -> Result<(), Stop>
    ensures ok { OnOk result ((i : RawItem) × ((a : Around) → IsRead a BitsNumber cursor.old (made_item i) cursor.new)
        × (items.new ≡ with_parts items.old (item_parts i))) }
    ensures err { IfErr result (λ stop. (a : Around) → IsBroken a BitsNumber cursor.old stop) }
{
    let bits = width(cursor)?;
    cursor.advance();
    cell_list(room, bits, cursor, items)
}

/// Reads a text.
fn text<'a>(cursor: &mut Cursor<'a, '_>, items: &mut Items<'a>) -> Result<(), Stop>
    requires { opening_of (kind_at (first cursor.old)) ≡ opening.Text }
    ensures ok { OnOk result ((i : RawItem) × ((a : Around) → IsRead a OneItem cursor.old (made_item i) cursor.new)
        × (items.new ≡ with_parts items.old (item_parts i))) }
    ensures err { IfErr result (λ stop. (a : Around) → IsBroken a OneItem cursor.old stop) }
{
    items.push_string(cursor.bytes())?;
    cursor.advance();
    Ok(())
}

/// Reads a list of bytes, from its `[` to its `]`.
fn byte_list<'a>(cursor: &mut Cursor<'a, '_>, items: &mut Items<'a>) -> Result<(), Stop>
    requires { opening_of (kind_at (first cursor.old)) ≡ opening.Bytes }
    ensures ok { OnOk result ((i : RawItem) × ((a : Around) → IsRead a OneItem cursor.old (made_item i) cursor.new)
        × (items.new ≡ with_parts items.old (item_parts i))) }
    ensures err { IfErr result (λ stop. (a : Around) → IsBroken a OneItem cursor.old stop) }
{
    cursor.advance();
    bytes(cursor, items)?;
    cursor.expect(TokenKind::Mark(Mark::CloseBracket))
}

/// Reads a reference outside a cell list.
fn path_text<'a>(cursor: &mut Cursor<'a, '_>, items: &mut Items<'a>) -> Result<(), Stop>
    requires { opening_of (kind_at (first cursor.old)) ≡ opening.Reference }
    ensures ok { OnOk result ((i : RawItem) × ((a : Around) → IsRead a OneItem cursor.old (made_item i) cursor.new)
        × (items.new ≡ with_parts items.old (item_parts i))) }
    ensures err { IfErr result (λ stop. (a : Around) → IsBroken a OneItem cursor.old stop) }
{
    let target = reference(cursor)?;
    cursor.advance();
    items.push_reference(Form::Text, target)?;
    Ok(())
}

/// Reads one component of a value, without the labels around it.
fn item<'a>(room: &mut Room, cursor: &mut Cursor<'a, '_>, items: &mut Items<'a>) -> Result<(), Stop>
    ensures ok { OnOk result ((i : RawItem) × ((a : Around) → IsRead a OneItem cursor.old (made_item i) cursor.new)
        × (items.new ≡ with_parts items.old (item_parts i))) }
    ensures err { IfErr result (λ stop. (a : Around) → IsBroken a OneItem cursor.old stop) }
{
    match opening_of(cursor.kind()) {
        Opening::Cells => cell_list(room, CELL, cursor, items),
        Opening::SizedCells => {
            cursor.advance();
            sized_cells(room, cursor, items)
        }
        Opening::Text => text(cursor, items),
        Opening::Bytes => byte_list(cursor, items),
        Opening::Reference => path_text(cursor, items),
        Opening::Nothing => Err(cursor.stop(FaultKind::Syntax)),
    }
}

/// Reads components with commas between them, and appends what they say.
fn components<'a>(
    room: &mut Room,
    cursor: &mut Cursor<'a, '_>,
    items: &mut Items<'a>,
) -> Result<(), Stop>
    ensures ok { OnOk result ((cs : List RawComponent) × ((a : Around) → IsRead a OneValue cursor.old (made_value cs) cursor.new)
        × (items.new ≡ with_parts items.old (value_parts cs))) }
    ensures err { IfErr result (λ stop. (a : Around) → IsBroken a OneValue cursor.old stop) }
{
    'components: loop {
        skip_labels(cursor)?;
        item(room, cursor, items)?;
        skip_labels(cursor)?;
        if cursor.kind() != Some(TokenKind::Mark(Mark::Comma)) {
            return Ok(());
        }
        cursor.advance();
    }
}

/// Reads a value: components with commas between them, labels before and behind each (Devicetree Specification v0.4, 6.3).
pub(crate) fn value<'a>(
    room: &mut Room,
    cursor: &mut Cursor<'a, '_>,
    items: &mut Items<'a>,
) -> Result<(), Stop>
    ensures ok { OnOk result ((cs : List RawComponent) × ((a : Around) → IsRead a OneValue cursor.old (made_value cs) cursor.new)
        × (items.new ≡ with_value items.old (value_parts cs))) }
    ensures err { IfErr result (λ stop. (a : Around) → IsBroken a OneValue cursor.old stop) }
{
    items.begin_value();
    components(room, cursor, items)
}
