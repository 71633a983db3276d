//! Sources: headers, reservations and statements.

ghost use Rattle.std.specs.Prelude.{◌≡◌, ◌≢◌, ◌↔◌, ◌-◌, ◌<◌, ◌≤◌, [], Some, None, List, ℕ, map, drop, length, OnOk, IfOk, IfErr, MatchOption, IsTrue};
ghost use Rattle.std.specs.List.{AllByRecursion};
ghost use Rattle.dt_names.specs.declared.fault.FaultKind.{FaultKind};
ghost use Rattle.dt_names.specs.declared.fault.FaultKind.TheVariants.{NoMemory};
ghost use Rattle.dt_lex.specs.declared.token.TokenKind.TheVariants as kind;
ghost use Rattle.dt_lex.specs.declared.token.Keyword.TheVariants as keyword;
ghost use Rattle.dt_expr.specs.Fits.{IsWidth};
ghost use Rattle.dt_grammar.specs.Words.{Words};
ghost use Rattle.dt_grammar.specs.WordBytes.{HaveBytes};
ghost use Rattle.dt_grammar.specs.Unchecked.{RawPlace, RawReserve, RawSource, reserve_of, all_but_last, says_of};
ghost use Rattle.dt_grammar.specs.Strict.{AreLabelTexts, IsReserve};
ghost use Rattle.dt_grammar.specs.Wanted.{Made, kind_at, made_labels, made_places, made_behind, made_source, SomeLabels, Whole};
ghost use Rattle.dt_grammar.specs.Wanted.{MoreHeaders, NextVersion, Top, AfterTopLabels, StatementThen};
ghost use Rattle.dt_grammar.specs.Moves.{source_with};
ghost use Rattle.dt_grammar.specs.Descent.{first, found, Descends};
ghost use Rattle.dt_grammar.specs.Faults.{Around, outside, Breaks};
ghost use Rattle.dt_parse.specs.Reading.{IsRead, IsBroken, IsSourceFault};
ghost use Rattle.dt_grammar.specs.Parsed.{IsTagged, token_place, told_at, IsParsed, WhyNotParsed};
ghost use Rattle.dt_parse.specs.Leading.{ReadsOn, Reserves};
ghost use Rattle.dt_source_items.specs.Said.{reservation_said};

use crate::cursor::Cursor;
use crate::expression::Room;
use crate::number::number;
use crate::seeding::seed_of;
use crate::statement::statements;
use crate::stop::Stop;
use crate::value::labels;
use dt_lex::{Keyword, Mark, Token, TokenKind, tokens};
use dt_names::{Fault, FaultKind, Label, Seed};
use dt_source_items::{Items, Reservation, Source};
use std::alloc::Global;

/// Whether the tokens begin with `/dts-v1/;`.
fn is_tagged(cursor: &Cursor<'_, '_>) -> bool
    ensures { IsTrue result ↔ IsTagged cursor.now }
{
    cursor.kind() == Some(TokenKind::Keyword(Keyword::Version))
        && cursor.second() == Some(TokenKind::Mark(Mark::Semicolon))
}

/// Reads the first header: `/dts-v1/;`, and `/plugin/;` if it follows. Whether it does.
fn first_header(cursor: &mut Cursor<'_, '_>) -> Result<bool, Stop>
    ensures ok { IfOk result (λ plugin. ReadsOn outside Whole cursor.old outside (MoreHeaders plugin) cursor.new) }
    ensures err { IfErr result (λ stop. IsBroken outside Whole cursor.old stop) }
{
    cursor.expect(TokenKind::Keyword(Keyword::Version))?;
    cursor.expect(TokenKind::Mark(Mark::Semicolon))?;
    if cursor.kind() != Some(TokenKind::Keyword(Keyword::Plugin)) {
        return Ok(false);
    }
    cursor.advance();
    cursor.expect(TokenKind::Mark(Mark::Semicolon))?;
    Ok(true)
}

/// Reads a header behind its `/dts-v1/`, as the first one was.
fn next_header(plugin: bool, cursor: &mut Cursor<'_, '_>) -> Result<(), Stop>
    ensures ok { OnOk result (ReadsOn outside (NextVersion plugin) cursor.old outside (MoreHeaders plugin) cursor.new) }
    ensures shorter { OnOk result (length cursor.new ≤ length cursor.old) }
    ensures err { IfErr result (λ stop. IsBroken outside (NextVersion plugin) cursor.old stop) }
{
    cursor.expect(TokenKind::Mark(Mark::Semicolon))?;
    if !plugin {
        return Ok(());
    }
    cursor.expect(TokenKind::Keyword(Keyword::Plugin))?;
    cursor.expect(TokenKind::Mark(Mark::Semicolon))
}

/// Reads the headers: `/dts-v1/;`, and `/plugin/;` behind each of them or behind none. Whether it is there.
fn headers(cursor: &mut Cursor<'_, '_>) -> Result<bool, Stop>
    ensures found { IfOk result (λ plugin. (m : Made) (left : Words) → Descends Top cursor.new (found m left)
        → Descends Whole cursor.old (found (source_with plugin m) left)) }
    ensures breaks { IfOk result (λ _. (k : FaultKind) (left : Words) → Breaks outside Top cursor.new k left → Breaks outside Whole cursor.old k left) }
    ensures err { IfErr result (λ stop. IsBroken outside Whole cursor.old stop) }
{
    let plugin = first_header(cursor)?;
    'headers: while cursor.kind() == Some(TokenKind::Keyword(Keyword::Version)) {
        cursor.advance();
        next_header(plugin, cursor)?;
    }
    Ok(plugin)
}

fn are_zero(address: u64, size: u64) -> bool
    ensures { IsTrue result ↔ ((address ≡ 0) × (size ≡ 0)) }
{
    address == 0 && size == 0
}

/// Reads a reservation, from its `/memreserve/` to its `;` (Devicetree Specification v0.4, 6.3). `OutOfRange` where both of its
/// numbers are 0, at the second.
fn reservation(room: &mut Room, cursor: &mut Cursor<'_, '_>) -> Result<Reservation, Stop>
    requires { kind_at (first cursor.old) ≡ Some (kind.Keyword keyword.Memreserve) }
    ensures ok { IfOk result (λ r. (ls : List (List ℕ)) → AreLabelTexts ls → Reserves ls cursor.old (reservation_said r) cursor.new) }
    ensures shorter { IfOk result (λ _. length cursor.new < length cursor.old) }
    ensures err { IfErr result (λ stop. (ls : List (List ℕ)) → IsBroken outside (AfterTopLabels ls) cursor.old stop) }
{
    cursor.advance();
    let address = number(room, 64, cursor)?;
    let left = cursor.left();
    let size = number(room, 64, cursor)?;
    if are_zero(address, size) {
        return Err(Stop {
            kind: FaultKind::OutOfRange,
            left,
        });
    }
    cursor.expect(TokenKind::Mark(Mark::Semicolon))?;
    Ok(Reservation { address, size })
}

/// Whether a reservation is next.
fn at_reservation(cursor: &Cursor<'_, '_>) -> bool
    ensures { IsTrue result ↔ (kind_at (first cursor.now) ≡ Some (kind.Keyword keyword.Memreserve)) }
{
    matches!(cursor.kind(), Some(TokenKind::Keyword(Keyword::Memreserve)))
}

/// The labels of the first statement. None where a reservation is next, whose labels are passed.
#[inline(always)]
fn statement_labels<'a>(
    alloc: Global,
    cursor: &mut Cursor<'a, '_>,
) -> Result<Option<Vec<Label<'a>>>, Stop>
    ensures ok { IfOk result (λ found. (ls : List (List ℕ)) × ((a : Around) → IsRead a SomeLabels cursor.old (made_labels ls) cursor.new)
        × MatchOption found (kind_at (first cursor.new) ≡ Some (kind.Keyword keyword.Memreserve))
        (λ names. (names.items ≡ map all_but_last ls) × (kind_at (first cursor.new) ≢ Some (kind.Keyword keyword.Memreserve)))) }
    ensures err { IfErr result (λ stop. (a : Around) → IsBroken a SomeLabels cursor.old stop) }
{
    if at_reservation(cursor) {
        return Ok(None);
    }
    let names = labels(alloc, cursor)?;
    if at_reservation(cursor) {
        return Ok(None);
    }
    Ok(Some(names))
}

/// Reads the reservations, and the labels of the first statement behind them.
fn reservations<'a>(
    room: &mut Room,
    cursor: &mut Cursor<'a, '_>,
) -> Result<(Vec<Reservation>, Vec<Label<'a>>), Stop>
    ensures ok { IfOk result (λ r. (rs : List RawReserve) × (ls : List (List ℕ)) × AllByRecursion IsReserve rs × AreLabelTexts ls
        × (map reservation_said r.0.items ≡ map reserve_of rs) × (r.1.items ≡ map all_but_last ls)
        × ((ps : List RawPlace) (left : Words) → Descends (StatementThen ls) cursor.new (found (made_places ps) left)
        → Descends Top cursor.old (found (made_behind rs ps) left))
        × ((k : FaultKind) (left : Words) → Breaks outside (StatementThen ls) cursor.new k left → Breaks outside Top cursor.old k left)) }
    ensures err { IfErr result (λ stop. IsBroken outside Top cursor.old stop) }
{
    let mut list = Vec::new(room.alloc);
    'reservations: loop {
        if let Some(names) = statement_labels(room.alloc, cursor)? {
            return Ok((list, names));
        }
        let next = reservation(room, cursor)?;
        list.push(next)?;
    }
}

/// Reads a source, to the end of the text that has the seed.
fn source<'a>(room: &mut Room, seed: Seed, cursor: &mut Cursor<'a, '_>) -> Result<Source<'a>, Stop>
    requires { HaveBytes cursor.old }
    ensures ok { IfOk result (λ s. (r : RawSource) × IsRead outside Whole cursor.old (made_source r) [] × (s ≡ says_of r)) }
    ensures err { IfErr result (λ stop. IsBroken outside Whole cursor.old stop) }
{
    let plugin = headers(cursor)?;
    let (reservations, names) = reservations(room, cursor)?;
    let mut items = Items::new(room.alloc);
    statements(room, names, cursor, &mut items)?;
    items.shrink_to_fit();
    Ok(Source::of(seed, plugin, reservations, items))
}

/// The fault of a stop, at the first byte of the token at which it shows.
fn fault_of(stop: Stop, text: &[u8], tokens: &[Token]) -> Fault
    ensures memory { stop.kind ≡ NoMemory → result ≡ record { kind = NoMemory; at = None } }
    ensures told { ¬ stop.kind ≡ NoMemory
        → result ≡ record { kind = stop.kind; at = told_at stop.kind (token_place text.now (drop (length tokens.now - stop.left) tokens.now)) } }
{
    let place = match tokens.get(tokens.len().saturating_sub(stop.left)) {
        Some(token) => token.start as usize,
        None => text.len(),
    };
    match stop.kind {
        FaultKind::NoMemory => Fault::of(FaultKind::NoMemory),
        FaultKind::Limit => Fault::of(FaultKind::Limit),
        kind => Fault::at(kind, place),
    }
}

/// What a text says in the grammar of DTS version 1 (Devicetree Specification v0.4, chapter 6). It is read from its first token
/// to its last, once; however deep bodies and parentheses stand in each other, nothing recurses.
///
/// # Errors
///
/// Those of `dt_lex::tokens`, with their places: `Limit`, `BadToken`, `BadInteger`; else the first token at which a fault shows, with its first
/// byte as the place:
/// - `BadVersionTag`: its first two tokens aren't `/dts-v1/` and `;`; the place is 0.
/// - `Syntax`: no source begins with the tokens through this one, were a body's properties and children allowed in any order; or,
///   with the text's length as the place, the text ends too early.
/// - `BadName`: a name, a label, or a reference's label or path isn't one. What a name has to be depends on the token behind it;
///   where that is Syntax, nothing.
/// - `BadReferenceWidth`: a reference in a cell list whose elements aren't of 32 bits.
/// - `PropertyAfterNode`: the `=` or `;` behind a property's name, or a `/delete-property/`, where a child or its deletion stood
///   before in the body.
/// - `DivideByZero`, `OutOfRange`: a number divides by 0, or doesn't fit its element; the second number of a reservation of two
///   zeros, too.
/// - `Limit`, without a place: the 1,025th token of a number, or the `{` of a body inside 65 others.
///
/// `NoMemory`, without a place, may be met at any time.
pub fn parse<'a>(alloc: Global, text: &'a [u8]) -> Result<Source<'a>, Fault>
    // What is answered is what the text says in the grammar.
    ensures ok { IfOk result (λ s. IsParsed text.now s) }
    // A fault is the first that shows, at its place.
    ensures err { IfErr result (λ fault. WhyNotParsed text.now fault) }
    ensures kinds { IfErr result (λ fault. IsSourceFault fault.kind) }
{
    let tokens = tokens(alloc, text)?;
    let mut cursor = Cursor::new(text, tokens.as_slice());
    if !is_tagged(&cursor) {
        return Err(Fault::at(FaultKind::BadVersionTag, 0));
    }
    let mut room = Room::new(alloc);
    match source(&mut room, seed_of(text, tokens.as_slice()), &mut cursor) {
        Ok(source) => Ok(source),
        Err(stop) => Err(fault_of(stop, text, tokens.as_slice())),
    }
}
