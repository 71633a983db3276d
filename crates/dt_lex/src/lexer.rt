//! A text, cut into tokens from its first byte to its last.

ghost use Rattle.std.specs.Prelude.{◌≡◌, ℕ, ◌<◌, ◌≤◌, ◌+◌, ◌-◌, ◌^◌, ◌++◌, Ok, IfOk, IfErr, OnOk, length};
ghost use Rattle.dt_model.specs.Limits.{most_bytes};
ghost use Rattle.dt_lex.specs.declared.token.Mode.{Mode};
ghost use Rattle.dt_lex.specs.Lexing.{Lexed, Lexes, IsLexed, WhyNotLexed};
ghost use Rattle.dt_lex.specs.Labels.{IsUnlabelled};
ghost use Rattle.dt_lex.specs.Pieces.{IsPiece, IsFront, mode_after, tokens_of};
ghost use Rattle.dt_lex.specs.Spans.{AreSpans, fault_of, no_memory};

use crate::byte::Class;
use crate::cut::cut;
use crate::label::unlabelled;
use crate::outcome::outcome;
use crate::piece::{Piece, decided, piece_of};
use crate::token::{Flaw, Mode, Token, TokenKind, mode_behind};
use crate::word::after_all;
use dt_names::limits::MOST_BYTES;
use dt_names::{Fault, FaultKind};
use std::alloc::Global;

/// The word at the front by the rules in their order, where so many bytes begin no label.
fn ruled_piece(mode: Mode, fresh: bool, unlabelled: usize, text: &[u8]) -> Result<Piece<'_>, Flaw>
    requires { IsUnlabelled unlabelled text.now }
    ensures exact { IsPiece mode fresh text.now result }
    ensures front { IfOk result (IsFront text.now) }
{
    let Some((rule, rest)) = cut(mode, fresh, unlabelled, text) else {
        return Err(Flaw::BadToken);
    };
    let kind = outcome(rule, &text[..text.len() - rest.len()])?;
    Ok(piece_of(kind, text, rest))
}

/// Behind the blanks at the front: whether a line begins there, and the text.
fn behind_blanks(fresh: bool, text: &[u8]) -> (bool, &[u8])
    ensures goes_on { (m : Mode) (a : Lexed) (at to : ℕ) → at + length text.now ≡ to + length result.1.now →
        Lexes m result.0 to result.1.now a → Lexes m fresh at text.now a }
    ensures shorter { length result.1.now ≤ length text.now }
    ensures labels { (unknown : ℕ) → IsUnlabelled (length text.now - unknown) text.now →
        IsUnlabelled (length result.1.now - unknown) result.1.now }
{
    let rest = after_all(text, Class::Blank);
    if rest.len() == text.len() {
        return (fresh, text);
    }
    let blanks = piece_of(None, text, rest);
    (blanks.fresh, blanks.rest)
}

/// The word at the front, where no label begins but in the last so many bytes.
fn next_piece<'a>(
    mode: Mode,
    fresh: bool,
    unknown: &mut usize,
    text: &'a [u8],
) -> Result<Piece<'a>, Flaw>
    requires { IsUnlabelled (length text.now - unknown.old) text.now }
    ensures exact { IsPiece mode fresh text.now result }
    ensures front { IfOk result (IsFront text.now) }
    ensures labels { IsUnlabelled (length text.now - unknown.new) text.now }
{
    if let Some(found) = decided(mode, fresh, text) {
        return Ok(found);
    }
    let known = unlabelled(text, text.len().saturating_sub(*unknown));
    *unknown = text.len().saturating_sub(known);
    ruled_piece(mode, fresh, known, text)
}

/// Appends the token that a word gives, if it gives one, and answers the mode behind it.
fn give(
    out: &mut Vec<Token>,
    mode: Mode,
    kind: Option<TokenKind>,
    start: usize,
    length: usize,
) -> Result<Mode, Fault>
    requires { start + length < 2 ^ 32 }
    ensures tokens { OnOk result (out.new.items ≡ out.old.items ++ tokens_of kind start length) }
    ensures mode { IfOk result (λ m. m ≡ mode_after kind mode) }
    ensures err { IfErr result (λ e. e ≡ no_memory) }
{
    match kind {
        None => Ok(mode),
        Some(kind) => {
            out.push(Token {
                kind,
                start: start as u32,
                end: (start + length) as u32,
            })?;
            Ok(mode_behind(kind, mode))
        }
    }
}

/// The fault for a flaw at a place.
fn fault_at(flaw: Flaw, place: usize) -> Fault
    ensures { result ≡ fault_of (record { flaw = flaw; at = place }) }
{
    match flaw {
        Flaw::BadToken => Fault::at(FaultKind::BadToken, place),
        Flaw::BadInteger => Fault::at(FaultKind::BadInteger, place),
    }
}

/// The tokens of a text (Devicetree Specification v0.4, chapter 6), in its order and with their places, in bytes from its
/// start; what is skipped gives none.
///
/// # Errors
///
/// `Limit`, without a place, for a text of more than 16,777,216 bytes; else the first flaw: `BadToken` at a byte at which no token begins, at
/// a comment, a text or a character that isn't closed, and at `/include/`, `/incbin/` and `/omit-if-no-ref/`; `BadInteger` at the first byte of
/// an integer with a digit that its base lacks, or of 2^64 or more. `NoMemory`, without a place, may be met at any time.
pub fn tokens(alloc: Global, text: &[u8]) -> Result<Vec<Token>, Fault>
    // What is answered is the text's token list.
    ensures ok { IfOk result (λ v. (length text.now ≤ most_bytes) × IsLexed text.now (Ok v.items)) }
    ensures spans { IfOk result (λ v. AreSpans 0 (length text.now) v.items) }
    // A fault is the text's length, or the text's first flaw; `one_outcome` says that then it has no token list, and no other fault.
    ensures err { IfErr result (λ e. WhyNotLexed text.now e) }
{
    if text.len() > MOST_BYTES {
        return Err(Fault::of(FaultKind::Limit));
    }
    let mut out = Vec::new(alloc);
    let mut mode = Mode::Name;
    let mut fresh = true;
    let mut unknown = text.len();
    let mut rest = text;
    loop {
        (fresh, rest) = behind_blanks(fresh, rest);
        if rest.is_empty() {
            return Ok(out);
        }
        let start = text.len() - rest.len();
        let next = match next_piece(mode, fresh, &mut unknown, rest) {
            Ok(next) => next,
            Err(flaw) => return Err(fault_at(flaw, start)),
        };
        mode = give(&mut out, mode, next.kind, start, next.length)?;
        fresh = next.fresh;
        rest = next.rest;
    }
}
