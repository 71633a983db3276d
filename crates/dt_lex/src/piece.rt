//! Words that their first bytes decide: almost all words of a source. A function answers None where they don't decide; the rules then do.

ghost use Rattle.std.specs.Prelude.{◌≡◌, ℕ, List, ◌++◌, ◌+◌, ◌<◌, false, true, Ok, IfSome, length};
ghost use Rattle.dt_lex.specs.declared.token.Mode.{Mode};
ghost use Rattle.dt_lex.specs.declared.token.Mode.TheVariants as mode;
ghost use Rattle.dt_lex.specs.Lexing.{ends_line};
ghost use Rattle.dt_lex.specs.Pieces.{IsBehindNames, IsDecided, IsFront, IsLedBy, IsPiece, IsSole};

use crate::byte::Class;
use crate::number::{base_of, read_integer};
use crate::outcome::{byte_at, byte_of};
use crate::quoted::after_text;
use crate::token::{Keyword, Mark, Mode, TokenKind, keyword_bytes};
use crate::word::{
    after_all, after_byte, after_label_reference, after_line_marker, after_run, after_suffix,
    after_word, begins, split,
};

/// A word that was cut off: the token that it gives, its length, whether it ends a line, and the text after it.
#[derive(Clone, Copy)]
pub(crate) struct Piece<'a> {
    pub kind: Option<TokenKind>,
    pub length: usize,
    pub fresh: bool,
    pub rest: &'a [u8],
}

/// The piece from the start of a text to a rest of it.
pub(crate) fn piece_of<'a>(kind: Option<TokenKind>, text: &'a [u8], rest: &'a [u8]) -> Piece<'a>
    requires { length rest.now < length text.now }
    ensures kind { result.kind ≡ kind }
    ensures rest { result.rest.now ≡ rest.now }
    ensures shorter { result.length + length rest.now ≡ length text.now }
    ensures word { (w : List ℕ) → text.now ≡ w ++ rest.now → (length w ≡ result.length) × (ends_line w ≡ result.fresh) }
{
    let length = text.len() - rest.len();
    Piece {
        kind,
        length,
        fresh: byte_at(&text[..length], length - 1) == b'\n',
        rest,
    }
}

/// The mark that a byte is with this byte, or 0, behind it, where that hangs on nothing else.
#[inline(always)]
fn sole_mark(first: u8, second: u8) -> Option<Mark>
    ensures { IfSome result (λ mark. IsSole first second mark) }
{
    match first {
        b';' => Some(Mark::Semicolon),
        b'{' => Some(Mark::OpenBrace),
        b'}' => Some(Mark::CloseBrace),
        b'[' => Some(Mark::OpenBracket),
        b']' => Some(Mark::CloseBracket),
        b'(' => Some(Mark::OpenParenthesis),
        b')' => Some(Mark::CloseParenthesis),
        b':' => Some(Mark::Colon),
        b'%' => Some(Mark::Percent),
        b'^' => Some(Mark::Caret),
        b'~' => Some(Mark::Tilde),
        b'<' if second != b'<' && second != b'=' => Some(Mark::Less),
        b'>' if second != b'>' && second != b'=' => Some(Mark::Greater),
        b'=' if second != b'=' => Some(Mark::Equals),
        _ => None,
    }
}

/// A mark of one byte.
#[inline(always)]
fn lone_mark(text: &[u8]) -> Option<Piece<'_>>
    ensures exact { IfSome result (λ p. (m : Mode) → IsDecided m text.now p) }
    ensures front { IfSome result (IsFront text.now) }
{
    let (first, rest) = split(text)?;
    let mark = sole_mark(first, byte_at(rest, 0))?;
    Some(piece_of(Some(TokenKind::Mark(mark)), text, rest))
}

/// A label or a name, in the mode of names.
fn label_or_name(text: &[u8]) -> Option<Piece<'_>>
    ensures exact { IfSome result (IsDecided mode.Name text.now) }
    ensures front { IfSome result (IsFront text.now) }
{
    if !begins(text, Class::LabelStart) {
        return None;
    }
    let run = after_all(text, Class::Label);
    if let Some(rest) = after_word(run, b":") {
        return Some(piece_of(Some(TokenKind::Label), text, rest));
    }
    Some(piece_of(Some(TokenKind::Name), text, after_all(run, Class::Name)))
}

/// A reference to a label.
fn reference(text: &[u8]) -> Option<Piece<'_>>
    ensures exact { IfSome result (λ p. (m : Mode) → IsDecided m text.now p) }
    ensures front { IfSome result (IsFront text.now) }
{
    let rest = after_label_reference(text)?;
    Some(piece_of(Some(TokenKind::LabelReference), text, rest))
}

/// A hexadecimal integer, in the mode of values.
fn hexadecimal(text: &[u8]) -> Option<Piece<'_>>
    ensures exact { IfSome result (IsDecided mode.Plain text.now) }
    ensures front { IfSome result (IsFront text.now) }
{
    let digits = after_word(text, b"0x")?;
    if !begins(digits, Class::Hex) {
        return None;
    }
    let (value, suffix) = read_integer(digits, Class::Hex, 16)?;
    let rest = after_suffix(suffix)?;
    Some(piece_of(Some(TokenKind::Integer(value)), text, rest))
}

/// A decimal or an octal integer, in the mode of values.
fn decimal(text: &[u8]) -> Option<Piece<'_>>
    ensures exact { IfSome result (IsDecided mode.Plain text.now) }
    ensures front { IfSome result (IsFront text.now) }
{
    let (_, behind) = split(text)?;
    let second = byte_at(behind, 0);
    if second == b'x' || second == b'X' {
        return None;
    }
    if !begins(text, Class::Digit) {
        return None;
    }
    let (value, suffix) = read_integer(text, Class::Digit, base_of(text))?;
    let rest = after_suffix(suffix)?;
    Some(piece_of(Some(TokenKind::Integer(value)), text, rest))
}

/// A byte that no label begins with, in the mode of bytes.
fn byte(text: &[u8]) -> Option<Piece<'_>>
    ensures exact { IfSome result (IsDecided mode.Bytes text.now) }
    ensures front { IfSome result (IsFront text.now) }
{
    let rest = after_byte(text)?;
    if begins(rest, Class::Label) || byte_at(rest, 0) == b':' {
        return None;
    }
    let value = byte_of(&text[..text.len() - rest.len()]);
    Some(piece_of(Some(TokenKind::Byte(value)), text, rest))
}

/// A text, in the mode of values.
fn quoted(text: &[u8]) -> Option<Piece<'_>>
    ensures exact { IfSome result (IsDecided mode.Plain text.now) }
    ensures front { IfSome result (IsFront text.now) }
{
    let rest = after_text(text)?;
    Some(piece_of(Some(TokenKind::Text), text, rest))
}

/// The mark that a byte is where it begins no name.
fn nameless_mark(first: u8) -> Option<Mark>
    ensures { IfSome result (λ mark. IsBehindNames first mark) }
{
    match first {
        b',' => Some(Mark::Comma),
        b'+' => Some(Mark::Plus),
        b'-' => Some(Mark::Minus),
        b'*' => Some(Mark::Star),
        b'?' => Some(Mark::Question),
        _ => None,
    }
}

/// A mark whose byte may begin a name, in the mode of values.
fn operator(text: &[u8]) -> Option<Piece<'_>>
    ensures exact { IfSome result (IsDecided mode.Plain text.now) }
    ensures front { IfSome result (IsFront text.now) }
{
    let (first, rest) = split(text)?;
    let mark = nameless_mark(first)?;
    Some(piece_of(Some(TokenKind::Mark(mark)), text, rest))
}

/// The keyword that a `/` and this byte begin, where no other rule has such words.
fn keyword_by(second: u8) -> Option<Keyword>
    ensures { IfSome result (λ keyword. IsLedBy second keyword) }
{
    match second {
        b'm' => Some(Keyword::Memreserve),
        b'b' => Some(Keyword::Bits),
        _ => None,
    }
}

/// A keyword.
fn keyword(text: &[u8]) -> Option<Piece<'_>>
    ensures exact { IfSome result (λ p. (m : Mode) → IsDecided m text.now p) }
    ensures front { IfSome result (IsFront text.now) }
{
    let (first, behind) = split(text)?;
    if first != b'/' {
        return None;
    }
    let keyword = keyword_by(byte_at(behind, 0))?;
    let rest = after_word(text, keyword_bytes(keyword))?;
    Some(piece_of(Some(TokenKind::Keyword(keyword)), text, rest))
}

/// A mark of one byte, in the mode of values, also where a name may begin with that byte.
fn mark(text: &[u8]) -> Option<Piece<'_>>
    ensures exact { IfSome result (IsDecided mode.Plain text.now) }
    ensures front { IfSome result (IsFront text.now) }
{
    match lone_mark(text) {
        Some(found) => Some(found),
        None => operator(text),
    }
}

/// An integer, a text, a reference to a label, a keyword or a mark, in the mode of values.
fn value(text: &[u8]) -> Option<Piece<'_>>
    ensures exact { IfSome result (IsDecided mode.Plain text.now) }
    ensures front { IfSome result (IsFront text.now) }
{
    let (first, _) = split(text)?;
    match first {
        b'0'..=b'9' => match hexadecimal(text) {
            Some(found) => Some(found),
            None => decimal(text),
        },
        b'"' => quoted(text),
        b'&' => reference(text),
        b'/' => keyword(text),
        _ => mark(text),
    }
}

/// A name that begins with `#`, in the mode of names, where no line begins.
fn hashed_name(text: &[u8]) -> Option<Piece<'_>>
    ensures exact { IfSome result (λ p. IsPiece mode.Name false text.now (Ok p)) }
    ensures front { IfSome result (IsFront text.now) }
{
    if byte_at(text, 0) != b'#' {
        return None;
    }
    let rest = after_run(text, Class::Name)?;
    Some(piece_of(Some(TokenKind::Name), text, rest))
}

/// A line marker, in the mode of names, where a line begins.
fn line_marker(text: &[u8]) -> Option<Piece<'_>>
    ensures exact { IfSome result (λ p. IsPiece mode.Name true text.now (Ok p)) }
    ensures front { IfSome result (IsFront text.now) }
{
    let rest = after_line_marker(text, b"#")?;
    Some(piece_of(None, text, rest))
}

/// A label, a name, a keyword or a line marker, in the mode of names.
fn named(fresh: bool, text: &[u8]) -> Option<Piece<'_>>
    ensures exact { IfSome result (λ p. IsPiece mode.Name fresh text.now (Ok p)) }
    ensures front { IfSome result (IsFront text.now) }
{
    match byte_at(text, 0) {
        b'#' if fresh => line_marker(text),
        b'#' => hashed_name(text),
        b'/' => keyword(text),
        _ => label_or_name(text),
    }
}

/// A mark of one byte, a label, a name, a keyword or a line marker, in the mode of names.
fn mark_or_named(fresh: bool, text: &[u8]) -> Option<Piece<'_>>
    ensures exact { IfSome result (λ p. IsPiece mode.Name fresh text.now (Ok p)) }
    ensures front { IfSome result (IsFront text.now) }
{
    match lone_mark(text) {
        Some(found) => Some(found),
        None => named(fresh, text),
    }
}

/// A byte or a mark of one byte, in the mode of bytes.
fn byte_or_mark(text: &[u8]) -> Option<Piece<'_>>
    ensures exact { IfSome result (IsDecided mode.Bytes text.now) }
    ensures front { IfSome result (IsFront text.now) }
{
    match byte(text) {
        Some(found) => Some(found),
        None => lone_mark(text),
    }
}

/// The word at the front, where its first bytes decide it.
pub(crate) fn decided(mode: Mode, fresh: bool, text: &[u8]) -> Option<Piece<'_>>
    ensures exact { IfSome result (λ p. IsPiece mode fresh text.now (Ok p)) }
    ensures front { IfSome result (IsFront text.now) }
{
    match mode {
        Mode::Name => mark_or_named(fresh, text),
        Mode::Bytes => byte_or_mark(text),
        Mode::Plain => value(text),
    }
}
