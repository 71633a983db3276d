//! Texts and characters between quotes. Each function answers the text after what it reads.

ghost use Rattle.std.specs.Prelude.{◌≡◌, ℕ, ◌<◌, ◌≤◌, ◌∷◌, false, true, IfSome, IfNone, length};
ghost use Rattle.dt_lex.specs.Bytes.{is_in};
ghost use Rattle.dt_lex.specs.Words.{Stops, Skips};
ghost use Rattle.dt_lex.specs.Vocabulary.{Escape, TextWord, CharacterWord};
ghost use Rattle.dt_lex.specs.Letters.{Letter, ClosedText, RunsUpTo};

use crate::byte::{Class, is_in};
use crate::word::{after_all, after_word, begins, split};

/// After one byte of a class.
fn after_one(text: &[u8], class: Class) -> Option<&[u8]>
    ensures some { IfSome result (λ rest. (b : ℕ) × (text.now ≡ b ∷ rest.now) × (is_in class b ≡ true)) }
    ensures none { IfNone result (Stops (is_in class) text.now) }
{
    let (first, rest) = split(text)?;
    if is_in(class, first) {
        Some(rest)
    } else {
        None
    }
}

/// After as many bytes of a class as there are at the front, but no more than so many.
fn after_up_to(text: &[u8], class: Class, count: usize) -> &[u8]
    ensures exact { RunsUpTo (is_in class) count text.now result.now }
{
    let mut rest = text;
    for _taken in 0..count {
        let Some(later) = after_one(rest, class) else {
            return rest;
        };
        rest = later;
    }
    rest
}

/// After an escape, which is as long as it can be.
fn after_escape(text: &[u8]) -> Option<&[u8]>
    ensures exact { Skips Escape text.now result }
{
    let behind = after_word(text, b"\\")?;
    if begins(behind, Class::Octal) {
        return Some(after_up_to(behind, Class::Octal, 3));
    }
    let (first, digits) = split(behind)?;
    if first != b'x' {
        return Some(digits);
    }
    if !begins(digits, Class::Hex) {
        return None;
    }
    Some(after_up_to(digits, Class::Hex, 2))
}

/// After a byte of a class, which means itself, or an escape.
fn after_letter(text: &[u8], class: Class) -> Option<&[u8]>
    requires { is_in class 92 ≡ false }
    ensures exact { Skips (Letter class) text.now result }
    ensures shorter { IfSome result (λ rest. length rest.now < length text.now) }
{
    match after_one(text, class) {
        Some(rest) => Some(rest),
        None => after_escape(text),
    }
}

/// After the inside of a text and its closing quote.
fn after_inside(text: &[u8]) -> Option<&[u8]>
    ensures exact { Skips ClosedText text.now result }
    ensures shorter { IfSome result (λ rest. length rest.now < length text.now) }
{
    let mut rest = text;
    loop {
        rest = after_all(rest, Class::Quoted);
        if let Some(behind) = after_word(rest, b"\"") {
            return Some(behind);
        }
        rest = after_letter(rest, Class::Quoted)?;
    }
}

/// After a text between quotes.
pub(crate) fn after_text(text: &[u8]) -> Option<&[u8]>
    ensures exact { Skips TextWord text.now result }
    ensures shorter { IfSome result (λ rest. length rest.now < length text.now) }
{
    after_inside(after_word(text, b"\"")?)
}

/// After a character between quotes.
pub(crate) fn after_character(text: &[u8]) -> Option<&[u8]>
    ensures exact { Skips CharacterWord text.now result }
    ensures shorter { IfSome result (λ rest. length rest.now < length text.now) }
{
    let inside = after_word(text, b"'")?;
    after_word(after_letter(inside, Class::Single)?, b"'")
}
