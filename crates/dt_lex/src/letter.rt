//! The bytes that texts and characters stand for.

ghost use Rattle.std.specs.Prelude.{◌≡◌, ℕ, ◌<◌, ◌≤◌, ◌+◌, ◌∷◌, ◌++◌, [], true, IfSome, IfNone, OnOk, OnErr, length};
ghost use Rattle.dt_lex.specs.declared.byte.Class.TheVariants as class;
ghost use Rattle.dt_lex.specs.Bytes.{is_in};
ghost use Rattle.dt_lex.specs.Numbers.{digit_of};
ghost use Rattle.dt_lex.specs.Vocabulary.{simple_value};
ghost use Rattle.dt_lex.specs.Words.{Stops};
ghost use Rattle.dt_lex.specs.Texts.{plain, octal, hex, unescaped, inner, text_bytes, character_value};

use crate::byte::{Class, is_in};
use crate::number::digit_of;
use crate::word::split;
use memchr::memchr;
use std::alloc::AllocError;

/// The byte that `\` and this byte stand for.
fn simple_value(b: u8) -> u8
    ensures { result ≡ simple_value b }
{
    match b {
        b'a' => 7,
        b'b' => 8,
        b't' => 9,
        b'n' => 10,
        b'v' => 11,
        b'f' => 12,
        b'r' => 13,
        _ => b,
    }
}

/// The number of an octal digit at the front, and the text after it.
fn octal_digit(text: &[u8]) -> Option<(u64, &[u8])>
    ensures some { IfSome result (λ found. (b : ℕ) × (text.now ≡ b ∷ found.1.now) × (is_in class.Octal b ≡ true) × (found.0 ≡ digit_of b)) }
    ensures below { IfSome result (λ found. found.0 < 8) }
    ensures none { IfNone result (Stops (is_in class.Octal) text.now) }
{
    let (first, rest) = split(text)?;
    if is_in(Class::Octal, first) {
        Some((u64::from(first - b'0'), rest))
    } else {
        None
    }
}

/// The number of a hexadecimal digit at the front, and the text after it.
fn hex_digit(text: &[u8]) -> Option<(u64, &[u8])>
    ensures some { IfSome result (λ found. (b : ℕ) × (text.now ≡ b ∷ found.1.now) × (is_in class.Hex b ≡ true) × (found.0 ≡ digit_of b)) }
    ensures below { IfSome result (λ found. found.0 < 16) }
    ensures none { IfNone result (Stops (is_in class.Hex) text.now) }
{
    let (first, rest) = split(text)?;
    if is_in(Class::Hex, first) {
        Some((digit_of(first), rest))
    } else {
        None
    }
}

/// The byte that one to three octal digits at the front stand for, and the text after them.
fn octal_byte(text: &[u8]) -> (u8, &[u8])
    ensures value { unescaped (octal 0 0) text.now ≡ result.0 ∷ unescaped plain result.1.now }
    ensures shorter { length result.1.now ≤ length text.now }
{
    let mut value = 0;
    let mut rest = text;
    for _taken in 0..3u32 {
        let Some((digit, later)) = octal_digit(rest) else {
            return ((value % 256) as u8, rest);
        };
        value = value * 8 + digit;
        rest = later;
    }
    ((value % 256) as u8, rest)
}

/// The byte that up to two hexadecimal digits at the front stand for, and the text after them.
fn hex_byte(text: &[u8]) -> (u8, &[u8])
    ensures value { unescaped (hex 0 0) text.now ≡ result.0 ∷ unescaped plain result.1.now }
    ensures shorter { length result.1.now ≤ length text.now }
{
    let mut value = 0;
    let mut rest = text;
    for _taken in 0..2u32 {
        let Some((digit, later)) = hex_digit(rest) else {
            return (value as u8, rest);
        };
        value = value * 16 + digit;
        rest = later;
    }
    (value as u8, rest)
}

/// The byte that the first letter of a text's inside means, and the text after it.
#[inline(always)]
fn letter(text: &[u8]) -> Option<(u8, &[u8])>
    ensures some { IfSome result (λ found. unescaped plain text.now ≡ found.0 ∷ unescaped plain found.1.now) }
    ensures shorter { IfSome result (λ found. length found.1.now < length text.now) }
    ensures none { IfNone result (unescaped plain text.now ≡ []) }
{
    let (first, behind) = split(text)?;
    if first != b'\\' {
        return Some((first, behind));
    }
    let (second, rest) = split(behind)?;
    if is_in(Class::Octal, second) {
        return Some(octal_byte(behind));
    }
    if second == b'x' {
        return Some(hex_byte(rest));
    }
    Some((simple_value(second), rest))
}

/// A word without its first and its last byte.
fn inner(word: &[u8]) -> &[u8]
    ensures { result.now ≡ inner word.now }
{
    if word.len() < 2 {
        &word[word.len()..]
    } else {
        &word[1..word.len() - 1]
    }
}

/// The value of a character between quotes.
pub(crate) fn character_value(word: &[u8]) -> u8
    ensures { result ≡ character_value word.now }
{
    match letter(inner(word)) {
        Some((value, _)) => value,
        None => 0,
    }
}

/// Appends the bytes that letters mean. Some may be escapes.
fn push_letters(letters: &[u8], out: &mut Vec<u8>) -> Result<(), AllocError>
    ensures ok { OnOk result (out.new.items ≡ out.old.items ++ unescaped plain letters.now) }
    ensures err { OnErr result (out.new.items ≡ out.old.items) }
{
    let mut rest = letters;
    out.reserve(rest.len())?;
    while let Some((byte, later)) = letter(rest) {
        out.push_reserved(byte);
        rest = later;
    }
    Ok(())
}

/// Appends the bytes that a text means (Devicetree Specification v0.4, 6.3), escapes worked out as in C: an octal one
/// modulo 256, and `\` before another byte as that byte. The NUL that ends a text's value isn't among them. `token` is the
/// bytes of a `TokenKind::Text`, with their quotes.
///
/// # Errors
///
/// Where memory is refused; then nothing is appended.
pub fn push_text(token: &[u8], out: &mut Vec<u8>) -> Result<(), AllocError>
    ensures ok { OnOk result (out.new.items ≡ out.old.items ++ text_bytes token.now) }
    ensures err { OnErr result (out.new.items ≡ out.old.items) }
{
    let letters = inner(token);
    match memchr(b'\\', letters) {
        None => out.extend_from_slice(letters),
        Some(_) => push_letters(letters, out),
    }
}
