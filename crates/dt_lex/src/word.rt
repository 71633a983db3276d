//! The longest front of a text that is in a set of words. Each function answers the text after it.

ghost use Rattle.std.specs.Prelude.{◌≡◌, ◌<◌, ◌≤◌, ◌+◌, ◌==◌, ◌||◌, ◌∷◌, [], ◌↔◌, IsTrue, IfSome, IfNone, length};
ghost use Rattle.dt_lex.specs.declared.byte.Class.TheVariants as class;
ghost use Rattle.dt_lex.specs.Bytes.{is_in};
ghost use Rattle.dt_lex.specs.Words.{Word, Begins, Skips, RunsTo};
ghost use Rattle.dt_lex.specs.Vocabulary.{Run, Closing, IntegerSuffix, Digits, IsDigits, Hexadecimal, BlockComment};
ghost use Rattle.dt_lex.specs.Vocabulary.{LineComment, LineMarker, Identifier, LabelWord, LabelReference, PathReference, ByteWord};

use crate::byte::{Class, is_in};
use memchr::memchr;

/// The first byte, and the text after it.
pub(crate) fn split(text: &[u8]) -> Option<(u8, &[u8])>
    ensures some { IfSome result (λ found. text.now ≡ found.0 ∷ found.1.now) }
    ensures none { IfNone result (text.now ≡ []) }
{
    match text.split_first() {
        Some((first, rest)) => Some((*first, rest)),
        None => None,
    }
}

/// Whether the first byte is in a class.
pub(crate) fn begins(text: &[u8], class: Class) -> bool
    ensures { IsTrue result ↔ Begins (is_in class) text.now }
{
    match text.split_first() {
        Some((first, _)) => is_in(class, *first),
        None => false,
    }
}

/// After a word.
pub(crate) fn after_word<'a>(text: &'a [u8], word: &[u8]) -> Option<&'a [u8]>
    ensures exact { Skips (Word word.now) text.now result }
    ensures shorter { IfSome result (λ rest. length rest.now + length word.now ≡ length text.now) }
{
    text.strip_prefix(word)
}

/// After all bytes of a class at the front.
pub(crate) fn after_all(text: &[u8], class: Class) -> &[u8]
    ensures exact { RunsTo (is_in class) text.now result.now }
    ensures shorter { length result.now ≤ length text.now }
{
    let mut count = 0;
    while count < text.len() && is_in(class, text[count]) {
        count += 1;
    }
    &text[count..]
}

/// After the rest of a line.
pub(crate) fn after_line(text: &[u8]) -> &[u8]
    ensures exact { RunsTo (is_in class.Line) text.now result.now }
    ensures shorter { length result.now ≤ length text.now }
{
    match memchr(b'\n', text) {
        Some(place) => &text[place..],
        None => &text[text.len()..],
    }
}

/// After one or more bytes of a class.
pub(crate) fn after_run(text: &[u8], class: Class) -> Option<&[u8]>
    ensures exact { Skips (Run class) text.now result }
    ensures shorter { IfSome result (λ rest. length rest.now < length text.now) }
{
    if !begins(text, class) {
        return None;
    }
    Some(after_all(text, class))
}

/// After the next `*/`.
pub(crate) fn after_closing(text: &[u8]) -> Option<&[u8]>
    ensures exact { Skips Closing text.now result }
    ensures shorter { IfSome result (λ rest. length rest.now < length text.now) }
{
    let mut rest = text;
    while let Some((_, later)) = split(rest) {
        if let Some(behind) = after_word(rest, b"*/") {
            return Some(behind);
        }
        rest = later;
    }
    None
}

/// After a comment between `/*` and `*/`.
pub(crate) fn after_block_comment(text: &[u8]) -> Option<&[u8]>
    ensures exact { Skips BlockComment text.now result }
    ensures shorter { IfSome result (λ rest. length rest.now < length text.now) }
{
    after_closing(after_word(text, b"/*")?)
}

/// After a comment from `//` to the line's end.
pub(crate) fn after_line_comment(text: &[u8]) -> Option<&[u8]>
    ensures exact { Skips LineComment text.now result }
    ensures shorter { IfSome result (λ rest. length rest.now < length text.now) }
{
    Some(after_line(after_word(text, b"//")?))
}

/// Whether the first byte begins a suffix that isn't empty.
fn begins_suffix(text: &[u8]) -> bool
    ensures { IsTrue result ↔ Begins (λ b. (b == 85) || (b == 76)) text.now }
{
    match text.split_first() {
        Some((first, _)) => *first == b'U' || *first == b'L',
        None => false,
    }
}

/// After the suffix of an integer, which may be empty. Most integers have none.
pub(crate) fn after_suffix(text: &[u8]) -> Option<&[u8]>
    ensures exact { Skips IntegerSuffix text.now result }
    ensures shorter { IfSome result (λ rest. length rest.now ≤ length text.now) }
{
    if !begins_suffix(text) {
        return Some(text);
    }
    if let Some(rest) = after_word(text, b"ULL") {
        return Some(rest);
    }
    if let Some(rest) = after_word(text, b"UL") {
        return Some(rest);
    }
    if let Some(rest) = after_word(text, b"LL") {
        return Some(rest);
    }
    if let Some(rest) = after_word(text, b"U") {
        return Some(rest);
    }
    if let Some(rest) = after_word(text, b"L") {
        return Some(rest);
    }
    Some(text)
}

/// After digits and a suffix.
pub(crate) fn after_digits(text: &[u8], class: Class) -> Option<&[u8]>
    requires { IsDigits class }
    ensures exact { Skips (Digits class) text.now result }
    ensures shorter { IfSome result (λ rest. length rest.now < length text.now) }
{
    if !begins(text, class) {
        return None;
    }
    after_suffix(after_all(text, class))
}

/// After a prefix, hexadecimal digits and a suffix.
pub(crate) fn after_hexadecimal<'a>(text: &'a [u8], prefix: &[u8]) -> Option<&'a [u8]>
    ensures exact { Skips (Hexadecimal prefix.now) text.now result }
    ensures shorter { IfSome result (λ rest. length rest.now < length text.now) }
{
    after_digits(after_word(text, prefix)?, Class::Hex)
}

/// After two hexadecimal digits.
pub(crate) fn after_byte(text: &[u8]) -> Option<&[u8]>
    ensures exact { Skips ByteWord text.now result }
    ensures shorter { IfSome result (λ rest. length rest.now < length text.now) }
{
    let (first, later) = split(text)?;
    let (second, rest) = split(later)?;
    if is_in(Class::Hex, first) && is_in(Class::Hex, second) {
        Some(rest)
    } else {
        None
    }
}

/// After what the C preprocessor leaves: an opening, spaces or tabs, a digit, and the rest of the line.
pub(crate) fn after_line_marker<'a>(text: &'a [u8], opening: &[u8]) -> Option<&'a [u8]>
    ensures exact { Skips (LineMarker opening.now) text.now result }
    ensures shorter { IfSome result (λ rest. length rest.now < length text.now) }
{
    let blanks = after_word(text, opening)?;
    if !begins(blanks, Class::LineBlank) {
        return None;
    }
    let number = after_all(blanks, Class::LineBlank);
    if !begins(number, Class::Digit) {
        return None;
    }
    Some(after_line(number))
}

/// After letters, digits and `_`; the first is no digit.
pub(crate) fn after_identifier(text: &[u8]) -> Option<&[u8]>
    ensures exact { Skips Identifier text.now result }
    ensures shorter { IfSome result (λ rest. length rest.now < length text.now) }
{
    if !begins(text, Class::LabelStart) {
        return None;
    }
    Some(after_all(text, Class::Label))
}

/// After an identifier and `:`.
pub(crate) fn after_label(text: &[u8]) -> Option<&[u8]>
    ensures exact { Skips LabelWord text.now result }
    ensures shorter { IfSome result (λ rest. length rest.now < length text.now) }
{
    if !begins(text, Class::LabelStart) {
        return None;
    }
    after_word(after_all(text, Class::Label), b":")
}

/// After `&` and an identifier.
pub(crate) fn after_label_reference(text: &[u8]) -> Option<&[u8]>
    ensures exact { Skips LabelReference text.now result }
    ensures shorter { IfSome result (λ rest. length rest.now < length text.now) }
{
    after_identifier(after_word(text, b"&")?)
}

/// After `&{`, bytes of names and `/`, and `}`.
pub(crate) fn after_path_reference(text: &[u8]) -> Option<&[u8]>
    ensures exact { Skips PathReference text.now result }
    ensures shorter { IfSome result (λ rest. length rest.now < length text.now) }
{
    let path = after_word(text, b"&{")?;
    after_word(after_all(path, Class::Path), b"}")
}
