//! What a word of a rule is: nothing, a token or a fault.

ghost use Rattle.std.specs.Prelude.{◌≡◌, ◌+◌, ◌*◌, length, drop, slice_index};
ghost use Rattle.dt_lex.specs.Numbers.{digit_of};
ghost use Rattle.dt_lex.specs.Vocabulary.{ByteWord};
ghost use Rattle.dt_lex.specs.Outcomes.{of_integer, outcome};
ghost use Rattle.dt_lex.specs.Pieces.{IsWordOf};

use crate::byte::Class;
use crate::letter::character_value;
use crate::number::{base_of, digit_of, integer};
use crate::rule::Rule;
use crate::token::{Flaw, TokenKind};

/// A word without its first two bytes.
fn behind_prefix(word: &[u8]) -> &[u8]
    ensures { result.now ≡ drop 2 word.now }
{
    if word.len() < 2 {
        &word[word.len()..]
    } else {
        &word[2..]
    }
}

/// The byte at a place of a word; 0 behind its end.
pub(crate) fn byte_at(word: &[u8], place: usize) -> u8
    ensures { result ≡ slice_index word.now place }
{
    if place < word.len() { word[place] } else { 0 }
}

/// The byte that two hexadecimal digits spell.
pub(crate) fn byte_of(word: &[u8]) -> u8
    requires { ByteWord word.now }
    ensures { result ≡ 16 * digit_of (slice_index word.now 0) + digit_of (slice_index word.now 1) }
{
    let high = digit_of(byte_at(word, 0));
    let low = digit_of(byte_at(word, 1));
    (16 * high + low) as u8
}

/// What a number is that 64 bits hold, or don't.
fn of_integer(value: Option<u64>) -> Result<Option<TokenKind>, Flaw>
    ensures { result ≡ of_integer value }
{
    match value {
        Some(value) => Ok(Some(TokenKind::Integer(value))),
        None => Err(Flaw::BadInteger),
    }
}

/// What a word of a rule is.
pub(crate) fn outcome(rule: Rule, word: &[u8]) -> Result<Option<TokenKind>, Flaw>
    requires { IsWordOf rule word.now }
    ensures { result ≡ outcome rule word.now }
{
    match rule {
        Rule::Blanks => Ok(None),
        Rule::BlockComment => Ok(None),
        Rule::OpenComment => Err(Flaw::BadToken),
        Rule::LineComment => Ok(None),
        Rule::LineMarker => Ok(None),
        Rule::LongLineMarker => Ok(None),
        Rule::Label => Ok(Some(TokenKind::Label)),
        Rule::Keyword(keyword) => Ok(Some(TokenKind::Keyword(keyword))),
        Rule::Directive(_) => Err(Flaw::BadToken),
        Rule::LabelReference => Ok(Some(TokenKind::LabelReference)),
        Rule::PathReference => Ok(Some(TokenKind::PathReference)),
        Rule::Name => Ok(Some(TokenKind::Name)),
        Rule::Byte => Ok(Some(TokenKind::Byte(byte_of(word)))),
        Rule::Hexadecimal => of_integer(integer(behind_prefix(word), Class::Hex, 16)),
        Rule::CapitalHexadecimal => of_integer(integer(behind_prefix(word), Class::Hex, 16)),
        Rule::Decimal => of_integer(integer(word, Class::Digit, base_of(word))),
        Rule::Character => Ok(Some(TokenKind::Character(character_value(word)))),
        Rule::Text => Ok(Some(TokenKind::Text)),
        Rule::Mark(mark) => Ok(Some(TokenKind::Mark(mark))),
    }
}
