//! The numbers that digits spell.

ghost use Rattle.std.specs.Prelude.{◌≡◌, ℕ, ◌<◌, ◌≤◌, ◌+◌, ◌*◌, ◌^◌, true, Some, None, IfSome, option_map, if◌then◌else◌, nat_lt};
ghost use Rattle.dt_lex.specs.declared.byte.Class.TheVariants.{Hex};
ghost use Rattle.dt_lex.specs.Bytes.{is_in};
ghost use Rattle.dt_lex.specs.Numbers.{digit_of, digits, integer_of, base_of};
ghost use Rattle.dt_lex.specs.Vocabulary.{IsDigits};
ghost use Rattle.dt_lex.specs.Words.{RunsTo};

use crate::byte::{Class, is_in};
use crate::word::split;

/// The value of each byte as a hexadecimal digit: the low five bits of its letter. They are 31 where the byte is none.
static DIGITS: [u8; 256] = *b"\
    ________________________________\
    ________________@ABCDEFGHI______\
    _JKLMNO_________________________\
    _JKLMNO_________________________\
    ________________________________\
    ________________________________\
    ________________________________\
    ________________________________";

/// The value of a byte as a hexadecimal digit; 31 where it is none.
fn digit_or_none(b: u8) -> u64
    ensures { result ≡ (if is_in Hex b then digit_of b else 31) }
{
    u64::from(DIGITS[b as usize] & 31)
}

/// The digit that a byte means.
pub(crate) fn digit_of(b: u8) -> u64
    requires { is_in Hex b ≡ true }
    ensures value { result ≡ digit_of b }
    ensures bound { result < 16 }
{
    digit_or_none(b)
}

/// A number with one more digit, if 64 bits hold it.
fn scaled(value: u64, base: u64, digit: u64) -> Option<u64>
    ensures { result ≡ (if nat_lt (value * base + digit) (2 ^ 64) then Some (value * base + digit) else None) }
{
    value.checked_mul(base)?.checked_add(digit)
}

/// The number that the digits of a class at the front spell, and the text after them; None where one isn't of the base, or 64 bits don't hold
/// the number.
pub(crate) fn read_integer(text: &[u8], class: Class, base: u64) -> Option<(u64, &[u8])>
    requires class { IsDigits class }
    requires base { (2 ≤ base) × (base ≤ 16) }
    requires digits { (b : ℕ) → is_in Hex b ≡ true → digit_of b < base → is_in class b ≡ true }
    ensures value { option_map (λ read. read.0) result ≡ integer_of base (digits (is_in class) text.now) }
    ensures rest { IfSome result (λ read. RunsTo (is_in class) text.now read.1.now) }
{
    let mut rest = text;
    let mut value = 0;
    while let Some((first, later)) = split(rest) {
        let digit = digit_or_none(first);
        if digit >= base {
            if is_in(class, first) {
                return None;
            }
            return Some((value, rest));
        }
        let Some(more) = scaled(value, base, digit) else {
            return None;
        };
        value = more;
        rest = later;
    }
    Some((value, rest))
}

/// The number that the digits of a class at the front spell.
pub(crate) fn integer(word: &[u8], class: Class, base: u64) -> Option<u64>
    requires class { IsDigits class }
    requires base { (2 ≤ base) × (base ≤ 16) }
    requires digits { (b : ℕ) → is_in Hex b ≡ true → digit_of b < base → is_in class b ≡ true }
    ensures { result ≡ integer_of base (digits (is_in class) word.now) }
{
    let (value, _) = read_integer(word, class, base)?;
    Some(value)
}

/// The base of a number without a prefix: octal where its first digit is 0.
pub(crate) fn base_of(word: &[u8]) -> u64
    ensures value { result ≡ base_of word.now }
    ensures bounds { (2 ≤ result) × (result ≤ 10) }
{
    match word.split_first() {
        Some((b'0', _)) => 8,
        _ => 10,
    }
}
