//! A table of bits that holds hashes: it never lacks one that was put in, and may seem to hold another. Of 2^20 bits five are set for each
//! hash, so that one of 32,768 others seems to be held seldom: once in 16,000.

ghost use Rattle.std.specs.Prelude.{◌≡◌, ◌<◌, ◌^◌, ℕ, true, length};
ghost use Rattle.dt_read.specs.Filter.{is_set, holds};

/// Whether the bit of that number is set, where the numbers go round behind the last bit.
fn has_bit(words: &[u64], number: u64) -> bool
    requires some { 0 < length words.now }
    requires few { length words.now < 2 ^ 32 }
    ensures { result ≡ is_set words.now number }
{
    let bit = number % (words.len() as u64 * 64);
    words[(bit / 64) as usize] >> (bit % 64) & 1 == 1
}

fn set_bit(words: &mut [u64], number: u64)
    requires some { 0 < length words.old }
    requires few { length words.old < 2 ^ 32 }
    ensures size { length words.new ≡ length words.old }
    ensures put { is_set words.new number ≡ true }
    ensures kept { (n : ℕ) → is_set words.old n ≡ true → is_set words.new n ≡ true }
{
    let bit = number % (words.len() as u64 * 64);
    words[(bit / 64) as usize] |= 1 << (bit % 64);
}

/// Whether the table seems to hold a hash.
pub(crate) fn seems_to_hold(words: &[u64], hash: u64) -> bool
    requires some { 0 < length words.now }
    requires few { length words.now < 2 ^ 32 }
    ensures { result ≡ holds words.now hash }
{
    has_bit(words, hash)
        && has_bit(words, hash >> 10)
        && has_bit(words, hash >> 20)
        && has_bit(words, hash >> 30)
        && has_bit(words, hash >> 40)
}

/// Puts a hash into the table.
pub(crate) fn put(words: &mut [u64], hash: u64)
    requires some { 0 < length words.old }
    requires few { length words.old < 2 ^ 32 }
    ensures size { length words.new ≡ length words.old }
    ensures put { holds words.new hash ≡ true }
    ensures kept { (h : ℕ) → holds words.old h ≡ true → holds words.new h ≡ true }
{
    set_bit(words, hash);
    set_bit(words, hash >> 10);
    set_bit(words, hash >> 20);
    set_bit(words, hash >> 30);
    set_bit(words, hash >> 40);
}
