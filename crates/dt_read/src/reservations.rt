//! Reservations: pairs of an address and a size.

ghost use Rattle.std.specs.Prelude.{◌≡◌, ◌+◌, ◌<◌, ◌^◌, ◌≤◌, ◌==◌, ◌&&◌, ◌∷◌, [], IfSome, length};
ghost use Rattle.std.specs.Option.{MatchOption};
ghost use Rattle.std.specs.Iterator.{YieldsFirst, item_count};
ghost use Rattle.dt_read.specs.Pairs.{pair_in, pairs_of, ends};

use dt_bytes::be64;
use std::marker::Model;

#[tactic(auto, unfolding(crate::specs::Pairs::pair_in))]
fn pair_at(bytes: &[u8]) -> Option<(u64, u64)>
    ensures pair { result ≡ pair_in bytes.now }
    ensures within { IfSome result (λ _. 16 ≤ length bytes.now) }
{
    let address = be64(bytes, 0)?;
    let size = be64(bytes, 8)?;
    Some((address, size))
}

fn is_last(pair: (u64, u64)) -> bool
    ensures { result ≡ ((pair.0 == 0) && (pair.1 == 0)) }
{
    pair.0 == 0 && pair.1 == 0
}

/// Whether a pair of zeros ends the pairs.
pub(crate) fn have_end(bytes: &[u8]) -> bool
    ensures { result ≡ ends bytes.now }
{
    let mut rest = bytes;
    while let Some(pair) = pair_at(rest) {
        if is_last(pair) {
            return true;
        }
        rest = &rest[16..];
    }
    false
}

/// The first pair that isn't two zeros, and the bytes behind it.
pub(crate) fn first_pair(bytes: &[u8]) -> Option<((u64, u64), &[u8])>
    ensures within { IfSome result (λ r. length r.1.now < length bytes.now) }
    ensures pairs { MatchOption result (pairs_of bytes.now ≡ []) (λ r. pairs_of bytes.now ≡ r.0 ∷ pairs_of r.1.now) }
{
    let Some(pair) = pair_at(bytes) else {
        return None;
    };
    if is_last(pair) {
        return None;
    }
    Some((pair, &bytes[16..]))
}

/// The pairs from a place on, up to a pair of zeros.
#[derive(Drop)]
pub struct Reservations<'a> {
    rest: &'a [u8],
}

impl<'a> Model for Reservations<'a> {
    ghost use Rattle.std.specs.Prelude.{List, ℕ};
    ghost use Rattle.dt_read.specs.Pairs.{pairs_of};

    ghost Value = { List (ℕ × ℕ) };

    ghost view = { λ r. pairs_of r.rest.now };
}

impl<'a> Reservations<'a> {
    pub(crate) fn new(rest: &'a [u8]) -> Reservations<'a>
        ensures { result ≡ pairs_of rest.now }
    {
        Reservations { rest }
    }
}

impl<'a> Iterator for Reservations<'a> {
    type Item = (u64, u64);

    ghost next_gives = { YieldsFirst (λ s. s) };

    ghost remaining = { item_count (λ s. s) };

    fn next(&mut self) -> Option<(u64, u64)> {
        let (pair, rest) = first_pair(self.rest)?;
        self.rest = rest;
        Some(pair)
    }
}
