//! Bytes that are cut at a separator.

ghost use Rattle.std.specs.Prelude.{◌≡◌, [], MatchOption};
ghost use Rattle.std.specs.Iterator.{YieldsFirstRef, item_count};
ghost use Rattle.dt_overlay_texts.specs.Cuts.{Lacks, IsCut};

use memchr::memchr;
use std::marker::Model;

/// The texts of a value, each with a NUL behind it, in order. It is seen as those that are left.
#[derive(Drop)]
pub struct Texts<'a> {
    pub(crate) rest: &'a [u8],
}

impl<'a> Model for Texts<'a> {
    ghost use Rattle.std.specs.Prelude.{List, ℕ};
    ghost use Rattle.dt_overlay_texts.specs.Cuts.{texts_in};

    ghost Value = { List (List ℕ) };

    ghost view = { λ t. texts_in t.rest.now };
}

impl<'a> Texts<'a> {
    /// No texts.
    #[tactic(auto, unfolding(crate::specs::Cuts::texts_in))]
    pub fn none() -> Texts<'a>
        ensures { result ≡ [] }
    {
        Texts {
            rest: b"".as_slice(),
        }
    }
}

impl<'a> Iterator for Texts<'a> {
    type Item = &'a [u8];

    ghost next_gives = { YieldsFirstRef (λ s. s) };

    ghost remaining = { item_count (λ s. s) };

    fn next(&mut self) -> Option<&'a [u8]> {
        let (text, rest) = cut(self.rest, 0)?;
        self.rest = rest;
        Some(text)
    }
}

/// The bytes before the first separator, and those behind it; None where there is none. Takes no memory.
pub fn cut(bytes: &[u8], separator: u8) -> Option<(&[u8], &[u8])>
    ensures { MatchOption result (Lacks separator bytes.now) (λ parts. IsCut separator bytes.now parts.0.now parts.1.now) }
{
    let at = memchr(separator, bytes)?;
    Some((&bytes[..at], &bytes[at + 1..]))
}
