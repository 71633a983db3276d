//! Names of properties that were met before. Names repeat: a board's blob has four properties for each name, so most are judged, or their ends
//! found, without a look at their bytes.

ghost use Rattle.std.specs.Prelude.{◌≡◌, ◌↔◌, ◌<◌, ◌%◌, ℕ, Some, IsTrue, drop};
ghost use Rattle.std.specs.Option.{option_copied};
ghost use Rattle.dt_model.specs.Format.{prop};
ghost use Rattle.dt_model.specs.Lexing.{text_in};
ghost use Rattle.dt_model.specs.Tree.{Property};
ghost use Rattle.dt_read.specs.Known.{HasNameAt};
ghost use Rattle.dt_read.specs.Marks.{Takes};

use crate::header::number;
use crate::name::may_name_a_property;
use dt_bytes::text_at;
use std::marker::Model;

/// How many offsets are remembered, each in the place of its remainder.
const PLACES: usize = 256;

/// No offset: no name begins there, since no strings block is that long.
const NONE: u32 = u32::MAX;

/// Offsets of a strings block at which names of properties stand. It is seen as the strings.
#[derive(Drop)]
pub(crate) struct KnownNames<'a> {
    strings: &'a [u8],
    offsets: [u32; PLACES],
}

impl<'a> Model for KnownNames<'a> {
    ghost use Rattle.std.specs.Prelude.{List, ℕ};
    ghost use Rattle.dt_read.specs.Known.{AreKnown};

    ghost Value = { List ℕ };

    ghost view = { λ k. k.strings.now };

    ghost invariant = { λ k. AreKnown k.strings.now k.offsets };
}

impl<'a> KnownNames<'a> {
    /// None was met.
    pub fn new(strings: &'a [u8]) -> KnownNames<'a>
        ensures { result ≡ strings.now }
    {
        KnownNames {
            strings,
            offsets: [NONE; PLACES],
        }
    }

    /// Whether a property's name is at an offset of the strings. If so, the offset is remembered.
    pub fn is_at(&mut self, offset: u32) -> bool
        ensures strings { self.new ≡ self.old }
        ensures name { IsTrue result ↔ HasNameAt self.old offset }
    {
        let place = offset as usize % PLACES;
        if self.offsets[place] == offset && offset != NONE {
            return true;
        }
        let Some(name) = text_at(self.strings, offset as usize) else {
            return false;
        };
        if !may_name_a_property(name) {
            return false;
        }
        self.offsets[place] = offset;
        true
    }
}

/// A text that was met: its offset in the strings, and its length.
#[derive(Clone, Copy)]
pub(crate) struct KnownText {
    offset: u32,
    len: u32,
}

/// Texts of a strings block that were met, by their offsets. It is seen as the strings.
#[derive(Drop)]
pub(crate) struct KnownTexts<'a> {
    strings: &'a [u8],
    texts: [KnownText; PLACES],
}

impl<'a> Model for KnownTexts<'a> {
    ghost use Rattle.std.specs.Prelude.{List, ℕ};
    ghost use Rattle.dt_read.specs.Known.{AreKnownTexts};

    ghost Value = { List ℕ };

    ghost view = { λ k. k.strings.now };

    ghost invariant = { λ k. AreKnownTexts k.strings.now k.texts };
}

impl<'a> KnownTexts<'a> {
    /// None was met.
    pub fn new(strings: &'a [u8]) -> KnownTexts<'a>
        ensures { result ≡ strings.now }
    {
        KnownTexts {
            strings,
            texts: [KnownText {
                offset: NONE,
                len: 0,
            }; PLACES],
        }
    }

    /// The text at an offset of the strings. It is remembered.
    fn text_at(&mut self, offset: u32) -> Option<&'a [u8]>
        ensures strings { self.new ≡ self.old }
        ensures text { option_copied result ≡ text_in (drop offset self.old) }
    {
        let strings = self.strings;
        let (at, place) = (offset as usize, offset as usize % PLACES);
        let known = self.texts[place];
        if known.offset == offset && offset != NONE {
            return Some(&strings[at..at + known.len as usize]);
        }
        let text = text_at(strings, at)?;
        if let Ok(len) = u32::try_from(text.len()) {
            self.texts[place] = KnownText { offset, len };
        }
        Some(text)
    }

    /// The name of the property whose token is at the front of some bytes.
    pub fn name_of(&mut self, property: &[u8]) -> Option<&'a [u8]>
        ensures strings { self.new ≡ self.old }
        ensures name { (p : Property) (n : ℕ) → Takes self.old property.now (prop p) n → option_copied result ≡ Some p.name }
    {
        self.text_at(number(property, 8) as u32)
    }
}
