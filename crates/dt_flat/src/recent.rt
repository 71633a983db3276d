//! Numbers of names that repeat. A board has four properties for each name, so most names are found without a look into a table.

ghost use Rattle.std.specs.Prelude.{◌<◌};

/// How many numbers are remembered, each in a place that a name's length and three of its bytes choose.
const PLACES: usize = 256;

/// For each of some places the number that was noted last for a name of that place, but for what 16 bits don't hold.
#[derive(Clone, Copy)]
pub struct RecentNumbers {
    numbers: [u16; PLACES],
}

/// The place of a name.
fn place_of(name: &[u8]) -> usize
    ensures { result < 256 }
{
    let len = name.len();
    if len == 0 {
        return 0;
    }
    let (first, middle, last) = (name[0], name[len / 2], name[len - 1]);
    (usize::from(first) * 217 + usize::from(middle) * 31 + usize::from(last) * 7 + len) % PLACES
}

impl RecentNumbers {
    /// None was noted, for which 0 stands.
    pub fn new() -> RecentNumbers {
        RecentNumbers {
            numbers: [0; PLACES],
        }
    }

    /// The number that was noted last for a name like this one, if it is below 65,536. It may be that of another name, so whoever asks
    /// compares the names.
    pub fn number(&self, name: &[u8]) -> usize {
        usize::from(self.numbers[place_of(name)])
    }

    /// Notes the number of a name.
    pub fn note(&mut self, name: &[u8], number: usize) {
        self.numbers[place_of(name)] = u16::try_from(number).unwrap_or(0);
    }
}
