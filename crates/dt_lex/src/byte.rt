//! Classes of bytes.

ghost use Rattle.std.specs.Prelude.{◌≡◌};
ghost use Rattle.dt_lex.specs.Bytes.{is_in};

/// A class of bytes.
#[derive(Clone, Copy)]
pub enum Class {
    /// A space, tab, line feed, carriage return, vertical tab or form feed.
    Blank,
    /// A space or a tab.
    LineBlank,
    /// What a line is made of: any byte but a line feed.
    Line,
    /// What names are made of, and `@`.
    Name,
    /// What the text of a path is made of: the bytes of names, `@` and `/`.
    Path,
    /// What labels are made of: letters, digits and `_`.
    Label,
    /// The same without digits.
    LabelStart,
    /// What means itself in a text: any byte but `"` and `\`.
    Quoted,
    /// What means itself as a character: any byte but `'`, `\` and a line feed.
    Single,
    /// A decimal digit.
    Digit,
    /// An octal digit.
    Octal,
    /// A hexadecimal digit.
    Hex,
}

const NAME: u8 = 1;

const PATH: u8 = 2;

const LABEL: u8 = 4;

const LABEL_START: u8 = 8;

const HEX: u8 = 16;

const BLANK: u8 = 32;

/// The classes of each byte that blanks, names, labels and numbers are made of: the low six bits of its character are the flags above.
static CLASSES: [u8; 256] = *b"\
    @@@@@@@@@`````@@@@@@@@@@@@@@@@@@\
    `@@C@@@@@@CCCCCBWWWWWWWWWW@@@@@C\
    C______OOOOOOOOOOOOOOOOOOOO@@@@O\
    @______OOOOOOOOOOOOOOOOOOOO@@@@@\
    @@@@@@@@@@@@@@@@@@@@@@@@@@@@@@@@\
    @@@@@@@@@@@@@@@@@@@@@@@@@@@@@@@@\
    @@@@@@@@@@@@@@@@@@@@@@@@@@@@@@@@\
    @@@@@@@@@@@@@@@@@@@@@@@@@@@@@@@@";

/// Whether a byte is in a class.
pub(crate) fn is_in(class: Class, b: u8) -> bool
    ensures { result ≡ is_in class b }
{
    match class {
        Class::Blank => CLASSES[b as usize] & BLANK != 0,
        Class::LineBlank => b == b' ' || b == b'\t',
        Class::Line => b != b'\n',
        Class::Name => CLASSES[b as usize] & NAME != 0,
        Class::Path => CLASSES[b as usize] & PATH != 0,
        Class::Label => CLASSES[b as usize] & LABEL != 0,
        Class::LabelStart => CLASSES[b as usize] & LABEL_START != 0,
        Class::Quoted => b != b'"' && b != b'\\',
        Class::Single => b != b'\'' && b != b'\\' && b != b'\n',
        Class::Digit => b.is_ascii_digit(),
        Class::Octal => b'0' <= b && b <= b'7',
        Class::Hex => CLASSES[b as usize] & HEX != 0,
    }
}
