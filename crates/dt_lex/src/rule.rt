//! The rules that cut a text.

use crate::token::{Keyword, Mark};

/// A word between slashes that is refused: the text would need other files, or nodes that may be left out.
#[derive(Clone, Copy)]
pub enum Directive {
    /// `/include/`
    Include,
    /// `/incbin/`
    Incbin,
    /// `/omit-if-no-ref/`
    OmitIfNoRef,
}

/// A rule.
#[derive(Clone, Copy)]
pub enum Rule {
    Blanks,
    BlockComment,
    /// The opening of a comment without an end.
    OpenComment,
    LineComment,
    /// `# 1 "file"`, as the C preprocessor leaves it, at the first byte of a line.
    LineMarker,
    /// `#line 1 "file"`, likewise.
    LongLineMarker,
    Label,
    Keyword(Keyword),
    Directive(Directive),
    LabelReference,
    PathReference,
    Name,
    Byte,
    Hexadecimal,
    CapitalHexadecimal,
    Decimal,
    Character,
    Text,
    Mark(Mark),
}
