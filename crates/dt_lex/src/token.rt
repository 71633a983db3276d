//! Tokens, and the modes that they leave.

ghost use Rattle.std.specs.Prelude.{◌≡◌, ◌<◌, length};
ghost use Rattle.dt_lex.specs.Modes.{mark_bytes, keyword_bytes, mode_behind};

/// How a text is read at a place.
#[derive(Clone, Copy)]
pub enum Mode {
    /// A word is a name.
    Name,
    /// A pair of hexadecimal digits is a byte: between `[` and `]`.
    Bytes,
    /// A word is an integer, a character or a text.
    Plain,
}

/// A word between slashes.
#[derive(Clone, Copy, PartialEq, Eq)]
pub enum Keyword {
    /// `/dts-v1/`
    Version,
    /// `/plugin/`
    Plugin,
    /// `/memreserve/`
    Memreserve,
    /// `/bits/`
    Bits,
    /// `/delete-node/`
    DeleteNode,
    /// `/delete-property/`
    DeleteProperty,
}

/// One or two bytes that are a token by themselves.
#[derive(Clone, Copy, PartialEq, Eq)]
pub enum Mark {
    /// `<<`
    ShiftLeft,
    /// `>>`
    ShiftRight,
    /// `<=`
    LessOrEqual,
    /// `>=`
    GreaterOrEqual,
    /// `==`
    Equal,
    /// `!=`
    NotEqual,
    /// `&&`
    And,
    /// `||`
    Or,
    OpenBrace,
    CloseBrace,
    OpenBracket,
    CloseBracket,
    OpenParenthesis,
    CloseParenthesis,
    Less,
    Greater,
    Semicolon,
    Equals,
    Comma,
    Colon,
    Question,
    Plus,
    Minus,
    Star,
    Slash,
    Percent,
    Ampersand,
    Bar,
    Caret,
    Tilde,
    Exclamation,
}

/// What a token is. Of a label, a reference, a name and a text it says no more than that: their bytes are those of the
/// token's place.
#[derive(Clone, Copy, PartialEq, Eq)]
pub enum TokenKind {
    /// `name:`
    Label,
    Keyword(Keyword),
    /// `&label`
    LabelReference,
    /// `&{/path}`
    PathReference,
    Name,
    Byte(u8),
    Integer(u64),
    /// Its value.
    Character(u8),
    /// With its quotes and escapes; `push_text` gives its bytes.
    Text,
    Mark(Mark),
}

/// A token of a text: what it is, its first byte, and the byte behind it.
#[derive(Clone, Copy, PartialEq, Eq)]
pub struct Token {
    pub kind: TokenKind,
    pub start: u32,
    pub end: u32,
}

/// What is wrong with a word.
#[derive(Clone, Copy)]
pub(crate) enum Flaw {
    /// It begins no token.
    BadToken,
    /// It is an integer with a digit that its base lacks, or of 2^64 or more.
    BadInteger,
}

/// The bytes of a mark.
pub fn mark_bytes(mark: Mark) -> &'static [u8]
    ensures value { result.now ≡ mark_bytes mark }
    ensures filled { 0 < length result.now }
{
    match mark {
        Mark::ShiftLeft => b"<<",
        Mark::ShiftRight => b">>",
        Mark::LessOrEqual => b"<=",
        Mark::GreaterOrEqual => b">=",
        Mark::Equal => b"==",
        Mark::NotEqual => b"!=",
        Mark::And => b"&&",
        Mark::Or => b"||",
        Mark::OpenBrace => b"{",
        Mark::CloseBrace => b"}",
        Mark::OpenBracket => b"[",
        Mark::CloseBracket => b"]",
        Mark::OpenParenthesis => b"(",
        Mark::CloseParenthesis => b")",
        Mark::Less => b"<",
        Mark::Greater => b">",
        Mark::Semicolon => b";",
        Mark::Equals => b"=",
        Mark::Comma => b",",
        Mark::Colon => b":",
        Mark::Question => b"?",
        Mark::Plus => b"+",
        Mark::Minus => b"-",
        Mark::Star => b"*",
        Mark::Slash => b"/",
        Mark::Percent => b"%",
        Mark::Ampersand => b"&",
        Mark::Bar => b"|",
        Mark::Caret => b"^",
        Mark::Tilde => b"~",
        Mark::Exclamation => b"!",
    }
}

/// The bytes of a keyword.
pub fn keyword_bytes(keyword: Keyword) -> &'static [u8]
    ensures value { result.now ≡ keyword_bytes keyword }
    ensures filled { 0 < length result.now }
{
    match keyword {
        Keyword::Version => b"/dts-v1/",
        Keyword::Plugin => b"/plugin/",
        Keyword::Memreserve => b"/memreserve/",
        Keyword::Bits => b"/bits/",
        Keyword::DeleteNode => b"/delete-node/",
        Keyword::DeleteProperty => b"/delete-property/",
    }
}

/// The mode that a token leaves.
pub(crate) fn mode_behind(kind: TokenKind, mode: Mode) -> Mode
    ensures { result ≡ mode_behind kind mode }
{
    match mode {
        Mode::Bytes => match kind {
            TokenKind::Mark(Mark::CloseBracket) => Mode::Plain,
            _ => Mode::Bytes,
        },
        _ => match kind {
            TokenKind::Mark(Mark::OpenBracket) => Mode::Bytes,
            TokenKind::Mark(Mark::OpenBrace) => Mode::Name,
            TokenKind::Mark(Mark::Semicolon) => Mode::Name,
            TokenKind::Keyword(Keyword::DeleteNode) => Mode::Name,
            TokenKind::Keyword(Keyword::DeleteProperty) => Mode::Name,
            TokenKind::Keyword(Keyword::Memreserve) => Mode::Plain,
            TokenKind::Name => Mode::Plain,
            _ => mode,
        },
    }
}
