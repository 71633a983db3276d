//! Which rules the first byte of a text leaves to be tried.

ghost use Rattle.std.specs.Prelude.{◌≡◌, slice_index};
ghost use Rattle.std.specs.List.{filter};
ghost use Rattle.dt_lex.specs.declared.leader.Leader.TheVariants as leader;
ghost use Rattle.dt_lex.specs.Rules.{rules};
ghost use Rattle.dt_lex.specs.Leaders.{leader_of, leads};

use crate::rule::{Directive, Rule};
use crate::token::{Keyword, Mark};

/// What the first byte of a text is.
#[derive(Clone, Copy)]
pub enum Leader {
    Slash,
    Hash,
    Ampersand,
    Apostrophe,
    Quote,
    Zero,
    Less,
    Greater,
    Equals,
    Exclamation,
    Bar,
    OpenBrace,
    CloseBrace,
    OpenBracket,
    CloseBracket,
    OpenParenthesis,
    CloseParenthesis,
    Semicolon,
    Comma,
    Colon,
    Question,
    Plus,
    Minus,
    Star,
    Percent,
    Caret,
    Tilde,
    /// Any other byte, or none.
    Other,
}

/// What the first byte of a text is.
pub(crate) fn leader_of(text: &[u8]) -> Leader
    ensures { result ≡ leader_of (slice_index text.now 0) }
{
    let Some(first) = text.first() else {
        return Leader::Other;
    };
    match *first {
        b'/' => Leader::Slash,
        b'#' => Leader::Hash,
        b'&' => Leader::Ampersand,
        b'\'' => Leader::Apostrophe,
        b'"' => Leader::Quote,
        b'0' => Leader::Zero,
        b'<' => Leader::Less,
        b'>' => Leader::Greater,
        b'=' => Leader::Equals,
        b'!' => Leader::Exclamation,
        b'|' => Leader::Bar,
        b'{' => Leader::OpenBrace,
        b'}' => Leader::CloseBrace,
        b'[' => Leader::OpenBracket,
        b']' => Leader::CloseBracket,
        b'(' => Leader::OpenParenthesis,
        b')' => Leader::CloseParenthesis,
        b';' => Leader::Semicolon,
        b',' => Leader::Comma,
        b':' => Leader::Colon,
        b'?' => Leader::Question,
        b'+' => Leader::Plus,
        b'-' => Leader::Minus,
        b'*' => Leader::Star,
        b'%' => Leader::Percent,
        b'^' => Leader::Caret,
        b'~' => Leader::Tilde,
        _ => Leader::Other,
    }
}

/// The rules that `/` leaves.
fn behind_slash() -> &'static [Rule]
    ensures { result.now ≡ filter (leads leader.Slash) rules }
{
    &[
        Rule::BlockComment,
        Rule::OpenComment,
        Rule::LineComment,
        Rule::Keyword(Keyword::Version),
        Rule::Keyword(Keyword::Plugin),
        Rule::Keyword(Keyword::Memreserve),
        Rule::Keyword(Keyword::Bits),
        Rule::Keyword(Keyword::DeleteNode),
        Rule::Keyword(Keyword::DeleteProperty),
        Rule::Directive(Directive::Include),
        Rule::Directive(Directive::Incbin),
        Rule::Directive(Directive::OmitIfNoRef),
        Rule::Mark(Mark::Slash),
    ]
}

/// The rules whose words may begin so, in the order in which they are tried.
pub(crate) fn candidates(leader: Leader) -> &'static [Rule]
    ensures { result.now ≡ filter (leads leader) rules }
{
    match leader {
        Leader::Slash => behind_slash(),
        Leader::Hash => &[Rule::LineMarker, Rule::LongLineMarker, Rule::Name],
        Leader::Ampersand => &[
            Rule::LabelReference,
            Rule::PathReference,
            Rule::Mark(Mark::And),
            Rule::Mark(Mark::Ampersand),
        ],
        Leader::Apostrophe => &[Rule::Character],
        Leader::Quote => &[Rule::Text],
        Leader::Zero => &[
            Rule::Name,
            Rule::Byte,
            Rule::Hexadecimal,
            Rule::CapitalHexadecimal,
            Rule::Decimal,
        ],
        Leader::Less => &[
            Rule::Mark(Mark::ShiftLeft),
            Rule::Mark(Mark::LessOrEqual),
            Rule::Mark(Mark::Less),
        ],
        Leader::Greater => &[
            Rule::Mark(Mark::ShiftRight),
            Rule::Mark(Mark::GreaterOrEqual),
            Rule::Mark(Mark::Greater),
        ],
        Leader::Equals => &[Rule::Mark(Mark::Equal), Rule::Mark(Mark::Equals)],
        Leader::Exclamation => &[Rule::Mark(Mark::NotEqual), Rule::Mark(Mark::Exclamation)],
        Leader::Bar => &[Rule::Mark(Mark::Or), Rule::Mark(Mark::Bar)],
        Leader::OpenBrace => &[Rule::Mark(Mark::OpenBrace)],
        Leader::CloseBrace => &[Rule::Mark(Mark::CloseBrace)],
        Leader::OpenBracket => &[Rule::Mark(Mark::OpenBracket)],
        Leader::CloseBracket => &[Rule::Mark(Mark::CloseBracket)],
        Leader::OpenParenthesis => &[Rule::Mark(Mark::OpenParenthesis)],
        Leader::CloseParenthesis => &[Rule::Mark(Mark::CloseParenthesis)],
        Leader::Semicolon => &[Rule::Mark(Mark::Semicolon)],
        Leader::Comma => &[Rule::Name, Rule::Mark(Mark::Comma)],
        Leader::Colon => &[Rule::Mark(Mark::Colon)],
        Leader::Question => &[Rule::Name, Rule::Mark(Mark::Question)],
        Leader::Plus => &[Rule::Name, Rule::Mark(Mark::Plus)],
        Leader::Minus => &[Rule::Name, Rule::Mark(Mark::Minus)],
        Leader::Star => &[Rule::Name, Rule::Mark(Mark::Star)],
        Leader::Percent => &[Rule::Mark(Mark::Percent)],
        Leader::Caret => &[Rule::Mark(Mark::Caret)],
        Leader::Tilde => &[Rule::Mark(Mark::Tilde)],
        Leader::Other => &[
            Rule::Blanks,
            Rule::Label,
            Rule::Name,
            Rule::Byte,
            Rule::Decimal,
        ],
    }
}
