//! The first rule that has a word at the front of a text, and the text after its longest word.

ghost use Rattle.std.specs.Prelude.{◌≡◌, ◌<◌, IfSome, length};
ghost use Rattle.dt_lex.specs.Words.{Skips};
ghost use Rattle.dt_lex.specs.Rules.{words, allowed, In, directive_bytes};
ghost use Rattle.dt_lex.specs.Labels.{IsUnlabelled};
ghost use Rattle.dt_lex.specs.Pieces.{CutsTo};

use crate::byte::Class;
use crate::leader::{candidates, leader_of};
use crate::quoted::{after_character, after_text};
use crate::rule::{Directive, Rule};
use crate::token::{Mode, keyword_bytes, mark_bytes};
use crate::word::{
    after_block_comment, after_byte, after_digits, after_hexadecimal, after_label,
    after_label_reference, after_line_comment, after_line_marker, after_path_reference, after_run,
    after_word,
};

/// The bytes of a directive that is refused.
fn directive_bytes(directive: Directive) -> &'static [u8]
    ensures value { result.now ≡ directive_bytes directive }
    ensures filled { 0 < length result.now }
{
    match directive {
        Directive::Include => b"/include/",
        Directive::Incbin => b"/incbin/",
        Directive::OmitIfNoRef => b"/omit-if-no-ref/",
    }
}

/// After the longest word of a rule.
fn after_rule(rule: Rule, text: &[u8]) -> Option<&[u8]>
    ensures exact { Skips (words rule) text.now result }
    ensures shorter { IfSome result (λ rest. length rest.now < length text.now) }
{
    match rule {
        Rule::Blanks => after_run(text, Class::Blank),
        Rule::BlockComment => after_block_comment(text),
        Rule::OpenComment => after_word(text, b"/*"),
        Rule::LineComment => after_line_comment(text),
        Rule::LineMarker => after_line_marker(text, b"#"),
        Rule::LongLineMarker => after_line_marker(text, b"#line"),
        Rule::Label => after_label(text),
        Rule::Keyword(keyword) => after_word(text, keyword_bytes(keyword)),
        Rule::Directive(directive) => after_word(text, directive_bytes(directive)),
        Rule::LabelReference => after_label_reference(text),
        Rule::PathReference => after_path_reference(text),
        Rule::Name => after_run(text, Class::Name),
        Rule::Byte => after_byte(text),
        Rule::Hexadecimal => after_hexadecimal(text, b"0x"),
        Rule::CapitalHexadecimal => after_hexadecimal(text, b"0X"),
        Rule::Decimal => after_digits(text, Class::Digit),
        Rule::Character => after_character(text),
        Rule::Text => after_text(text),
        Rule::Mark(mark) => after_word(text, mark_bytes(mark)),
    }
}

/// Whether a rule holds in a mode, at the first byte of a line or elsewhere.
fn allowed(rule: Rule, mode: Mode, fresh: bool) -> bool
    ensures { result ≡ allowed rule mode fresh }
{
    match rule {
        Rule::LineMarker | Rule::LongLineMarker => fresh,
        Rule::Name => matches!(mode, Mode::Name),
        Rule::Byte => matches!(mode, Mode::Bytes),
        Rule::Hexadecimal
        | Rule::CapitalHexadecimal
        | Rule::Decimal
        | Rule::Character
        | Rule::Text => matches!(mode, Mode::Plain),
        _ => true,
    }
}

/// After the longest word of a rule, if the rule holds here, where so many bytes begin no label.
fn after(rule: Rule, mode: Mode, fresh: bool, unlabelled: usize, text: &[u8]) -> Option<&[u8]>
    requires { IsUnlabelled unlabelled text.now }
    ensures exact { Skips (In rule mode fresh) text.now result }
    ensures shorter { IfSome result (λ rest. length rest.now < length text.now) }
{
    if !allowed(rule, mode, fresh) {
        return None;
    }
    match rule {
        Rule::Label if unlabelled > 0 => None,
        _ => after_rule(rule, text),
    }
}

/// The first rule that has a word at the front, and the text after its longest word, where so many bytes begin no label.
pub(crate) fn cut(mode: Mode, fresh: bool, unlabelled: usize, text: &[u8]) -> Option<(Rule, &[u8])>
    requires { IsUnlabelled unlabelled text.now }
    ensures exact { CutsTo mode fresh text.now result }
    ensures shorter { IfSome result (λ found. length found.1.now < length text.now) }
{
    let tried = candidates(leader_of(text));
    for rule in tried {
        if let Some(rest) = after(*rule, mode, fresh, unlabelled, text) {
            return Some((*rule, rest));
        }
    }
    None
}
