//! Tokens, and the bytes of texts.

use crate::outcome::{Lines, Outcome, Stop};
use dt_lex::{Token, TokenKind, keyword_bytes, mark_bytes, push_text, tokens};
use std::alloc::Global;

/// `tokens` prints each token, its first byte and the byte behind it; `token-count` how many there are; `text` gives the bytes
/// of a text, behind a `>` that was there.
pub fn call(alloc: Global, name: &str, input: &[u8], out: &mut Outcome) -> Result<(), Stop> {
    match name {
        "tokens" => put_tokens(out.lines(), &tokens(alloc, input)?),
        "token-count" => out.tell(tokens(alloc, input)?.len()),
        _ => out.give(text_of(alloc, input)?),
    }
    Ok(())
}

fn text_of(alloc: Global, token: &[u8]) -> Result<Vec<u8>, Stop> {
    let mut text = Vec::from_slice(alloc, b">".as_slice())?;
    push_text(token, &mut text)?;
    Ok(text)
}

fn put_tokens(lines: &mut Lines, tokens: &[Token]) {
    for token in tokens {
        let Token { kind, start, end } = *token;
        write!(lines, "{start} {end} ");
        put_kind(lines, kind);
        lines.put("\n");
    }
}

fn put_kind(lines: &mut Lines, kind: TokenKind) {
    match kind {
        TokenKind::Label => lines.put("label"),
        TokenKind::Keyword(keyword) => lines.name(keyword_bytes(keyword)),
        TokenKind::LabelReference => lines.put("label reference"),
        TokenKind::PathReference => lines.put("path reference"),
        TokenKind::Name => lines.put("name"),
        TokenKind::Byte(byte) => write!(lines, "byte {byte}"),
        TokenKind::Integer(number) => write!(lines, "integer {number}"),
        TokenKind::Character(code) => write!(lines, "character {code}"),
        TokenKind::Text => lines.put("text"),
        TokenKind::Mark(mark) => lines.name(mark_bytes(mark)),
    }
}
