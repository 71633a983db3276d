//! What takes no memory, of any bytes.

use dt_bytes::{be32, be64, put32, text_at};
use dt_expr::fit;
use dt_names::{Label, NodeName, Out, Path, PathRef, PropName, is_bookkeeping_name, phandle_of};
use dt_overlay_texts::{cell_text, has_cell, texts};
use dt_run_streams::{check, print};
use std::io::sink;

/// How many of some answers are yes.
fn how_many(answers: &[bool]) -> usize {
    answers.iter().filter(|is_yes| **is_yes).count()
}

/// How much the calls answer that may be asked with any bytes; others hold the same bytes, and may be changed.
pub fn in_bytes(input: &[u8], others: &mut [u8]) -> usize {
    in_places(input, others)
        .saturating_add(in_names(input))
        .saturating_add(in_path(input))
        .saturating_add(in_texts(input))
        .saturating_add(written(input))
}

fn in_places(input: &[u8], others: &mut [u8]) -> usize {
    let mut answered = 0usize;
    for at in 0..=input.len() {
        answered = answered.saturating_add(how_many(&[
            be32(input, at).is_some(),
            be64(input, at).is_some(),
            text_at(input, at).is_some(),
            has_cell(input, at),
            put32(others, at, 7),
            fit(at as u64, 8).is_ok(),
        ]));
    }
    answered
}

fn in_names(input: &[u8]) -> usize {
    let mut answered = 0usize;
    for word in input.split(|byte| *byte == b' ') {
        answered = answered.saturating_add(in_word(word));
    }
    answered
}

fn in_word(word: &[u8]) -> usize {
    how_many(&[
        NodeName::new(word).is_ok(),
        PropName::new(word).is_ok(),
        Label::new(word).is_ok(),
        is_bookkeeping_name(word),
        phandle_of(word).is_some(),
        cell_text(word).is_some(),
    ])
}

fn in_path(input: &[u8]) -> usize {
    let Some(path) = PathRef::new(input) else {
        return 0;
    };
    let mut answered = path.text().len();
    for name in path.names() {
        answered = answered.saturating_add(name.len());
    }
    answered
}

fn in_texts(input: &[u8]) -> usize {
    let Some(texts) = texts(input) else {
        return 0;
    };
    let mut answered = 0usize;
    for text in texts {
        answered = answered.saturating_add(text.len());
    }
    answered
}

/// How many of `check` and `print` write to their ends.
fn written(input: &[u8]) -> usize {
    how_many(&[
        check(input, &mut Out::new(sink())).is_ok(),
        print(input, &mut Out::new(sink())).is_ok(),
    ])
}

/// Whether a path's text is written.
pub fn is_written(path: &Path) -> bool {
    path.write_to(&mut Out::new(sink())).is_ok()
}
