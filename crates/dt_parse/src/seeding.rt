//! What the tables hash that a source's names and numbers come to stand in.

use dt_lex::Token;
use dt_names::Seed;
use std::hash::{DefaultHasher, Hasher};

/// A text that has less than a token in so many bytes is mostly comments, blanks or long texts; no name or number is written by as many.
const SPARSE: usize = 1024;

/// The seed of a text: that of all its bytes, or of the tokens of a sparse one alone, which is read so fast that hashing all of it would show.
pub(crate) fn seed_of(text: &[u8], tokens: &[Token]) -> Seed {
    if text.len() / SPARSE <= tokens.len() {
        Seed::of(text)
    } else {
        seed_of_tokens(text, tokens)
    }
}

fn seed_of_tokens(text: &[u8], tokens: &[Token]) -> Seed {
    let mut hasher = DefaultHasher::new();
    for token in tokens {
        let bytes = text
            .get(token.start as usize..token.end as usize)
            .unwrap_or(&[]);
        if bytes.len() < SPARSE {
            hasher.write(bytes);
        }
    }
    Seed::from(hasher.finish())
}
