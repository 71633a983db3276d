//! Where no label begins, so that a long word isn't searched for a `:` from each of its bytes.

ghost use Rattle.dt_lex.specs.Labels.{IsUnlabelled};

use crate::byte::Class;
use crate::word::{after_all, after_word, begins};

/// How many bytes at the front begin no label: as many as are known already, or those of a first word with no `:` behind it.
pub(crate) fn unlabelled(text: &[u8], known: usize) -> usize
    requires { IsUnlabelled known text.now }
    ensures { IsUnlabelled result text.now }
{
    if known > 0 || !begins(text, Class::LabelStart) {
        return known;
    }
    let rest = after_all(text, Class::Label);
    match after_word(rest, b":") {
        Some(_) => 0,
        None => text.len() - rest.len(),
    }
}
