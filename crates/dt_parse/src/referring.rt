//! Paths as references name them.

ghost use Rattle.std.specs.Prelude.{◌≡◌, ◌≢◌, ℕ, List, MatchOption, drop};
ghost use Rattle.dt_grammar.specs.Unchecked.{a_path, path_of_names, ended_names};
ghost use Rattle.dt_grammar.specs.Strict.{IsReferenceText};
ghost use Rattle.dt_grammar.specs.Paths.{braced};

use dt_names::PathRef;

/// What is between `&{` and `}`; none where the bytes begin or end in another way.
fn between_braces(bytes: &[u8]) -> Option<&[u8]>
    ensures { MatchOption result ((text : List ℕ) → bytes.now ≢ braced text) (λ text. bytes.now ≡ braced text.now) }
{
    let size = bytes.len();
    if size < 3 || bytes[0] != b'&' || bytes[1] != b'{' || bytes[size - 1] != b'}' {
        return None;
    }
    Some(&bytes[2..size - 1])
}

/// The path that a reference's bytes are by; none where they aren't `&{`, a path's text and `}`. Takes no memory.
pub(crate) fn referred_path(bytes: &[u8]) -> Option<PathRef<'_>>
    ensures { MatchOption result (¬ IsReferenceText a_path bytes.now)
        (λ path. IsReferenceText a_path bytes.now × (path ≡ path_of_names (ended_names (drop 3 bytes.now)))) }
{
    PathRef::new(between_braces(bytes)?)
}
