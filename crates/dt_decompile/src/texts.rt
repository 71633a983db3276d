//! A value as texts.

ghost use Rattle.std.specs.Prelude.{◌≡◌, ◌<◌, ◌∷◌, ◌++◌, length, codes, true, MatchOption, OnOk, IfErr};
ghost use Rattle.memchr.specs.Find.{is_byte3};
ghost use Rattle.dt_model.specs.Printed.{are_texts as are_texts_of, texts_from};
ghost use Rattle.dt_text_writer.specs.Written.{Puts, FailsAt};

use dt_names::{Fault, Sink};
use dt_text_writer::Writer;
use memchr::memchr3;

/// Whether a value is texts, none of them empty, each with a NUL.
pub(crate) fn are_texts(value: &[u8]) -> bool
    ensures { result ≡ are_texts_of value.now }
{
    if value.is_empty() {
        return false;
    }
    let mut begins = true;
    for byte in value {
        match byte {
            0 if begins => return false,
            0 => begins = true,
            b' '..=b'~' => begins = false,
            _ => return false,
        }
    }
    begins
}

/// What is written for a byte between quotes that doesn't stand there as it is: a NUL, a quote or a backslash.
fn mark(byte: u8, behind: &[u8]) -> &'static [u8]
    requires { is_byte3 0 34 92 byte ≡ true }
    ensures { texts_from (byte ∷ behind.now) ≡ result.now ++ texts_from behind.now }
{
    match byte {
        0 if behind.is_empty() => b"\"",
        0 => b"\", \"",
        b'"' => b"\\\"",
        _ => b"\\\\",
    }
}

/// The bytes up to a NUL, a quote or a backslash, what is written for it, and the bytes behind it.
fn next_mark(texts: &[u8]) -> Option<(&[u8], &'static [u8], &[u8])>
    ensures { MatchOption result (texts_from texts.now ≡ texts.now)
        (λ m. (texts_from texts.now ≡ m.0.now ++ (m.1.now ++ texts_from m.2.now)) × (length m.2.now < length texts.now)) }
{
    let at = memchr3(0, b'"', b'\\', texts)?;
    let behind = &texts[at + 1..];
    Some((&texts[..at], mark(texts[at], behind), behind))
}

/// Writes texts from the inside of the first on.
fn put_texts_from<S: Sink>(writer: &mut Writer<'_, S>, texts: &[u8]) -> Result<(), Fault>
    ensures written { OnOk result (Puts S.taken (texts_from texts.now) writer.old writer.new) }
    ensures refused { IfErr result (λ fault. FailsAt S.taken fault (texts_from texts.now) writer.old writer.new) }
{
    let mut rest = texts;
    while let Some((plain, mark, behind)) = next_mark(rest) {
        writer.put(plain)?;
        writer.put(mark)?;
        rest = behind;
    }
    writer.put(rest)
}

/// Writes texts between quotes.
pub(crate) fn put_texts<S: Sink>(writer: &mut Writer<'_, S>, texts: &[u8]) -> Result<(), Fault>
    ensures written { OnOk result (Puts S.taken (codes " = \"" ++ texts_from texts.now) writer.old writer.new) }
    ensures refused { IfErr result (λ fault. FailsAt S.taken fault (codes " = \"" ++ texts_from texts.now) writer.old writer.new) }
{
    writer.put(b" = \"")?;
    put_texts_from(writer, texts)
}
