//! Streams of bytes that fail once and for good, over std's `Write` and `Read`.

ghost use Rattle.std.specs.Prelude.{◌≡◌, ℕ, ◌<◌, ◌≤◌, true, false, Bool, List, length, take, None, IfSome, IfErr, OnOk, Option, MatchOption, is_none};
ghost use Rattle.std.specs.Io.KnownBytes.{Keeps, Appends, Consumes, IsAtEnd};
ghost use Rattle.dt_names.specs.Sink.{Taken, Takes, IsRefused};

use crate::fault::{Fault, FaultKind};
use std::io::{ErrorKind, Read, Write};

/// Takes bytes in order, as std's `Write` does, until it fails, and then for good.
pub trait Sink {
    // The bytes that it holds, where they are known, and whether it has failed.
    ghost taken: { Self → Taken };

    /// Takes a front of the bytes, at least one where there is one, and answers how many; None where it has failed.
    fn put(&mut self, bytes: &[u8]) -> Option<usize>
        ensures bound { IfSome result (λ n. n ≤ length bytes.now) }
        ensures progress { IfSome result (λ n. 0 < length bytes.now → 0 < n) }
        ensures bytes { MatchOption result (Keeps (taken self.old).contents (taken self.new).contents)
            (λ n. Appends (taken self.old).contents (taken self.new).contents (take n bytes.now)) }
        ensures failed { (taken self.new).has_failed ≡ is_none result }
        ensures for_good { (taken self.old).has_failed ≡ true → result ≡ None };
}

/// Gives bytes in order, as std's `Read` does, until it fails, and then for good.
pub trait Feed {
    // The bytes that it will give from here on, where they are known.
    ghost remaining: { Self → Option (List ℕ) };

    // Whether it has failed.
    ghost has_failed: { Self → Bool };

    /// Puts the next bytes at the front of the buffer and answers how many: 0 only at the end, or for an empty buffer;
    /// None where it has failed.
    fn get(&mut self, buffer: &mut [u8]) -> Option<usize>
        ensures bound { IfSome result (λ n. n ≤ length buffer.new) }
        ensures bytes { MatchOption result (Keeps (remaining self.old) (remaining self.new))
            (λ n. Consumes (remaining self.old) (remaining self.new) (take n buffer.new)
            × (n ≡ 0 → 0 < length buffer.new → IsAtEnd (remaining self.new))) }
        ensures failed { has_failed self.new ≡ is_none result }
        ensures for_good { has_failed self.old ≡ true → result ≡ None };
}

/// A sink over a writer of std. An error of the writer is a failure, and so is a piece from which it takes no byte; a
/// call that a signal interrupted is made again.
#[derive(Drop)]
pub struct Out<W> {
    writer: W,
    has_failed: bool,
}

impl<W: Write> Out<W> {
    /// A sink that holds what the writer holds, and hasn't failed.
    pub fn new(writer: W) -> Self
        ensures contents { (⟦<Out<W> as Sink>⟧.taken result).contents ≡ W.contents writer }
        ensures failed { (⟦<Out<W> as Sink>⟧.taken result).has_failed ≡ false }
    {
        Out {
            writer,
            has_failed: false,
        }
    }

    /// The writer, with what the sink holds.
    pub fn into_inner(self) -> W
        ensures { W.contents result ≡ (⟦<Out<W> as Sink>⟧.taken self).contents }
    {
        self.writer
    }
}

impl<W: Write> Sink for Out<W> {
    ghost taken = { λ s. record { contents = W.contents s.writer; has_failed = s.has_failed } };

    fn put(&mut self, bytes: &[u8]) -> Option<usize> {
        if self.has_failed {
            return None;
        }
        let taken = write_once(&mut self.writer, bytes);
        self.has_failed = taken.is_none();
        taken
    }
}

/// One write that isn't interrupted, and None where the writer failed.
fn write_once<W: Write>(writer: &mut W, bytes: &[u8]) -> Option<usize>
    ensures bound { IfSome result (λ n. n ≤ length bytes.now) }
    ensures progress { IfSome result (λ n. 0 < length bytes.now → 0 < n) }
    ensures bytes { MatchOption result (Keeps (W.contents writer.old) (W.contents writer.new))
        (λ n. Appends (W.contents writer.old) (W.contents writer.new) (take n bytes.now)) }
{
    for _ in 0..u64::MAX {
        match writer.write(bytes) {
            Ok(0) if !bytes.is_empty() => return None,
            Ok(taken) => return Some(taken),
            Err(error) if error.kind() == ErrorKind::Interrupted => {}
            Err(_) => return None,
        }
    }
    None
}

/// A feed over a reader of std. An error of the reader is a failure; a call that a signal interrupted is made again.
#[derive(Drop)]
pub struct In<R> {
    reader: R,
    has_failed: bool,
}

impl<R: Read> In<R> {
    /// A feed that gives what the reader gives, and hasn't failed.
    pub fn new(reader: R) -> Self
        ensures remaining { ⟦<In<R> as Feed>⟧.remaining result ≡ R.remaining reader }
        ensures failed { ⟦<In<R> as Feed>⟧.has_failed result ≡ false }
    {
        In {
            reader,
            has_failed: false,
        }
    }

    /// The reader, with what the feed has left.
    pub fn into_inner(self) -> R
        ensures { R.remaining result ≡ ⟦<In<R> as Feed>⟧.remaining self }
    {
        self.reader
    }
}

impl<R: Read> Feed for In<R> {
    ghost remaining = { λ s. R.remaining s.reader };

    ghost has_failed = { λ s. s.has_failed };

    fn get(&mut self, buffer: &mut [u8]) -> Option<usize> {
        if self.has_failed {
            return None;
        }
        let given = read_once(&mut self.reader, buffer);
        self.has_failed = given.is_none();
        given
    }
}

/// One read that isn't interrupted, and None where the reader failed.
fn read_once<R: Read>(reader: &mut R, buffer: &mut [u8]) -> Option<usize>
    ensures bound { IfSome result (λ n. n ≤ length buffer.new) }
    ensures bytes { MatchOption result (Keeps (R.remaining reader.old) (R.remaining reader.new))
        (λ n. Consumes (R.remaining reader.old) (R.remaining reader.new) (take n buffer.new)
        × (n ≡ 0 → 0 < length buffer.new → IsAtEnd (R.remaining reader.new))) }
{
    for _ in 0..u64::MAX {
        match reader.read(buffer) {
            Ok(given) => return Some(given),
            Err(error) if error.kind() == ErrorKind::Interrupted => {}
            Err(_) => return None,
        }
    }
    None
}

/// Gives a sink all of some bytes.
///
/// # Errors
///
/// `WriteFault`, without a place, where the sink fails: it took a front of the bytes.
pub fn put_all<S: Sink>(sink: &mut S, bytes: &[u8]) -> Result<(), Fault>
    ensures written { OnOk result (Takes bytes.now (S.taken sink.old) (S.taken sink.new)) }
    ensures works { OnOk result (0 < length bytes.now → (S.taken sink.new).has_failed ≡ false) }
    ensures refused { IfErr result (λ fault. IsRefused fault bytes.now (S.taken sink.old) (S.taken sink.new)) }
{
    let mut rest = bytes;
    while !rest.is_empty() {
        match sink.put(rest) {
            Some(taken) => rest = &rest[taken..],
            None => return Err(Fault::of(FaultKind::WriteFault)),
        }
    }
    Ok(())
}
