//! Pieces of a text on their way to a sink.

ghost use Rattle.std.specs.Prelude.{◌≡◌, ◌++◌, [], IfErr, OnOk};
ghost use Rattle.std.specs.Bool.{OnTrue, OnFalse};
ghost use Rattle.dt_names.specs.Sink.{joined};
ghost use Rattle.dt_text_writer.specs.Written.{state, before, Puts, FailsAt};

use arrayvec::ArrayVec;
use dt_names::{Fault, Sink, put_all};

/// The bytes that wait at most: a page.
const CAPACITY: usize = 4096;

/// A sink, and bytes that wait for it, so that one call of the sink serves many pieces. What waits is handed on by `flush` alone, never by
/// dropping the writer.
#[derive(Drop)]
pub struct Writer<'a, S> {
    out: &'a mut S,
    waiting: ArrayVec<u8, CAPACITY>,
}

impl<'a, S: Sink> Writer<'a, S> {
    /// A writer before a sink. Nothing waits.
    pub fn new(out: &'a mut S) -> Writer<'a, S>
        ensures { state S.taken result ≡ before S.taken out.entry }
    {
        Writer {
            out,
            waiting: ArrayVec::new(),
        }
    }

    /// Puts some bytes behind those that wait; false, and nothing changed, where they don't fit.
    fn hold(&mut self, bytes: &[u8]) -> bool
        ensures held { OnTrue result (Puts S.taken bytes.now self.old self.new) }
        ensures full { OnFalse result (state S.taken self.new ≡ state S.taken self.old) }
    {
        self.waiting.try_extend_from_slice(bytes).is_ok()
    }

    /// Writes some bytes, behind those that wait.
    ///
    /// # Errors
    ///
    /// `WriteFault`, without a place, where the sink fails: it took a front of what waited and these bytes.
    pub fn put(&mut self, bytes: &[u8]) -> Result<(), Fault>
        ensures written { OnOk result (Puts S.taken bytes.now self.old self.new) }
        ensures refused { IfErr result (λ fault. FailsAt S.taken fault bytes.now self.old self.new) }
    {
        if self.hold(bytes) {
            return Ok(());
        }
        self.flush()?;
        if self.hold(bytes) {
            return Ok(());
        }
        put_all(self.out, bytes)
    }

    /// Writes some pieces, one behind the other.
    ///
    /// # Errors
    ///
    /// `WriteFault`, without a place, where the sink fails: it took a front of what waited and the pieces.
    pub fn put_pieces(&mut self, pieces: &[&[u8]]) -> Result<(), Fault>
        ensures written { OnOk result (Puts S.taken (joined pieces.now) self.old self.new) }
        ensures refused { IfErr result (λ fault. FailsAt S.taken fault (joined pieces.now) self.old self.new) }
    {
        for piece in pieces {
            self.put(piece)?;
        }
        Ok(())
    }

    /// Hands the sink all that waits.
    ///
    /// # Errors
    ///
    /// `WriteFault`, without a place, where the sink fails: it took a front of what waited.
    pub fn flush(&mut self) -> Result<(), Fault>
        ensures written { OnOk result (Puts S.taken [] self.old self.new) }
        ensures empty { OnOk result ((state S.taken self.new).waiting ≡ []) }
        ensures refused { IfErr result (λ fault. FailsAt S.taken fault [] self.old self.new) }
    {
        put_all(self.out, self.waiting.as_slice())?;
        self.waiting.clear();
        Ok(())
    }
}
