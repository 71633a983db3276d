//! Standard output, whose failures show at once.

use std::io::{ErrorKind, Result, Write};

/// A writer that is flushed after each write, so that a byte that was taken has arrived: what a full disk refuses is reported by the
/// write, and not when the program ends.
#[derive(Drop)]
pub struct Prompt<W> {
    writer: W,
}

impl<W> Prompt<W> {
    pub fn new(writer: W) -> Prompt<W> {
        Prompt { writer }
    }
}

impl<W: Write> Write for Prompt<W> {
    fn write(&mut self, bytes: &[u8]) -> Result<usize> {
        let taken = self.writer.write(bytes)?;
        self.flush()?;
        Ok(taken)
    }

    /// A flush that a signal interrupted is made again, since its bytes are taken already.
    fn flush(&mut self) -> Result<()> {
        for _ in 0..u64::MAX {
            match self.writer.flush() {
                Err(error) if error.kind() == ErrorKind::Interrupted => {}
                flushed => return flushed,
            }
        }
        Ok(())
    }
}
