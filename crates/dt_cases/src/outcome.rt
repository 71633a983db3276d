//! What calls answer, as it is made.

use dt_names::{Fault, Path};
use std::alloc::{AllocError, AllocFailed, Global};
use std::fmt::{Display, Write};
use std::mem;

/// Why there is no answer.
#[derive(Clone, Copy)]
pub enum Stop {
    /// The call was refused.
    Refused(Fault),
    /// The call was refused for an input, counted from 0.
    RefusedInput(usize, Fault),
    /// The table says nothing that can be tried: no such call, or none of its words.
    Malformed,
}

impl From<Fault> for Stop {
    fn from(fault: Fault) -> Stop {
        Stop::Refused(fault)
    }
}

impl From<(usize, Fault)> for Stop {
    fn from((input, fault): (usize, Fault)) -> Stop {
        Stop::RefusedInput(input, fault)
    }
}

impl From<AllocError> for Stop {
    fn from(error: AllocError) -> Stop {
        Stop::Refused(Fault::from(error))
    }
}

impl<T: Drop> From<AllocFailed<T>> for Stop {
    fn from(error: AllocFailed<T>) -> Stop {
        Stop::Refused(Fault::from(error))
    }
}

/// Whether a text is another one.
pub fn is_other(text: &str, other: String) -> bool {
    *text != *other
}

/// Lines that are made piece by piece. A growth that is refused is remembered, and nothing is put from then on, so that it is
/// asked for once, at the end.
#[derive(Drop)]
pub struct Lines {
    text: String,
    has_failed: bool,
    /// How much was put, where it is only counted.
    counted: Option<usize>,
}

impl Lines {
    pub fn new(alloc: Global) -> Lines {
        Lines {
            text: String::new(alloc),
            has_failed: false,
            counted: None,
        }
    }

    /// Lines that are counted and not kept, which takes no memory: a text by its bytes, what something shows as one, and a fault not at all.
    pub fn to_count(alloc: Global) -> Lines {
        Lines {
            text: String::new(alloc),
            has_failed: false,
            counted: Some(0),
        }
    }

    /// How much was put into lines that are counted.
    pub fn count(&self) -> usize {
        self.counted.unwrap_or(0)
    }

    pub fn is_empty(&self) -> bool {
        self.text.is_empty()
    }

    /// The lines, or no memory for them.
    pub fn into_text(self) -> Result<String, Stop> {
        if self.has_failed {
            return Err(Stop::from(AllocError));
        }
        Ok(self.text)
    }

    /// Puts a text.
    pub fn put(&mut self, text: &str) {
        match self.counted {
            Some(count) => self.counted = Some(count.saturating_add(text.len())),
            None => self.has_failed = self.has_failed || self.text.push_str(text).is_err(),
        }
    }

    /// Puts what something shows: `write!` calls it.
    pub fn write_fmt<D: Display + Drop>(&mut self, shown: D) {
        match self.counted {
            Some(count) => self.counted = Some(count.saturating_add(1)),
            None => self.has_failed = self.has_failed || write!(self.text, "{shown}").is_err(),
        }
    }

    /// Puts a fault in a line.
    pub fn fault(&mut self, fault: Fault) {
        if self.counted.is_none() {
            writeln!(self, "{fault}");
        }
    }

    /// Puts the answer to a question.
    pub fn yes(&mut self, is_so: bool) {
        self.put(if is_so { "yes " } else { "no " });
    }

    /// Puts a name, or a question mark in the place of bytes that are no text.
    pub fn name(&mut self, name: &[u8]) {
        self.put(str::from_utf8(name).unwrap_or("?"));
    }

    /// Puts the text of a path.
    pub fn path(&mut self, path: Result<Path, Fault>) {
        match path {
            Ok(path) => self.names(&path),
            Err(_) => self.has_failed = true,
        }
    }

    /// Puts the names of a path.
    pub fn names(&mut self, path: &Path) {
        if path.len() == 0 {
            self.put("/");
        }
        for name in path.names() {
            self.put("/");
            self.name(name);
        }
    }

    /// Puts bytes in hexadecimal, a blank between each four.
    pub fn hexadecimal(&mut self, bytes: &[u8]) {
        for (at, byte) in bytes.iter().enumerate() {
            if at > 0 && at % 4 == 0 {
                self.put(" ");
            }
            write!(self, "{byte:02x}");
        }
    }
}

/// What calls answer: bytes, which the next call is given, or lines.
#[derive(Drop)]
pub struct Outcome {
    alloc: Global,
    bytes: Vec<u8>,
    lines: Lines,
    is_told: bool,
}

impl Outcome {
    /// No bytes.
    pub fn new(alloc: Global) -> Outcome {
        Outcome {
            alloc,
            bytes: Vec::new(alloc),
            lines: Lines::new(alloc),
            is_told: false,
        }
    }

    /// Whether lines are the answer.
    pub fn is_told(&self) -> bool {
        self.is_told
    }

    /// Answers bytes.
    pub fn give(&mut self, bytes: Vec<u8>) {
        self.bytes = bytes;
    }

    /// The bytes that were answered last.
    pub fn taken(&mut self) -> Vec<u8> {
        mem::replace(&mut self.bytes, Vec::new(self.alloc))
    }

    /// Answers lines, which are put behind those that stand.
    pub fn lines(&mut self) -> &mut Lines {
        self.is_told = true;
        &mut self.lines
    }

    /// Answers a line.
    pub fn tell<D: Display + Drop>(&mut self, shown: D) {
        writeln!(self.lines(), "{shown}");
    }

    /// What comes out: the lines, or the bytes as a line of hexadecimal. Where memory was refused, no answer.
    pub fn into_text(mut self) -> Result<String, Stop> {
        if !self.is_told {
            self.lines.hexadecimal(&self.bytes);
            self.lines.put("\n");
        }
        self.lines.into_text()
    }
}
