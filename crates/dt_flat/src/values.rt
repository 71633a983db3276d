//! The values of a tree's properties, in one buffer.

ghost use Rattle.std.specs.Prelude.{◌≡◌, ◌<◌, ◌≤◌, ◌+◌, ◌++◌, ◌∷◌, ℕ, List, [], Some, length, take, drop, slice_get, slice_set, OnOk, OnErr};
ghost use Rattle.dt_model.specs.Applied.{with_cell};
ghost use Rattle.dt_flat.specs.Values.{cut};

use std::alloc::{AllocError, Global};
use std::marker::Model;

/// Where a value is in the buffer.
#[derive(Clone, Copy)]
pub(crate) struct Span {
    start: usize,
    len: usize,
}

/// Values by their places. A value that takes the place of another is at the end of the buffer, which keeps the bytes of the old one.
#[derive(Drop)]
pub(crate) struct Values {
    bytes: Vec<u8>,
    spans: Vec<Span>,
}

impl Model for Values {
    ghost use Rattle.std.specs.Prelude.{List, ℕ};
    ghost use Rattle.dt_flat.specs.Values.{cuts, AreCuts};

    ghost Value = { List (List ℕ) };

    ghost view = { λ v. cuts v.bytes.items v.spans.items };

    ghost invariant = { λ v. AreCuts v.bytes.items v.spans.items };
}

/// The bytes of a span.
fn part(bytes: &[u8], span: Span) -> &[u8]
    requires { span.start + span.len ≤ length bytes.now }
    ensures { result.now ≡ cut bytes.now span }
{
    &bytes[span.start..span.start + span.len]
}

/// Writes bytes from a place on.
fn overwrite(bytes: &mut Vec<u8>, start: usize, value: &[u8])
    requires { start + length value.now ≤ length bytes.old.items }
    ensures { bytes.new.items ≡ take start bytes.old.items ++ (value.now ++ drop (start + length value.now) bytes.old.items) }
{
    bytes[start..start + value.len()].copy_from_slice(value);
}

impl Values {
    /// No values yet. Takes no memory.
    pub fn new(alloc: Global) -> Self
        ensures { result ≡ [] }
    {
        Values {
            bytes: Vec::new(alloc),
            spans: Vec::new(alloc),
        }
    }

    /// Makes room for so many values more, but not for their bytes.
    pub fn reserve(&mut self, values: usize) -> Result<(), AllocError>
        ensures { self.new ≡ self.old }
    {
        self.spans.reserve(values)
    }

    /// The value at a place.
    pub fn at(&self, place: usize) -> &[u8]
        requires { place < length self.now }
        ensures { slice_get self.now place ≡ Some result.now }
    {
        part(&self.bytes, self.spans[place])
    }

    /// Adds a value at the end.
    pub fn push(&mut self, value: &[u8]) -> Result<(), AllocError>
        ensures ok { OnOk result (self.new ≡ self.old ++ value.now ∷ []) }
        ensures err { OnErr result (self.new ≡ self.old) }
    {
        self.spans.reserve(1)?;
        let start = self.bytes.len();
        self.bytes.extend_from_slice(value)?;
        self.spans.push_reserved(Span {
            start,
            len: value.len(),
        });
        Ok(())
    }

    /// Takes the last value away.
    pub fn pop(&mut self)
        ensures { (values : List (List ℕ)) (value : List ℕ) → self.old ≡ values ++ value ∷ [] → self.new ≡ values }
    {
        self.spans.pop();
    }

    /// Takes the last value from the end, and puts it in the place of another.
    pub fn move_last(&mut self, place: usize)
        requires { (values : List (List ℕ)) × (value : List ℕ) × (self.old ≡ values ++ value ∷ []) × (place < length values) }
        ensures { (values : List (List ℕ)) (value : List ℕ) → self.old ≡ values ++ value ∷ [] → self.new ≡ slice_set values place value }
    {
        if let Some(span) = self.spans.pop() {
            self.spans[place] = span;
        }
    }

    /// Writes a number, the highest byte first, at an offset of a value. Looks at no other byte of it.
    pub fn patch(&mut self, place: usize, offset: usize, number: u32)
        requires { (value : List ℕ) × (slice_get self.old place ≡ Some value) × (offset + 4 ≤ length value) }
        ensures { (value : List ℕ) → slice_get self.old place ≡ Some value → self.new ≡ slice_set self.old place (with_cell value offset number) }
    {
        let start = self.spans[place].start + offset;
        overwrite(&mut self.bytes, start, &number.to_be_bytes());
    }
}
