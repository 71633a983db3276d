//! Bytes that move to make room for others, and what is written there.

ghost use Rattle.std.specs.Prelude.{◌≡◌, ◌+◌, ◌<◌, ◌≤◌, ◌^◌, length, replicate};
ghost use Rattle.dt_edit.specs.Moving.{put, node_bytes, property_bytes, HasRoomMade, IsSpliced};
ghost use Rattle.dt_edit.specs.Plans.{brought_by};
ghost use Rattle.dt_model.specs.Format.{word};
ghost use Rattle.dt_model.specs.Lexing.{padded};
ghost use Rattle.dt_model_format.specs.Strings.{terminated};

use dt_bytes::put32;

const BEGIN_NODE: u32 = 1;

const END_NODE: u32 = 2;

const PROP: u32 = 3;

/// The least multiple of four that isn't below a length.
pub(crate) fn padded_len(len: usize) -> usize
    requires { len < 2 ^ 33 }
    ensures { result ≡ padded len }
{
    (len + 3) / 4 * 4
}

/// Makes room for other bytes in the place of some: what is behind them, up to an end, moves.
fn make_room(bytes: &mut [u8], at: usize, size: usize, own: usize, end: usize)
    requires cut { at + size ≤ end }
    requires inside { end ≤ length bytes.old }
    requires room { end + own ≤ length bytes.old + size }
    ensures { HasRoomMade bytes.old bytes.new at size own end }
{
    if size != own {
        bytes.copy_within(at + size..end, at + own);
    }
}

/// Writes a 32-bit word at a place, the highest byte first.
pub(crate) fn put_word(bytes: &mut [u8], at: usize, number: u32)
    requires { at + 4 ≤ length bytes.old }
    ensures { bytes.new ≡ put at (word number) bytes.old }
{
    put32(bytes, at, number);
}

/// Writes bytes at a place.
pub(crate) fn put_bytes(bytes: &mut [u8], at: usize, own: &[u8])
    requires { at + length own.now ≤ length bytes.old }
    ensures { bytes.new ≡ put at own.now bytes.old }
{
    bytes[at..at + own.len()].copy_from_slice(own);
}

/// Writes zeros at a place.
fn put_zeros(bytes: &mut [u8], at: usize, count: usize)
    requires { at + count ≤ length bytes.old }
    ensures { bytes.new ≡ put at (replicate count 0) bytes.old }
{
    bytes[at..at + count].fill(0);
}

/// Writes a name and a NUL at a place.
fn put_name(bytes: &mut [u8], at: usize, name: &[u8])
    requires { at + length name.now + 1 ≤ length bytes.old }
    ensures { bytes.new ≡ put at (terminated name.now) bytes.old }
{
    put_bytes(bytes, at, name);
    put_bytes(bytes, at + name.len(), b"\0");
}

/// Writes a property's token at a place.
fn put_property(bytes: &mut [u8], at: usize, value: &[u8], offset: u32)
    requires room { at + padded (12 + length value.now) ≤ length bytes.old }
    requires short { length value.now < 2 ^ 32 }
    ensures { bytes.new ≡ put at (property_bytes offset value.now) bytes.old }
{
    let end = at + 12 + value.len();
    let size = padded_len(12 + value.len());
    put_word(bytes, at, PROP);
    put_word(bytes, at + 4, value.len() as u32);
    put_word(bytes, at + 8, offset);
    put_bytes(bytes, at + 12, value);
    put_zeros(bytes, end, at + size - end);
}

/// So many bytes from a place on, and where what is behind them ends.
#[derive(Clone, Copy)]
pub(crate) struct Span {
    pub at: usize,
    pub size: usize,
    pub end: usize,
}

/// Puts a property's token in the place of some bytes.
pub(crate) fn splice_property(bytes: &mut [u8], span: Span, value: &[u8], offset: u32)
    requires cut { span.at + span.size ≤ span.end }
    requires inside { span.end ≤ length bytes.old }
    requires room { span.end + padded (12 + length value.now) ≤ length bytes.old + span.size }
    requires short { length value.now < 2 ^ 32 }
    ensures { IsSpliced bytes.old bytes.new (property_bytes offset value.now) span.at span.size span.end }
{
    make_room(
        bytes,
        span.at,
        span.size,
        padded_len(12 + value.len()),
        span.end,
    );
    put_property(bytes, span.at, value, offset);
}

/// Writes a name and a NUL at the end of strings that don't hold it, and answers how many bytes they are.
pub(crate) fn bring_name(bytes: &mut [u8], end: usize, place: Option<usize>, name: &[u8]) -> usize
    requires { end + length (brought_by place name.now) ≤ length bytes.old }
    ensures put { bytes.new ≡ put end (brought_by place name.now) bytes.old }
    ensures size { result ≡ length (brought_by place name.now) }
{
    if place.is_some() {
        return 0;
    }
    put_name(bytes, end, name);
    name.len() + 1
}

/// Writes the tokens of a node that has nothing at a place.
fn put_node(bytes: &mut [u8], at: usize, name: &[u8])
    requires room { at + padded (5 + length name.now) + 4 ≤ length bytes.old }
    requires short { length name.now < 256 }
    ensures { bytes.new ≡ put at (node_bytes name.now) bytes.old }
{
    let end = at + 5 + name.len();
    let size = padded_len(5 + name.len());
    put_word(bytes, at, BEGIN_NODE);
    put_name(bytes, at + 4, name);
    put_zeros(bytes, end, at + size - end);
    put_word(bytes, at + size, END_NODE);
}

/// Puts the tokens of a node that has nothing in the place of some bytes.
pub(crate) fn splice_node(bytes: &mut [u8], span: Span, name: &[u8])
    requires cut { span.at + span.size ≤ span.end }
    requires inside { span.end ≤ length bytes.old }
    requires room { span.end + padded (5 + length name.now) + 4 ≤ length bytes.old + span.size }
    requires short { length name.now < 256 }
    ensures { IsSpliced bytes.old bytes.new (node_bytes name.now) span.at span.size span.end }
{
    make_room(
        bytes,
        span.at,
        span.size,
        padded_len(5 + name.len()) + 4,
        span.end,
    );
    put_node(bytes, span.at, name);
}
