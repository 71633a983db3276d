//! Parts of some bytes.

ghost use Rattle.std.specs.Prelude.{◌≡◌, ◌+◌, ◌≤◌, length, drop};
ghost use Rattle.dt_model.specs.Format.{part};

/// So many bytes at an offset.
pub(crate) fn part(bytes: &[u8], at: usize, len: usize) -> &[u8]
    requires { at + len ≤ length bytes.now }
    ensures { result.now ≡ part at len bytes.now }
{
    let (_, rest) = bytes.split_at(at);
    let (front, _) = rest.split_at(len);
    front
}

/// The bytes from an offset on.
pub(crate) fn from(bytes: &[u8], at: usize) -> &[u8]
    requires { at ≤ length bytes.now }
    ensures { result.now ≡ drop at bytes.now }
{
    let (_, rest) = bytes.split_at(at);
    rest
}
