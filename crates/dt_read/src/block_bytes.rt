//! The blocks of a blob, as its bytes have them.

ghost use Rattle.std.specs.Prelude.{◌≡◌};
ghost use Rattle.dt_model.specs.Checks.{strings_of, structure_of};
ghost use Rattle.dt_model.specs.Format.{reservation_block};
ghost use Rattle.dt_read.specs.Checked.{IsBlob, placed_of};

use crate::counts::count_pairs;
use crate::spans::blocks;

/// How many bytes a reservation takes.
const PAIR_SIZE: usize = 16;

/// The reservations of a blob, up to and with the pair of zeros that ends them (Devicetree Specification v0.4, 5.3).
pub fn reservation_bytes(bytes: &[u8]) -> &[u8]
    requires { IsBlob bytes.now }
    ensures { result.now ≡ reservation_block (placed_of bytes.now).reservations }
{
    let found = blocks(bytes);
    let pairs = found.reservations;
    let size = PAIR_SIZE * count_pairs(pairs) + PAIR_SIZE;
    &pairs[..size]
}

/// The structure block of a blob (Devicetree Specification v0.4, 5.4).
pub fn structure_bytes(bytes: &[u8]) -> &[u8]
    requires { IsBlob bytes.now }
    ensures { result.now ≡ structure_of bytes.now }
{
    blocks(bytes).block
}

/// The strings of a blob (Devicetree Specification v0.4, 5.5).
pub fn strings_bytes(bytes: &[u8]) -> &[u8]
    requires { IsBlob bytes.now }
    ensures { result.now ≡ strings_of bytes.now }
{
    blocks(bytes).strings
}
