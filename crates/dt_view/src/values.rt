//! The cells of a value: four bytes each, big-endian (Devicetree Specification v0.4, 2.2.4).

ghost use Rattle.std.specs.Prelude.{◌≡◌, ◌+◌, ◌*◌, ◌≤◌, ◌∷◌, length, take, drop};
ghost use Rattle.std.specs.Int.{w32, from_be_bytes};
ghost use Rattle.dt_resolve_model.specs.World.{figure, quads_of};

/// The number at an offset.
fn number_at(bytes: &[u8], at: usize) -> u32
    requires { at + 4 ≤ length bytes.now }
    ensures { result ≡ from_be_bytes w32 (take 4 (drop at bytes.now)) }
{
    let cell = &bytes[at..at + 4];
    u32::from_be_bytes([cell[0], cell[1], cell[2], cell[3]])
}

/// The number of the cell that has so many before it.
pub fn cell_at(bytes: &[u8], index: usize) -> u32
    requires { 4 * (index + 1) ≤ length bytes.now }
    ensures { drop index (quads_of bytes.now) ≡ figure result ∷ drop (index + 1) (quads_of bytes.now) }
{
    number_at(bytes, 4 * index)
}

/// The bytes of so many cells, the first ones.
pub fn first_cells(bytes: &[u8], cells: usize) -> &[u8]
    requires { 4 * cells ≤ length bytes.now }
    ensures bytes { result.now ≡ take (4 * cells) bytes.now }
    ensures cells { quads_of result.now ≡ take cells (quads_of bytes.now) }
{
    &bytes[..4 * cells]
}

/// The bytes behind so many cells.
pub fn cells_after(bytes: &[u8], cells: usize) -> &[u8]
    requires { 4 * cells ≤ length bytes.now }
    ensures bytes { result.now ≡ drop (4 * cells) bytes.now }
    ensures cells { quads_of result.now ≡ drop cells (quads_of bytes.now) }
{
    &bytes[4 * cells..]
}
