//! The numbers by which nodes are referred to (Devicetree Specification v0.4, 2.3.3).

ghost use Rattle.std.specs.Prelude.{◌≡◌, ◌↔◌, IsSome, IfSome};
ghost use Rattle.std.specs.Int.{w32, from_be_bytes};
ghost use Rattle.dt_model.specs.Valid.{IsPhandle};

/// The number that a value of the property `phandle` gives its node (Devicetree Specification v0.4, 2.3.3): four bytes of a
/// number from 1 to 0xfffffffe, the highest first. None for any other value.
pub fn phandle_of(value: &[u8]) -> Option<u32>
    ensures valid { IsSome result ↔ IsPhandle value.now }
    ensures number { IfSome result (λ number. number ≡ from_be_bytes w32 value.now) }
{
    let [a, b, c, d] = value else {
        return None;
    };
    let number = u32::from_be_bytes([*a, *b, *c, *d]);
    if number == 0 || number == u32::MAX {
        return None;
    }
    Some(number)
}
