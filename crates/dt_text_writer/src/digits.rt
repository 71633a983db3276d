//! Numbers in hexadecimal.

ghost use Rattle.std.specs.Prelude.{◌≡◌, ◌<◌, ◌*◌, drop, length};
ghost use Rattle.std.specs.Bool.{OnTrue, OnFalse};
ghost use Rattle.dt_model.specs.Printed.{hexadecimal, significant};

/// Writes each byte as two digits.
pub fn write_digits(bytes: &[u8], digits: &mut [u8])
    requires { length digits.old ≡ 2 * length bytes.now }
    ensures { digits.new ≡ hexadecimal bytes.now }
{
    // It is refused only for another length.
    let _ = hex::encode_to_slice(bytes, digits);
}

/// Whether a zero comes before another digit.
fn has_idle_zero(digits: &[u8]) -> bool
    ensures idle { OnTrue result ((0 < length digits.now) × (significant digits.now ≡ significant (drop 1 digits.now))) }
    ensures none { OnFalse result (significant digits.now ≡ digits.now) }
{
    digits.len() > 1 && digits[0] == b'0'
}

/// The digits without zeros in front, the last digit apart.
pub fn without_zeros(digits: &[u8]) -> &[u8]
    ensures { result.now ≡ significant digits.now }
{
    let mut rest = digits;
    while has_idle_zero(rest) {
        rest = &rest[1..];
    }
    rest
}
