//! The numbers that elements of an array take.

ghost use Rattle.std.specs.Prelude.{◌≡◌, ◌↔◌, None, IsOk, IfOk, IfErr};
ghost use Rattle.dt_names.specs.declared.fault.FaultKind.TheVariants.{OutOfRange};
ghost use Rattle.dt_expr.specs.Fits.{Fits, element, IsWidth};

use dt_names::{Fault, FaultKind};

/// The element of 8, 16, 32 or 64 bits that a value is written as: its low bits. A value fits where it is below 2^bits, or
/// where its bits from there up are all ones, as those of a small negative number are (Devicetree Specification v0.4, 6.3).
///
/// # Errors
///
/// `OutOfRange` where the value doesn't fit, without a place.
pub fn fit(value: u64, bits: u32) -> Result<u64, Fault>
    requires { IsWidth bits }
    ensures fits { IsOk result ↔ Fits bits value }
    ensures value { IfOk result (λ n. n ≡ element bits value) }
    ensures fault { IfErr result (λ fault. (fault.kind ≡ OutOfRange) × (fault.at ≡ None)) }
{
    if bits == 64 {
        return Ok(value);
    }
    let limit = 1 << bits;
    if value < limit || value / limit == u64::MAX / limit {
        Ok(value % limit)
    } else {
        Err(Fault::of(FaultKind::OutOfRange))
    }
}
