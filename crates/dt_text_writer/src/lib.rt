//! A sink behind a page of waiting bytes, for texts made of many small pieces, and numbers in hexadecimal.
//!
//! ```text
//! let mut writer = Writer::new(&mut out);
//! writer.put(b" = <0x")?;
//! writer.put(without_zeros(&digits))?;
//! writer.flush()
//! ```
#![tactic(auto)]

mod digits;
mod laws;
mod writer;

pub use digits::{without_zeros, write_digits};
pub use laws::one_ending;
pub use writer::Writer;
