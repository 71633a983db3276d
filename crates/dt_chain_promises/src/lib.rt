//! What the calls of `dt_chain` answer, whatever their code is, as definitions; and theorems of them: that there is one answer or one
//! refusal, that an answer is what the texts mean, and which addresses and interrupts it has. No code.
#![tactic(auto)]

mod applied_bytes;
mod laws;

pub use applied_bytes::{one_applied_reading, what_applying_bytes_means};
pub use laws::{
    one_blob, one_meaning, one_outcome, one_text, what_applying_means, what_building_means,
    what_building_resolves, what_compiling_means, what_limits_mean, what_printing_means,
};
