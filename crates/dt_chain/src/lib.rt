//! From the source of a devicetree to the blob that a kernel boots (Devicetree Specification v0.4, chapters 5 and 6), with overlays
//! applied to it, and back to a source. Sources and blobs are bytes; what goes wrong is a `Fault`, and of several inputs also the number
//! of the one that is refused.
//!
//! ```text
//! let base = compile(alloc, b"/dts-v1/; / { gic: ic { }; };")?;
//! let object = compile(alloc, b"/dts-v1/; /plugin/; &{/} { d { q = <&gic>; }; };")?;
//! apply_bytes(alloc, &base, &object)          // Ok: a blob with /d, whose q is the number of /ic; `build` makes it of the texts
//! ```
//!
//! Such texts are cases of sources.cases, overlays.cases and applied.cases (docs/CASES.md).
#![tactic(auto)]

mod applying;
mod building;
mod compiling;
mod decompiling;
mod in_turn;

pub use applying::{apply_bytes, apply_list};
pub use building::build;
pub use compiling::{compile, compile_raw};
pub use decompiling::decompile;
pub use dt_chain_promises::{
    one_blob, one_meaning, one_outcome, one_text, what_applying_means, what_building_means,
    what_building_resolves, what_compiling_means, what_limits_mean, what_printing_means,
};
pub use dt_run_streams::read_all;
