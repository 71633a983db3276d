//! Texts of paths.

ghost use Rattle.std.specs.Prelude.{◌≡◌, ◌<◌, ◌≤◌, ◌++◌, ◌∷◌, [], length, OnOk, IfOk, IfErr};
ghost use Rattle.dt_model.specs.Limits.{most_names};
ghost use Rattle.dt_model.specs.Names.{IsNodeName};
ghost use Rattle.dt_model.specs.Path.{path_value};
ghost use Rattle.dt_names.specs.declared.fault.FaultKind.TheVariants.{NoMemory, Limit};
ghost use Rattle.dt_names.specs.Fault.{IsMemoryOr};

use dt_names::{Fault, NodeName, Path};
use std::alloc::{AllocError, Global};

/// The text of a path with a NUL, in the place of what was there.
pub fn put_path(out: &mut Vec<u8>, path: &Path) -> Result<(), AllocError>
    ensures { OnOk result (out.new.items ≡ path_value path.now) }
{
    let text = path.text();
    out.clear();
    out.reserve(text.len() + 1)?;
    out.extend_from_slice(text)?;
    out.push(0)?;
    Ok(())
}

/// The path of a child. `Limit`: the path has 64 names. `NoMemory`: memory was refused.
pub fn child_path(alloc: Global, path: &Path, name: &[u8]) -> Result<Path, Fault>
    requires { IsNodeName name.now }
    ensures value { IfOk result (λ child. child ≡ path.now ++ name.now ∷ []) }
    ensures room { IfOk result (λ child. length path.now < most_names) }
    ensures refused { IfErr result (IsMemoryOr (λ kind. (kind ≡ Limit) × (most_names ≤ length path.now))) }
{
    path.child(alloc, &NodeName::new(name)?)
}
