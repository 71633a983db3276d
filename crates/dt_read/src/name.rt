//! Names, as tests.

ghost use Rattle.std.specs.Prelude.{◌≡◌};
ghost use Rattle.dt_model.specs.Names.{is_node_name, is_property_name};

use dt_names::{NodeName, PropName};

/// Whether the bytes are the name of a property.
pub(crate) fn may_name_a_property(name: &[u8]) -> bool
    ensures { result ≡ is_property_name name.now }
{
    PropName::new(name).is_ok()
}

/// Whether the bytes are the name of a node below the root.
pub(crate) fn may_name_a_node(name: &[u8]) -> bool
    ensures { result ≡ is_node_name name.now }
{
    NodeName::new(name).is_ok()
}
