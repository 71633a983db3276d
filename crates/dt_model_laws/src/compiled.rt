//! What is true of the trees that sources are compiled to, and of the refusals of sources.

ghost use Rattle.dt_model_laws.specs.CompiledTrees.{
  OneTree,
  TreeIsValid,
  BaseTreeRepresents,
  RefusalIsOne,
  MeantIsNotRefused,
  FewAreNotRefused,
};

/// A source is compiled to one tree.
pub fn compiled_tree_is_one()
    ensures { OneTree }
{}

/// A blob may hold the tree that a source is compiled to.
pub fn compiled_tree_is_valid()
    ensures { TreeIsValid }
{}

/// The tree that a base's source is compiled to represents what the source means.
pub fn compiled_base_represents()
    ensures { BaseTreeRepresents }
{}

/// A source is refused for one reason.
pub fn refusal_is_one()
    ensures { RefusalIsOne }
{}

/// A source that means something is refused for nothing but too many nodes, and not for that where its tree's nodes aren't
/// too many.
pub fn compiled_is_not_refused()
    ensures meant { MeantIsNotRefused }
    ensures few { FewAreNotRefused }
{}
