//! What is true of the named trees that sources mean, and of their instances.

ghost use Rattle.std.specs.Prelude.{◌≡◌, []};
ghost use Rattle.dt_model.specs.Source.{base};
ghost use Rattle.dt_model.specs.Numbering.{IsNumbering};
ghost use Rattle.dt_model.specs.NamedOf.{IsNamedOf, asked_in};
ghost use Rattle.dt_model.specs.Instance.{added, instance_of, symbols_of};
ghost use Rattle.dt_model_laws.specs.NamedSample.{
  named_source,
  named_tree,
  named_numbers,
  named_compiled,
};
ghost use Rattle.dt_model_laws.specs.NamedTrees.{
  LeastIsLow,
  ListIsOfItsTree,
  NodesAreShallow,
  RootStands,
  MeantIsNamed,
  NamedIsNotRefused,
  ManyStand,
  InstanceIsValid,
  InstanceIsMeant,
  TreeIsMeant,
};

/// The least free number isn't above the count of those that are taken and one more.
pub fn least_is_low()
    ensures { LeastIsLow }
{}

/// The list of a tree is of that tree.
pub fn list_is_of_its_tree()
    ensures { ListIsOfItsTree }
{}

/// After the places of a source, no node has more than 64 names in its path.
pub fn nodes_are_shallow()
    ensures { NodesAreShallow }
{}

/// A tree that places mean is one that a source may mean, where it isn't too large.
pub fn meant_is_named()
    ensures { MeantIsNamed }
{}

/// Where a tree that places mean is too large, too many nodes stand.
pub fn many_stand()
    ensures { ManyStand }
{}

/// A blob may hold the instance of a named tree, within the limits, and no two of its phandles are one number.
pub fn instance_is_valid()
    ensures { InstanceIsValid }
{}

/// The instance of the named tree that places mean is the instance of their meaning.
pub fn instance_is_meant()
    ensures { InstanceIsMeant }
{}

/// With its labels it is the tree that they are compiled to.
pub fn tree_is_meant()
    ensures { TreeIsMeant }
{}

/// A small source's named tree, its nodes' numbers, and the tree that it is compiled to: a node with a label gets a number, and
/// one to which a value refers, and a number that isn't written comes after the node's properties.
pub(crate) fn named_sample()
    ensures named { IsNamedOf base [] named_source named_tree }
    ensures numbered { IsNumbering (asked_in named_tree) named_numbers }
    ensures compiled { added base (symbols_of named_tree) (instance_of named_numbers named_tree) ≡ named_compiled }
{}

/// After the places of a source, which has one at least, there is a root.
pub fn root_stands()
    ensures { RootStands }
{}

/// A source that means a named tree whose nodes aren't too many isn't refused.
pub fn named_is_not_refused()
    ensures { NamedIsNotRefused }
{}
