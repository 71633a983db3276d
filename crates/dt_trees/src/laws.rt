//! Laws of what a view answers.

ghost use Rattle.std.specs.Prelude.{◌≡◌, ℕ, List, Some};
ghost use Rattle.dt_flat.specs.Arena.{Arena, IsRooted, node_from, reading};
ghost use Rattle.dt_model.specs.Path.{Path};
ghost use Rattle.dt_names.specs.Fault.{IsExclusive, IsOneRefusal};
ghost use Rattle.dt_trees.specs.Placed.{PlacedTree, place_of, reading_of, HasPlacesApart, IsAt, IsNode};
ghost use Rattle.dt_trees.specs.Trees.{numbered_tree};
ghost use Rattle.dt_trees.specs.Views.{IsFoundBy, WhyNotFound};

use dt_names::one_path;

/// A tree that can be changed, as a view, is read as the tree that it is. A path leads to the number that its node has in the tree, each number to which
/// a path leads is a node, and so is each place of any view's tree to which a path leads.
pub fn tree_is_seen()
    ensures reads { (tree : Arena) → reading_of (numbered_tree tree) ≡ reading tree }
    ensures numbers { (tree : Arena) (path : Path) → place_of (numbered_tree tree) path ≡ node_from tree.slots 0 path }
    ensures nodes { (tree : Arena) (node : ℕ) → IsRooted tree.slots → (path : Path) × (node_from tree.slots 0 path ≡ Some node)
        → IsNode (numbered_tree tree) node }
    ensures places { (t : PlacedTree) (path : Path) (node : ℕ) → HasPlacesApart t → IsAt t path node → IsNode t node }
{}

/// A text names one node, or is refused for one reason, and not both.
pub fn one_finding()
    ensures one { (t : PlacedTree) (text : List ℕ) (node other : ℕ) → IsFoundBy t text node → IsFoundBy t text other → node ≡ other }
    ensures found { (t : PlacedTree) (text : List ℕ) (node : ℕ) → IsExclusive (IsFoundBy t text node) (λ kind. WhyNotFound kind t text) }
    ensures not_found { (t : PlacedTree) (text : List ℕ) → IsOneRefusal (λ kind. WhyNotFound kind t text) }
{
    one_path();
}
