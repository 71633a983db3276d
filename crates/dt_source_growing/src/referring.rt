//! The nodes to which a source refers.

ghost use Rattle.std.specs.Prelude.{◌≡◌, ◌<◌, ℕ, reverse, length, None, Some, IfSome, IfNone, MatchOption};
ghost use Rattle.dt_model.specs.Event.{Stack};
ghost use Rattle.dt_model.specs.Source.{Events, labelled, referent};
ghost use Rattle.dt_source_items.specs.Said.{reference_of};
ghost use Rattle.dt_source_growing.specs.Grown.{StandsUnder, IsGrown};
ghost use Rattle.dt_source_growing.specs.Growing.{shape};
ghost use Rattle.dt_source_growing.specs.Shape.{given_at};

use crate::growing::Growing;
use dt_names::PathRef;
use dt_source_items::Reference;

/// How a cell's reference by a label that names no node is read.
#[derive(Clone, Copy)]
pub enum Unnamed {
    /// It isn't: a base refuses it.
    Refused,
    /// As the label, which some other tree may give: an overlay keeps it.
    Kept,
}

impl<'s, 'a: 's> Growing<'s, 'a> {
    /// How many names the path of a node has; none where the node is gone.
    pub fn depth(&self, node: usize) -> Option<usize>
        requires inside { node < length self.now.nodes.items }
        ensures { MatchOption result ((p : Stack) → ¬ StandsUnder self.now.nodes.items p node)
            (λ depth. (p : Stack) × StandsUnder self.now.nodes.items p node × (depth ≡ length p)) }
    {
        let mut at = node;
        let mut depth = 0;
        while at != 0 {
            let below = &self.nodes[at];
            if !below.stands {
                return None;
            }
            at = below.parent;
            depth += 1;
        }
        Some(depth)
    }

    /// The node that has a label.
    pub fn labelled(&self, label: &[u8]) -> Option<usize>
        ensures named { (es : Events) → IsGrown self.now.nodes.items self.now.properties.items self.now.givings.items es →
            MatchOption result (labelled es label.now ≡ None)
            (λ node. (p : Stack) × (labelled es label.now ≡ Some p) × StandsUnder self.now.nodes.items p node) }
        ensures stands { IfSome result (λ node. (p : Stack) × StandsUnder self.now.nodes.items p node) }
        ensures alone { IfNone result ((p : Stack) → given_at (shape self.now) (p, label.now) ≡ None) }
    {
        let giving = self.labels.get(label)?;
        let node = self.givings[giving].node;
        match self.depth(node) {
            Some(_) => Some(node),
            None => None,
        }
    }

    /// The node of a path.
    fn at_path(&self, path: &PathRef<'_>) -> Option<usize>
        ensures { MatchOption result ((node : ℕ) → ¬ StandsUnder self.now.nodes.items (reverse path.now) node)
            (StandsUnder self.now.nodes.items (reverse path.now)) }
    {
        if self.nodes.is_empty() {
            return None;
        }
        let mut at = 0;
        for name in path.names() {
            at = self.child(at, name)?;
        }
        Some(at)
    }

    /// The node to which a reference refers. Takes no memory.
    pub fn referent(&self, reference: &Reference<'_>) -> Option<usize>
        ensures refers { (es : Events) → IsGrown self.now.nodes.items self.now.properties.items self.now.givings.items es →
            MatchOption result (referent es (reference_of reference.now) ≡ None)
            (λ node. (p : Stack) × (referent es (reference_of reference.now) ≡ Some p) × StandsUnder self.now.nodes.items p node) }
        ensures stands { IfSome result (λ node. (p : Stack) × StandsUnder self.now.nodes.items p node) }
    {
        match reference {
            Reference::Label(label) => self.labelled(label.as_bytes()),
            Reference::Path(path) => self.at_path(path),
        }
    }
}
