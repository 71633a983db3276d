//! The texts of the paths of nodes that come in preorder.

ghost use Rattle.std.specs.Prelude.{ℕ, List, ◌≡◌, ◌<◌, ◌++◌, ◌∷◌, [], length, OnOk, IfOk};
ghost use Rattle.dt_marks.specs.Paths.{text_behind};

use dt_names::NodeId;
use std::alloc::{AllocError, Global};

/// The path of the node that came last, as a property's value, and how long the text of each node's path is so far: that
/// of a node's parent is the front of the last one's.
#[derive(Drop)]
pub(crate) struct LastPath {
    pub value: Vec<u8>,
    pub lengths: Vec<usize>,
}

impl LastPath {
    /// That of the root, whose text is empty here.
    pub fn root(alloc: Global) -> Result<LastPath, AllocError>
        ensures value { IfOk result (λ path. path.value.items ≡ []) }
        ensures lengths { IfOk result (λ path. path.lengths.items ≡ 0 ∷ []) }
    {
        Ok(LastPath {
            value: Vec::new(alloc),
            lengths: vec![in alloc; 0]?,
        })
    }

    /// The text of a path whose value is kept.
    pub fn text(&self) -> &[u8]
        ensures { (text : List ℕ) → self.now.value.items ≡ text ++ 0 ∷ [] → result.now ≡ text }
    {
        &self.value[..self.value.len().saturating_sub(1)]
    }

    /// The node comes that has this parent and this name.
    pub fn enter(&mut self, parent: NodeId, name: &[u8]) -> Result<(), AllocError>
        requires { parent < length self.old.lengths.items }
        ensures value { OnOk result (self.new.value.items ≡
            text_behind self.old.value.items self.old.lengths.items parent name.now ++ 0 ∷ []) }
        ensures lengths { OnOk result (self.new.lengths.items ≡ self.old.lengths.items ++
            length (text_behind self.old.value.items self.old.lengths.items parent name.now) ∷ []) }
    {
        self.value.truncate(self.lengths[parent]);
        self.value.push(b'/')?;
        self.value.extend_from_slice(name)?;
        self.lengths.push(self.value.len())?;
        self.value.push(0)?;
        Ok(())
    }
}
