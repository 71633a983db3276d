//! The numbers of a named tree's nodes.

ghost use Rattle.std.specs.Prelude.{◌≡◌, None, IfOk, IfErr};
ghost use Rattle.dt_model.specs.Instance.{number_at};
ghost use Rattle.dt_model.specs.Named.{tree_of};
ghost use Rattle.dt_model.specs.NamedOf.{asked_in};
ghost use Rattle.dt_model.specs.Numbering.{IsNumbering};
ghost use Rattle.dt_names.specs.declared.fault.FaultKind.TheVariants.{NoMemory};
ghost use Rattle.dt_names.specs.Fault.{IsNoMemory};

use crate::asked::asked_among;
use crate::free::numbers_for;
use dt_names::{Fault, NodeId};
use dt_source_named_tree::NamedTree;
use std::alloc::Global;
use std::marker::Model;

/// The numbers of a tree's nodes, by the place of each node in preorder; None for a node that needs none.
#[derive(Drop)]
pub struct Numbering {
    numbers: Vec<Option<u32>>,
}

impl Model for Numbering {
    ghost use Rattle.std.specs.Prelude.{List, ℕ, Option};

    ghost Value = { List (Option ℕ) };

    ghost view = { λ n. n.numbers.items };
}

/// The numbers of a tree's nodes (Devicetree Specification v0.4, 2.3.3): a node that has a label, to which a value refers,
/// or in which a number is written gets one. A written number stays, and each other node gets, in preorder, the least
/// number from 1 that is neither written nor given before (a choice of this project).
///
/// # Errors
///
/// `NoMemory`, without a place.
pub fn number(alloc: Global, tree: &NamedTree<'_>) -> Result<Numbering, Fault>
    ensures numbers { IfOk result (λ n. IsNumbering (asked_in (tree_of tree.now)) n) }
    ensures refused { IfErr result IsNoMemory }
{
    tree.validity();
    let asked = asked_among(alloc, tree.nodes())?;
    let numbers = numbers_for(alloc, tree.seed(), &asked)?;
    Ok(Numbering { numbers })
}

impl Numbering {
    /// The number of a node; None where it needs none, or there is no such node. Takes no memory.
    pub fn of(&self, node: NodeId) -> Option<u32>
        ensures { result ≡ number_at self.now node }
    {
        self.numbers.get(node).copied().flatten()
    }
}
