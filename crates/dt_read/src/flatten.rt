//! A blob's tree as one that can be changed.

ghost use Rattle.std.specs.Prelude.{◌≡◌, ◌++◌, [], OnOk, IfOk, IfErr};
ghost use Rattle.std.specs.List.{AllByRecursion};
ghost use Rattle.dt_model.specs.Format.{begin_node, prop};
ghost use Rattle.dt_model.specs.Valid.{IsReservation};
ghost use Rattle.dt_flat.specs.Arena.{reading, root_alone};
ghost use Rattle.dt_read.specs.Growth.{numbers_behind, slots_behind, MayCome, grown, MayGrow, reading_with, MayCopy};
ghost use Rattle.dt_read.specs.Pairs.{pairs_of};
ghost use Rattle.dt_read.specs.View.{view};
ghost use Rattle.dt_names.specs.Fault.{IsNoMemory};

use crate::cursor::Cursor;
use crate::open_nodes::OpenNodes;
use crate::reservations::first_pair;
use crate::structure::Structure;
use crate::token::Token;
use dt_flat::{FlatTree, may_be_planted, planted_reads};
use dt_names::{Fault, NodeName, PropName, Seed};
use std::alloc::Global;

/// A node begins, which is the root where none is open.
fn begin(tree: &mut FlatTree, open_nodes: &mut OpenNodes, name: &[u8]) -> Result<(), Fault>
    requires { MayCome (begin_node name.now) tree.old.slots open_nodes.old }
    ensures tree { OnOk result (tree.new ≡ record tree.old { slots = slots_behind (begin_node name.now) tree.old.slots open_nodes.old }) }
    ensures numbers { OnOk result (open_nodes.new ≡ numbers_behind (begin_node name.now) tree.old.slots open_nodes.old) }
    ensures refused { IfErr result IsNoMemory }
{
    let Some(parent) = open_nodes.innermost() else {
        open_nodes.push(tree.root());
        return Ok(());
    };
    let name = NodeName::known(name);
    let node = tree.plant_node(parent, &name)?;
    open_nodes.push(node);
    Ok(())
}

/// The innermost open node has a property.
fn set(tree: &mut FlatTree, open_nodes: &OpenNodes, name: &[u8], value: &[u8]) -> Result<(), Fault>
    requires { MayCome (prop (record { name = name.now; value = value.now })) tree.old.slots open_nodes.now }
    ensures tree { OnOk result (tree.new ≡ record tree.old
        { slots = slots_behind (prop (record { name = name.now; value = value.now })) tree.old.slots open_nodes.now }) }
    ensures refused { IfErr result IsNoMemory }
{
    let Some(node) = open_nodes.innermost() else {
        unreachable!()
    };
    let name = PropName::known(name);
    tree.plant_prop(node, &name, value)?;
    Ok(())
}

/// One more token.
fn take(tree: &mut FlatTree, open_nodes: &mut OpenNodes, token: Token<'_>) -> Result<(), Fault>
    requires { MayCome (view token) tree.old.slots open_nodes.old }
    ensures tree { OnOk result (tree.new ≡ record tree.old { slots = slots_behind (view token.entry) tree.old.slots open_nodes.old }) }
    ensures numbers { OnOk result (open_nodes.new ≡ numbers_behind (view token.entry) tree.old.slots open_nodes.old) }
    ensures refused { IfErr result IsNoMemory }
{
    match token {
        Token::BeginNode(name) => begin(tree, open_nodes, name),
        Token::Property(name, value) => set(tree, open_nodes, name, value),
        Token::EndNode => {
            open_nodes.pop();
            Ok(())
        }
        Token::Nop | Token::End => Ok(()),
    }
}

/// All tokens from a place on.
fn plant(tree: &mut FlatTree, mut cursor: Cursor<'_>) -> Result<(), Fault>
    requires { MayGrow cursor tree.old.slots [] }
    ensures tree { OnOk result (tree.new ≡ record tree.old { slots = grown cursor.entry tree.old.slots [] }) }
    ensures refused { IfErr result IsNoMemory }
{
    let mut open_nodes = OpenNodes::new();
    while let Some((_, token)) = cursor.next() {
        take(tree, &mut open_nodes, token)?;
    }
    Ok(())
}

/// The pairs up to a pair of zeros.
fn reserve(tree: &mut FlatTree, pairs: &[u8]) -> Result<(), Fault>
    requires { AllByRecursion IsReservation (pairs_of pairs.now) }
    ensures tree { OnOk result (tree.new ≡ record tree.old { reservations = tree.old.reservations ++ pairs_of pairs.now }) }
    ensures refused { IfErr result IsNoMemory }
{
    let mut rest = pairs;
    while let Some(((address, size), behind)) = first_pair(rest) {
        tree.reserve(address, size)?;
        rest = behind;
    }
    Ok(())
}

/// Fills a tree that is a root alone with the tokens of a structure block, and with reservations up to a pair of zeros.
fn fill(tree: &mut FlatTree, structure: &Structure<'_>, reservations: &[u8]) -> Result<(), Fault>
    requires alone { tree.old ≡ root_alone tree.old.boot_cpu }
    requires copy { MayCopy (reading_with tree.old.boot_cpu (pairs_of reservations.now) structure.now) }
    ensures reads { OnOk result (reading tree.new ≡ reading_with tree.old.boot_cpu (pairs_of reservations.now) structure.now) }
    ensures refused { IfErr result IsNoMemory }
{
    planted_reads();
    may_be_planted();
    reserve(tree, reservations)?;
    plant(tree, structure.start())?;
    tree.index()?;
    Ok(())
}

/// The tree of a structure block, with reservations up to a pair of zeros. It wants memory, and nothing else is in its way. Its names and
/// numbers are hashed behind the seed.
pub(crate) fn flat_of(
    alloc: Global,
    seed: Seed,
    structure: &Structure<'_>,
    reservations: &[u8],
    boot_cpu: u32,
) -> Result<FlatTree, Fault>
    requires { MayCopy (reading_with boot_cpu (pairs_of reservations.now) structure.now) }
    ensures reads { IfOk result (λ tree.
        reading tree ≡ reading_with boot_cpu (pairs_of reservations.now) structure.now) }
    ensures refused { IfErr result IsNoMemory }
{
    let mut tree = FlatTree::seeded(alloc, seed, boot_cpu);
    match fill(&mut tree, structure, reservations) {
        Ok(()) => Ok(tree),
        Err(fault) => {
            // Let go of by hand: what goes at an exit by itself is proved there field by field.
            drop(tree);
            Err(fault)
        }
    }
}
