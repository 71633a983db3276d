//! The nodes of the named tree of a tree under construction.

ghost use Rattle.std.specs.Prelude.{◌≡◌, [], length, map, MatchResult};
ghost use Rattle.dt_source_named_tree.specs.Said.{node_said};
ghost use Rattle.dt_source_nodes.specs.Listing.{AreRows, ArePlaces};
ghost use Rattle.dt_source_nodes.specs.Resolving.{Belong};
ghost use Rattle.dt_source_nodes.specs.Nodes.{AreFilled, IsUnfilled, AreListed, IsUnlisted};

use crate::belongings::Belongings;
use crate::listing::{Row, rows};
use crate::phandles::check_phandles;
use crate::values::Resolver;
use dt_names::{Fault, Seed};
use dt_source_growing::{Growing, Unnamed};
use dt_source_named_tree::NamedNode;
use std::alloc::{AllocError, Global};

/// Adds the nodes of the rows to none, and looks at the phandles that are written in a base.
fn fill<'a>(
    alloc: Global,
    seed: Seed,
    resolver: &Resolver<'_, '_, 'a>,
    rows: &[Row],
    nodes: &mut Vec<NamedNode<'a>>,
) -> Result<(), Fault>
    requires belong { Belong resolver.now.growing.now resolver.now.belongings.now }
    requires empty { nodes.old.items ≡ [] }
    ensures { MatchResult result
        (λ _. AreFilled resolver.now.unnamed resolver.now.growing.now resolver.now.belongings.now rows.now (map node_said nodes.new.items))
        (λ fault. IsUnfilled resolver.now.unnamed resolver.now.growing.now resolver.now.belongings.now rows.now fault) }
{
    resolver.add_nodes(alloc, rows, nodes)?;
    match resolver.unnamed {
        Unnamed::Refused => check_phandles(
            alloc,
            seed,
            &resolver.growing.properties,
            &resolver.belongings.places,
        ),
        Unnamed::Kept => Ok(()),
    }
}

/// The nodes of the rows, each with what it has, where this is what belongs to them.
fn filled_nodes<'a>(
    alloc: Global,
    seed: Seed,
    resolver: &Resolver<'_, '_, 'a>,
    rows: &[Row],
) -> Result<Vec<NamedNode<'a>>, Fault>
    requires rows { AreRows resolver.now.growing.now.nodes.items rows.now }
    requires belong { Belong resolver.now.growing.now resolver.now.belongings.now }
    requires places { ArePlaces rows.now (length resolver.now.growing.now.nodes.items) resolver.now.belongings.now.places.items }
    ensures { MatchResult result
        (λ nodes. AreListed resolver.now.unnamed resolver.now.growing.now (map node_said nodes.items))
        (λ fault. IsUnlisted resolver.now.unnamed resolver.now.growing.now fault) }
{
    let mut nodes = Vec::with_capacity(alloc, rows.len())?;
    fill(alloc, seed, resolver, rows, &mut nodes)?;
    Ok(nodes)
}

/// The same, where nothing is known but the rows.
fn nodes_of_rows<'a>(
    alloc: Global,
    seed: Seed,
    growing: &Growing<'_, 'a>,
    unnamed: Unnamed,
    rows: &[Row],
) -> Result<Vec<NamedNode<'a>>, Fault>
    requires { AreRows growing.now.nodes.items rows.now }
    ensures { MatchResult result
        (λ nodes. AreListed unnamed growing.now (map node_said nodes.items))
        (λ fault. IsUnlisted unnamed growing.now fault) }
{
    let belongings = Belongings::new(alloc, growing, rows)?;
    let resolver = Resolver {
        growing,
        belongings: &belongings,
        unnamed,
    };
    filled_nodes(alloc, seed, &resolver, rows)
}

/// The nodes that stand, in preorder, each with what it has. In a base, where a label that names no node is refused:
/// `UnresolvedReference` where a reference names no node; else `BadPhandle` where a `phandle` writes no number; else
/// `DuplicatePhandle` where two nodes write one number. In an overlay, where such a label is kept: `UnresolvedReference` where
/// another reference names no node.
pub fn named_nodes<'a>(
    alloc: Global,
    seed: Seed,
    growing: &Growing<'_, 'a>,
    unnamed: Unnamed,
) -> Result<Vec<NamedNode<'a>>, Fault>
    ensures { MatchResult result
        (λ nodes. AreListed unnamed growing.now (map node_said nodes.items))
        (λ fault. IsUnlisted unnamed growing.now fault) }
{
    let rows = rows(alloc, &growing.nodes)?;
    nodes_of_rows(alloc, seed, growing, unnamed, &rows)
}
