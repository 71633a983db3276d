//! The nodes of a tree under construction, in preorder.

ghost use Rattle.std.specs.Prelude.{◌≡◌, ◌==◌, ◌∷◌, [], ◌++◌, None, length, slice_set, if◌then◌else◌, IfOk, OnOk};
ghost use Rattle.dt_model.specs.Limits.{most_names};
ghost use Rattle.dt_source_nodes.specs.Owned.{group_of, AreOwned};
ghost use Rattle.dt_source_nodes.specs.Listing.{parent_of, parents_of, rows_of, AreRows, ArePlaces};

use crate::groups::Groups;
use dt_names::limits::MOST_NAMES;
use dt_source_growing::Node;
use std::alloc::{AllocError, Global};

/// A node of the tree under construction, and the place of its parent in the preorder. The root is its own parent.
#[derive(Clone, Copy)]
pub(crate) struct Row {
    pub node: usize,
    pub parent: usize,
}

/// One more row.
fn push(rows: &mut Vec<Row>, row: Row) -> Result<(), AllocError>
    ensures { OnOk result (rows.new.items ≡ rows.old.items ++ row ∷ []) }
{
    rows.push(row)?;
    Ok(())
}

/// Adds a node and what is below it, as deep as `depth`.
fn add(rows: &mut Vec<Row>, children: &Groups, row: Row, depth: usize) -> Result<(), AllocError>
    ensures { OnOk result
        (rows.new.items ≡ rows.old.items ++ rows_of (group_of children.now) depth row (length rows.old.items)) }
{
    let place = rows.len();
    push(rows, row)?;
    if depth > 0 {
        for child in children.of(row.node) {
            let row = Row {
                node: *child,
                parent: place,
            };
            add(rows, children, row, depth - 1)?;
        }
    }
    Ok(())
}

/// The node to which the node of this index belongs as a child; none for the root, and where it was deleted.
fn parent(index: usize, node: &Node<'_, '_>) -> Option<usize>
    ensures { result ≡ (if index == 0 then None else parent_of node.now) }
{
    if index > 0 && node.stands {
        Some(node.parent)
    } else {
        None
    }
}

/// The node to which each node belongs as a child; none for the root, and for those that were deleted.
fn parents(alloc: Global, nodes: &[Node<'_, '_>]) -> Result<Vec<Option<usize>>, AllocError>
    ensures { IfOk result (λ v. v.items ≡ parents_of nodes.now) }
{
    let mut parents = Vec::with_capacity(alloc, nodes.len())?;
    for (index, node) in nodes.iter().enumerate() {
        parents.push(parent(index, node))?;
    }
    Ok(parents)
}

/// The children of each node that weren't deleted.
fn children(alloc: Global, nodes: &[Node<'_, '_>]) -> Result<Groups, AllocError>
    ensures { IfOk result (λ children. AreOwned (parents_of nodes.now) (length nodes.now) (group_of children)) }
{
    let parents = parents(alloc, nodes)?;
    Groups::new(alloc, &parents, nodes.len())
}

/// The nodes that stand in preorder, where `children` has the children of each node that weren't deleted.
fn preorder(alloc: Global, children: &Groups) -> Result<Vec<Row>, AllocError>
    ensures { IfOk result (λ v. v.items ≡ rows_of (group_of children.now) most_names (record { node = 0; parent = 0 }) 0) }
{
    let mut rows = Vec::new(alloc);
    let root = Row { node: 0, parent: 0 };
    add(&mut rows, children, root, MOST_NAMES)?;
    Ok(rows)
}

/// The nodes that stand in preorder, the root first.
pub(crate) fn rows(alloc: Global, nodes: &[Node<'_, '_>]) -> Result<Vec<Row>, AllocError>
    ensures { IfOk result (λ v. AreRows nodes.now v.items) }
{
    let children = children(alloc, nodes)?;
    preorder(alloc, &children)
}

/// The node has this place; nothing is written where there is no place for it.
fn set_place(places: &mut Vec<Option<usize>>, node: usize, place: usize)
    ensures { places.new.items ≡ slice_set places.old.items node (Some place) }
{
    if node < places.len() {
        places[node] = Some(place);
    }
}

/// For each of so many nodes of the tree under construction its place among the rows; none where it doesn't stand.
pub(crate) fn places(
    alloc: Global,
    rows: &[Row],
    count: usize,
) -> Result<Vec<Option<usize>>, AllocError>
    ensures { IfOk result (λ v. ArePlaces rows.now count v.items) }
{
    let mut places = vec![in alloc; None; count]?;
    for (place, row) in rows.iter().enumerate() {
        set_place(&mut places, row.node, place);
    }
    Ok(places)
}
