//! What belongs to which node of a tree under construction.

ghost use Rattle.std.specs.Prelude.{◌≡◌, length, map, IfOk};
ghost use Rattle.dt_source_nodes.specs.Owned.{group_of, AreOwned};
ghost use Rattle.dt_source_nodes.specs.Listing.{ArePlaces};
ghost use Rattle.dt_source_nodes.specs.Contents.{property_owner, label_owner};
ghost use Rattle.dt_source_nodes.specs.Resolving.{Belong};

use crate::groups::Groups;
use crate::listing::{Row, places};
use dt_source_growing::{Giving, Growing, Property};
use std::alloc::{AllocError, Global};

/// What belongs to the nodes of a tree under construction: the indices of their properties and of their labels, and their places.
#[derive(Drop)]
pub(crate) struct Belongings {
    pub properties: Groups,
    pub labels: Groups,
    pub places: Vec<Option<usize>>,
}

/// The node to which each property belongs; none for those that were deleted.
fn property_owners(
    alloc: Global,
    properties: &[Property<'_>],
) -> Result<Vec<Option<usize>>, AllocError>
    ensures { IfOk result (λ v. v.items ≡ map property_owner properties.now) }
{
    let mut owners = Vec::with_capacity(alloc, properties.len())?;
    for property in properties {
        let owner = if property.stands {
            Some(property.node)
        } else {
            None
        };
        owners.push(owner)?;
    }
    Ok(owners)
}

/// The node to which each label belongs.
fn label_owners(alloc: Global, givings: &[Giving<'_>]) -> Result<Vec<Option<usize>>, AllocError>
    ensures { IfOk result (λ v. v.items ≡ map label_owner givings.now) }
{
    let mut owners = Vec::with_capacity(alloc, givings.len())?;
    for giving in givings {
        owners.push(Some(giving.node))?;
    }
    Ok(owners)
}

/// The properties of each of so many nodes.
fn properties_by_node(
    alloc: Global,
    properties: &[Property<'_>],
    count: usize,
) -> Result<Groups, AllocError>
    ensures { IfOk result (λ groups. AreOwned (map property_owner properties.now) count (group_of groups)) }
{
    let owners = property_owners(alloc, properties)?;
    Groups::new(alloc, &owners, count)
}

/// The labels of each of so many nodes.
fn labels_by_node(alloc: Global, givings: &[Giving<'_>], count: usize) -> Result<Groups, AllocError>
    ensures { IfOk result (λ groups. AreOwned (map label_owner givings.now) count (group_of groups)) }
{
    let owners = label_owners(alloc, givings)?;
    Groups::new(alloc, &owners, count)
}

impl Belongings {
    /// What belongs to the nodes of a tree under construction, where these are its rows.
    pub fn new(
        alloc: Global,
        growing: &Growing<'_, '_>,
        rows: &[Row],
    ) -> Result<Belongings, AllocError>
        ensures belong { IfOk result (λ b. Belong growing.now b) }
        ensures places { IfOk result (λ b. ArePlaces rows.now (length growing.now.nodes.items) b.places.items) }
    {
        let count = growing.nodes.len();
        Ok(Belongings {
            properties: properties_by_node(alloc, &growing.properties, count)?,
            labels: labels_by_node(alloc, &growing.givings, count)?,
            places: places(alloc, rows, count)?,
        })
    }
}
