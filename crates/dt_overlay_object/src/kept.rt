//! What is kept of an object while it is applied. Labels, names and paths stay in the object, and are borrowed from it.

use dt_names::NodeId;

/// What a fragment says of its target.
#[derive(Drop)]
pub enum ObjectTarget<'o> {
    /// Its number, in the property `target`.
    Number,
    /// The value of the property `target-path`: the text of its path with a NUL.
    Path(&'o [u8]),
}

/// A fragment: the root's child that names its target, and the node whose properties and children it brings.
#[derive(Drop)]
pub struct ObjectFragment<'o> {
    pub node: NodeId,
    pub content: NodeId,
    pub target: ObjectTarget<'o>,
}

/// A number to be written at an offset of a property's value, the highest byte first.
#[derive(Drop)]
pub struct Write<'o> {
    pub node: NodeId,
    pub property: &'o [u8],
    pub offset: usize,
    pub number: u32,
}

/// A label of a node that lands.
#[derive(Drop)]
pub struct Symbol<'o> {
    pub label: &'o [u8],
    pub node: NodeId,
}
