//! The limits of this project, which the source language and the blob format themselves haven't.

/// The most bytes that a text or a blob may have: 16 MiB.
pub const MOST_BYTES: usize = 16_777_216;

/// The most nodes that a tree may have, the root among them.
pub const MOST_NODES: usize = 65_536;

/// The most names that the path of a node may have; the root's has none.
pub const MOST_NAMES: usize = 64;

/// The most bodies of a source that may be open at once: the root's, and one for each name of a path.
pub const MOST_BODIES: usize = 65;

/// The most bytes that the name of a node, a property or a label may have.
pub const MOST_NAME_BYTES: usize = 255;

/// The most tokens that an expression may have.
pub const MOST_TOKENS: usize = 1024;
