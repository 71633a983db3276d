//! What the text of a tree says, and that it is the tree.

ghost use Rattle.dt_decompile_laws.specs.Laws.{TokensAreSource, TextIsTree, ReadTreesHoldBytes};

/// The tokens of a tree's text are a source, which says the tree's reservations and places.
pub fn tokens_are_source()
    ensures { TokensAreSource }
{}

/// The text, compiled as it is, gives the tree, with boot CPU 0.
pub fn text_is_tree()
    ensures { TextIsTree }
{}

/// The values of a tree that bytes are read as are bytes.
pub fn read_trees_hold_bytes()
    ensures { ReadTreesHoldBytes }
{}
