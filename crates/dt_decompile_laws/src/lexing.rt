//! The text of a tree, cut into tokens.

ghost use Rattle.dt_decompile_laws.specs.Laws.{TextHasTokens};

/// The text of a valid tree, whose values are bytes, has tokens (Devicetree Specification v0.4, chapter 6), and their bytes
/// are the words of the tree.
pub fn text_has_tokens()
    ensures { TextHasTokens }
{}
