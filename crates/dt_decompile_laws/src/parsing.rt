//! That the text of a tree is parsed.

ghost use Rattle.dt_decompile_laws.specs.Laws.{TextIsParsed};

use crate::lexing::text_has_tokens;
use crate::meaning::tokens_are_source;

/// The text of a tree is read as what it says.
pub fn text_is_parsed()
    ensures { TextIsParsed }
{
    text_has_tokens();
    tokens_are_source();
}
