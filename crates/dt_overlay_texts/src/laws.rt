//! Laws of the definitions.

ghost use Rattle.std.specs.Prelude.{◌≤◌, ℕ, List, length};
ghost use Rattle.dt_model.specs.Limits.{most_names};
ghost use Rattle.dt_model.specs.Path.{Path};
ghost use Rattle.dt_names.specs.Fault.{IsExclusive, IsOneRefusal};
ghost use Rattle.dt_overlay_texts.specs.Texts.{TextsAreOne, CellIsOne, CellTextsAreTexts, IsPathValue, PathValueIsOne, WhyNoSymbolPath};

use dt_names::one_path;

/// A value is cut into texts in one way, and a text names one cell.
pub fn texts_are_one()
    ensures texts { TextsAreOne }
    ensures cells { CellIsOne }
{
    one_path();
}

/// The texts of cells are texts, and texts that name cells are theirs.
pub fn cell_texts_are_texts()
    ensures { CellTextsAreTexts }
{}

/// A symbol's value is that of one path, or it is refused for one reason, and not both, unless memory is wanted.
pub fn one_symbol_path()
    ensures path { PathValueIsOne }
    ensures only { (value : List ℕ) (path : Path) →
        IsExclusive (IsPathValue value path × (length path ≤ most_names)) (λ kind. WhyNoSymbolPath kind value) }
    ensures refusal { (value : List ℕ) → IsOneRefusal (λ kind. WhyNoSymbolPath kind value) }
{
    one_path();
}
