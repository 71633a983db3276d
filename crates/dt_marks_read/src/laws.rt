//! Laws of the definitions.

ghost use Rattle.dt_marks_read.specs.Listed.{FixupsAreOne, LocalFixupsAreOne};

use dt_overlay_texts::texts_are_one;

/// What an object lists is one list: of its cells, up to the first that is off.
pub fn one_list()
    ensures fixups { FixupsAreOne }
    ensures local_fixups { LocalFixupsAreOne }
{
    texts_are_one();
}
