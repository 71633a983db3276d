//! What is true of the trees that overlays' sources are compiled to.

ghost use Rattle.dt_model_laws.specs.OverlayTrees.{ObjectIsValid};
ghost use Rattle.dt_model_laws.specs.ShortValues.{ReadValuesAreShort, ShortObjectEncodes};

/// A blob may hold the tree that an overlay's source is compiled to.
pub fn object_is_valid()
    ensures { ObjectIsValid }
{}

/// That tree is an object of the overlay that the source means, where the length of each of its values is a 32-bit number,
/// as it is in each tree that a blob is read as.
pub fn object_encodes()
    ensures encodes { ShortObjectEncodes }
    ensures short { ReadValuesAreShort }
{}
