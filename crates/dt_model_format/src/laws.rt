//! What is true of the faults of bytes that are no blob.

ghost use Rattle.dt_model_format.specs.Laws.{FirstFaultIsOne, BlobHasNoFault, NameTests};
ghost use Rattle.dt_model_format.specs.Samples.{DamagedBlobs};

/// Bytes have one first fault at most.
pub fn first_fault_is_one()
    ensures { FirstFaultIsOne }
{}

/// A blob within the limits has none.
pub fn blob_has_no_fault()
    ensures { BlobHasNoFault }
{}

/// The tests of names decide what names are.
pub fn name_tests()
    ensures { NameTests }
{}

/// Blobs with one damage each, and their first faults.
pub fn damaged_blobs()
    ensures { DamagedBlobs }
{}
