//! Laws of slices, and of sums.
ghost use Rattle.tile_ops.specs.Laws.{ReadsWritten, KeepsElements, KeepsTiles, MergesElements};
ghost use Rattle.tile_ops.specs.Laws.{AddsAtPlaces, AddKeepsTiles};

/// A slice that was written is read back as the bytes that were written, whichever its direction.
pub fn written_slice_is_read()
    ensures { ReadsWritten }
{}

/// A slice that is written leaves the other elements of its tile as they were.
pub fn write_keeps_elements()
    ensures { KeepsElements }
{}

/// A slice that is written leaves the vectors of the other tiles as they were.
pub fn write_keeps_tiles()
    ensures { KeepsTiles }
{}

/// Vectors that are merged give the elements that were chosen, each as a whole.
pub fn merge_gives_elements()
    ensures { MergesElements }
{}

/// A vector that is added to a tile is added to its elements at the active rows and columns, and to no other;
/// the bytes of the array being numbers below 256.
pub fn add_is_at_active_places()
    ensures { AddsAtPlaces }
{}

/// A vector that is added to a tile leaves the vectors of the other tiles as they were.
pub fn add_keeps_tiles()
    ensures { AddKeepsTiles }
{}
