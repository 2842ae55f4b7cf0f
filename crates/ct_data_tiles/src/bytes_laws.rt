//! Laws of the bytes, each the contract of a function that does nothing.

ghost use Rattle.ct_data_tiles.specs.TileEntries.{PlacesAreRight};

/// The tile has each certificate, precertificate and list of fingerprints at the offset that is written.
pub fn places_are_right()
    ensures { PlacesAreRight }
{}
