//! Laws, as the contract of a function.
ghost use Rattle.cp_page.specs.Cuts.{CutsHoldAll};
ghost use Rattle.cp_page.specs.PlaceKeys.{PlaceKeysKeepOrder};
ghost use Rattle.cp_page.specs.Spelled.{FirstKeysAreOfRows, ReadsNothingElse, ReadsWhatIsSpelled};

/// States laws of pages, and does nothing when it runs. A page has the rows that it spells, and no others; its first key is that
/// of its first row. Rows that are cut into pages are all there, in order. Keys of places stand in the order of the places.
pub fn laws()
    ensures read { ReadsWhatIsSpelled }
    ensures only { ReadsNothingElse }
    ensures first { FirstKeysAreOfRows }
    ensures cuts { CutsHoldAll }
    ensures order { PlaceKeysKeepOrder }
{}
