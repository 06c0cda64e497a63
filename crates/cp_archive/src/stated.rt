ghost use Rattle.cp_archive.specs.Laws.{TouchedPlacesCover, TreesAreVersions};

/// States laws of the definitions, and does nothing when it runs: a step changes nothing but at and below the places that its
/// operations touch; the trees after the steps of a history are those of its versions.
pub fn laws()
    ensures cover { TouchedPlacesCover }
    ensures versions { TreesAreVersions }
{}
