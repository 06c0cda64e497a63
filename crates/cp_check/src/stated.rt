//! Laws of files with checkpoints, as the contract of a function.
ghost use Rattle.cp_check.specs.Laws.{EachOpeningIsReplay, FilesTellOneHistory, FramesAddTheirEntries, FreshCheckpointsAreRight, OlderStoresStand, OpeningIsReplay, RightSlotsAddNothing, SpareSlotsSayNothing, StoresOpen, VersionsSayNothing};

/// States laws of files with checkpoints, and does nothing when it runs.
///
/// A file without an open slot that tells a history stands for it. A file that stands for a history stands for no other and opens,
/// and each opening from its live checkpoint leads where the replay of the history does. Frames that are added add their entries.
/// A slot that isn't live, a slot that names a right checkpoint, and the version add nothing. A checkpoint written after the last
/// frame is right where its directory has the state of the history.
pub fn laws()
    ensures older { OlderStoresStand }
    ensures one { FilesTellOneHistory }
    ensures open { StoresOpen }
    ensures replay { OpeningIsReplay }
    ensures each { EachOpeningIsReplay }
    ensures frames { FramesAddTheirEntries }
    ensures spare { SpareSlotsSayNothing }
    ensures right { RightSlotsAddNothing }
    ensures versions { VersionsSayNothing }
    ensures fresh { FreshCheckpointsAreRight }
{}
