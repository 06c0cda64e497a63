ghost use Rattle.cp_format.specs.Formats.{IsExact};
ghost use Rattle.cp_frame.specs.Entries.{entry_format};
ghost use Rattle.cp_frame.specs.Laws.{BatchesAreCounted, LabelsAreJudgedAtOnce, OpsAreWritten, RowsTellTrees, SourcesAreLegal, SourcesAreSpelled, TreesAreLight, TreesAreMeasured, TreesAreSpelled, WrittenTreesAreTrees};
ghost use Rattle.cp_frame.specs.Rooms.{Room, tree_format};

/// States laws of entries, and does nothing when it runs. Bytes begin with the spelling of one tree in a room at most, and of
/// one entry. A tree has one spelling: what is read has the rows of a tree, and what has them is read back as it was written,
/// under a name too. What is read as an operation can be written as a statement. A label out of order is judged as soon as
/// its bytes decide. And a tree and a commit's entry have as many bytes as are counted for them, a tree no more than it
/// weighs.
pub fn laws()
    ensures trees { (r : Room) → IsExact (tree_format r) }
    ensures entries { IsExact entry_format }
    ensures one { RowsTellTrees }
    ensures legal { WrittenTreesAreTrees }
    ensures spelled { TreesAreSpelled }
    ensures sources { SourcesAreLegal }
    ensures named { SourcesAreSpelled }
    ensures written { OpsAreWritten }
    ensures judged { LabelsAreJudgedAtOnce }
    ensures measured { TreesAreMeasured }
    ensures light { TreesAreLight }
    ensures counted { BatchesAreCounted }
{}
