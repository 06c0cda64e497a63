ghost use Rattle.cp_frame.specs.FileLaws.{FilesStopOnce, FilesTellOneHistory, FilesTellLegalHistories, OldEntriesStandInNewFiles, OpenFilesReplay, RightRecordsAreRecords, StoppedFilesDontOpen, StoresOpen};

/// States laws of files, and does nothing when it runs. A file tells one history at most, which is legal; with the right
/// records it tells no other. A file that stands for a history opens, and one that opens tells a history. One that stops at
/// an offset doesn't open, and stops at no other. And what stands in a file of version 1 stands in one of version 2.
pub fn file_laws()
    ensures one { FilesTellOneHistory }
    ensures legal { FilesTellLegalHistories }
    ensures right { RightRecordsAreRecords }
    ensures open { StoresOpen }
    ensures replay { OpenFilesReplay }
    ensures stopped { StoppedFilesDontOpen }
    ensures once { FilesStopOnce }
    ensures versions { OldEntriesStandInNewFiles }
{}
