//! What a call may do with the file of its disk.

/// What a call may do with the file of its disk.
#[derive(Clone, Copy)]
pub enum Access {
    /// It reads. The file is opened to be read alone, and no lock is taken.
    Reads,
    /// It may write. The lock on the file is taken as it is opened or made, and kept until it is
    /// closed.
    Writes,
}
