ghost use Rattle.std.specs.Prelude.{◌≡◌};
ghost use Rattle.cp_interpreter.specs.Ends.{code_of};

/// How a call ends.
#[derive(Clone, Copy, Drop)]
pub enum End {
    /// All was done, and nothing was refused.
    Done,
    /// All was done, and some line is a refusal, or tells of a difference.
    Refused,
    /// The words fit no row.
    Usage,
    /// The input failed.
    Input,
    /// A file failed.
    File,
    /// The output failed.
    Output,
    /// The disk failed.
    Disk,
    /// The file is no store, from this offset on.
    NoStore(u64),
    /// Memory ran out.
    Memory,
    /// More input came than a call takes.
    TooLong,
    /// The clock failed.
    Clock,
}

/// The exit status of the program: 0 done, 1 refused, 2 usage, 3 input or file, 4 output, 5 disk, 6 not a store, 7 memory,
/// 8 input too long, 9 clock.
#[derive(Clone, Copy, Drop)]
pub struct Status {
    pub code: u8,
}

impl End {
    /// The number of the exit status.
    pub fn code(self) -> u8
        ensures { result ≡ code_of self }
    {
        match self {
            End::Done => 0,
            End::Refused => 1,
            End::Usage => 2,
            End::Input | End::File => 3,
            End::Output => 4,
            End::Disk => 5,
            End::NoStore(_) => 6,
            End::Memory => 7,
            End::TooLong => 8,
            End::Clock => 9,
        }
    }
}
