//! Whole calls of a program, over a disk, files, a clock, an input and an output in memory, or over the real files.

use crate::pieces::Pieces;
use crate::program::Program;
use crate::screen::Screen;
use cp_cases::{Step, number_of, numbers_of, words_of};
use cp_disk::{DISK_MAX, Disk, MemDisk};
use cp_host::{StdinSource, StdoutSink};
use cp_outside::{Files, MemClock, Source};
use cp_tree::TreeRep;
use std::alloc::{AllocError, Global};

/// What a call meets that may fail.
#[derive(Clone, Copy, PartialEq, Eq, Drop)]
pub(crate) enum Device {
    Disk,
    File,
    Clock,
    Input,
    Output,
}

/// A call to come.
#[derive(Drop)]
pub struct Call {
    words: Vec<String>,
    input: Vec<u8>,
    /// The sizes of the pieces that the input comes in.
    pieces: Vec<u64>,
    /// The moments that the clock tells.
    moments: Vec<u64>,
    /// The numbers, from 1, of the calls of the disk, the reads of files, the calls of the clock, the reads of the input and
    /// the writes that fail.
    failing_disk: Vec<u64>,
    failing_files: Vec<u64>,
    failing_clock: Vec<u64>,
    failing_reads: Vec<u64>,
    failing_writes: Vec<u64>,
    /// How many calls of the disk pass before all fail; `None` where only those that are listed fail.
    fuse: Option<u64>,
    /// How many bytes an output takes that takes them one by one; `None` for an output in memory.
    room: Option<usize>,
}

/// What a call gave.
#[derive(Drop)]
pub struct Outcome {
    pub(crate) status: u8,
    pub(crate) output: Vec<u8>,
    /// How much of the input was left.
    pub(crate) left: u64,
}

impl Outcome {
    /// Says whether another call gave just the same.
    pub(crate) fn is_same(&self, other: &Outcome) -> bool {
        self.status == other.status
            && self.left == other.left
            && self.output.as_slice() == other.output.as_slice()
    }
}

/// The device of this name.
pub(crate) fn device_of(word: &str) -> Option<Device> {
    match word {
        "disk" => Some(Device::Disk),
        "file" => Some(Device::File),
        "clock" => Some(Device::Clock),
        "input" => Some(Device::Input),
        "output" => Some(Device::Output),
        _ => None,
    }
}

impl Call {
    /// A call with no words at all, not even the program's name, with no input, in which nothing
    /// fails.
    pub(crate) fn bare(alloc: Global) -> Call {
        Call {
            words: Vec::new(alloc),
            input: Vec::new(alloc),
            pieces: Vec::new(alloc),
            moments: Vec::new(alloc),
            failing_disk: Vec::new(alloc),
            failing_files: Vec::new(alloc),
            failing_clock: Vec::new(alloc),
            failing_reads: Vec::new(alloc),
            failing_writes: Vec::new(alloc),
            fuse: None,
            room: None,
        }
    }

    /// The same with these words after the program's name.
    pub(crate) fn new(alloc: Global, line: &str) -> Result<Call, AllocError> {
        let all = format!(in alloc; "cpdb {line}")?;
        let words = words_of(alloc, all.as_str())?;
        let mut call = Call::bare(alloc);
        call.words = words;
        Ok(call)
    }

    /// A session on the store that asks for its numbers.
    pub(crate) fn asking(alloc: Global) -> Result<Call, AllocError> {
        let mut call = Call::new(alloc, "run s")?;
        call.input = b"stats;".to_vec(alloc)?;
        Ok(call)
    }

    /// The name of the store: the third word, and the empty one where there are fewer.
    pub(crate) fn store_name(&self) -> &str {
        match self.words.as_slice() {
            [_, _, name, ..] => name.as_str(),
            _ => "",
        }
    }

    /// Whether the call has a store: `scratch` and `gen` leave the disk as it is.
    pub(crate) fn has_store(&self) -> bool {
        match self.words.as_slice() {
            [_, command, ..] => !matches!(command.as_str(), "scratch" | "gen"),
            _ => false,
        }
    }

    /// Counts the bytes of the input.
    pub(crate) fn input_len(&self) -> usize {
        self.input.len()
    }

    /// Has the calls of a device with these numbers fail.
    fn set_failing(&mut self, device: Device, numbers: Vec<u64>) {
        match device {
            Device::Disk => self.failing_disk = numbers,
            Device::File => self.failing_files = numbers,
            Device::Clock => self.failing_clock = numbers,
            Device::Input => self.failing_reads = numbers,
            Device::Output => self.failing_writes = numbers,
        }
    }

    /// Has a device fail at its call with this number, from 1; a disk at all later ones too.
    pub(crate) fn fail_at(
        &mut self,
        alloc: Global,
        device: Device,
        number: u64,
    ) -> Result<(), AllocError> {
        match device {
            Device::Disk => self.fuse = Some(number.saturating_sub(1)),
            _ => self.set_failing(device, [number].to_vec(alloc)?),
        }
        Ok(())
    }

    /// Notes what fails, and says whether the line is understood.
    fn note_failures(&mut self, alloc: Global, line: &str) -> Result<bool, AllocError> {
        let Some((word, numbers)) = line.split_once(' ') else {
            return Ok(false);
        };
        let Some(device) = device_of(word) else {
            return Ok(false);
        };
        let numbers = numbers_of(alloc, numbers)?;
        self.set_failing(device, numbers);
        Ok(true)
    }

    /// Takes a part that is about the call; says whether it is one.
    pub(crate) fn take(&mut self, alloc: Global, step: &Step) -> Result<bool, AllocError> {
        let rest = step.rest.as_str();
        match step.key.as_str() {
            "in" => self.input = step.text.as_slice().to_vec(alloc)?,
            "pieces" => self.pieces = numbers_of(alloc, rest)?,
            "clock" => self.moments = numbers_of(alloc, rest)?,
            "room" => self.room = Some(number_of(rest) as usize),
            "fail" => return self.note_failures(alloc, rest),
            _ => return Ok(false),
        }
        Ok(true)
    }

    /// The numbers of the reads of files that fail.
    pub(crate) fn failing_files(&self) -> &[u64] {
        &self.failing_files
    }

    /// A disk that holds these bytes, and fails as it is to.
    pub(crate) fn disk_of(&self, alloc: Global, bytes: &[u8]) -> Result<MemDisk, AllocError> {
        if bytes.len() as u64 > DISK_MAX {
            return Err(AllocError);
        }
        match self.fuse {
            Some(passes) => MemDisk::with_fuse(alloc, bytes, passes),
            None => MemDisk::with_faults(alloc, bytes, &self.failing_disk),
        }
    }

    /// Makes the call over this input, and gives the status and the output.
    fn make_over<P: Program, R: TreeRep, S: TreeRep, D: Disk, F: Files, I: Source>(
        &self,
        alloc: Global,
        program: &P,
        disk: &mut D,
        files: &mut F,
        input: &mut I,
    ) -> Result<(u8, Vec<u8>), AllocError> {
        let mut screen = Screen {
            took: Vec::new(alloc),
            room: self.room,
            fails: self.failing_writes.to_vec(alloc)?,
            writes: 0,
        };
        let mut clock = MemClock::with_faults(alloc, &self.moments, &self.failing_clock)?;
        let mut output = StdoutSink::new(&mut screen);
        let status = program.call::<R, S, D, F, _, I, _>(
            alloc,
            self.words.as_slice(),
            disk,
            files,
            &mut clock,
            input,
            &mut output,
        );
        Ok((status, screen.took))
    }

    /// Makes the call over this disk and these files, with these forms of the committed tree and of the sources' trees.
    pub(crate) fn make<P: Program, R: TreeRep, S: TreeRep, D: Disk, F: Files>(
        &self,
        alloc: Global,
        program: &P,
        disk: &mut D,
        files: &mut F,
    ) -> Result<Outcome, AllocError> {
        let mut pieces = Pieces {
            left: &self.input,
            sizes: &self.pieces,
            fails: &self.failing_reads,
            reads: 0,
        };
        let mut input = StdinSource::new(&mut pieces);
        let (status, output) = self.make_over::<P, R, S, D, F, _>(
            alloc, program, disk, files, &mut input,
        )?;
        Ok(Outcome {
            status,
            output,
            left: pieces.left.len() as u64,
        })
    }
}
