//! Takes the parts of a case in their order, makes its calls, and compares what they give.
//!
//! | Part | Meaning |
//! |---|---|
//! | `file NAME` and a text | a file that is there; that of the name `s` is a store too, which calls write |
//! | `store` and a text | the store `s` has the bytes of these hexadecimal digits |
//! | `cut N`, `change AT HEX`, `change AT complement` | the store of the call before is what it was before the case's first such part, cut to N bytes, or with another byte at AT |
//! | `words W W ..` | a call begins: its words after the program's name, those that are empty or have spaces in quotation marks |
//! | `in` and a text | its input; where no call has begun, one begins with the words `scratch n` |
//! | `bare` | a call begins with no words, not even the program's name |
//! | `pieces N N ..` | the sizes that the reads of the input give, over and over |
//! | `clock M ..` | the moments that the clock tells, and 0 after them |
//! | `fail disk N ..`, and of `file`, `clock`, `input`, `output` | the calls of the disk, the reads of files, the calls of the clock, the reads of the input and the writes that fail, from 1 |
//! | `room N` | the output takes a byte a write, and none after N bytes |
//!
//! The first of these parts makes the call:
//!
//! | Part | What it gives |
//! |---|---|
//! | `out` and a text | the whole output |
//! | `starts` and a text | how the output begins |
//! | `ends N` | the exit status, where all of the input was taken |
//! | `status N`, `status one of N N ..` | the exit status |
//! | `left N` | how many bytes of the input weren't taken |
//! | `size N`, `bytes AT HEX` | the length of the call's store, and bytes in it |
//! | `each DEVICE` | made again with the device failing at its first call (a disk from that on), at its second and so on, until it makes fewer: each ends with the device's status and last line, and a crash leaves each entry that was there or whose line was written, and of the others at most the first |
//!
//! A call whose input, files and store have at most 65,536 bytes is made once more with trees that have every other form at
//! once, and has to give the same.

use crate::call::{Call, Device, Outcome, device_of};
use crate::failures::{Bounds, entries_on, fault_left, is_ended_by};
use crate::file::StoreFiles;
use crate::program::Program;
use crate::setting::Setting;
use cp_cases::{Player, Step, bytes_in, compare, numbers_of};
use cp_disk::MemDisk;
use cp_outside::MemFile;
use cp_tree_arena::ArenaTree;
use cp_tree_share::ShareTree;
use std::alloc::{AllocError, Global};
use std::rt::Files;

/// The name of the store that a case gives the bytes of.
const STORE: &str = "s";

/// More calls of a device than any call of a case makes.
const CALLS_MAX: u64 = 10_000;

/// A case as far as it is played, over files in memory or the real ones of a runtime.
#[derive(Drop)]
pub struct Stage<'a, R, P> {
    setting: Setting<'a, R, P>,
    stores: StoreFiles,
    /// The bytes of the disk after the last call, and that call.
    left: Vec<u8>,
    made: Option<Call>,
    call: Option<Call>,
    outcome: Option<Outcome>,
    /// Whether trees that have every other form gave another outcome.
    differs: bool,
}

/// A difference of this text.
fn difference(alloc: Global, text: &str) -> Result<Option<String>, AllocError> {
    Ok(Some(text.to_string(alloc)?))
}

/// The difference that a part has no call to be compared with, or isn't one.
fn misplaced(alloc: Global) -> Result<Option<String>, AllocError> {
    difference(alloc, "this part can't stand here")
}

/// The difference with this text of the call that failed at this number.
fn failing_at(alloc: Global, number: u64, text: &str) -> Result<Option<String>, AllocError> {
    Ok(Some(format!(in alloc; "failing at {number}, {text}")?))
}

/// Says that the number isn't one of those on the line; `None` where it is.
fn compare_number(
    alloc: Global,
    key: &str,
    found: u64,
    wanted: &str,
) -> Result<Option<String>, AllocError> {
    if numbers_of(alloc, wanted)?.contains(&found) {
        return Ok(None);
    }
    Ok(Some(format!(in alloc; "{key} {found}, wanted {wanted}")?))
}

/// Says what the call gave other than the part; `None` where it gave just that.
fn compare_outcome(
    alloc: Global,
    outcome: &Outcome,
    step: &Step,
) -> Result<Option<String>, AllocError> {
    let output = outcome.output.as_slice();
    let wanted = step.text.as_slice();
    let key = step.key.as_str();
    let rest = step.rest.as_str();
    match key {
        "out" => compare(alloc, output, wanted),
        "starts" if output.starts_with(wanted) => Ok(None),
        "starts" => compare(alloc, output, wanted),
        "left" => compare_number(alloc, key, outcome.left, rest),
        "ends" if outcome.left > 0 => compare_number(alloc, "left", outcome.left, "0"),
        _ => compare_number(alloc, key, u64::from(outcome.status), rest),
    }
}

/// The file of this name and these bytes.
fn file_of(alloc: Global, name: &str, bytes: &[u8]) -> Result<MemFile, AllocError> {
    Ok(MemFile {
        name: name.to_string(alloc)?,
        bytes: bytes.to_vec(alloc)?,
    })
}

impl<'a, R: Files, P: Program> Stage<'a, R, P> {
    /// A stage for this program, on which nothing is.
    pub fn new(alloc: Global, runtime: &'a R, program: &'a P) -> Stage<'a, R, P> {
        let setting = Setting {
            runtime,
            program,
            real: false,
            files: Vec::new(alloc),
            before: Vec::new(alloc),
        };
        Stage {
            setting,
            stores: StoreFiles::new(alloc),
            left: Vec::new(alloc),
            made: None,
            call: None,
            outcome: None,
            differs: false,
        }
    }

    /// Says whether the call is small and gives another outcome, or leaves another store, with trees that have every other
    /// form.
    fn has_other_outcome(&self, alloc: Global, call: &Call) -> Result<bool, AllocError> {
        match &self.outcome {
            Some(first) if self.setting.is_small(call) => {
                let same = self
                    .setting
                    .is_same_in_other_forms(alloc, call, first, &self.left)?;
                Ok(!same)
            }
            _ => Ok(false),
        }
    }

    /// Makes a call, and keeps what it gives and the bytes of the disk.
    fn run(&mut self, alloc: Global, call: &Call) -> Result<(), AllocError> {
        self.setting.before = self.stores.named(call.store_name()).to_vec(alloc)?;
        let (outcome, disk) = self
            .setting
            .outcome_of::<ShareTree, ArenaTree>(alloc, call)?;
        self.outcome = Some(outcome);
        let left = disk.bytes().to_vec(alloc);
        drop(disk);
        self.left = left?;
        Ok(())
    }

    /// Makes a call, keeps what it gives and the store that it leaves, and compares with that what it gives with trees that
    /// have every other form.
    fn make(&mut self, alloc: Global, call: &Call) -> Result<(), AllocError> {
        self.run(alloc, call)?;
        if !self.left.is_empty() {
            let bytes = self.left.as_slice().to_vec(alloc)?;
            self.stores.set(alloc, call.store_name(), bytes)?;
        }
        self.differs = self.has_other_outcome(alloc, call)?;
        Ok(())
    }

    /// Makes the call that is to come.
    fn settle(&mut self, alloc: Global) -> Result<(), AllocError> {
        let Some(call) = self.call.take() else {
            return Ok(());
        };
        let made = self.make(alloc, &call);
        self.made = Some(call);
        made
    }

    /// Makes the call that is to come, and begins another, if that could be made.
    fn begin_call(
        &mut self,
        alloc: Global,
        next: Result<Call, AllocError>,
    ) -> Result<(), AllocError> {
        let settled = self.settle(alloc);
        self.call = Some(next?);
        settled
    }

    /// There is a file of this name and these bytes, which may be the store.
    fn add_file(&mut self, alloc: Global, name: &str, bytes: &[u8]) -> Result<(), AllocError> {
        if name == STORE {
            self.stores.set(alloc, name, bytes.to_vec(alloc)?)?;
        }
        self.setting.files.push(file_of(alloc, name, bytes)?)?;
        Ok(())
    }

    /// The store has the bytes of these hexadecimal digits.
    fn set_store(&mut self, alloc: Global, digits: &[u8]) -> Result<(), AllocError> {
        let bytes = bytes_in(alloc, digits)?;
        self.stores.set(alloc, STORE, bytes)
    }

    /// Makes the call that is to come, and spoils the store as the part says; says whether it is one that does.
    fn spoil(&mut self, alloc: Global, step: &Step) -> Result<bool, AllocError> {
        self.settle(alloc)?;
        self.stores
            .spoil(alloc, step.key.as_str(), step.rest.as_str())
    }

    /// Begins a call that has no words of its own, for an input that is still to be taken.
    fn begin_for_input(&mut self, alloc: Global) -> Result<bool, AllocError> {
        self.begin_call(alloc, Call::new(alloc, "scratch n"))?;
        Ok(false)
    }

    /// Takes a part that begins a call or is a file; says whether it is one.
    fn take_first(&mut self, alloc: Global, step: &Step) -> Result<bool, AllocError> {
        let rest = step.rest.as_str();
        let taken = match step.key.as_str() {
            "file" => self.add_file(alloc, rest, step.text.as_slice()),
            "store" => self.set_store(alloc, step.text.as_slice()),
            "words" => self.begin_call(alloc, Call::new(alloc, rest)),
            "bare" => self.begin_call(alloc, Ok(Call::bare(alloc))),
            "cut" | "change" => return self.spoil(alloc, step),
            "in" if self.call.is_none() => return self.begin_for_input(alloc),
            _ => return Ok(false),
        };
        taken?;
        Ok(true)
    }

    /// Takes a part that is about the call to come; says whether it is one.
    fn take_about_call(&mut self, alloc: Global, step: &Step) -> Result<bool, AllocError> {
        match &mut self.call {
            Some(call) => call.take(alloc, step),
            None => Ok(false),
        }
    }

    /// How many entries the store has before the call; `None` where it is no store.
    fn entries_before(&self, alloc: Global) -> Result<Option<u64>, AllocError> {
        let asking = Call::asking(alloc)?;
        let made = asking.disk_of(alloc, &self.setting.before);
        drop(asking);
        let mut disk = made?;
        let told = entries_on::<&'a R, P>(alloc, self.setting.program, &mut disk);
        drop(disk);
        told
    }

    /// Says what a call gave, and what it left on the disk, other than what it has to where the device fails: the status, the
    /// last line, and a store with each entry whose line was written, and of the others at most the first.
    fn compare_cut_short(
        &self,
        alloc: Global,
        call: &Call,
        whole: &Outcome,
        device: Device,
        outcome: &Outcome,
        disk: &MemDisk,
    ) -> Result<Option<String>, AllocError> {
        if !is_ended_by(device, outcome, whole) {
            return difference(alloc, "it ends otherwise");
        }
        let before = self.entries_before(alloc)?;
        let bounds = if call.has_store() {
            Bounds::of(before, &outcome.output, &whole.output)
        } else {
            Bounds::of(before, b"", b"")
        };
        fault_left::<&'a R, P>(alloc, self.setting.program, disk, bounds)
    }

    /// Says what the call gave other than what it has to give as a device fails at its first call, at its second, and so on,
    /// until it makes fewer.
    fn compare_failing(
        &self,
        alloc: Global,
        call: &mut Call,
        whole: &Outcome,
        device: Device,
    ) -> Result<Option<String>, AllocError> {
        for number in 1..=CALLS_MAX {
            call.fail_at(alloc, device, number)?;
            let (outcome, disk) = self
                .setting
                .outcome_of::<ShareTree, ArenaTree>(alloc, call)?;
            let is_past_all = number > 1 && outcome.is_same(whole);
            let compared = if is_past_all {
                Ok(None)
            } else {
                self.compare_cut_short(alloc, call, whole, device, &outcome, &disk)
            };
            drop(outcome);
            drop(disk);
            if is_past_all {
                return Ok(None);
            }
            if let Some(text) = compared? {
                return failing_at(alloc, number, text.as_str());
            }
        }
        difference(alloc, "it fails too often")
    }

    /// Says what the call that was last made gave other than what it has to give as the device fails.
    fn compare_each(&mut self, alloc: Global, word: &str) -> Result<Option<String>, AllocError> {
        let Some(device) = device_of(word) else {
            return misplaced(alloc);
        };
        let Some(whole) = self.outcome.take() else {
            return misplaced(alloc);
        };
        let Some(mut call) = self.made.take() else {
            drop(whole);
            return misplaced(alloc);
        };
        let answer = self.compare_failing(alloc, &mut call, &whole, device);
        self.outcome = Some(whole);
        self.made = Some(call);
        answer
    }

    /// Says what the call that was last made gave, or left, other than the part.
    fn compare_part(&self, alloc: Global, step: &Step) -> Result<Option<String>, AllocError> {
        let Some(outcome) = &self.outcome else {
            return misplaced(alloc);
        };
        let rest = step.rest.as_str();
        match step.key.as_str() {
            "out" | "starts" | "ends" | "status" | "left" => compare_outcome(alloc, outcome, step),
            "bytes" => self.stores.differs(alloc, rest),
            "size" => compare_number(alloc, "size", self.stores.last().len() as u64, rest),
            _ => misplaced(alloc),
        }
    }

    /// Makes the call if it is to come, and says what it gave other than the part.
    fn take_last(&mut self, alloc: Global, step: &Step) -> Result<Option<String>, AllocError> {
        self.settle(alloc)?;
        if self.differs {
            return difference(alloc, "other trees, another outcome");
        }
        if step.key.as_str() == "each" {
            return self.compare_each(alloc, step.rest.as_str());
        }
        self.compare_part(alloc, step)
    }
}

impl<R: Files, P: Program> Player for Stage<'_, R, P> {
    fn can_take(&self, _key: &str) -> bool {
        true
    }

    fn begin(&mut self, alloc: Global, real: bool) {
        *self = Stage::new(alloc, self.setting.runtime, self.setting.program);
        self.setting.real = real;
    }

    fn take(&mut self, alloc: Global, step: &Step) -> Result<Option<String>, AllocError> {
        if self.take_first(alloc, step)? {
            return Ok(None);
        }
        if self.take_about_call(alloc, step)? {
            return Ok(None);
        }
        self.take_last(alloc, step)
    }

    fn end(&mut self, alloc: Global) -> Result<(), AllocError> {
        self.settle(alloc)
    }
}
