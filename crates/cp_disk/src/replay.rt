//! What a crash leaves, found by carrying out edits once more.
ghost use Rattle.std.specs.Prelude.{◌≡◌, ◌≤◌, length, take, drop, None, Some, IfOk, OnOk};
ghost use Rattle.cp_disk.specs.Crashes.{IsFilled, LeavesImage};
ghost use Rattle.cp_disk.specs.Edits.{call_of, calls_of, bytes_after, bytes_after_all, HasNoSync};
ghost use Rattle.cp_disk.specs.Images.{file_after};
ghost use Rattle.cp_disk.specs.MemoryDisks.{IsQuiet};

use crate::edit::{Edit, LoggedEdit, place};
use std::alloc::{AllocError, Global};

/// Which of the many images that a crash may leave it leaves.
#[derive(Clone, Copy, Debug, Drop)]
pub enum Crash {
    /// The content at the last sync.
    Old,
    /// The content now.
    New,
    /// The content now, with this byte in place of each that is pending.
    Fill(u8),
}

// Carries out an edit, with the byte that is given, if one is, in place of each that it writes.
fn redo(alloc: Global, file: &mut Vec<u8>, edit: &Edit, fill: Option<u8>) -> Result<(), AllocError>
    ensures { OnOk result (file.new.items ≡ bytes_after fill file.old.items (call_of edit.now)) }
{
    match edit {
        Edit::Write { at, bytes } => {
            let at = (*at as usize).min(file.len());
            match fill {
                Some(byte) => place(file, at, &vec![in alloc; byte; bytes.len()]?),
                None => place(file, at, bytes),
            }
        }
        Edit::Cut { size } => {
            file.truncate(*size as usize);
            Ok(())
        }
    }
}

// Carries out these edits. Costs the bytes that they write.
fn redo_all(
    alloc: Global,
    file: &mut Vec<u8>,
    log: &[LoggedEdit],
    fill: Option<u8>,
) -> Result<(), AllocError>
    ensures { OnOk result (file.new.items ≡ bytes_after_all fill file.old.items (calls_of log.now)) }
{
    for entry in log {
        redo(alloc, file, &entry.edit, fill)?;
    }
    Ok(())
}

// How many of the edits came before the last sync. Costs the edits since then.
fn synced_count(log: &[LoggedEdit]) -> usize
    ensures within { result ≤ length log.now }
    ensures quiet { IsQuiet (calls_of (take result log.now)) }
    ensures none { HasNoSync (calls_of (drop result log.now)) }
{
    let mut count = log.len();
    while count > 0 {
        if log[count - 1].synced {
            return count;
        }
        count -= 1;
    }
    0
}

// The content at the last sync, of a file that began with `first` and was edited so. Costs the file and the bytes of all edits.
fn base(alloc: Global, first: &[u8], log: &[LoggedEdit]) -> Result<Vec<u8>, AllocError>
    ensures { IfOk result (λ v. v.items ≡ (file_after first.now (calls_of log.now)).base) }
{
    let mut file = first.to_vec(alloc)?;
    redo_all(alloc, &mut file, &log[..synced_count(log)], None)?;
    Ok(file)
}

// The content now, with `byte` in place of each that is pending. Costs the same.
fn filled(alloc: Global, first: &[u8], log: &[LoggedEdit], byte: u8) -> Result<Vec<u8>, AllocError>
    ensures { IfOk result (λ v. IsFilled byte (file_after first.now (calls_of log.now)) v.items) }
{
    let mut file = base(alloc, first, log)?;
    redo_all(alloc, &mut file, &log[synced_count(log)..], Some(byte))?;
    Ok(file)
}

// What the crash leaves of a file with this content now, that began with `first` and was edited so.
pub(crate) fn left_by(
    alloc: Global,
    first: &[u8],
    log: &[LoggedEdit],
    content: &[u8],
    how: Crash,
) -> Result<Vec<u8>, AllocError>
    requires { content.now ≡ (file_after first.now (calls_of log.now)).content }
    ensures { IfOk result (λ v. LeavesImage how (file_after first.now (calls_of log.now)) v.items) }
{
    match how {
        Crash::Old => base(alloc, first, log),
        Crash::New => content.to_vec(alloc),
        Crash::Fill(byte) => filled(alloc, first, log, byte),
    }
}
