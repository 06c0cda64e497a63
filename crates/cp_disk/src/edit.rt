//! Edits of a file in memory, and the log of them.
ghost use Rattle.std.specs.Prelude.{◌≡◌, ◌≤◌, ◌++◌, [], ◌∷◌, length, OnOk, OnErr};
ghost use Rattle.cp_disk.specs.Edits.{calls_of};
ghost use Rattle.cp_disk.specs.Images.{writes, cuts};
ghost use Rattle.cp_disk.specs.MemoryDisks.{EndsInSync};
ghost use Rattle.cp_disk.specs.Writes.{with_bytes};

use std::alloc::{AllocError, Global};

// An edit of a file.
#[derive(Drop)]
pub(crate) enum Edit {
    Write { at: u64, bytes: Vec<u8> },
    Cut { size: u64 },
}

// An edit that was carried out, and whether a sync came after it and before the next.
#[derive(Drop)]
pub(crate) struct LoggedEdit {
    pub(crate) edit: Edit,
    pub(crate) synced: bool,
}

// Puts bytes in place of those that stand from `at` on, and after the end. After an error the file is as it was.
pub(crate) fn place(file: &mut Vec<u8>, at: usize, bytes: &[u8]) -> Result<(), AllocError>
    requires { at ≤ length file.old.items }
    ensures ok { OnOk result (file.new.items ≡ with_bytes file.old.items at bytes.now) }
    ensures err { OnErr result (file.new.items ≡ file.old.items) }
{
    let within = bytes.len().min(file.len() - at);
    file.extend_from_slice(&bytes[within..])?;
    file[at..at + within].copy_from_slice(&bytes[..within]);
    Ok(())
}

// Notes a write and carries it out, or does neither.
pub(crate) fn write(
    alloc: Global,
    log: &mut Vec<LoggedEdit>,
    file: &mut Vec<u8>,
    at: u64,
    bytes: &[u8],
) -> Result<(), AllocError>
    requires { at ≤ length file.old.items }
    ensures calls { OnOk result (calls_of log.new.items ≡ calls_of log.old.items ++ writes at bytes.now ∷ []) }
    ensures file { OnOk result (file.new.items ≡ with_bytes file.old.items at bytes.now) }
    ensures err_calls { OnErr result (calls_of log.new.items ≡ calls_of log.old.items) }
    ensures err_file { OnErr result (file.new.items ≡ file.old.items) }
{
    let kept = bytes.to_vec(alloc)?;
    log.push(LoggedEdit {
        edit: Edit::Write { at, bytes: kept },
        synced: false,
    })?;
    if place(file, at as usize, bytes).is_err() {
        log.pop();
        return Err(AllocError);
    }
    Ok(())
}

// Notes a cut.
pub(crate) fn note_cut(log: &mut Vec<LoggedEdit>, size: u64) -> Result<(), AllocError>
    ensures calls { OnOk result (calls_of log.new.items ≡ calls_of log.old.items ++ cuts size ∷ []) }
    ensures err { OnErr result (log.new.items ≡ log.old.items) }
{
    log.push(LoggedEdit {
        edit: Edit::Cut { size },
        synced: false,
    })?;
    Ok(())
}

// Notes that a sync came after the last edit, if there was one.
pub(crate) fn note_sync(log: &mut Vec<LoggedEdit>)
    ensures { EndsInSync (calls_of log.old.items) (calls_of log.new.items) }
{
    if let Some(last) = log.last_mut() {
        last.synced = true;
    }
}
