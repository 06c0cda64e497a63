//! How a real file is looked for, opened, made and locked.
ghost use Rattle.std.specs.Prelude.{◌≡◌, ◌≢◌, ◌≤◌, ◌↔◌, true, IfOk, IfErr, IsOk, IsErrOf, IsTrue};
ghost use Rattle.std.specs.Fs.{new_options, with_read, with_write};
ghost use Rattle.std.specs.IoError.{error_kind};
ghost use Rattle.cp_host.specs.Locks.{may_write, KnowsNoLocks, Grants};

use crate::access::Access;
use cp_disk::{DISK_MAX, DiskFault};
use std::fs::{File, Metadata, OpenOptions, TryLockError};
use std::io::ErrorKind;
use std::os::fd::AsRawFd;
use std::{fs, io, rt};

// Linux's number for the error that there are no locks.
pub(crate) const ENOLCK: i32 = 37;

// The fault that this error is, of a call that has changed nothing.
pub(crate) fn fault_of(error: &io::Error) -> DiskFault {
    if error.kind() == ErrorKind::OutOfMemory {
        DiskFault::Memory
    } else {
        DiskFault::Failed
    }
}

// Looks for the file of this name, and opens it for this access. Only a file is opened: to open a
// pipe might wait.
pub(crate) fn find<R: rt::Files<File = File>>(
    runtime: &R,
    name: &str,
    access: Access,
) -> Result<Option<File>, DiskFault> {
    match without_interrupts(|| fs::metadata(runtime, name)) {
        Ok(data) if data.is_file() => {}
        Ok(_) => return Err(DiskFault::Failed),
        Err(error) if error.kind() == ErrorKind::NotFound => return Ok(None),
        Err(error) => return Err(fault_of(&error)),
    }
    let file = match access {
        Access::Reads => to_read(runtime, name)?,
        Access::Writes => to_write(runtime, name)?,
    };
    Ok(Some(file))
}

// How a file that is there is opened.
fn options_for(access: Access) -> OpenOptions
    ensures { result ≡ with_write (with_read new_options true) (may_write access) }
{
    let mut options = OpenOptions::new();
    options.read(true).write(matches!(access, Access::Writes));
    options
}

// Opens a file to be read alone.
fn to_read<R: rt::Files<File = File>>(runtime: &R, name: &str) -> Result<File, DiskFault> {
    match options_for(Access::Reads).open(runtime, name) {
        Ok(file) => past_streams(file),
        Err(error) => Err(fault_of(&error)),
    }
}

// Opens a file to be read and written, and locks it; one that may not be written is opened to be
// read alone, and isn't locked.
fn to_write<R: rt::Files<File = File>>(runtime: &R, name: &str) -> Result<File, DiskFault> {
    match options_for(Access::Writes).open(runtime, name) {
        Ok(file) => locked(past_streams(file)?),
        Err(error) if is_read_only(error.kind()) => to_read(runtime, name),
        Err(error) => Err(fault_of(&error)),
    }
}

fn is_read_only(kind: ErrorKind) -> bool {
    kind == ErrorKind::PermissionDenied || kind == ErrorKind::ReadOnlyFilesystem
}

// Makes the file of this name, which must not be there: not even as a link that leads nowhere. It
// is locked, and still empty: before it was locked, another call may have opened it.
pub(crate) fn make<R: rt::Files<File = File>>(runtime: &R, name: &str) -> Result<File, DiskFault> {
    let made = File::create_new(runtime, name).map_err(|error| fault_of(&error))?;
    match past_streams(made).and_then(locked).and_then(still_empty) {
        Ok(file) => Ok(file),
        Err(_) => Err(DiskFault::Failed),
    }
}

fn still_empty(file: File) -> Result<File, DiskFault> {
    match size_of(&file)? {
        0 => Ok(file),
        _ => Err(DiskFault::Failed),
    }
}

// The file under a number above those of the standard streams, which may have been closed: what is
// meant for one of them must not land in the file.
fn past_streams(file: File) -> Result<File, DiskFault> {
    if file.as_raw_fd() > 2 {
        return Ok(file);
    }
    file.try_clone().map_err(|_| DiskFault::Failed)
}

// The file with its lock, which is let go where it is closed.
fn locked(file: File) -> Result<File, DiskFault> {
    lock_answer(file.try_lock())?;
    Ok(file)
}

// What the disk answers where an attempt to take the lock has ended so. A lock that someone else
// holds is a failure. A file system that knows no locks is none.
fn lock_answer(tried: Result<(), TryLockError>) -> Result<(), DiskFault>
    ensures granted { IsOk result ↔ Grants tried }
    ensures held { tried ≡ Err TryLockError.WouldBlock → IsErrOf result DiskFault.Failed }
{
    match tried {
        Ok(()) => Ok(()),
        Err(TryLockError::WouldBlock) => Err(DiskFault::Failed),
        Err(TryLockError::Error(error)) if knows_no_locks(&error) => Ok(()),
        Err(TryLockError::Error(error)) => Err(fault_of(&error)),
    }
}

fn knows_no_locks(error: &io::Error) -> bool
    ensures { IsTrue result ↔ KnowsNoLocks error.now }
{
    error.kind() == ErrorKind::Unsupported || error.raw_os_error() == Some(ENOLCK)
}

// Asks the system for what it knows of a file, and once more where a signal interrupts it.
fn without_interrupts<F: Fn() -> io::Result<Metadata>>(ask: F) -> io::Result<Metadata>
    requires { F.IsAlwaysCallable ask }
    ensures { IfErr result (λ e. error_kind e ≢ ErrorKind.Interrupted) }
{
    for _ in 0..u64::MAX {
        match ask() {
            Err(error) if error.kind() == ErrorKind::Interrupted => {}
            answer => return answer,
        }
    }
    Err(io::Error::from(ErrorKind::TimedOut))
}

pub(crate) fn size_of(file: &File) -> Result<u64, DiskFault>
    ensures { IfOk result (λ n. n ≤ DISK_MAX) }
{
    match without_interrupts(|| file.metadata()) {
        Ok(data) if data.len() <= DISK_MAX => Ok(data.len()),
        Ok(_) => Err(DiskFault::Failed),
        Err(error) => Err(fault_of(&error)),
    }
}
