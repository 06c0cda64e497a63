//! A real file that is opened by its name when it is first used.
ghost use Rattle.std.specs.Prelude.{◌≡◌, ◌≤◌, IfOk, IsErrOf};

use crate::access::Access;
use crate::opening::{fault_of, find, make, size_of};
use cp_disk::{DISK_MAX, DiskFault};
use std::fs::File;
use std::os::unix::fs::FileExt;
use std::path::Path;
use std::{io, rt};

// What was found under the name.
#[derive(Drop)]
enum Found {
    // It has not been looked for yet.
    NotYet,
    Missing,
    Open(File),
    // A sync has failed: what was written may be lost, though a later sync might not say so.
    Lost,
}

// Whether the name is to be made durable too, by a sync of its folder.
#[derive(Clone, Copy)]
enum Naming {
    // Nothing was written yet.
    Unused,
    // Something was written, and the folder is to be synced.
    Pending,
    // The folder was synced.
    Durable,
}

// The file of a name. It answers `Memory` where nothing has changed, and counts nothing.
#[derive(Drop)]
pub(crate) struct NamedFile<R> {
    runtime: R,
    name: String,
    access: Access,
    found: Found,
    naming: Naming,
}

impl<R> NamedFile<R> {
    pub(crate) fn new(runtime: R, name: String, access: Access) -> NamedFile<R>
        ensures { result.access ≡ access }
    {
        NamedFile {
            runtime,
            name,
            access,
            found: Found::NotYet,
            naming: Naming::Unused,
        }
    }

    // Says whether the file may be changed: one that is only read may not.
    fn allow_change(&self) -> Result<(), DiskFault>
        ensures { self.now.access ≡ Access.Reads → IsErrOf result DiskFault.Failed }
    {
        match self.access {
            Access::Reads => Err(DiskFault::Failed),
            Access::Writes => Ok(()),
        }
    }

    // Notes that the next sync has to make the name durable, unless one has done so already.
    fn note_change(&mut self)
        ensures { self.new.access ≡ self.old.access }
    {
        if let Naming::Unused = self.naming {
            self.naming = Naming::Pending;
        }
    }
}

impl<R: rt::Files<File = File>> NamedFile<R> {
    // Looks for the file, unless that was done.
    fn open(&mut self) -> Result<(), DiskFault>
        ensures { self.new.access ≡ self.old.access }
    {
        match &self.found {
            Found::NotYet => {
                self.found = match find(&self.runtime, self.name.as_str(), self.access)? {
                    Some(file) => Found::Open(file),
                    None => Found::Missing,
                };
                Ok(())
            }
            Found::Lost => Err(DiskFault::Failed),
            Found::Missing | Found::Open(_) => Ok(()),
        }
    }

    // The same; a missing file is made.
    fn open_or_make(&mut self) -> Result<(), DiskFault>
        ensures { self.new.access ≡ self.old.access }
    {
        self.open()?;
        if let Found::Missing = &self.found {
            self.found = Found::Open(make(&self.runtime, self.name.as_str())?);
        }
        Ok(())
    }

    pub(crate) fn size(&mut self) -> Result<u64, DiskFault>
        ensures most { IfOk result (λ n. n ≤ DISK_MAX) }
        ensures access { self.new.access ≡ self.old.access }
    {
        self.open()?;
        match &self.found {
            Found::Open(file) => size_of(file),
            _ => Ok(0),
        }
    }

    pub(crate) fn read(&mut self, at: u64, into: &mut [u8]) -> Result<(), DiskFault>
        ensures { self.new.access ≡ self.old.access }
    {
        self.open()?;
        match &self.found {
            Found::Open(file) => file
                .read_exact_at(into, at)
                .map_err(|error| fault_of(&error)),
            _ => Err(DiskFault::Failed),
        }
    }

    // From the first byte on any error is a failure, as some bytes may be written.
    pub(crate) fn write_at(&mut self, at: u64, bytes: &[u8]) -> Result<(), DiskFault>
        ensures reads { self.old.access ≡ Access.Reads → IsErrOf result DiskFault.Failed }
        ensures access { self.new.access ≡ self.old.access }
    {
        self.allow_change()?;
        self.open_or_make()?;
        self.note_change();
        match &self.found {
            Found::Open(file) => file.write_all_at(bytes, at).map_err(|_| DiskFault::Failed),
            _ => Err(DiskFault::Failed),
        }
    }

    pub(crate) fn cut(&mut self, size: u64) -> Result<(), DiskFault>
        ensures reads { self.old.access ≡ Access.Reads → IsErrOf result DiskFault.Failed }
        ensures access { self.new.access ≡ self.old.access }
    {
        self.allow_change()?;
        self.open()?;
        self.note_change();
        match &self.found {
            Found::Open(file) => file.set_len(size).map_err(|_| DiskFault::Failed),
            _ if size == 0 => Ok(()),
            _ => Err(DiskFault::Failed),
        }
    }

    pub(crate) fn sync(&mut self) -> Result<(), DiskFault>
        ensures { self.new.access ≡ self.old.access }
    {
        self.open()?;
        let Found::Open(file) = &self.found else {
            return Ok(());
        };
        let folder = match self.naming {
            Naming::Pending => Some(folder_of(&self.runtime, self.name.as_str())?),
            Naming::Unused | Naming::Durable => None,
        };
        let has_folder = folder.is_some();
        if sync_both(file, folder).is_err() {
            self.found = Found::Lost;
            return Err(DiskFault::Failed);
        }
        if has_folder {
            self.naming = Naming::Durable;
        }
        Ok(())
    }
}

// The folder in which this name stands.
fn folder_of<R: rt::Files<File = File>>(runtime: &R, name: &str) -> Result<File, DiskFault> {
    let opened = match Path::new(name).parent() {
        Some(folder) if !folder.as_str().is_empty() => File::open(runtime, folder),
        _ => File::open(runtime, "."),
    };
    opened.map_err(|error| fault_of(&error))
}

fn sync_both(file: &File, folder: Option<File>) -> io::Result<()> {
    file.sync_data()?;
    match folder {
        Some(folder) => folder.sync_all(),
        None => Ok(()),
    }
}
