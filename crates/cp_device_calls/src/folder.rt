//! Real files, and a disk over one, in an empty folder of their own.
//!
//! | Call | What it does or gives |
//! |---|---|
//! | `file put BELOW BYTES` | writes the file of this name below the folder |
//! | `file lock BELOW` | leaves it for reading alone |
//! | `file there BELOW` | whether there is one |
//! | `file holds BELOW` | what it holds |
//! | `get READ` | what a read of files gives, as `files` says |
//! | `nameless LIMIT over BYTES` | the same of the file of the empty name |
//! | `open BELOW` | the disk of the calls that come is a new one over the file of this name, which may write |
//! | `look BELOW` | the same, of one that only reads |
//! | `other` | the disk of the calls that come is the other one of two |
//! | `may BELOW CALL` | makes this call of the disk, and says whether it is done if the file may be written, and fails if not |
//! | any other | makes this call of the disk, as `disks` says |

use crate::lines::{add_bytes, add_line};
use crate::outside::word_and_rest;
use crate::{real_disks, source_files};
use cp_disk::DiskFault;
use cp_host::{Access, FileDisk, HostFiles};
use std::alloc::AllocError;
use std::os::unix::fs::PermissionsExt;
use std::{env, fs, io, mem, process};

/// A folder, and what is called in it.
#[derive(Drop)]
struct Place<'a> {
    rt: &'a HostRuntime,
    folder: &'a str,
    files: HostFiles<&'a HostRuntime>,
    disk: FileDisk<&'a HostRuntime>,
    other: FileDisk<&'a HostRuntime>,
}

/// The name of what has this name below the folder.
fn name_in(rt: &HostRuntime, folder: &str, below: &str) -> Result<String, AllocError> {
    format!(in rt.alloc(); "{folder}{below}")
}

/// Adds what the file holds.
fn add_held(rt: &HostRuntime, name: &str, lines: &mut Vec<u8>) -> io::Result<()> {
    let bytes = fs::read(rt, name)?;
    Ok(add_bytes(bytes.as_slice(), lines)?)
}

/// Adds whether there is such a file.
fn add_there(rt: &HostRuntime, name: &str, lines: &mut Vec<u8>) -> io::Result<()> {
    let there = fs::exists(rt, name)?;
    Ok(add_line(rt.alloc(), &there, lines)?)
}

/// Makes a call of the file of this name.
fn add_of_file(
    rt: &HostRuntime,
    word: &str,
    name: &str,
    bytes: &str,
    lines: &mut Vec<u8>,
) -> io::Result<()> {
    match word {
        "put" => fs::write(rt, name, bytes),
        "lock" => fs::set_permissions(rt, name, fs::Permissions::from_mode(0o444)),
        "there" => add_there(rt, name, lines),
        _ => add_held(rt, name, lines),
    }
}

impl Place<'_> {
    /// Makes a call of a file by itself.
    fn add_file(&mut self, call: &str, lines: &mut Vec<u8>) -> io::Result<()> {
        let (word, rest) = word_and_rest(call);
        let (below, bytes) = word_and_rest(rest);
        let name = name_in(self.rt, self.folder, below)?;
        add_of_file(self.rt, word, name.as_str(), bytes, lines)
    }

    /// Goes on with a new disk over the file of this name below the folder.
    fn open(&mut self, below: &str, access: Access) -> Result<(), AllocError> {
        let name = name_in(self.rt, self.folder, below)?;
        self.disk = FileDisk::new(self.rt, name, access);
        Ok(())
    }

    /// Goes on with the other disk.
    fn exchange(&mut self) -> Result<(), AllocError> {
        mem::swap(&mut self.disk, &mut self.other);
        Ok(())
    }

    /// What a call has to give that changes the file: a fault, where it may not be written. Root may write all files.
    fn wanted(&self, below: &str) -> Result<Result<(), DiskFault>, AllocError> {
        let name = name_in(self.rt, self.folder, below)?;
        let opened = fs::OpenOptions::new()
            .write(true)
            .open(self.rt, name.as_str());
        Ok(match opened {
            Ok(_) => Ok(()),
            Err(_) => Err(DiskFault::Failed),
        })
    }

    /// Makes a call that changes the file, and adds whether it does as the file may be written.
    fn add_allowed(&mut self, words: &str, lines: &mut Vec<u8>) -> Result<(), AllocError> {
        let (below, call) = word_and_rest(words);
        let wanted = self.wanted(below)?;
        let allowed = real_disks::changed(&mut self.disk, call) == wanted;
        add_line(self.rt.alloc(), &allowed, lines)
    }

    /// Makes a call, and adds what it gives.
    fn add(&mut self, call: &str, lines: &mut Vec<u8>) -> io::Result<()> {
        let (word, rest) = word_and_rest(call);
        let alloc = self.rt.alloc();
        let added = match word {
            "file" => return self.add_file(rest, lines),
            "get" => source_files::add_read(alloc, &mut self.files, self.folder, rest, lines),
            "nameless" => source_files::add_read(alloc, &mut self.files, "", rest, lines),
            "open" => self.open(rest, Access::Writes),
            "look" => self.open(rest, Access::Reads),
            "other" => self.exchange(),
            "may" => self.add_allowed(rest, lines),
            _ => real_disks::add_called(alloc, &mut self.disk, call, lines),
        };
        Ok(added?)
    }
}

/// Makes these calls in this folder.
fn add_all(rt: &HostRuntime, folder: &str, calls: &str, lines: &mut Vec<u8>) -> io::Result<()> {
    let name = name_in(rt, folder, "")?;
    let other = name_in(rt, folder, "")?;
    let mut place = Place {
        rt,
        folder,
        files: HostFiles::new(rt),
        disk: FileDisk::new(rt, name, Access::Reads),
        other: FileDisk::new(rt, other, Access::Reads),
    };
    for call in calls.split_terminator('\n') {
        place.add(call, lines)?;
    }
    Ok(())
}

/// An empty folder of this process alone, with this in its name.
fn empty_folder(rt: &HostRuntime, name: &str) -> io::Result<String> {
    let temporary = env::temp_dir(rt)?;
    let number = process::id(rt.process());
    let folder = format!(in rt.alloc(); "{}/cp_host_{name}_{number}", temporary.display())?;
    fs::create_dir(rt, folder.as_str())?;
    Ok(folder)
}

/// Makes these calls in an empty folder, and removes it where each could be made.
fn add_in_folder(rt: &HostRuntime, name: &str, calls: &str, lines: &mut Vec<u8>) -> io::Result<()> {
    let folder = empty_folder(rt, name)?;
    add_all(rt, folder.as_str(), calls, lines)?;
    fs::remove_dir_all(rt, folder.as_str())
}

/// Adds what these calls give in an empty folder with this in its name, and the error of the system where one couldn't be
/// made.
pub(crate) fn add_folder(
    rt: &HostRuntime,
    name: &str,
    calls: &str,
    lines: &mut Vec<u8>,
) -> Result<(), AllocError> {
    match add_in_folder(rt, name, calls, lines) {
        Ok(()) => Ok(()),
        Err(error) => add_line(rt.alloc(), &error, lines),
    }
}
