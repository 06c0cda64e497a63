//! The store files of a case, from one call to the next.

use cp_cases::{bytes_in, hex_of};
use std::alloc::{AllocError, Global};

/// A store: its bytes, and those that it had before the case spoiled it.
#[derive(Drop)]
struct StoreFile {
    name: String,
    bytes: Vec<u8>,
    whole: Option<Vec<u8>>,
}

/// The stores of a case; that of the last call is the last.
#[derive(Drop)]
pub(crate) struct StoreFiles {
    files: Vec<StoreFile>,
}

/// A number, and what comes after it.
fn number_and_rest(line: &str) -> (usize, &str) {
    let (word, rest) = line.split_once(' ').unwrap_or((line, ""));
    (word.parse::<usize>().unwrap_or(0), rest)
}

impl StoreFile {
    /// What the store was before it was first spoiled, which it is from here on.
    fn take_whole(&mut self, alloc: Global) -> Result<Vec<u8>, AllocError> {
        if self.whole.is_none() {
            self.whole = Some(self.bytes.to_vec(alloc)?);
        }
        match &self.whole {
            Some(bytes) => bytes.to_vec(alloc),
            None => self.bytes.to_vec(alloc),
        }
    }

    /// Cuts it to so many bytes of what it was.
    fn cut(&mut self, alloc: Global, line: &str) -> Result<(), AllocError> {
        let (size, _) = number_and_rest(line);
        let mut bytes = self.take_whole(alloc)?;
        bytes.truncate(size);
        self.bytes = bytes;
        Ok(())
    }

    /// Changes a byte of what it was to another, or to its complement.
    fn change(&mut self, alloc: Global, line: &str) -> Result<(), AllocError> {
        let (at, to) = number_and_rest(line);
        let mut bytes = self.take_whole(alloc)?;
        if at < bytes.len() {
            bytes[at] = match bytes_in(alloc, to.as_bytes())?.as_slice() {
                [byte, ..] if to != "complement" => *byte,
                _ => !bytes[at],
            };
        }
        self.bytes = bytes;
        Ok(())
    }
}

impl StoreFiles {
    /// No store.
    pub(crate) fn new(alloc: Global) -> StoreFiles {
        StoreFiles {
            files: Vec::new(alloc),
        }
    }

    /// The bytes of the store of this name, if there is one.
    pub(crate) fn named(&self, name: &str) -> &[u8] {
        for file in &self.files {
            if file.name.as_str() == name {
                return &file.bytes;
            }
        }
        &[]
    }

    /// The bytes of the last store, if there is one.
    pub(crate) fn last(&self) -> &[u8] {
        match self.files.last() {
            Some(file) => &file.bytes,
            None => &[],
        }
    }

    /// Takes the store of this name out, and gives what it was before the case spoiled it.
    fn take_out(&mut self, name: &str) -> Option<Vec<u8>> {
        let at = self
            .files
            .iter()
            .position(|file| file.name.as_str() == name)?;
        self.files.remove(at).whole
    }

    /// A call has left these bytes in the store of this name.
    pub(crate) fn set(
        &mut self,
        alloc: Global,
        name: &str,
        bytes: Vec<u8>,
    ) -> Result<(), AllocError> {
        let whole = self.take_out(name);
        let name = name.to_string(alloc)?;
        self.files.push(StoreFile { name, bytes, whole })?;
        Ok(())
    }

    /// Spoils the last store as the part says; says whether it is one that does.
    pub(crate) fn spoil(
        &mut self,
        alloc: Global,
        key: &str,
        line: &str,
    ) -> Result<bool, AllocError> {
        let Some(file) = self.files.last_mut() else {
            return Ok(false);
        };
        match key {
            "cut" => file.cut(alloc, line)?,
            "change" => file.change(alloc, line)?,
            _ => return Ok(false),
        }
        Ok(true)
    }

    /// Says what the last store has other than the bytes that the line names; `None` where it has them.
    pub(crate) fn differs(&self, alloc: Global, line: &str) -> Result<Option<String>, AllocError> {
        let (at, digits) = number_and_rest(line);
        let wanted = bytes_in(alloc, digits.as_bytes())?;
        let rest = self.last().get(at..).unwrap_or(&[]);
        if rest.starts_with(&wanted) {
            return Ok(None);
        }
        let found = hex_of(alloc, rest)?;
        Ok(Some(format!(in alloc; "the bytes from {at} on are {found}")?))
    }
}
