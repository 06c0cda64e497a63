//! The output of a call.

use std::io;
use std::io::{Error, ErrorKind, Write};

/// An output that takes all bytes of a write, or a byte a write, and none once it is full.
#[derive(Drop)]
pub(crate) struct Screen {
    pub(crate) took: Vec<u8>,
    /// How many bytes it takes, one by one; `None` for as many as come.
    pub(crate) room: Option<usize>,
    /// The numbers of the writes that fail, from 1.
    pub(crate) fails: Vec<u64>,
    pub(crate) writes: u64,
}

impl Write for Screen {
    fn write(&mut self, buf: &[u8]) -> io::Result<usize> {
        self.writes = self.writes.saturating_add(1);
        if self.fails.contains(&self.writes) {
            return Err(Error::from(ErrorKind::Other));
        }
        let Some(room) = self.room else {
            self.took.extend_from_slice(buf)?;
            return Ok(buf.len());
        };
        if buf.is_empty() || self.took.len() >= room {
            return Ok(0);
        }
        self.took.push(buf[0])?;
        Ok(1)
    }

    fn flush(&mut self) -> io::Result<()> {
        Ok(())
    }
}
