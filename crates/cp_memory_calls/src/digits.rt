//! Bytes in hexadecimal digits, a word for each run of the same byte: `61` where the byte comes once, else `61*N`.

use cp_cases::hex_of;
use std::alloc::{AllocError, Global};

/// A run of the same byte that is being counted, after those that are written.
#[derive(Drop)]
struct Runs {
    written: String,
    byte: u8,
    count: usize,
}

impl Runs {
    /// Writes the run that has come to its end, if there is one.
    fn close(&mut self, alloc: Global) -> Result<(), AllocError> {
        if self.count == 0 {
            return Ok(());
        }
        if !self.written.is_empty() {
            self.written.push(' ')?;
        }
        let digits = hex_of(alloc, &[self.byte])?;
        self.written.push_str(digits.as_str())?;
        if self.count > 1 {
            let times = format!(in alloc; "*{}", self.count)?;
            self.written.push_str(times.as_str())?;
        }
        Ok(())
    }

    /// The next byte is this one.
    fn add(&mut self, alloc: Global, byte: u8) -> Result<(), AllocError> {
        if byte != self.byte {
            self.close(alloc)?;
            self.byte = byte;
            self.count = 0;
        }
        self.count = self.count.saturating_add(1);
        Ok(())
    }
}

/// The bytes as words.
pub(crate) fn digits_of(alloc: Global, bytes: &[u8]) -> Result<String, AllocError> {
    let mut runs = Runs {
        written: String::new(alloc),
        byte: 0,
        count: 0,
    };
    for byte in bytes {
        runs.add(alloc, *byte)?;
    }
    runs.close(alloc)?;
    Ok(runs.written)
}
