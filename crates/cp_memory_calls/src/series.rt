//! Texts of the numbers from 0 on, of which those are written that differ from the one before.

use std::alloc::{AllocError, Global};

/// Writes `NUMBER TEXT` where the text is another one than before.
#[derive(Drop)]
pub(crate) struct Series {
    next: usize,
    text: String,
    pub(crate) written: String,
    between: &'static str,
}

impl Series {
    /// No number yet; what is written has this between its parts.
    pub(crate) fn new(alloc: Global, between: &'static str) -> Series {
        Series {
            next: 0,
            text: String::new(alloc),
            written: String::new(alloc),
            between,
        }
    }

    /// The next number has this text, which isn't empty.
    pub(crate) fn add(&mut self, alloc: Global, text: String) -> Result<(), AllocError> {
        if text.as_str() != self.text.as_str() {
            if !self.written.is_empty() {
                self.written.push_str(self.between)?;
            }
            let part = format!(in alloc; "{} {}", self.next, text)?;
            self.written.push_str(part.as_str())?;
            self.text = text;
        }
        self.next = self.next.saturating_add(1);
        Ok(())
    }
}
