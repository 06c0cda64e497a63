//! Makes the calls of tables: calls of the layers below the program.
//!
//! A part makes a call, and `out` with a text below it is what the call has to give. cp_memory_calls has the calls of words,
//! statements, replies, rows and trees, cp_device_calls those of entries, files, disks and what is outside the program.

use cp_cases::{Player, Step, compare};
use std::alloc::{AllocError, Global};

/// Makes calls, and keeps what the last one gave.
#[derive(Drop)]
pub(crate) struct Caller<'a> {
    rt: &'a HostRuntime,
    output: Vec<u8>,
}

impl<'a> Caller<'a> {
    /// A caller that has made no call yet.
    pub(crate) fn new(rt: &'a HostRuntime) -> Caller<'a> {
        Caller {
            rt,
            output: Vec::new(rt.alloc()),
        }
    }
}

/// What the call of this keyword gives; `None` where there is no such call.
fn answer(rt: &HostRuntime, step: &Step) -> Result<Option<Vec<u8>>, AllocError> {
    match cp_memory_calls::answer(rt.alloc(), step)? {
        Some(output) => Ok(Some(output)),
        None => cp_device_calls::answer(rt, step),
    }
}

impl Player for Caller<'_> {
    fn can_take(&self, _key: &str) -> bool {
        true
    }

    fn begin(&mut self, alloc: Global, _real: bool) {
        self.output = Vec::new(alloc);
    }

    fn take(&mut self, alloc: Global, step: &Step) -> Result<Option<String>, AllocError> {
        if step.key.as_str() == "out" {
            return compare(alloc, self.output.as_slice(), step.text.as_slice());
        }
        let Some(output) = answer(self.rt, step)? else {
            return Ok(Some("unknown part".to_string(alloc)?));
        };
        self.output = output;
        Ok(None)
    }

    fn end(&mut self, _alloc: Global) -> Result<(), AllocError> {
        Ok(())
    }
}
