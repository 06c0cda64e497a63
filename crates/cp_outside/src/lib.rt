//! What a program meets outside itself: bytes that come in, bytes that go out, files, and what time it is.
//!
//! `Source`, `Sink` and `Files` say what a read and a write do, where the object tells its bytes,
//! and `Clock` what a call gives where the moments to come are known. They count their failures, so
//! that a caller's contract can say that it reports a failure only where one came. `MemSource`,
//! `MemSink`, `MemFiles` and `MemClock` are all in memory, and fail at the calls that a list names.
#![tactic(auto)]

mod clock;
mod fault;
mod files;
mod memory_clock;
mod memory_files;
mod memory_sink;
mod memory_source;
mod plan;
mod sink;
mod source;

pub use clock::Clock;
pub use fault::Failed;
pub use files::{FileEnd, Files, FilesFault};
pub use memory_clock::MemClock;
pub use memory_files::{MemFile, MemFiles};
pub use memory_sink::MemSink;
pub use memory_source::MemSource;
pub use sink::{Sink, SinkFault, write_all};
pub use source::Source;
