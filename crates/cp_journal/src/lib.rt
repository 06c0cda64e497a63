//! The file of a store: a header, and frames after it, one right after the other.
//!
//! | Offset | Bytes |
//! |---|---|
//! | 0 | the gate of the header: 01 is open, every other byte is closed |
//! | 1 to 5 | `CPDB` and 01 |
//! | 6 | the gate of the version: 01 is version 2, every other byte version 1 |
//! | 7 to 63 | zero |
//! | 64 to 127, 128 to 191 | two slots: a gate, the number, the offset of a checkpoint, 47 zeros; after a closed gate any bytes |
//! | 192 | the first frame |
//!
//! A frame is a gate, a tag (45 for an entry, 50 for a checkpoint), the length of its body, and the body. The first gate that
//! isn't open ends the frames, and whatever comes after it is ignored. Numbers take eight bytes, the greatest byte first.
//!
//! A frame is written after its closed gate, with the closed gate of the next one, and synced; then its gate is opened, and
//! synced. So a crash leaves the frames before, or those and the new one.
//!
//! The body of a checkpoint's frame is written in pieces after the closed gate, with zeros before them in the place of the tag
//! and the length; these are written at the end, before the first sync. A slot that isn't live names the frame then: its gate is
//! closed, what comes after that is written, and the gate is opened, each with a sync. So a crash leaves the slot that was live,
//! or the new one.
//!
//! A file of version 1 is made one of version 2 by a write of byte 6 alone and a sync: a crash in between leaves it of the one
//! version or of the other, and changes nothing else of it.
#![tactic(auto)]

mod calls;
mod checkpoint;
mod fault;
mod frame;
mod header;
mod journal;
mod limits;
mod new_store;
mod reading;
mod slots;
mod walk;

pub use fault::JournalFault;
pub use frame::{CHECKPOINT, ENTRY, FrameAt};
pub use header::{Header, Slot};
pub use journal::Journal;
pub use limits::{
    BODY_MAX, FIRST_SLOT, FRAME_HEAD, HEADER_SIZE, SECOND_SLOT, SLOT_SIZE, VERSION_AT,
};
pub use slots::{live_slot, make_live, spare_slot};
