/// The most bytes of the body of an entry.
pub const BODY_MAX: usize = 67_108_864;

/// The offset of the gate of the version, in the header.
pub const VERSION_AT: usize = 6;

/// The bytes before the first frame.
pub const HEADER_SIZE: usize = 192;

/// The bytes of a frame before its body: the gate, the tag and the length.
pub const FRAME_HEAD: u64 = 10;

/// The offset of the first slot, in the header.
pub const FIRST_SLOT: usize = 64;

/// The offset of the second slot.
pub const SECOND_SLOT: usize = 128;

/// The bytes of a slot.
pub const SLOT_SIZE: usize = 64;
