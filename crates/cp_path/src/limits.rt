/// The most characters of a name.
pub const NAME_MAX: usize = 32;

/// The most bytes of a label.
pub const LABEL_MAX: usize = 255;

/// The most labels of a path.
pub const LABELS_MAX: usize = 64;

/// The largest size of a place: the bytes of its name, plus 1 plus its bytes for each label.
pub const LOC_MAX: usize = 1_024;

/// The most bytes of a text value.
pub const TEXT_MAX: usize = 1_048_576;
