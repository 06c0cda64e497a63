ghost use Rattle.std.specs.Prelude.{◌≡◌};
ghost use Rattle.cp_lang.specs.Cuts.{ends, after};
ghost use Rattle.cp_lang.specs.Spaces.{is_space};

use cp_path::Bytes;

/// What the input is cut into.
#[derive(Drop)]
pub enum Cut {
    /// The text before a statement's end; offsets count from its first byte.
    Text(Bytes),
    /// A text longer than a statement may be, which isn't kept.
    TooLong,
    /// A text that the input's end cut off.
    Unfinished(Bytes),
}

/// Where the scan for the ends of statements stands: outside or inside quotation marks, or behind a backslash inside.
#[derive(Clone, Copy, PartialEq, Eq, Drop)]
pub(crate) enum Mode {
    Outside,
    Inside,
    Escaped,
}

/// Whether the byte ends a statement.
pub(crate) fn ends(mode: Mode, byte: u8) -> bool
    ensures { result ≡ ends mode byte }
{
    match mode {
        Mode::Outside => byte == b';',
        Mode::Inside => false,
        Mode::Escaped => false,
    }
}

/// Where the scan stands behind a byte that ends no statement.
pub(crate) fn after(mode: Mode, byte: u8) -> Mode
    ensures { result ≡ after mode byte }
{
    match mode {
        Mode::Outside => {
            if byte == b'"' {
                Mode::Inside
            } else {
                Mode::Outside
            }
        }
        Mode::Inside => {
            if byte == b'"' {
                Mode::Outside
            } else if byte == b'\\' {
                Mode::Escaped
            } else {
                Mode::Inside
            }
        }
        Mode::Escaped => Mode::Inside,
    }
}

/// Whether the byte is white space: space, tab, line feed or carriage return.
pub(crate) fn is_space(byte: u8) -> bool
    ensures { result ≡ is_space byte }
{
    byte == b' ' || byte == b'\t' || byte == b'\n' || byte == b'\r'
}
