//! The limits on what is read, in bytes.

/// The most bytes of a file, and of a declaration's text with its last line feed.
pub const TEXT_MOST: usize = 1 << 24;

/// The most bytes of a command's line, without its line feed.
pub const LINE_MOST: usize = 65_536;

/// The most bytes of an input.
pub const INPUT_MOST: u64 = 1 << 40;
