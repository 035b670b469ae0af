//! Places in a text.

/// A place in a text. Lines and columns are counted from 1, columns in bytes; a line feed ends a line.
#[derive(Clone, Copy, Debug, PartialEq, Eq)]
pub struct Place {
    pub line: u32,
    pub column: u32,
}
