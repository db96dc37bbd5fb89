// Places of a text.

/// A place of a text: its line and its column, both counted from 1. Columns count bytes.
#[derive(Clone, Copy, PartialEq, Eq)]
pub struct Place {
    pub line: usize,
    pub column: usize,
}
