// A stretch of the program's text.

/// A stretch of a text: the bytes from `from` on, up to and without `to`.
#[derive(Clone, Copy, Debug, PartialEq, Eq, PartialOrd, Ord)]
pub struct Span {
    pub from: u32,
    pub to: u32,
}
