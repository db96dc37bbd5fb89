// What stands between two words.

/// What stands before a word.
#[derive(Clone, Copy)]
pub(crate) enum Gap {
    Tight,
    Spaced,
    /// A new line, indented by so many levels.
    Line(usize),
    /// An empty line and a new one.
    Apart,
}
