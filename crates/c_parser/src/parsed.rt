// What a part of the text gives.

/// A tree, and the place after its last token.
#[derive(Drop)]
pub(crate) struct Parsed<T> {
    pub(crate) tree: T,
    pub(crate) next: usize,
}
