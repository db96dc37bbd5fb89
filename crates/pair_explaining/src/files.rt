// The files of a pair.

/// The names under which the files of a pair are told. Of a program alone only the first is looked at.
#[derive(Clone, Copy)]
pub struct FileNames<'a> {
    pub program: &'a [u8],
    pub host: &'a [u8],
    pub policy: &'a [u8],
}
