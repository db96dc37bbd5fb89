// Identifiers and constants with their places in the text.
use pt_base::{Bytes, IntType, Span};

/// An identifier.
pub struct Word {
    pub span: Span,
    pub bytes: Bytes,
}

impl Drop for Word {
    fn drop(self) {
        let Word {
            span: _,
            bytes: _bytes,
        } = self;
    }
}

/// An integer or character constant.
#[derive(Clone, Copy, Debug, PartialEq, Eq)]
pub struct Constant {
    pub span: Span,
    pub value: i128,
    pub ty: IntType,
}
