// Texts with marks in them.
use case_rows::push_shown;
use pt_base::Span;
use std::alloc::{AllocError, Global};
use std::cmp::Reverse;

/// What is said of a stretch of a text. Of two stretches one holds the other, or they are apart.
#[derive(Drop)]
pub struct Mark {
    pub span: Span,
    pub name: String,
}

/// The text with its marks. A stretch stands behind its mark's name in `«name: ..»`; where no byte
/// is in it, the name stands alone.
///
/// # Errors
///
/// Want of memory.
pub fn marked(alloc: Global, bytes: &[u8], marks: Vec<Mark>) -> Result<String, AllocError> {
    let mut marks = marks;
    marks.sort_by_key(|mark| (mark.span.from, Reverse(mark.span.to)))?;
    let mut text = String::new(alloc);
    for place in 0..=bytes.len() {
        for mark in &marks {
            if mark.span.to as usize == place && mark.span.from < mark.span.to {
                text.push('»')?;
            }
        }
        for mark in &marks {
            if mark.span.from as usize == place {
                push_open(&mut text, mark)?;
            }
        }
        if let Some(byte) = bytes.get(place) {
            push_shown(&mut text, *byte)?;
        }
    }
    Ok(text)
}

// The beginning of a mark, which is all of it where it holds no byte.
fn push_open(text: &mut String, mark: &Mark) -> Result<(), AllocError> {
    let name = mark.name.as_str();
    if mark.span.from < mark.span.to {
        write!(text, "«{name}: ")
    } else {
        write!(text, "«{name}»")
    }
}
