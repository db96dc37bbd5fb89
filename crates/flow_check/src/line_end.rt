// How the lines of a variable's slots end.
ghost use Rattle.std.specs.Prelude.{◌≡◌, ◌++◌, IfOk, OnOk};
ghost use Rattle.flow_check.specs.SlotLines.{end_text};

use front_end::push_span;
use pt_base::Span;
use std::alloc::{AllocError, Global};

/// How the lines of the slots of one variable end: with where its name stands. It is kept from one line to
/// the next, since the slots of a variable are shown one after the other.
#[derive(Drop)]
pub(crate) struct LineEnd {
    span: Span,
    text: Vec<u8>,
    ghost spelled: { text.items ≡ end_text span },
}

// how a line ends
fn end_of(alloc: Global, span: Span) -> Result<Vec<u8>, AllocError>
    ensures { IfOk result (λ v. v.items ≡ end_text span) }
{
    let mut text = Vec::new(alloc);
    text.push(b' ')?;
    push_span(span, &mut text)?;
    text.push(b'\n')?;
    Ok(text)
}

impl LineEnd {
    /// That of a variable whose name stands here.
    pub fn new(alloc: Global, span: Span) -> Result<LineEnd, AllocError>
        ensures { IfOk result (λ end. end.span ≡ span) }
    {
        let text = end_of(alloc, span)?;
        Ok(LineEnd { span, text })
    }

    /// Appends it for a variable whose name stands here.
    pub fn push(&mut self, alloc: Global, span: Span, lines: &mut Vec<u8>) -> Result<(), AllocError>
        ensures { OnOk result (lines.new.items ≡ lines.old.items ++ end_text span) }
    {
        if self.span != span {
            let text = end_of(alloc, span)?;
            *self = LineEnd { span, text };
        }
        lines.extend_from_slice(self.text.as_slice())
    }
}
