// Stretches of the text with their lines.
ghost use Rattle.std.specs.Prelude.{◌≡◌, ◌++◌, ◌-◌, OnOk};
ghost use Rattle.source_places.specs.Excerpts.{quoted};
ghost use Rattle.source_places.specs.LinesSeen.{text_of};
ghost use Rattle.explaining.specs.FrontBlocks.{span_excerpt};

use pt_base::Span;
use source_places::Lines;
use std::alloc::AllocError;

// how many bytes a stretch has
fn width(span: Span) -> usize
    ensures { result ≡ span.to - span.from }
{
    span.to.saturating_sub(span.from) as usize
}

/// Appends the line of a stretch of the text, with a mark under it. Where memory is wanting, a first part of it
/// may stand there.
pub fn push_span_excerpt(
    lines: &Lines<'_>,
    span: Span,
    text: &mut Vec<u8>,
) -> Result<(), AllocError>
    ensures { OnOk result (text.new.items ≡ text.old.items ++ span_excerpt (text_of lines.now) span) }
{
    lines.push_excerpt(span.from as usize, width(span), text)
}

/// Appends a quote of a stretch of the text.
pub(crate) fn push_span_quote(
    lines: &Lines<'_>,
    span: Span,
    text: &mut Vec<u8>,
) -> Result<(), AllocError>
    ensures { OnOk result (text.new.items ≡ text.old.items ++ quoted (text_of lines.now) span.from (span.to - span.from)) }
{
    lines.push_quoted(span.from as usize, width(span), text)
}
