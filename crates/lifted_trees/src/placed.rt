// Where sites stand.
use pt_base::Span;

/// A site by where it stands: its span, and its place in the order of evaluation. Of two sites of one span the
/// inner one is evaluated first, so sites are ordered by where they begin, then by where they end, the inner first.
#[derive(Clone, Copy, PartialEq, Eq, PartialOrd, Ord)]
pub struct Placed {
    pub span: Span,
    pub place: u32,
}
