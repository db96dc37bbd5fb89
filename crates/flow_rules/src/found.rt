// What the rules find.
use crate::rule::Rule;
use pt_base::Span;

/// A broken rule, where it shows, and the first privileged slot that makes it one. What is found is
/// ordered by where it begins, then by where it ends, then by the number of the rule.
#[derive(Clone, Copy, PartialEq, Eq, PartialOrd, Ord)]
pub(crate) struct Found {
    pub span: Span,
    pub rule: Rule,
    pub slot: Option<u64>,
}
