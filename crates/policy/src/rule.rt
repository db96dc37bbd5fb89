// Rules over the functions of a program.
ghost use Rattle.std.specs.Prelude.{◌≡◌, IfOk};

use pt_base::{Bytes, FnId, Listed};
use std::alloc::{AllocError, Global};

/// A range for one of a call's plain numbers, by its place among them from 0, bounds included.
#[derive(Clone, Copy)]
pub struct PlainRange {
    pub place: usize,
    pub low: i128,
    pub high: i128,
}

/// A rule: in the state `from` it allows calls of the function whose plain numbers are in the
/// ranges, at most so often, and then the state is `to`.
#[derive(Drop)]
pub struct Rule {
    pub from: Bytes,
    pub function: FnId,
    pub ranges: Listed<PlainRange>,
    /// How often the rule may be used; None is without limit.
    pub most: Option<u32>,
    pub to: Bytes,
}

impl Rule {
    /// A rule that is equal to this one.
    pub fn copy(&self, alloc: Global) -> Result<Rule, AllocError>
        ensures { IfOk result (λ r. r ≡ self.now) }
    {
        Ok(Rule {
            from: self.from.copy(alloc)?,
            function: self.function,
            ranges: self.ranges.copy(alloc)?,
            most: self.most,
            to: self.to.copy(alloc)?,
        })
    }
}

/// Rules that are equal to these.
pub(crate) fn copied_rules(alloc: Global, rules: &[Rule]) -> Result<Vec<Rule>, AllocError>
    ensures { IfOk result (λ v. v.items ≡ rules.now) }
{
    let mut copies = Vec::with_capacity(alloc, rules.len())?;
    for rule in rules {
        copies.push(rule.copy(alloc)?)?;
    }
    Ok(copies)
}
