// The labels of a switch that were seen so far.
ghost use Rattle.std.specs.Prelude.{◌≡◌, not, IfOk, OnOk};
ghost use Rattle.check_statements.specs.Labels.{is_seen, with_case, none_seen};
ghost use Rattle.check_statements.specs.Seen.{seen_of};

use indexmap::IndexSet;
use std::alloc::{AllocError, Global};

/// The labels of a switch so far.
#[derive(Drop)]
pub(crate) struct SeenLabels {
    /// The values of its cases.
    pub cases: IndexSet<i128>,
    /// There is a `default`.
    pub has_default: bool,
}

impl SeenLabels {
    /// None.
    pub fn none(alloc: Global) -> SeenLabels
        ensures { seen_of result ≡ none_seen }
    {
        SeenLabels {
            cases: IndexSet::new(alloc),
            has_default: false,
        }
    }

    /// Adds a case of this value, and says whether it is the first one.
    pub fn add_case(&mut self, value: i128) -> Result<bool, AllocError>
        ensures new { IfOk result (λ b. b ≡ not (is_seen (seen_of self.old).cases value)) }
        ensures cases { OnOk result ((seen_of self.new).cases ≡ with_case (seen_of self.old).cases value) }
        ensures default { (seen_of self.new).has_default ≡ (seen_of self.old).has_default }
    {
        let is_new = self.cases.insert(value)?;
        Ok(is_new)
    }
}
