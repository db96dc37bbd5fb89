// Verdicts on calls.

/// What a policy says of a call.
#[derive(Clone, Copy)]
pub enum Verdict {
    /// The rule at this place, counted from 0, allows it, and is used.
    Allow(u32),
    /// No rule fits, and nothing changes.
    Deny,
}
