// Where a program breaks a rule, and by which way a secret comes there.
ghost use Rattle.std.specs.Prelude.{◌≡◌};

use crate::rule::Rule;
use pt_base::{Listed, Slot, Span};
use std::alloc::{AllocError, AllocFailed};

/// A place where a rule is broken.
#[derive(Drop)]
pub struct FlowFault {
    pub rule: Rule,
    pub span: Span,
    /// Where the secret begins of which the path tells; None where the rule speaks of no secret.
    pub origin: Option<Slot>,
    /// The values that moved, one after the other, until a secret came here: nothing where it begins
    /// here, and where the rule speaks of no secret.
    pub path: Listed<Span>,
}

/// Why a program isn't accepted.
#[derive(Drop)]
pub enum FlowError {
    /// All its faults, by where they begin, then by where they end, then by the number of the rule.
    Faults(Listed<FlowFault>),
    /// Memory is wanting.
    Memory,
}

impl From<AllocError> for FlowError {
    ghost use Rattle.flow_rules.specs.declared.fault.FlowError.TheVariants.{Memory};

    ghost from_gives = { λ _ e. e ≡ Memory };

    fn from(_: AllocError) -> Self {
        FlowError::Memory
    }
}

impl<T: Drop> From<AllocFailed<T>> for FlowError {
    ghost use Rattle.flow_rules.specs.declared.fault.FlowError.TheVariants.{Memory};

    ghost from_gives = { λ _ e. e ≡ Memory };

    fn from(_: AllocFailed<T>) -> Self {
        FlowError::Memory
    }
}
