// What a text that is no policy is answered with, and the line that reports it.
use itoa::Buffer;
use std::alloc::{AllocError, AllocFailed, Global};
use thiserror::Error;

/// What is wrong with a line of a policy.
#[derive(Clone, Copy, Debug)]
pub enum PolicyFaultKind {
    /// The line is not passed over, and its words are no rule.
    Syntax,
    /// The rule's function is no privileged function or host of the program.
    UnknownFunction,
    /// A range is of a parameter that the function does not have, that is a pointer, or that is
    /// marked `priv`.
    UnseenArg,
    /// The rule is one more than [`RULE_LIMIT`](crate::RULE_LIMIT), or the text has more than
    /// [`TEXT_LIMIT`](crate::TEXT_LIMIT) bytes.
    TooLong,
}

impl PolicyFaultKind {
    ghost use Rattle.std.specs.Prelude.{◌≡◌};
    ghost use Rattle.policy.specs.ReportLines.{fault_number, fault_name};

    /// The number of the kind, from 1 on.
    pub fn number(self) -> u8
        ensures { result ≡ fault_number self }
    {
        match self {
            PolicyFaultKind::Syntax => 1,
            PolicyFaultKind::UnknownFunction => 2,
            PolicyFaultKind::UnseenArg => 3,
            PolicyFaultKind::TooLong => 4,
        }
    }

    /// The name of the kind, as reports spell it.
    pub fn name(self) -> &'static str
        ensures { result.now ≡ fault_name self }
    {
        match self {
            PolicyFaultKind::Syntax => "Syntax",
            PolicyFaultKind::UnknownFunction => "UnknownFunction",
            PolicyFaultKind::UnseenArg => "UnseenArg",
            PolicyFaultKind::TooLong => "TooLong",
        }
    }
}

/// The first fault of a policy's text.
#[derive(Clone, Copy, Debug)]
pub struct PolicyFault {
    pub kind: PolicyFaultKind,
    /// The line, counted from 1 with those that are passed over; 0 where the text is too long.
    pub line: u32,
}

impl PolicyFault {
    ghost use Rattle.std.specs.Prelude.{◌≡◌, IfOk};
    ghost use Rattle.policy.specs.ReportLines.{report_line};

    /// The line that reports the fault, without a line feed: `policy`, the number and the name of
    /// its kind, and its line.
    pub fn report_line(self, alloc: Global) -> Result<Vec<u8>, AllocError>
        ensures { IfOk result (λ line. line.items ≡ report_line self) }
    {
        let (mut number, mut place) = (Buffer::new(), Buffer::new());
        let mut line = Vec::from_slice(alloc, b"policy ")?;
        line.extend_from_slice(number.format(self.kind.number()).as_bytes())?;
        line.push(b' ')?;
        line.extend_from_slice(self.kind.name().as_bytes())?;
        line.push(b' ')?;
        line.extend_from_slice(place.format(self.line).as_bytes())?;
        Ok(line)
    }
}

/// Why a text gives no policy.
#[derive(Debug, Drop, Error)]
pub enum PolicyError {
    #[error("out of memory")]
    Memory,
    #[error("the policy has a fault")]
    Fault(PolicyFault),
}

impl From<AllocError> for PolicyError {
    ghost use Rattle.std.specs.Prelude.{◌≡◌};
    ghost use Rattle.policy.specs.declared.error.PolicyError.TheVariants.{Memory};

    ghost from_gives = { λ _ e. e ≡ Memory };

    fn from(_: AllocError) -> Self {
        PolicyError::Memory
    }
}

impl<T: Drop> From<AllocFailed<T>> for PolicyError {
    ghost use Rattle.std.specs.Prelude.{◌≡◌};
    ghost use Rattle.policy.specs.declared.error.PolicyError.TheVariants.{Memory};

    ghost from_gives = { λ _ e. e ≡ Memory };

    fn from(_: AllocFailed<T>) -> Self {
        PolicyError::Memory
    }
}
