// Why texts aren't taken further.
use c_lexer::LexFault;
use check_declarations::TypeFault;
use flow_rules::FlowFault;
use front_end::{FrontError, ParseFault};
use host_table::HostFault;
use policy::{PolicyError, PolicyFault};
use pt_base::Listed;
use std::alloc::{AllocError, AllocFailed};
use typed_tree::Typed;

/// Why texts aren't taken further: the faults of the first stage that has one.
#[derive(Drop)]
pub enum Refusal {
    /// The program's text has no tokens: its first fault.
    Lex(LexFault),
    /// Its tokens are no program: the first fault.
    Parse(ParseFault),
    /// All type faults of the program, by their places and then by number, each once.
    Types(Vec<TypeFault>),
    /// The faults of the host table for this program, at least one.
    Host(Typed, Listed<HostFault>),
    /// The first fault of the policy.
    Policy(PolicyFault),
    /// The faults of this program's flows, at least one, by where they begin, then by where they end, then by the
    /// number of the rule.
    Flow(Typed, Listed<FlowFault>),
    /// The input is too long.
    Input,
}

/// Why a climb stops.
#[derive(Drop)]
pub enum Stop {
    /// A stage refuses the texts.
    Refused(Refusal),
    /// Memory is wanting.
    Memory,
}

impl From<AllocError> for Stop {
    ghost use Rattle.std.specs.Prelude.{◌≡◌};
    ghost use Rattle.stages.specs.declared.refusal.Stop.TheVariants.{Memory};

    ghost from_gives = { λ _ e. e ≡ Memory };

    fn from(_: AllocError) -> Self {
        Stop::Memory
    }
}

impl<T: Drop> From<AllocFailed<T>> for Stop {
    ghost use Rattle.std.specs.Prelude.{◌≡◌};
    ghost use Rattle.stages.specs.declared.refusal.Stop.TheVariants.{Memory};

    ghost from_gives = { λ _ e. e ≡ Memory };

    fn from(_: AllocFailed<T>) -> Self {
        Stop::Memory
    }
}

impl From<FrontError> for Stop {
    ghost use Rattle.std.specs.Prelude.{◌≡◌};
    ghost use Rattle.stages.specs.Stops.{front_stop};

    ghost from_gives = { λ error e. e ≡ front_stop error };

    fn from(error: FrontError) -> Self {
        match error {
            FrontError::Lex(fault) => Stop::Refused(Refusal::Lex(fault)),
            FrontError::Parse(fault) => Stop::Refused(Refusal::Parse(fault)),
            FrontError::Types(faults) => Stop::Refused(Refusal::Types(faults)),
            FrontError::Memory => Stop::Memory,
        }
    }
}

impl From<PolicyError> for Stop {
    ghost use Rattle.std.specs.Prelude.{◌≡◌};
    ghost use Rattle.stages.specs.Stops.{policy_stop};

    ghost from_gives = { λ error e. e ≡ policy_stop error };

    fn from(error: PolicyError) -> Self {
        match error {
            PolicyError::Fault(fault) => Stop::Refused(Refusal::Policy(fault)),
            PolicyError::Memory => Stop::Memory,
        }
    }
}
