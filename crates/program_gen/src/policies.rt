// The policy of a program.
ghost use Rattle.std.specs.Prelude.{◌≡◌, ◌++◌, IfOk, OnOk};
ghost use Rattle.program_gen.specs.Functions.{is_guarded};
ghost use Rattle.program_gen.specs.Policies.{policy_of, rule_of};

use crate::functions::{Function, Kind};
use crate::programs::push_name;
use std::alloc::{AllocError, Global};

// Whether the policy is asked where it is called.
fn is_guarded(function: &Function) -> bool
    ensures { result ≡ is_guarded function.now }
{
    match function.kind {
        Kind::Adds | Kind::Loops | Kind::Signs => false,
        Kind::Declassifies => true,
    }
}

// Appends the rule that allows a function, where the policy is asked about it.
fn push_rule(function: &Function, policy: &mut Vec<u8>) -> Result<(), AllocError>
    ensures { OnOk result (policy.new.items ≡ policy.old.items ++ rule_of function.now) }
{
    if is_guarded(function) {
        policy.extend_from_slice(b"from a allow ")?;
        push_name(function, policy)?;
        policy.extend_from_slice(b" to a\n")?;
    }
    Ok(())
}

/// The policy that allows the hosts' guarded calls and those of these functions.
pub(crate) fn policy_of(alloc: Global, functions: &[Function]) -> Result<Vec<u8>, AllocError>
    ensures { IfOk result (λ policy. policy.items ≡ policy_of functions.now) }
{
    let mut policy = Vec::from_slice(alloc, b"from a allow load to a\nfrom a allow sign to a\n")?;
    for function in functions {
        push_rule(function, &mut policy)?;
    }
    Ok(policy)
}
