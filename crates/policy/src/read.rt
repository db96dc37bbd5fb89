// Policies are read.
ghost use Rattle.std.specs.Prelude.{◌≡◌, ◌<◌, ◌^◌, IfOk, MatchResult, length, map, vec_len};
ghost use Rattle.typed_tree.specs.TypedTree.{signatures_of};
ghost use Rattle.typed_tree.specs.TypedView.{view_typed};
ghost use Rattle.policy.specs.Functions.{known};
ghost use Rattle.policy.specs.PolicyFault.{IsPolicy, IsPolicyError};
ghost use Rattle.policy.specs.Verdicts.{start};

use crate::TEXT_LIMIT;
use crate::error::{PolicyError, PolicyFault, PolicyFaultKind};
use crate::functions::Functions;
use crate::policy::Policy;
use crate::rule::Rule;
use crate::text::read_rules;
use pt_tree::Signature;
use std::alloc::{AllocError, Global};
use typed_tree::Typed;

/// The policy of the text over the functions of the program, at its start.
///
/// # Errors
///
/// `Memory`, or the text's fault: [`PolicyFaultKind::TooLong`] at line 0 where the text has more
/// than [`TEXT_LIMIT`] bytes, and otherwise the first faulty line with what is wrong there.
pub fn read_policy(alloc: Global, text: &[u8], t: &Typed) -> Result<Policy, PolicyError>
    ensures rules { MatchResult result (λ p. IsPolicy (signatures_of (view_typed t.now)) text.now p.rules)
        (IsPolicyError (signatures_of (view_typed t.now)) text.now) }
    ensures start { IfOk result (λ p. p ≡ start p.rules) }
{
    let signatures = signatures_of(alloc, t)?;
    policy_over(alloc, text, &signatures)
}

// The signatures of the functions, by number.
fn signatures_of(alloc: Global, t: &Typed) -> Result<Vec<&Signature>, AllocError>
    ensures all { IfOk result (λ all. map (λ s. s.now) all.items ≡ signatures_of (view_typed t.now)) }
    ensures few { IfOk result (λ all. vec_len all < 2 ^ 32) }
{
    let mut all = Vec::with_capacity(alloc, t.functions.len())?;
    for function in &t.functions {
        all.push(&function.signature)?;
    }
    Ok(all)
}

/// The policy of the text over the functions with these signatures, at its start.
pub(crate) fn policy_over(
    alloc: Global,
    text: &[u8],
    signatures: &[&Signature],
) -> Result<Policy, PolicyError>
    requires { length signatures.now < 2 ^ 32 }
    ensures rules { MatchResult result (λ p. IsPolicy (map (λ s. s.now) signatures.now) text.now p.rules)
        (IsPolicyError (map (λ s. s.now) signatures.now) text.now) }
    ensures start { IfOk result (λ p. p ≡ start p.rules) }
{
    let functions = Functions::new(alloc, signatures)?;
    let rules = rules_of(alloc, text, &functions)?;
    Ok(Policy::new(alloc, rules)?)
}

// The rules of the text.
fn rules_of(alloc: Global, text: &[u8], functions: &Functions) -> Result<Vec<Rule>, PolicyError>
    ensures { MatchResult result (λ rules. IsPolicy (known functions.now) text.now rules.items)
        (IsPolicyError (known functions.now) text.now) }
{
    if text.len() > TEXT_LIMIT {
        return Err(PolicyError::Fault(PolicyFault {
            kind: PolicyFaultKind::TooLong,
            line: 0,
        }));
    }
    read_rules(alloc, text, functions)
}
