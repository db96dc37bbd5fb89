// The policy to start from.
ghost use Rattle.std.specs.Prelude.{◌≡◌, ◌++◌, IfOk, OnOk};
ghost use Rattle.typed_tree.specs.TypedView.{view_typed};
ghost use Rattle.starting_texts.specs.Policies.{rule_of, policy_text, IsStartingPolicy};

use crate::texts::StartingPolicy;
use policy::{RULE_LIMIT, TEXT_LIMIT};
use pt_base::FnId;
use std::alloc::{AllocError, Global};
use typed_tree::Typed;

/// A policy to start from: it has one state, and a rule for each of these functions, which are the privileged
/// functions and hosts that may be called. Time and memory are linear in their names.
pub fn starting_policy(
    alloc: Global,
    t: &Typed,
    guarded: &[FnId],
) -> Result<StartingPolicy, AllocError>
    ensures { IfOk result (IsStartingPolicy (view_typed t.now) guarded.now) }
{
    if guarded.len() > RULE_LIMIT {
        return Ok(StartingPolicy::TooLong);
    }
    let text = policy_text(alloc, t, guarded)?;
    if text.len() > TEXT_LIMIT {
        return Ok(StartingPolicy::TooLong);
    }
    Ok(StartingPolicy::Text(text))
}

// The policy's text.
fn policy_text(alloc: Global, t: &Typed, guarded: &[FnId]) -> Result<Vec<u8>, AllocError>
    ensures { IfOk result (λ text. text.items ≡ policy_text (view_typed t.now) guarded.now) }
{
    let mut text = Vec::new(alloc);
    for f in guarded {
        push_rule(t, *f, &mut text)?;
    }
    Ok(text)
}

// Appends the rule of the function of this number.
fn push_rule(t: &Typed, f: FnId, text: &mut Vec<u8>) -> Result<(), AllocError>
    ensures { OnOk result (text.new.items ≡ text.old.items ++ rule_of (view_typed t.now) f) }
{
    if let Some(signature) = t.signature(f) {
        text.extend_from_slice(b"from start allow ")?;
        text.extend_from_slice(signature.name.as_slice())?;
        text.extend_from_slice(b" to start\n")?;
    }
    Ok(())
}
