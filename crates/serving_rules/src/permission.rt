// What the policy says of a call.
ghost use Rattle.std.specs.Prelude.{◌≡◌, ◌+◌, ◌<◌, ◌^◌, IfOk};
ghost use Rattle.pt_base.specs.declared.end.End.TheVariants as end;
ghost use Rattle.serving_rules.specs.Permitting.{Permits, permission};

use crate::plain::plain_of;
use policy::{Policy, Verdict};
use pt_base::{Bytes, End, FnId};
use pt_tree::Signature;
use std::alloc::{AllocError, Global};
use wire::CallBody;

/// What the policy says of a call that breaks no rule.
#[derive(Drop)]
pub enum Permission {
    /// It is made; so many guarded calls were allowed by then.
    Granted(u64),
    /// It is denied, which ends the run.
    Refused(End),
}

/// Asks the policy about a call of what is privileged, which is guarded; that of a mixed host isn't. So many guarded calls were
/// allowed before. Where the call is denied the policy stays as it is.
pub fn permit(
    alloc: Global,
    policy: &mut Policy,
    calls: u64,
    f: FnId,
    sig: &Signature,
    body: &CallBody,
) -> Result<Permission, AllocError>
    requires { calls < 2 ^ 63 }
    ensures { IfOk result (λ p. Permits p policy.old policy.new (permission policy.old calls f.0 sig.now body.now)) }
{
    if !sig.privileged {
        return Ok(Permission::Granted(calls));
    }
    let plain = plain_of(alloc, sig, body)?;
    match policy.decide(f, plain.as_slice()) {
        Verdict::Allow(_) => Ok(Permission::Granted(calls + 1)),
        Verdict::Deny => Ok(Permission::Refused(refusal(alloc, policy, calls, f)?)),
    }
}

// The end of a run whose next guarded call is denied.
fn refusal(alloc: Global, policy: &Policy, calls: u64, f: FnId) -> Result<End, AllocError>
    requires { calls < 2 ^ 63 }
    ensures { IfOk result (λ e. e ≡ end.Refused (calls + 1) f policy.now.state) }
{
    let state = Bytes::new(policy.state().to_vec(alloc)?);
    Ok(End::Refused {
        call: calls + 1,
        function: f,
        state,
    })
}
