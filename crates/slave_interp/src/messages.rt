// Whether a slave's turns are used up.
ghost use Rattle.std.specs.Prelude.{◌≡◌, ◌+◌, ◌<◌, false, nat_le};

/// Whether the turns that were taken and the calls that were said come to the budget.
pub(crate) fn is_used_up(turns: u64, calls: u64, budget: u64) -> bool
    ensures used { result ≡ nat_le budget (turns + calls) }
    ensures room { result ≡ false → calls < budget }
{
    turns >= budget || calls >= budget - turns
}
