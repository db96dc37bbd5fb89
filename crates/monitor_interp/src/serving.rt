// What a monitor makes of a message.
ghost use Rattle.std.specs.Prelude.{◌≡◌, ◌+◌, IfOk, None};
ghost use Rattle.wire.specs.Limits.{KeepsCounts};
ghost use Rattle.pair_meaning.specs.Monitors as pair;
ghost use Rattle.pair_meaning.specs.Monitors.{low};
ghost use Rattle.pair_meaning.specs.Rules.{early_rule, needs, rules};
ghost use Rattle.pair_meaning.specs.Serving.{left_for, verdict_on};
ghost use Rattle.monitor_interp.specs.Handling.{Acts};
ghost use Rattle.monitor_interp.specs.Standing.{Stands};

use crate::call::Call;
use crate::calls::serve_call;
use crate::handled::Handled;
use crate::state::State;
use pt_base::{End, FnId};
use pt_core::MonitorProgram;
use serving_rules::{PeerRule, early_rule, turns_left};
use std::alloc::{AllocError, Global};
use wire::Message;

/// Serves a message: the rules on turns count first, then the budget, then the other rules.
pub(crate) fn serve(
    program: &MonitorProgram,
    state: &mut State,
    alloc: Global,
    message: &Message,
    out: &mut Vec<u8>,
) -> Result<Handled, AllocError>
    requires counts { KeepsCounts message.now }
    requires stands { (m : pair.Monitor) × Stands program.now state.old m }
    ensures { IfOk result (λ h. (m : pair.Monitor) → Stands program.now state.old m →
        Acts (Stands program.now state.new) m message.now (left_for m message.now) (verdict_on m message.now) h out.old.items out.new.items) }
{
    match early_rule(state.last, message) {
        Some(rule) => Ok(Handled::Bad(rule)),
        None => {
            let handled = serve_in_turn(program, state, alloc, message, out)?;
            Ok(handled)
        }
    }
}

// Serves a message that breaks no rule on turns.
fn serve_in_turn(
    program: &MonitorProgram,
    state: &mut State,
    alloc: Global,
    message: &Message,
    out: &mut Vec<u8>,
) -> Result<Handled, AllocError>
    requires counts { KeepsCounts message.now }
    requires stands { (m : pair.Monitor) × Stands program.now state.old m }
    ensures { IfOk result (λ h. (m : pair.Monitor) → Stands program.now state.old m → early_rule m.last message.now ≡ None →
        Acts (Stands program.now state.new) m message.now (left_for m message.now) (verdict_on m message.now) h out.old.items out.new.items) }
{
    match turns_left(state.budget - state.turns, message) {
        Some(left) => {
            let handled = act(program, state, alloc, message, left, out)?;
            Ok(handled)
        }
        None => Ok(Handled::Ended(End::Spent)),
    }
}

// Does what a message asks for whose turns are fine, behind which so many are left.
fn act(
    program: &MonitorProgram,
    state: &mut State,
    alloc: Global,
    message: &Message,
    left: u64,
    out: &mut Vec<u8>,
) -> Result<Handled, AllocError>
    requires counts { KeepsCounts message.now }
    requires stands { (m : pair.Monitor) × Stands program.now state.old m × (left + (needs message.now + m.turns) ≡ m.budget) }
    ensures { IfOk result (λ h. (m : pair.Monitor) → Stands program.now state.old m → left + (needs message.now + m.turns) ≡ m.budget →
        Acts (Stands program.now state.new) m message.now left (rules (low m) message.now) h out.old.items out.new.items) }
{
    match message {
        Message::Boot(_) => Ok(Handled::Bad(PeerRule::BadFrame)),
        Message::Call {
            turns,
            function,
            depth,
            wants,
            body,
        } => {
            let call = Call {
                turns: *turns,
                function: FnId(*function),
                depth: *depth,
                wants: *wants,
                body,
            };
            let handled = serve_call(program, state, alloc, call, left, out)?;
            Ok(handled)
        }
        Message::Emit { turns, bytes } => {
            out.extend_from_slice(bytes.as_slice())?;
            state.last = *turns;
            Ok(Handled::GoesOn(None))
        }
        Message::Exit { status, .. } => Ok(Handled::Ended(End::Exit(*status))),
        Message::Trap { kind, span, .. } => Ok(Handled::Ended(End::Trapped(*kind, *span))),
        Message::Park { .. } => Ok(Handled::Bad(PeerRule::EarlyPark)),
        Message::Reply(_) => Ok(Handled::Bad(PeerRule::BadFrame)),
    }
}
