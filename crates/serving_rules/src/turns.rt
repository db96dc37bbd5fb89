// The rules on turns, which count before all others.
ghost use Rattle.std.specs.Prelude.{◌≡◌, ◌+◌, ◌-◌, None, Some, if◌then◌else◌, nat_lt, option_map};
ghost use Rattle.pair_meaning.specs.Rules.{bad_turns, broken_if};
ghost use Rattle.pair_meaning.specs.Rules as rules;
ghost use Rattle.serving_rules.specs.RuleNames.{rule_of};
ghost use Rattle.serving_rules.specs.Turns.{left_behind};

use crate::peer_rule::PeerRule;
use wire::Message;

/// The rule on turns that a message breaks, where the slave had taken so many by its last one: a slave says no Boot and no
/// Reply, its turns don't go back, and where it writes it has taken one more.
pub fn early_rule(last: u64, message: &Message) -> Option<PeerRule>
    ensures { option_map rule_of result ≡ rules.early_rule last message.now }
{
    match message {
        Message::Boot(_) => Some(PeerRule::BadFrame),
        Message::Call { turns, .. } => bad_turns_if(*turns < last),
        Message::Emit { turns, .. } => bad_turns_if(*turns <= last),
        Message::Exit { turns, .. } => bad_turns_if(*turns < last),
        Message::Trap { turns, .. } => bad_turns_if(*turns < last),
        Message::Park { turns } => bad_turns_if(*turns < last),
        Message::Reply(_) => Some(PeerRule::BadFrame),
    }
}

fn bad_turns_if(broken: bool) -> Option<PeerRule>
    ensures { option_map rule_of result ≡ broken_if broken bad_turns }
{
    if broken {
        Some(PeerRule::BadTurns)
    } else {
        None
    }
}

/// How many turns are left behind a message, of so many that slave and monitor may take beside those that the monitor has taken;
/// None where it needs more. A call takes one of its own.
pub fn turns_left(left: u64, message: &Message) -> Option<u64>
    ensures { result ≡ left_behind left message.now }
{
    match message {
        Message::Boot(_) => Some(left),
        Message::Call { turns, .. } => behind_call(left, *turns),
        Message::Emit { turns, .. } => behind(left, *turns),
        Message::Exit { turns, .. } => behind(left, *turns),
        Message::Trap { turns, .. } => behind(left, *turns),
        Message::Park { turns } => behind(left, *turns),
        Message::Reply(_) => Some(left),
    }
}

fn behind(left: u64, turns: u64) -> Option<u64>
    ensures { result ≡ (if nat_lt left turns then None else Some (left - turns)) }
{
    if left < turns {
        None
    } else {
        Some(left - turns)
    }
}

fn behind_call(left: u64, turns: u64) -> Option<u64>
    ensures { result ≡ (if nat_lt left (turns + 1) then None else Some (left - (turns + 1))) }
{
    if left <= turns {
        None
    } else {
        Some(left - turns - 1)
    }
}
