// The numbers of states: each is the place of the first rule that begins there.
ghost use Rattle.std.specs.Prelude.{◌≡◌, ◌<◌, ◌^◌, ℕ, List, IfOk, length};
ghost use Rattle.policy.specs.Places.{HaveStates, state_number};
ghost use Rattle.policy.specs.declared.rule.Rule.{Rule};

use crate::rule::Rule;
use std::alloc::{AllocError, Global};
use std::collections::HashMap;

/// The numbers of the states in which rules begin.
pub(crate) fn state_numbers(
    alloc: Global,
    rules: &[Rule],
) -> Result<HashMap<&[u8], u32>, AllocError>
    requires { length rules.now < 2 ^ 32 }
    ensures { IfOk result (λ m. HaveStates m.entries rules.now) }
{
    let mut numbers = HashMap::new(alloc);
    let mut next = rules.len();
    while next > 0 {
        next -= 1;
        let rule = &rules[next];
        numbers.insert(rule.from.as_slice(), next as u32)?;
    }
    Ok(numbers)
}

/// The number of a state; the number of rules where no rule begins there.
pub(crate) fn state_number(numbers: &HashMap<&[u8], u32>, rules: u32, state: &[u8]) -> u32
    ensures { (all : List Rule) → HaveStates numbers.now.entries all → length all ≡ rules →
        result ≡ state_number all state.now }
{
    numbers.get(&state).copied().unwrap_or(rules)
}
