// An index of rules is made.
ghost use Rattle.std.specs.Prelude.{◌≡◌, ◌<◌, ◌^◌, IfOk, length};
ghost use Rattle.policy.specs.Indexed.{IsIndex};

use crate::index::RuleIndex;
use crate::rule::Rule;
use crate::states::{state_number, state_numbers};
use crate::step::Step;
use std::alloc::{AllocError, Global};
use std::collections::HashMap;

/// An index of these rules.
pub(crate) fn rule_index(alloc: Global, rules: &[Rule]) -> Result<RuleIndex, AllocError>
    requires { length rules.now < 2 ^ 32 }
    ensures { IfOk result (λ index. IsIndex rules.now index) }
{
    let numbers = state_numbers(alloc, rules)?;
    let count = rules.len() as u32;
    let mut heads = HashMap::new(alloc);
    let mut steps = Vec::with_capacity(alloc, rules.len())?;
    let mut next = rules.len();
    while next > 0 {
        next -= 1;
        let rule = &rules[next];
        let state = state_number(&numbers, count, rule.from.as_slice());
        let to = state_number(&numbers, count, rule.to.as_slice());
        let following = heads.insert((state, rule.function.0), next as u32)?;
        steps.push(Step { to, following })?;
    }
    steps.reverse();
    Ok(RuleIndex { heads, steps })
}
