// Policies: what may be called, by what was called before.
use crate::RULE_LIMIT;
use crate::deciding::{first_fit, one_more};
use crate::index::RuleIndex;
use crate::indexing::rule_index;
use crate::rule::{Rule, copied_rules};
use crate::starting::first_state;
use crate::verdict::Verdict;
use pt_base::FnId;
use std::alloc::{AllocError, Global};
use std::marker::Model;

/// A policy where it stands. Contracts see its rules, the name of its state, and how often each
/// rule with a limit was used.
#[derive(Drop)]
pub struct Policy {
    rules: Vec<Rule>,
    uses: Vec<u32>,
    index: RuleIndex,
    // the number of the state
    number: u32,
    // the rule that was used last
    last: Option<u32>,
}

impl Model for Policy {
    ghost use Rattle.policy.specs.Verdicts.{Standing};

    ghost Value = { Standing };

    ghost use Rattle.policy.specs.PolicyView.{state_after, IsKept};

    ghost view = { λ p. record { rules = p.rules.items; state = state_after p.rules.items p.last; uses = p.uses.items } };

    ghost invariant = { λ p. IsKept p.rules.items p.uses.items p.index p.number p.last };
}

impl Policy {
    ghost use Rattle.std.specs.Prelude.{◌≡◌, ◌≤◌, ◌∷◌, List, IfOk, length};
    ghost use Rattle.policy.specs.Verdicts.{verdict_on, after, verdicts, Call, start};

    /// The policy of these rules at its start.
    pub(crate) fn new(alloc: Global, rules: Vec<Rule>) -> Result<Policy, AllocError>
        requires { length rules.items ≤ RULE_LIMIT }
        ensures { IfOk result (λ p. p ≡ start rules.items) }
    {
        let index = rule_index(alloc, &rules)?;
        let uses = vec![in alloc; 0; rules.len()]?;
        Ok(Policy {
            rules,
            uses,
            index,
            number: 0,
            last: None,
        })
    }

    /// A policy with the same rules, where this one stands.
    pub fn copy(&self, alloc: Global) -> Result<Policy, AllocError>
        ensures { IfOk result (λ p. p ≡ self.now) }
    {
        let rules = copied_rules(alloc, &self.rules)?;
        let uses = Vec::from_slice(alloc, &self.uses)?;
        let index = rule_index(alloc, &rules)?;
        Ok(Policy {
            rules,
            uses,
            index,
            number: self.number,
            last: self.last,
        })
    }

    /// The verdict on a privileged call, by the plain numbers that it gives.
    /// The first rule that fits allows the call and is used; after `Deny` nothing is changed.
    pub fn decide(&mut self, f: FnId, plain: &[i128]) -> Verdict
        ensures verdict { result ≡ verdict_on self.old f plain.now }
        ensures after { self.new ≡ after self.old result }
        ensures fold { (calls : List Call) →
            verdicts self.old (record { function = f; plain = plain.now } ∷ calls) ≡ result ∷ verdicts self.new calls }
    {
        let Some(place) = first_fit(&self.rules, &self.uses, &self.index, self.number, f, plain)
        else {
            return Verdict::Deny;
        };
        let k = place as usize;
        self.uses[k] = one_more(self.rules[k].most, self.uses[k]);
        self.number = self.index.step(k).to;
        self.last = Some(place);
        Verdict::Allow(place)
    }

    /// The name of the state.
    pub fn state(&self) -> &[u8]
        ensures { result.now ≡ self.now.state }
    {
        match self.last {
            Some(place) => match self.rules.get(place as usize) {
                Some(rule) => rule.to.as_slice(),
                None => first_state(&self.rules),
            },
            None => first_state(&self.rules),
        }
    }
}
