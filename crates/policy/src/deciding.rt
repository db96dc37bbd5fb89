// The first rule that fits a call.
ghost use Rattle.std.specs.Prelude.{◌≡◌, ◌<◌, ◌&&◌, ℕ, List, IfSome, IsTrue, length};
ghost use Rattle.std.specs.List.{list_all};
ghost use Rattle.policy.specs.Indexed.{IsIndex};
ghost use Rattle.policy.specs.Places.{state_number};
ghost use Rattle.policy.specs.Verdicts.{is_within, is_left, fits, first_fit_from, one_more};

use crate::index::RuleIndex;
use crate::rule::{PlainRange, Rule};
use pt_base::FnId;

/// The place of the first rule that fits the call in the state of this number, with the uses so
/// far. Looks at the rules of that state and of the function alone.
pub(crate) fn first_fit(
    rules: &[Rule],
    uses: &[u32],
    index: &RuleIndex,
    state: u32,
    f: FnId,
    plain: &[i128],
) -> Option<u32>
    requires index { IsIndex rules.now index.now }
    requires uses { length uses.now ≡ length rules.now }
    ensures fit { (name : List ℕ) → state ≡ state_number rules.now name →
        result ≡ first_fit_from (fits name f plain.now) 0 rules.now uses.now }
    ensures within { IfSome result (λ k. k < length rules.now) }
{
    let mut next = index.first(state, f);
    while let Some(place) = next {
        let k = place as usize;
        if may_use(&rules[k], plain, uses[k]) {
            return Some(place);
        }
        next = index.step(k).following;
    }
    None
}

// Whether the plain numbers are in the rule's ranges, and it may be used once more.
fn may_use(rule: &Rule, plain: &[i128], uses: u32) -> bool
    ensures { result ≡ (list_all (is_within plain.now) rule.now.ranges && is_left rule.now.most uses) }
{
    are_within(rule.ranges.as_slice(), plain) && is_left(rule.most, uses)
}

fn are_within(ranges: &[PlainRange], plain: &[i128]) -> bool
    ensures { result ≡ list_all (is_within plain.now) ranges.now }
{
    ranges.iter().all(|range| is_within(range, plain))
}

fn is_within(range: &PlainRange, plain: &[i128]) -> bool
    ensures { result ≡ is_within plain.now range.now }
{
    match plain.get(range.place) {
        Some(value) => range.low <= *value && *value <= range.high,
        None => false,
    }
}

fn is_left(most: Option<u32>, uses: u32) -> bool
    ensures { result ≡ is_left most uses }
{
    match most {
        Some(most) => uses < most,
        None => true,
    }
}

/// One use more, where there is a limit.
pub(crate) fn one_more(most: Option<u32>, uses: u32) -> u32
    requires { IsTrue (is_left most uses) }
    ensures { result ≡ one_more most uses }
{
    match most {
        Some(_) => uses + 1,
        None => uses,
    }
}
