// Where policies start.
ghost use Rattle.std.specs.Prelude.{◌≡◌};
ghost use Rattle.policy.specs.Verdicts.{first_state};

use crate::rule::Rule;

/// The state at the start: the first rule's, and `-` where there are no rules.
pub(crate) fn first_state(rules: &[Rule]) -> &[u8]
    ensures { result.now ≡ first_state rules.now }
{
    match rules.first() {
        Some(rule) => rule.from.as_slice(),
        None => b"-",
    }
}
