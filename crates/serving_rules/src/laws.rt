// The laws of the rules.
ghost use Rattle.serving_rules.specs.Opening.{RulesSeeTypes};
ghost use Rattle.serving_rules.specs.Permitting.{PermissionsDecide};

/// Which rule a call breaks is told by the types of what is stored.
pub fn rules_see_types()
    ensures { RulesSeeTypes }
{}

/// What becomes of a call that breaks no rule is what the policy says.
pub fn permissions_decide()
    ensures { PermissionsDecide }
{}
