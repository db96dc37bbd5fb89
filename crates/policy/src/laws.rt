// The laws of policies: what a text spells is one thing, and what a policy says of calls is a fold.
ghost use Rattle.policy.specs.Plain.{PlacesAreArguments};
ghost use Rattle.policy.specs.Laws.{RuleIsOne, PolicyIsOne, FaultIsOne, PolicyOrFault, VerdictsAreSteps, LimitsHold};

/// Words spell at most one rule, and a text is a policy of at most one list of rules.
pub fn rules_are_one()
    ensures words { RuleIsOne }
    ensures text { PolicyIsOne }
{}

/// A text is a policy or has a fault, never both, and two faults of it are equal.
pub fn policy_or_fault()
    ensures either { PolicyOrFault }
    ensures one { FaultIsOne }
{}

/// The place of a range among a call's plain numbers has the argument of the parameter that the rule
/// names, or nothing where the call doesn't give it.
pub fn places_are_arguments()
    ensures { PlacesAreArguments }
{}

/// The verdicts on calls are given one after the other: each is that of the policy as the calls
/// before left it.
pub fn verdicts_are_steps()
    ensures { VerdictsAreSteps }
{}

/// A rule with a limit allows no more calls than it says, whatever is called.
pub fn limits_hold()
    ensures { LimitsHold }
{}
