// Each expression of a body has exactly one usage in the list by which the flow rules go.

ghost use Rattle.usages.specs.Laws.{OutermostStand, UsagesAreTheExpressions};

/// What the usages of a body use is all its expressions, each as often as it stands in the body.
pub fn body_usages_are_its_expressions()
    ensures { UsagesAreTheExpressions }
{}

/// In a well-formed program, each expression that a statement of a body names is there.
pub fn outermost_expressions_stand()
    ensures { OutermostStand }
{}
