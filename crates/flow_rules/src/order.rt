// The order of what was found.
ghost use Rattle.std.specs.Prelude.{◌≡◌};
ghost use Rattle.std.specs.List.{Contains};
ghost use Rattle.std.specs.List.Sorted.{IsStrictlySortedBy};
ghost use Rattle.flow_rules.specs.declared.found.Found.{Found};
ghost use Rattle.flow_rules.specs.Told.{IsSameFault, found_cmp, same_fault};

use crate::found::Found;

// whether both tell that the same rule is broken at the same place
fn is_same(a: Found, b: Found) -> bool
    ensures { result ≡ same_fault a b }
{
    a.span == b.span && a.rule.number() == b.rule.number()
}

/// Puts what was found in order, and leaves one of what is the same fault.
pub(crate) fn arrange(list: &mut Vec<Found>)
    ensures sorted { IsStrictlySortedBy found_cmp list.new.items }
    ensures found { (x : Found) → Contains list.new.items x → Contains list.old.items x }
    ensures all { (x : Found) → Contains list.old.items x → (y : Found) × Contains list.new.items y × IsSameFault x y }
{
    list.sort_unstable();
    list.dedup_by(|a, b| is_same(*a, *b));
}
