// What holds of the texts to start from.
ghost use Rattle.starting_texts.specs.Laws.{TablesAreCompact, TablesHaveNoFault, UnfitHostsAreAtFault, PoliciesHaveNoFault, PoliciesAllow, PoliciesStay, ProgramsHaveTables, ProgramsHavePolicies};

/// The table to start from is the compact text of an object with a member for each host.
pub fn tables_are_compact()
    ensures { TablesAreCompact }
{}

/// Where an entry fits each host, the table to start from has no fault, unless it is too long.
pub fn tables_have_no_fault()
    ensures { TablesHaveNoFault }
{}

/// Where no entry fits some host, each host table has a fault.
pub fn unfit_hosts_are_at_fault()
    ensures { UnfitHostsAreAtFault }
{}

/// The policy to start from has no fault, unless it is too long, and is one of a rule for each function.
pub fn policies_have_no_fault()
    ensures { PoliciesHaveNoFault }
{}

/// The policy to start from allows each call of its functions, whatever its numbers are and whatever was called
/// before, and no call changes it.
pub fn policies_allow()
    ensures allows { PoliciesAllow }
    ensures stays { PoliciesStay }
{}

/// Of each program there is a table to start from, or why there is none, and of whatever functions of it a policy.
pub fn programs_have_starting_texts()
    ensures tables { ProgramsHaveTables }
    ensures policies { ProgramsHavePolicies }
{}
