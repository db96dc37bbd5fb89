// Laws of replies and of faults: how many handles a reply gives, that faults see the types of a store alone, and that a reply
// tells no more of what was computed than its plain numbers.

ghost use Rattle.marshalling_law.specs.RepliesLaws.{CellsByWhatIsTold, FaultsSeeTypes, PostingsGiveFew, RepliesByWhatIsTold, RepliesGiveFew};

/// A reply gives at most one handle for each cell that it brings and one for the result.
pub fn replies_give_few()
    ensures { RepliesGiveFew }
{}

/// So does a call that is posted.
pub fn postings_give_few()
    ensures { PostingsGiveFew }
{}

/// Faults of handles are told by the types of the store alone.
pub fn faults_see_types()
    ensures { FaultsSeeTypes }
{}

/// What is sent of numbers is made of the plain ones and of the next handles.
pub fn cells_by_what_is_told()
    ensures { CellsByWhatIsTold }
{}

/// So is a monitor's reply.
pub fn replies_by_what_is_told()
    ensures { RepliesByWhatIsTold }
{}
