// What holds of whole runs.
ghost use Rattle.source_meaning.specs.Laws.{EndedRunsStay, SpentRunsUseAll, FewerTurnsShowLess, SizesAreLeaves};

/// A run that ended before its budget was spent is the same with every budget that has the turns
/// which it used, and is spent with every smaller one.
pub fn ended_runs_stay()
    ensures { EndedRunsStay }
{}

/// A run uses no more turns than its budget has, and all of them where it ends Spent.
pub fn spent_runs_use_all()
    ensures { SpentRunsUseAll }
{}

/// With fewer turns the same is seen, as far as they go.
pub fn fewer_turns_show_less()
    ensures { FewerTurnsShowLess }
{}

/// The sizes by which objects are laid out are the numbers of their integer leaves.
pub fn sizes_are_leaves()
    ensures { SizesAreLeaves }
{}
