//! Plain facts on truth values, numbers, lists and options, and the law that each list has an ascending one with
//! the same keys.
#![tactic(auto)]

ghost use Rattle.facts.specs.Laws.{ListsAscend};

/// By whatever total order, each list has an ascending one of the same elements, of which one is taken where
/// several tie. It does nothing.
pub fn lists_ascend<K>()
    ensures { ListsAscend K }
{}
