// The nodes of a monitor's program.
ghost use Rattle.std.specs.Prelude.{◌≡◌, ◌<◌, All, IfOk, IsTrue};
ghost use Rattle.std.specs.List.{list_all};
ghost use Rattle.pt_core.specs.CodeTree.{view_monitor};
ghost use Rattle.pt_core.specs.WellFormed.{is_well_formed_monitor};
ghost use Rattle.monitor_labels.specs.Counting.{is_below};
ghost use Rattle.monitor_labels.specs.NodesView.{AreNodes};

use crate::places::{Places, places_of};
use crate::seeds::seeds_of;
use pt_base::{Listed, Slot};
use pt_core::MonitorProgram;
use std::alloc::{AllocError, Global};

/// What of a program may be secret, each such thing a slot: variables, function by function, a pointer
/// together with what it points to; what functions and privileged hosts give; globals; and of each
/// function whether, and how often, its statements are done. All are in the order of the numbers.
#[derive(Drop)]
pub struct Nodes {
    /// How many there are.
    pub count: u64,
    /// Where secrets begin: variables and globals that are marked `priv`, or have or point to a field that
    /// is, and what privileged hosts give.
    pub seeds: Listed<Slot>,
    // where those of each kind begin
    pub(crate) places: Places,
}

// whether each is numbered below the count
fn are_below(seeds: &[Slot], count: u64) -> bool
    ensures { result ≡ list_all (is_below count) seeds.now }
{
    for seed in seeds {
        if seed.0 >= count {
            return false;
        }
    }
    true
}

/// The nodes of a monitor's program. Time and memory are linear in the program.
///
/// # Errors
///
/// Want of memory alone; so would be a seed that is no node, which there is none of.
pub fn nodes_of(alloc: Global, p: &MonitorProgram) -> Result<Nodes, AllocError>
    requires { IsTrue (is_well_formed_monitor (view_monitor p.now)) }
    ensures are { IfOk result (λ n. AreNodes (view_monitor p.now) n) }
    ensures seeds { IfOk result (λ n. All (λ s. s.0 < n.count) n.seeds) }
{
    let places = places_of(alloc, p)?;
    let seeds = seeds_of(alloc, p, &places)?;
    if !are_below(&seeds, places.count) {
        return Err(AllocError);
    }
    Ok(Nodes {
        count: places.count,
        seeds: Listed::new(seeds),
        places,
    })
}
