// What each half of a program has.
ghost use Rattle.std.specs.Prelude.{IfOk};
ghost use Rattle.typed_tree.specs.TypedView.{view_typed};
ghost use Rattle.sides.specs.Placed.{AreSides};
ghost use Rattle.usages.specs.Lent.{AreUsages};

use crate::layout::{Layout, lay_out};
use crate::seeds::seed_table;
use crate::slots::SlotInfo;
use pt_base::{FnId, GlobalId, Listed, Slot};
use reach::{Half, call_edges, functions_in, globals_in, named_by, reached, slots_in};
use std::alloc::{AllocError, Global};
use typed_tree::Typed;
use usages::Usages;

/// What each half of a program has, the slots that values lie in, and where secrets begin. The lists of
/// numbers are ascending, and have each number once.
#[derive(Drop)]
pub struct Sides {
    /// The functions with bodies that calls reach from privileged ones, these included.
    pub monitor: Listed<FnId>,
    /// main, and the functions with bodies that calls reach from there without entering a privileged one.
    pub slave: Listed<FnId>,
    /// The globals that the slave owns: those that its code names.
    pub owned: Listed<GlobalId>,
    /// All slots, each at its number.
    pub slots: Listed<SlotInfo>,
    /// The slots where secrets begin.
    pub seeds: Listed<Slot>,
    /// Where the slots of each object begin.
    pub layout: Layout,
    /// For each function, whether it is the slave's.
    pub in_slave: Vec<bool>,
}

/// The halves of a program, its slots and where secrets begin, of what its functions evaluate. Time and memory
/// are linear in the program, in its slots, and in the leaves that come back from calls of privileged functions.
/// The only error is want of memory; more than [`MOST_SLOTS`](crate::MOST_SLOTS) slots are that too, and more than
/// [`MOST_PATH_NUMBERS`](crate::MOST_PATH_NUMBERS) numbers in the paths of the structs that have objects.
pub fn place(alloc: Global, t: &Typed, usages: &Usages<'_>) -> Result<Sides, AllocError>
    requires used { AreUsages (view_typed t.now) usages.now }
    ensures { IfOk result (λ s. AreSides (view_typed t.now) s) }
{
    let (layout, slots) = lay_out(alloc, t)?;
    let (to_monitor, to_slave) = call_edges(alloc, t, usages)?;
    let in_monitor = reached(alloc, t, Half::Monitor, &to_monitor)?;
    let in_slave = reached(alloc, t, Half::Slave, &to_slave)?;
    let monitor = functions_in(alloc, &in_monitor)?;
    let slave = functions_in(alloc, &in_slave)?;
    let named = named_by(alloc, t, usages, &slave)?;
    let owned = globals_in(alloc, &named)?;
    let marked = seed_table(alloc, t, usages, &layout, &slots, &in_slave, &named, &slave)?;
    let seeds = slots_in(alloc, &marked)?;
    Ok(Sides {
        monitor: Listed::new(monitor),
        slave: Listed::new(slave),
        owned: Listed::new(owned),
        slots: Listed::new(slots),
        seeds: Listed::new(seeds),
        layout,
        in_slave,
    })
}
