// The order in which faults of flows are explained.
ghost use Rattle.std.specs.Prelude.{◌≡◌, ◌↔◌, IfOk};
ghost use Rattle.std.specs.List.{Contains};
ghost use Rattle.std.specs.List.Sorted.{IsStrictlySortedBy};
ghost use Rattle.explaining.specs.declared.turns.Turn.{Turn};
ghost use Rattle.explaining.specs.Order as order;
ghost use Rattle.explaining.specs.Turns as is;

use flow_rules::FlowFault;
use pt_base::{Slot, Span};
use std::alloc::{AllocError, Global};

/// Whose turn it is: whether the seed of a fault's secret is known, the seed, where the fault's way begins, and
/// the fault's number. Turns are ordered by these.
#[derive(Clone, Copy, PartialEq, Eq, PartialOrd, Ord)]
pub(crate) struct Turn {
    pub known: u8,
    pub seed: u64,
    pub place: Span,
    pub number: usize,
}

// where a fault's way begins
fn beginning(fault: &FlowFault) -> Span
    ensures { result ≡ order.beginning fault.now }
{
    match fault.path.as_slice().first() {
        Some(span) => *span,
        None => fault.span,
    }
}

// whether there is a seed, as a number
fn known(origin: Option<Slot>) -> u8
    ensures { result ≡ order.known origin }
{
    match origin {
        Some(_) => 1,
        None => 0,
    }
}

// the number of a seed
fn seed_number(origin: Option<Slot>) -> u64
    ensures { result ≡ order.seed_number origin }
{
    match origin {
        Some(slot) => slot.0,
        None => 0,
    }
}

// the turn of the fault of this number
fn turn_of(number: usize, fault: &FlowFault) -> Turn
    ensures { result ≡ is.turn_of number fault.now }
{
    Turn {
        known: known(fault.origin),
        seed: seed_number(fault.origin),
        place: beginning(fault),
        number,
    }
}

// the turns of faults, as they stand
fn turns_in(alloc: Global, faults: &[FlowFault]) -> Result<Vec<Turn>, AllocError>
    ensures { IfOk result (λ v. v.items ≡ is.turns_from 0 faults.now) }
{
    let mut turns = Vec::with_capacity(alloc, faults.len())?;
    let mut number = 0;
    for fault in faults {
        turns.push(turn_of(number, fault))?;
        number += 1;
    }
    Ok(turns)
}

// puts turns in order
fn arrange(turns: &mut Vec<Turn>)
    ensures sorted { IsStrictlySortedBy is.turn_cmp turns.new.items }
    ensures same { (x : Turn) → Contains turns.new.items x ↔ Contains turns.old.items x }
{
    turns.sort_unstable();
    turns.dedup();
}

/// The turns of faults, in order.
pub(crate) fn turns_of(alloc: Global, faults: &[FlowFault]) -> Result<Vec<Turn>, AllocError>
    ensures { IfOk result (λ v. is.AreTurns faults.now v.items) }
{
    let mut turns = turns_in(alloc, faults)?;
    arrange(&mut turns);
    Ok(turns)
}
