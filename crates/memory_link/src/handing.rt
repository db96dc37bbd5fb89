// What the slave hands over, as a chooser says.
ghost use Rattle.std.specs.Prelude.{IfOk, OnOk};
ghost use Rattle.memory_link.specs.Onward.{Asked, HandsOver, Onward};

use crate::slave_half::SlaveHalf;
use pt_base::Chooser;
use std::alloc::{AllocError, Global};
use wire::Message;

// Asks so many times.
fn ask<C: Chooser>(chooser: &mut C, times: u64)
    ensures { Asked times (C.answers chooser.old) (C.answers chooser.new) }
{
    for _asked in 0..times {
        let _who = chooser.next();
    }
}

// While nothing waits the slave moves whatever the answers are, so it makes many steps at once.
fn run_ahead<C: Chooser>(
    alloc: Global,
    half: &mut SlaveHalf,
    window: u32,
    chooser: &mut C,
) -> Result<(), AllocError>
    ensures { OnOk result (Onward window half.old half.new (C.answers chooser.old) (C.answers chooser.new)) }
{
    if !half.moves_alone(window) {
        return Ok(());
    }
    let made = half.run(alloc)?;
    ask(chooser, made);
    Ok(())
}

/// Lets the slave move until the chooser has a message handed over. None where the slave says nothing more, or waits, and all
/// that it said was handed over.
///
/// # Errors
///
/// Want of memory. A slave that makes 2^64 - 1 steps while a message waits counts as such.
pub(crate) fn hand_over<C: Chooser>(
    alloc: Global,
    half: &mut SlaveHalf,
    window: u32,
    chooser: &mut C,
) -> Result<Option<Message>, AllocError>
    ensures { IfOk result (λ said. HandsOver window half.old said half.new (C.answers chooser.old) (C.answers chooser.new)) }
{
    run_ahead(alloc, half, window, chooser)?;
    for _step in 0..u64::MAX {
        if !half.is_live(window) {
            return Ok(None);
        }
        let who = chooser.next();
        if !half.moves(window, who) {
            return Ok(half.pop());
        }
        half.step(alloc)?;
    }
    Err(AllocError)
}
