// What the work of a call comes to.
ghost use Rattle.std.specs.Prelude.{◌≡◌, IfOk, option_map};
ghost use Rattle.pt_core.specs.Values.{number_in};
ghost use Rattle.core_machine.specs.States.{answer_of};
ghost use Rattle.monitor_interp.specs.Working.{IsOfABody, IsWorkedBy};

use block_memory::Cell;
use core_machine::Stepped;
use pt_base::End;
use pt_core::number;
use std::alloc::AllocError;

/// What the work of a call came to.
#[derive(Drop)]
pub(crate) enum Worked {
    /// It gave this number, or none, in so many turns.
    Gave(Option<i128>, u64),
    /// It is the run's end.
    Stopped(End),
}

/// What a body came to, from the answer of its last step, in so many turns. One that still goes on has made 2^64 - 1 steps, which
/// counts as want of memory.
pub(crate) fn worked_by(stepped: &Stepped, turns: u64) -> Result<Worked, AllocError>
    requires { IsOfABody (answer_of stepped.now) }
    ensures { IfOk result (λ w. IsWorkedBy (answer_of stepped.now) turns w) }
{
    match stepped {
        Stepped::Ended(value) => Ok(Worked::Gave(number_given(*value), turns)),
        Stepped::Trapped(trap, span) => Ok(Worked::Stopped(End::Trapped(*trap, *span))),
        Stepped::Spent => Ok(Worked::Stopped(End::Spent)),
        Stepped::Moved => Err(AllocError),
        Stepped::Asked { .. } | Stepped::Idle => unreachable!(),
    }
}

fn number_given(value: Option<Cell>) -> Option<i128>
    ensures { result ≡ option_map number_in value }
{
    match value {
        Some(cell) => Some(number(cell)),
        None => None,
    }
}
