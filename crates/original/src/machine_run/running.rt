// The run of a program on the machine.
ghost use Rattle.std.specs.Prelude.{◌≡◌, IfOk, Some};
ghost use Rattle.host_table.specs.Hosts.{hosts_of};
ghost use Rattle.host_table.specs.RunHosts.{models_of};
ghost use Rattle.source_meaning.specs.WholeRun.{whole_run};
ghost use Rattle.typed_tree.specs.TypedView.{view_typed};
ghost use Rattle.core_machine.specs.States.{answer_of};
ghost use Rattle.core_steps_law.specs.WholeRun as steps;
ghost use Rattle.original.specs.MachineRunHostGates.{AreOf};
ghost use Rattle.original.specs.MachineRunRunTold.{IsOfARun, Tells};

use crate::machine_run::host_gate::HostGate;
use crate::machine_run::lowered::{lowered, main_of};
use c_lower_law::lowering_keeps_the_run;
use core_machine::{Machine, Stepped};
use core_steps_law::{bytes_are_the_runs, silent_runs_agree, steps_are_the_run};
use host_table::Host;
use lowered_code_law::lowered_programs_are_well_formed;
use pt_base::{End, Watch};
use pt_core::status;
use std::alloc::{AllocError, Global};
use std::thread::Threads;
use typed_tree::Typed;

/// What a program's run comes to.
#[derive(Drop)]
pub struct Ran {
    /// All that hosts wrote.
    pub written: Vec<u8>,
    pub end: End,
    /// How many turns it took.
    pub turns: u64,
}

/// The run of a program with these hosts within this budget of turns. The watch is told of each function that
/// has a body, as it is lowered.
///
/// # Errors
///
/// Want of memory; 2^64 - 1 steps, which no run of a text takes, count as that too.
pub fn run<R: Threads + Sync, W: Watch>(
    rt: &R,
    alloc: Global,
    program: &Typed,
    hosts: Host,
    turns: u32,
    watch: &W,
) -> Result<Ran, AllocError>
    requires { AreOf (view_typed program.now) (hosts_of hosts) }
    ensures { IfOk result (Tells (whole_run (view_typed program.now) (models_of (hosts_of hosts).models) (hosts_of hosts).input turns)) }
{
    lowering_keeps_the_run();
    steps_are_the_run();
    silent_runs_agree();
    bytes_are_the_runs();
    lowered_programs_are_well_formed();
    let main = main_of(program);
    let code = lowered(rt, alloc, program, watch)?;
    let mut machine = Machine::new(alloc, &code, u64::from(turns))?;
    machine.enter(main, 1, &[])?;
    let mut gate = HostGate::new(alloc, program, hosts)?;
    let went = machine.run(alloc, &mut gate, u64::MAX)?;
    let end = end_of(&went.stepped)?;
    Ok(Ran {
        written: gate.into_written(),
        end,
        turns: machine.turns(),
    })
}

// The end of a run, from the answer of its last step. A run that still goes on has made 2^64 - 1 steps.
fn end_of(stepped: &Stepped) -> Result<End, AllocError>
    requires { IsOfARun (answer_of stepped.now) }
    ensures { IfOk result (λ end. steps.end_of (answer_of stepped.now) ≡ Some end) }
{
    match stepped {
        Stepped::Ended(value) => Ok(End::Exit(status(*value))),
        Stepped::Trapped(trap, span) => Ok(End::Trapped(*trap, *span)),
        Stepped::Spent => Ok(End::Spent),
        Stepped::Moved => Err(AllocError),
        Stepped::Asked { .. } | Stepped::Idle => unreachable!(),
    }
}
