// The work of a call.
ghost use Rattle.std.specs.Prelude.{◌≡◌, ◌<◌, ◌^◌, List, IfOk, map, take, ℕ};
ghost use Rattle.runs.specs.State.{Hosts};
ghost use Rattle.block_memory.specs.Blocks.{Blocks};
ghost use Rattle.pt_core.specs.CodeTree.{ProgramTree};
ghost use Rattle.pt_core.specs.Values.{number_in};
ghost use Rattle.monitor_interp.specs.Working.{IsAt, IsSomewhere, Works, at_first, body_work, host_gives_at, work_by};

use crate::bench::Bench;
use crate::worked::{Worked, worked_by};
use block_memory::Cell;
use core_machine::Gate;
use pt_base::FnId;
use pt_core::number;
use std::alloc::{AllocError, Global};

/// What is to be done: a function or host, the depth at which a function is entered, and within how many turns.
#[derive(Clone, Copy)]
pub(crate) struct Task {
    pub function: FnId,
    pub host: bool,
    /// How many parameters of a function are its own.
    pub own: usize,
    pub depth: u8,
    pub left: u64,
}

/// A host answers these arguments, or a function's body runs with its own ones.
pub(crate) fn work(
    bench: &mut Bench,
    alloc: Global,
    task: Task,
    args: &[Cell],
) -> Result<Worked, AllocError>
    requires at { IsSomewhere bench.old.machine bench.old.gate }
    requires left { task.left < 2 ^ 32 }
    ensures { IfOk result (λ w. (program : ProgramTree) (most : ℕ) (blocks : Blocks) (hosts : Hosts) (input : List ℕ) → IsAt program bench.old.machine bench.old.gate most blocks (at_first hosts input) →
        Works program most task.left (work_by program task args.now blocks hosts input) w bench.new.machine bench.new.gate) }
{
    if task.host {
        let worked = host_work(bench, alloc, task, args)?;
        Ok(worked)
    } else {
        let worked = function_work(bench, alloc, task, first(args, task.own))?;
        Ok(worked)
    }
}

// The first ones of some arguments.
fn first(args: &[Cell], count: usize) -> &[Cell]
    ensures { result.now ≡ take count args.now }
{
    if count < args.len() {
        &args[..count]
    } else {
        args
    }
}

fn host_work(
    bench: &mut Bench,
    alloc: Global,
    task: Task,
    args: &[Cell],
) -> Result<Worked, AllocError>
    ensures { IfOk result (λ w. (program : ProgramTree) (most : ℕ) (blocks : Blocks) (hosts : Hosts) (input : List ℕ) → IsAt program bench.old.machine bench.old.gate most blocks (at_first hosts input) →
        Works program most task.left (host_gives_at task args.now blocks hosts input) w bench.new.machine bench.new.gate) }
{
    let numbers = numbers_in(alloc, args)?;
    let value = bench.gate.here(alloc, task.function, numbers.as_slice())?;
    Ok(Worked::Gave(value, 0))
}

fn numbers_in(alloc: Global, args: &[Cell]) -> Result<Vec<i128>, AllocError>
    ensures { IfOk result (λ v. v.items ≡ map number_in args.now) }
{
    args.iter().map(|cell| number(*cell)).collect(alloc)
}

fn function_work(
    bench: &mut Bench,
    alloc: Global,
    task: Task,
    args: &[Cell],
) -> Result<Worked, AllocError>
    requires at { IsSomewhere bench.old.machine bench.old.gate }
    requires left { task.left < 2 ^ 32 }
    ensures { IfOk result (λ w. (program : ProgramTree) (most : ℕ) (blocks : Blocks) (hosts : Hosts) (input : List ℕ) → IsAt program bench.old.machine bench.old.gate most blocks (at_first hosts input) →
        Works program most task.left (body_work program task args.now blocks hosts input) w bench.new.machine bench.new.gate) }
{
    let before = bench.machine.turns();
    bench.machine.set_budget(before + task.left);
    bench
        .machine
        .enter(task.function, u32::from(task.depth), args)?;
    let went = bench.machine.run(alloc, &mut bench.gate, u64::MAX)?;
    let after = bench.machine.turns();
    let worked = worked_by(&went.stepped, after.saturating_sub(before))?;
    Ok(worked)
}
