// What calls go through.
ghost use Rattle.std.specs.Prelude.{◌≡◌, ℕ, ℤ, Bool, List, Option, IfOk, true};
ghost use Rattle.block_memory.specs.declared.cell.Cell.{Cell};
ghost use Rattle.pt_core.specs.Steps as s;
ghost use Rattle.core_machine.specs.Gates.{way_of};

use block_memory::Cell;
use pt_base::FnId;
use std::alloc::{AllocError, Global};

/// Which way a call goes.
#[derive(Clone, Copy)]
pub enum Way {
    /// Into a function of the machine's code.
    Enters,
    /// It is made here, as that of a host.
    Here,
    /// Away: the machine asks for its result.
    Away,
}

/// Decides which way calls go, and answers those that are made here.
pub trait Gate {
    /// The way of a call of this function with these arguments.
    ghost goes: { Self → ℕ → List Cell → s.Way };

    /// What a host answers, and the gate afterwards.
    ghost answers: { ℕ → List ℤ → Self → Option ℤ × Self };

    /// Whether a machine is to stop behind the host's call that was made last.
    ghost stops: { Self → Bool };

    /// The way of a call.
    fn way(&self, callee: FnId, args: &[Cell]) -> Way
        ensures { way_of result ≡ goes self.now callee.0 args.now };

    /// Whether calls of it enter a function of the machine's code, whatever the arguments.
    fn enters(&self, callee: FnId) -> bool
        ensures { result ≡ true → (args : List Cell) → goes self.now callee.0 args ≡ s.enters };

    /// Whether a machine that goes on by itself is to stop behind the host's call that was made last.
    fn stops(&self) -> bool
        ensures { result ≡ stops self.now };

    /// Makes the call of a host: its result, if it gives one. Where memory is wanting nothing is
    /// promised of the gate.
    fn here(
        &mut self,
        alloc: Global,
        callee: FnId,
        args: &[i128],
    ) -> Result<Option<i128>, AllocError>
        ensures { IfOk result (λ answer. answers callee.0 args.now self.old ≡ (answer, self.new)) };
}
