// The hosts of a run, as the gate of its machine.
use crate::machine_run::asking::asked;
use crate::machine_run::marks::host_marks;
use block_memory::Cell;
use core_machine::{Gate, Way};
use host_table::Host;
use pt_base::FnId;
use std::alloc::{AllocError, Global};
use std::marker::Model;
use typed_tree::Typed;

/// The hosts of a run and what they wrote so far; and of each function of the program, whether it is a host.
#[derive(Drop)]
pub(crate) struct HostGate {
    hosts: Host,
    written: Vec<u8>,
    is_host: Vec<bool>,
}

impl Model for HostGate {
    ghost use Rattle.original.specs.MachineRunHeard.{Heard};
    ghost use Rattle.original.specs.MachineRunHostGates.{heard_by};

    ghost Value = { Heard };

    ghost view = { λ g. heard_by g.hosts g.written.items g.is_host.items };
}

impl HostGate {
    ghost use Rattle.std.specs.Prelude.{◌≡◌, [], IfOk, true, get_or};
    ghost use Rattle.typed_tree.specs.TypedView.{view_typed};
    ghost use Rattle.original.specs.MachineRunHostGates.{heard_by, marks_of};

    /// These hosts, which have written nothing yet.
    pub fn new(alloc: Global, program: &Typed, hosts: Host) -> Result<HostGate, AllocError>
        ensures { IfOk result (λ g. g ≡ heard_by hosts [] (marks_of (view_typed program.now))) }
    {
        let is_host = host_marks(alloc, program)?;
        Ok(HostGate {
            hosts,
            written: Vec::new(alloc),
            is_host,
        })
    }

    /// All that was written.
    pub fn into_written(self) -> Vec<u8>
        ensures { result.items ≡ self.bytes }
    {
        self.written
    }

    // Whether a call of this function goes to a host; what the program doesn't have counts as one.
    #[inline(always)]
    fn is_host(&self, f: FnId) -> bool
        ensures { result ≡ get_or self.now.is_host f.0 true }
    {
        match self.is_host.get(f.0 as usize) {
            Some(host) => *host,
            None => true,
        }
    }
}

impl Gate for HostGate {
    ghost use Rattle.original.specs.MachineRunHostGates.{heard_answer, heard_way};

    ghost goes = { λ g f args. heard_way g f args };

    ghost answers = { λ f numbers g. heard_answer f numbers g };

    ghost use Rattle.std.specs.Prelude.{false};

    ghost stops = { λ g. false };

    fn way(&self, callee: FnId, _args: &[Cell]) -> Way {
        if self.is_host(callee) {
            Way::Here
        } else {
            Way::Enters
        }
    }

    #[inline(always)]
    fn enters(&self, callee: FnId) -> bool {
        !self.is_host(callee)
    }

    fn stops(&self) -> bool {
        false
    }

    fn here(
        &mut self,
        _alloc: Global,
        callee: FnId,
        args: &[i128],
    ) -> Result<Option<i128>, AllocError> {
        asked(
            &mut self.hosts,
            &self.is_host,
            callee,
            args,
            &mut self.written,
        )
    }
}
