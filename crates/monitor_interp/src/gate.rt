// The hosts of a monitor, as the gate of its machine.
use crate::asking::asked;
use crate::marks::{Mark, is_host, marks_of};
use block_memory::Cell;
use core_machine::{Gate, Way};
use host_table::Host;
use pt_base::FnId;
use pt_tree::Signature;
use std::alloc::{AllocError, Global};
use std::marker::Model;

/// The hosts of a monitor and what they wrote that isn't handed out yet; and of each function and host the mark, in the order of
/// the numbers.
#[derive(Drop)]
pub(crate) struct BytesGate {
    marks: Vec<Mark>,
    hosts: Host,
    written: Vec<u8>,
}

impl Model for BytesGate {
    ghost use Rattle.monitor_interp.specs.Heard.{Heard};

    ghost Value = { Heard };

    ghost use Rattle.std.specs.Prelude.{IsTrue, map};
    ghost use Rattle.typed_tree.specs.WellFormed.{are_rising};
    ghost use Rattle.monitor_interp.specs.Gates.{heard_by};

    ghost view = { λ g. heard_by g.hosts g.written.items g.marks.items };

    ghost invariant = { λ g. IsTrue (are_rising 0 (map (λ m. m.number) g.marks.items)) };
}

impl BytesGate {
    ghost use Rattle.std.specs.Prelude.{◌≡◌, ◌++◌, [], IfOk, IsTrue, OnOk, map};
    ghost use Rattle.typed_tree.specs.WellFormed.{are_rising};
    ghost use Rattle.pt_core.specs.CodeTree.{numbered};
    ghost use Rattle.monitor_interp.specs.Gates.{heard_by, is_host_in};
    ghost use Rattle.monitor_interp.specs.Marks.{mark_of};

    /// These hosts, which have written nothing yet, for a program with these signatures.
    pub fn new(
        alloc: Global,
        signatures: &[(FnId, Signature)],
        hosts: Host,
    ) -> Result<BytesGate, AllocError>
        requires { IsTrue (are_rising 0 (map (λ s. s.0) (numbered signatures.now))) }
        ensures { IfOk result (λ g. g ≡ heard_by hosts [] (map mark_of (numbered signatures.now))) }
    {
        let marks = marks_of(alloc, signatures)?;
        Ok(BytesGate {
            marks,
            hosts,
            written: Vec::new(alloc),
        })
    }

    /// Hands out what was written.
    pub fn hand_out(&mut self, alloc: Global, out: &mut Vec<u8>) -> Result<(), AllocError>
        ensures out { OnOk result (out.new.items ≡ out.old.items ++ self.old.bytes) }
        ensures none { OnOk result (self.new ≡ record self.old { bytes = [] }) }
    {
        out.extend_from_slice(self.written.as_slice())?;
        self.written = Vec::new(alloc);
        Ok(())
    }

    // Whether a call of this function goes to a host; what the program doesn't have counts as one.
    fn is_host(&self, f: FnId) -> bool
        ensures { result ≡ is_host_in self.now f.0 }
    {
        is_host(self.marks.as_slice(), f)
    }
}

impl Gate for BytesGate {
    ghost use Rattle.monitor_interp.specs.Gates.{heard_answer, heard_way};

    ghost goes = { λ g f args. heard_way g f args };

    ghost answers = { λ f numbers g. heard_answer f numbers g };

    ghost use Rattle.std.specs.Prelude.{false};

    ghost stops = { λ g. false };

    fn way(&self, callee: FnId, _args: &[Cell]) -> Way {
        if self.is_host(callee) {
            Way::Here
        } else {
            Way::Enters
        }
    }

    fn enters(&self, callee: FnId) -> bool {
        !self.is_host(callee)
    }

    fn stops(&self) -> bool {
        false
    }

    fn here(
        &mut self,
        _alloc: Global,
        callee: FnId,
        args: &[i128],
    ) -> Result<Option<i128>, AllocError> {
        asked(
            &mut self.hosts,
            self.marks.as_slice(),
            callee,
            args,
            &mut self.written,
        )
    }
}
