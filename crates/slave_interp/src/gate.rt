// The gate of a slave's machine.
use crate::signed::Signed;
use crate::ways::{is_own, way_by};
use crate::writing::answered;
use block_memory::Cell;
use core_machine::{Gate, Way};
use host_table::Host;
use pt_base::{Bytes, FnId};
use pt_core::Signatures;
use pt_tree::Signature;
use std::alloc::{AllocError, Global};
use std::marker::Model;
use std::mem;

/// What a slave calls itself: its functions and its hosts, and what the call of a host made last wrote. What is privileged is
/// called away, and so is a mixed host that is given a handle.
#[derive(Drop)]
pub(crate) struct SlaveGate {
    hosts: Host,
    signed: Signed,
    wrote: Option<Bytes>,
}

impl Model for SlaveGate {
    ghost use Rattle.slave_interp.specs.Hearing.{Hearing};

    ghost Value = { Hearing };

    ghost use Rattle.slave_interp.specs.Hearings.{hearing_by};

    ghost view = { λ g. hearing_by g.hosts g.signed.signatures g.wrote };
}

impl SlaveGate {
    ghost use Rattle.std.specs.Prelude.{◌≡◌, IfOk, IsTrue, map, nat_eq, None};
    ghost use Rattle.std.specs.Map.{lookup};
    ghost use Rattle.std.specs.Option.{option_copied};
    ghost use Rattle.typed_tree.specs.WellFormed.{are_rising};
    ghost use Rattle.pt_core.specs.CodeTree.{numbered};
    ghost use Rattle.slave_interp.specs.Hearings.{hearing_by};

    /// These hosts, and these functions and hosts in the order of their numbers. Nothing was written yet.
    pub(crate) fn new(
        alloc: Global,
        hosts: Host,
        signatures: Signatures,
    ) -> Result<SlaveGate, AllocError>
        requires { IsTrue (are_rising 0 (map (λ s. s.0) (numbered signatures))) }
        ensures { IfOk result (λ g. g ≡ hearing_by hosts signatures None) }
    {
        let signed = Signed::new(alloc, signatures)?;
        Ok(SlaveGate {
            hosts,
            signed,
            wrote: None,
        })
    }

    /// What the function of this number is called with.
    #[inline(always)]
    pub(crate) fn signature(&self, f: FnId) -> Option<&Signature>
        ensures { option_copied result ≡ lookup (nat_eq f.0) self.now.signatures }
    {
        self.signed.signature(f)
    }

    /// Forgets what was written.
    pub(crate) fn clear(&mut self)
        ensures { self.new ≡ record self.old { wrote = None } }
    {
        self.wrote = None;
    }

    /// Gives what the call of a host made last wrote, if it did, and forgets it.
    pub(crate) fn take_written(&mut self) -> Option<Bytes>
        ensures written { result ≡ self.old.wrote }
        ensures forgotten { self.new ≡ record self.old { wrote = None } }
    {
        mem::replace(&mut self.wrote, None)
    }
}

impl Gate for SlaveGate {
    ghost use Rattle.slave_interp.specs.Hearings.{has_written, hearing_answer, hearing_way};

    ghost goes = { λ g f args. hearing_way g f args };

    ghost answers = { λ f numbers g. hearing_answer f numbers g };

    ghost stops = { λ g. has_written g };

    fn way(&self, callee: FnId, args: &[Cell]) -> Way {
        match self.signature(callee) {
            Some(signature) => way_by(signature, args),
            None => Way::Here,
        }
    }

    #[inline(always)]
    fn enters(&self, callee: FnId) -> bool {
        match self.signature(callee) {
            Some(signature) => is_own(signature),
            None => false,
        }
    }

    fn stops(&self) -> bool {
        self.wrote.is_some()
    }

    fn here(
        &mut self,
        alloc: Global,
        callee: FnId,
        args: &[i128],
    ) -> Result<Option<i128>, AllocError> {
        answered(
            alloc,
            &mut self.hosts,
            &self.signed,
            &mut self.wrote,
            callee,
            args,
        )
    }
}
