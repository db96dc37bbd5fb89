// A link to a slave in memory.
ghost use Rattle.std.specs.Prelude.{◌≡◌, ◌≤◌, ◌∷◌, [], IfOk, IsErr, OnErr, OnOk, true, vec_len};
ghost use Rattle.pt_base.specs.Talk.{gave, took};
ghost use Rattle.pair_meaning.specs.SlaveRun as s;
ghost use Rattle.slave_interp.specs.Slaves.{IsSlave};
ghost use Rattle.pair_meaning.specs.LinkTalks.{begun};
ghost use Rattle.memory_link.specs.Came.{Came, IsLink};

use crate::slave_end::SlaveEnd;
use pt_base::{Chooser, Link, LinkFault};
use slave_interp::Slave;
use std::alloc::{AllocError, Global};

/// A slave in memory as a link, and who decides when it moves. It gives what the slave says and the slave hears what it is
/// sent. The chooser is asked before each step of the slave and before each message that is handed over, and nobody is asked
/// where the slave says nothing more, or waits, and nothing is left to hand over: that is the link's end.
#[derive(Drop)]
pub struct MemoryLink<'a, C: Chooser> {
    end: SlaveEnd,
    // As many messages may wait.
    window: u32,
    // Memory was wanting once, and nothing is known of the slave.
    lost: bool,
    chooser: &'a mut C,
}

impl<'a, C: Chooser> Link for MemoryLink<'a, C> {
    ghost use Rattle.std.specs.Prelude.{None, ⊤};
    ghost use Rattle.memory_link.specs.Came.{Came};
    ghost use Rattle.memory_link.specs.CameLaws.{came-further, came-same};

    ghost sent = { λ _. None };

    ghost given = { λ _. None };

    ghost faults = { λ _. 0 };

    ghost ready = { λ _. ⊤ };

    ghost honest = { λ _ _ _. ⊥ };

    ghost came = { Came C.answers };

    ghost same = { came-same C.answers };

    ghost further = { came-further C.answers };

    fn send(&mut self, alloc: Global, bytes: &[u8]) -> Result<(), LinkFault> {
        self.hear(alloc, bytes)?;
        Ok(())
    }

    fn receive(&mut self, alloc: Global, max: usize) -> Result<Vec<u8>, LinkFault> {
        let piece = self.give(alloc, max)?;
        Ok(piece)
    }
}

impl<'a, C: Chooser> MemoryLink<'a, C> {
    /// A link to this slave, which waits where so many messages do. Nothing was said or sent yet.
    pub fn new(alloc: Global, slave: Slave, window: u32, chooser: &'a mut C) -> Self
        requires { 1 ≤ window }
        ensures slave { (x : s.Slave) → IsSlave slave x → IsLink result (begun x) }
        ensures window { result.window ≡ window }
        ensures same_reference { result.chooser.ghost_name ≡ chooser.entry.ghost_name }
        ensures chooser { result.chooser.now ≡ chooser.old }
    {
        MemoryLink {
            end: SlaveEnd::new(alloc, slave),
            window,
            lost: false,
            chooser,
        }
    }

    /// Gives the chooser back.
    pub fn into_chooser(self) -> &'a mut C
        ensures same_reference { result.ghost_name ≡ self.entry.chooser.ghost_name }
        ensures chooser { result.now ≡ self.entry.chooser.now }
    {
        let MemoryLink {
            end: _,
            window: _,
            lost: _,
            chooser,
        } = self;
        chooser
    }

    // The slave hears these bytes. From want of memory on nothing else is answered.
    fn hear(&mut self, alloc: Global, bytes: &[u8]) -> Result<(), AllocError>
        ensures came { OnOk result (Came C.answers self.old (took bytes.now ∷ []) self.new) }
        ensures lost { OnErr result (self.new.lost ≡ true) }
        ensures stays { self.old.lost ≡ true → IsErr result }
    {
        if self.lost {
            return Err(AllocError);
        }
        self.lost = true;
        self.end.hear(alloc, bytes)?;
        self.lost = false;
        Ok(())
    }

    // Gives at most `max` bytes; none are the end. From want of memory on nothing else is answered.
    fn give(&mut self, alloc: Global, max: usize) -> Result<Vec<u8>, AllocError>
        requires { 1 ≤ max }
        ensures came { IfOk result (λ piece. Came C.answers self.old (gave piece.items ∷ []) self.new) }
        ensures length { IfOk result (λ piece. vec_len piece ≤ max) }
        ensures lost { OnErr result (self.new.lost ≡ true) }
        ensures stays { self.old.lost ≡ true → IsErr result }
    {
        if self.lost {
            return Err(AllocError);
        }
        self.lost = true;
        let piece = self.end.give(alloc, self.window, self.chooser, max)?;
        self.lost = false;
        Ok(piece)
    }
}
