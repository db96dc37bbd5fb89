// The slave with the queue of what it has said.
ghost use Rattle.std.specs.Prelude.{◌≡◌, ◌&&◌, ◌++◌, [], IfOk, OnOk, length, nat_lt, true};
ghost use Rattle.pt_base.specs.declared.chooser.Who.{Who};
ghost use Rattle.wire.specs.declared.message.Message.{Message};
ghost use Rattle.pair_protocol.specs.Links.{Half, behind, front, half, is_live, moved};
ghost use Rattle.pair_protocol.specs.Pair.{is_going, is_slaves, moves};
ghost use Rattle.pair_protocol.specs.SlaveRun.{listed};
ghost use Rattle.pair_protocol.specs.Sides as side;
ghost use Rattle.pair_meaning.specs.Pair.{the_sides};
ghost use Rattle.pair_meaning.specs.SlaveRun as s;
ghost use Rattle.pair_meaning.specs.LinkChoosing.{half_named};
ghost use Rattle.pair_meaning.specs.LinkTalks.{heard};
ghost use Rattle.slave_interp.specs.Doings.{mode_in};
ghost use Rattle.slave_interp.specs.Slaves.{IsSlave};
ghost use Rattle.memory_link.specs.Halves.{HasRunTo, IsHalf, MovesAlone, is_waiting};

use marshalling::BadReply;
use pt_base::Who;
use slave_interp::{Mode, Ran, Slave};
use std::alloc::{AllocError, Global};
use std::collections::VecDeque;
use wire::{Message, ReplyBody};

/// A slave and what it has said that wasn't handed over yet.
#[derive(Drop)]
pub(crate) struct SlaveHalf {
    slave: Slave,
    // It was sent a reply that its call can't have, and that is its end.
    refused: bool,
    queue: VecDeque<Message>,
}

fn goes(mode: Mode) -> bool
    ensures { result ≡ is_going (mode_in mode) }
{
    match mode {
        Mode::Going => true,
        Mode::Waits | Mode::Over => false,
    }
}

fn waits(mode: Mode) -> bool
    ensures { result ≡ is_waiting (mode_in mode) }
{
    match mode {
        Mode::Waits => true,
        Mode::Going | Mode::Over => false,
    }
}

fn is_slave(who: Who) -> bool
    ensures { result ≡ is_slaves (half_named who) }
{
    match who {
        Who::Slave => true,
        Who::Parent => false,
    }
}

// What was said waits behind the rest.
fn put(queue: &mut VecDeque<Message>, said: Option<Message>) -> Result<(), AllocError>
    ensures { OnOk result (queue.new.items ≡ queue.old.items ++ listed said) }
{
    match said {
        Some(message) => {
            queue.push_back(message)?;
            Ok(())
        }
        None => Ok(()),
    }
}

impl SlaveHalf {
    /// A slave that has said nothing.
    pub(crate) fn new(alloc: Global, slave: Slave) -> SlaveHalf
        ensures { (x : s.Slave) → IsSlave slave x → IsHalf result (half x []) }
    {
        SlaveHalf {
            slave,
            refused: false,
            queue: VecDeque::new(alloc),
        }
    }

    // Whether the slave goes on.
    fn goes_on(&self) -> bool
        ensures { (h : Half s.Slave Message) → IsHalf self.now h → result ≡ is_going (s.mode_of h.slave) }
    {
        if self.refused {
            return false;
        }
        goes(self.slave.mode())
    }

    // Whether the slave waits for a reply.
    fn waits(&self) -> bool
        ensures { (h : Half s.Slave Message) → IsHalf self.now h → result ≡ is_waiting (s.mode_of h.slave) }
    {
        if self.refused {
            return false;
        }
        waits(self.slave.mode())
    }

    // Whether the slave goes on and there is room for a message.
    fn has_room(&self, window: u32) -> bool
        ensures { (h : Half s.Slave Message) → IsHalf self.now h → result ≡ (is_going (s.mode_of h.slave) && nat_lt (length h.queue) window) }
    {
        self.goes_on() && self.queue.len() < window as usize
    }

    /// Whether the slave can move, or a message waits.
    pub(crate) fn is_live(&self, window: u32) -> bool
        ensures { (h : Half s.Slave Message) → IsHalf self.now h → result ≡ is_live the_sides window h }
    {
        self.has_room(window) || !self.queue.is_empty()
    }

    /// Whether the slave moves under this answer.
    pub(crate) fn moves(&self, window: u32, who: Who) -> bool
        ensures { (h : Half s.Slave Message) → IsHalf self.now h → result ≡ moves the_sides window (half_named who) h.slave h.queue }
    {
        self.has_room(window) && (is_slave(who) || self.queue.is_empty())
    }

    /// Whether the slave moves under any answer.
    pub(crate) fn moves_alone(&self, window: u32) -> bool
        ensures { result ≡ true → (h : Half s.Slave Message) → IsHalf self.now h → MovesAlone window h }
    {
        self.goes_on() && self.queue.is_empty() && window > 0
    }

    /// One step of a slave that goes on.
    pub(crate) fn step(&mut self, alloc: Global) -> Result<(), AllocError>
        ensures { OnOk result ((h : Half s.Slave Message) → IsHalf self.old h → s.mode_of h.slave ≡ side.going → IsHalf self.new (moved the_sides h)) }
    {
        let said = self.slave.step(alloc)?;
        put(&mut self.queue, said)?;
        Ok(())
    }

    /// Steps of a slave that goes on, up to the first that says something or behind which it waits or is over. Gives their number.
    pub(crate) fn run(&mut self, alloc: Global) -> Result<u64, AllocError>
        ensures { IfOk result (λ made. (h : Half s.Slave Message) → IsHalf self.old h → s.mode_of h.slave ≡ side.going → HasRunTo made h self.new) }
    {
        let Ran { said, made } = self.slave.run(alloc, u64::MAX)?;
        put(&mut self.queue, said)?;
        Ok(made)
    }

    /// Takes the message that was said first off the queue.
    pub(crate) fn pop(&mut self) -> Option<Message>
        ensures { (h : Half s.Slave Message) → IsHalf self.old h → (result ≡ front h.queue) × IsHalf self.new (half h.slave (behind h.queue)) }
    {
        self.queue.pop_front()
    }

    /// The slave hears a message: a reply is taken where it waits for one, and what else is sent is passed over.
    pub(crate) fn hear(&mut self, alloc: Global, message: Message) -> Result<(), AllocError>
        ensures { OnOk result ((h : Half s.Slave Message) → IsHalf self.old h → IsHalf self.new (heard message h)) }
    {
        match message {
            Message::Reply(body) => {
                self.take(alloc, &body)?;
                Ok(())
            }
            Message::Boot(_)
            | Message::Call { .. }
            | Message::Emit { .. }
            | Message::Exit { .. }
            | Message::Trap { .. }
            | Message::Park { .. } => Ok(()),
        }
    }

    // The slave is sent a reply. One that its call can't have is its end.
    fn take(&mut self, alloc: Global, reply: &ReplyBody) -> Result<(), AllocError>
        ensures { OnOk result ((h : Half s.Slave Message) → IsHalf self.old h → IsHalf self.new (half (s.take reply.now h.slave) h.queue)) }
    {
        if !self.waits() {
            return Ok(());
        }
        match self.slave.take(alloc, reply) {
            Ok(()) => Ok(()),
            Err(BadReply::Shape) => {
                self.refused = true;
                Ok(())
            }
            Err(BadReply::Memory) => Err(AllocError),
        }
    }
}
