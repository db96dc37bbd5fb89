// Hubs whose sessions are all hostile and go on at once, held against the second monitor one by one.
ghost use Rattle.std.specs.Prelude.{OnOk};
ghost use Rattle.wire.specs.Limits.{KeepsCounts};
ghost use Rattle.pair_cases.specs.Begun.{IsServed};

use crate::answers::push_answer;
use crate::checksum::Adler;
use crate::frames::frame_of;
use crate::hubs::hub_of;
use anyhow::{Result, bail};
use monitor_interp::Handled;
use pair_runner::RunFault;
use pair_texts::Beside;
use pt_base::End;
use second_monitor::{Made, SecondMonitor, Setting};
use sessions::{Hub, HubError};
use std::alloc::{AllocError, Global};
use std::thread::Threads;
use wire::{Message, Reader, WireError};

/// So many sessions of a hub go on at once.
const AT_ONCE: u64 = 3;

/// So many messages of a hub are looked at, at most.
const MOST: u32 = 100_000;

/// What the sessions of hubs came to.
#[derive(Drop)]
pub struct Crowd {
    hubs: u64,
    messages: u64,
    late: u64,
    written: u64,
    sent: u64,
    sum: Adler,
    differ: u64,
    misled: u64,
}

// A session, the stream that it says, and what was seen of it.
#[derive(Drop)]
struct Peer {
    session: u32,
    made: Made,
    reader: Reader,
    is_through: bool,
    told: Option<String>,
    written: Vec<u8>,
    sent: Vec<u8>,
}

impl Crowd {
    /// No hub yet.
    pub fn new() -> Crowd {
        Crowd {
            hubs: 0,
            messages: 0,
            late: 0,
            written: 0,
            sent: 0,
            sum: Adler::new(),
            differ: 0,
            misled: 0,
        }
    }

    /// Has a hub of the setting serve the streams of this seed and the next ones at once, in an order that the seed draws, and
    /// holds each session against the second monitor alone. What a session says behind its end is given to the hub, too.
    ///
    /// # Errors
    ///
    /// Texts with faults, and want of memory.
    pub fn run<R: Threads + Sync>(
        &mut self,
        rt: &R,
        alloc: Global,
        setting: Setting,
        seed: u64,
    ) -> Result<()> {
        let turns = Made::new(alloc, setting.program(), seed)?.budget;
        let beside = Beside {
            host: setting.hosts().as_bytes(),
            policy: setting.policy().as_bytes(),
            input: &[],
            turns,
        };
        let hub = hub_of(rt, alloc, setting.text().as_bytes(), beside)?;
        self.serve(alloc, hub, turns, setting, seed)
    }

    // Has a hub serve them.
    fn serve(
        &mut self,
        alloc: Global,
        hub: Hub,
        turns: u32,
        setting: Setting,
        seed: u64,
    ) -> Result<()>
        requires { IsServed hub }
    {
        let mut hub = hub;
        let mut peers = Vec::new(alloc);
        for number in 0..AT_ONCE {
            peers.push(opened(alloc, &mut hub, setting, seed.wrapping_add(number))?)?;
        }
        self.talk(alloc, &mut hub, &mut peers, seed)?;
        self.compare(alloc, &peers, turns, setting)
    }

    // Lets the sessions say what they say, in an order that the seed draws.
    fn talk(&mut self, alloc: Global, hub: &mut Hub, peers: &mut Vec<Peer>, seed: u64) -> Result<()>
        requires { IsServed hub.old }
    {
        let mut drawn = seed.wrapping_mul(0x9e37_79b9_7f4a_7c15) | 1;
        for _ in 0..MOST {
            if peers.iter().all(|peer| peer.is_through) {
                return Ok(());
            }
            drawn ^= drawn.wrapping_shl(13);
            drawn ^= drawn.wrapping_shr(7);
            drawn ^= drawn.wrapping_shl(17);
            let at = (drawn % AT_ONCE) as usize;
            if let Some(peer) = peers.get_mut(at) {
                self.hear(alloc, hub, peer)?;
            }
        }
        bail!("the streams are too long")
    }

    // Lets a session say its next message, or tells that there is none.
    fn hear(&mut self, alloc: Global, hub: &mut Hub, peer: &mut Peer) -> Result<()>
        requires { IsServed hub.old }
        ensures { OnOk result (IsServed hub.new) }
    {
        match peer.reader.next(alloc) {
            Ok(Some((message, offset))) => self.handle(alloc, hub, peer, &message, offset),
            Ok(None) => peer.ends(alloc),
            Err(WireError::BadFrame(offset)) => self.shut(alloc, hub, peer, 1, offset),
            Err(WireError::TooLong(offset)) => self.shut(alloc, hub, peer, 2, offset),
            Err(WireError::Memory) => bail!("out of memory"),
        }
    }

    // Handles a message of a session.
    fn handle(
        &mut self,
        alloc: Global,
        hub: &mut Hub,
        peer: &mut Peer,
        message: &Message,
        offset: u64,
    ) -> Result<()>
        requires counts { KeepsCounts message.now }
        requires served { IsServed hub.old }
        ensures { OnOk result (IsServed hub.new) }
    {
        let is_open = peer.told.is_none();
        match hub.handle(alloc, peer.session, message, &mut peer.written) {
            Ok(handled) => {
                rise(&mut self.messages, 1);
                rise(&mut self.misled, u64::from(!is_open));
                peer.hears(alloc, handled, offset)
            }
            Err(HubError::NotOpen) => {
                rise(&mut self.late, 1);
                rise(&mut self.misled, u64::from(is_open));
                Ok(())
            }
            Err(HubError::Full | HubError::Memory) => bail!("out of memory"),
        }
    }

    // Closes a session whose frame broke this rule.
    fn shut(
        &mut self,
        alloc: Global,
        hub: &mut Hub,
        peer: &mut Peer,
        rule: u8,
        offset: u64,
    ) -> Result<()>
        requires { IsServed hub.old }
        ensures { OnOk result (IsServed hub.new) }
    {
        let is_open = peer.told.is_none();
        let is_closed = hub.close(peer.session).is_ok();
        rise(&mut self.misled, u64::from(is_open != is_closed));
        peer.is_through = true;
        peer.stops(alloc, Err(RunFault::BadPeer { rule, offset }))
    }

    // Holds what was seen of each session against what the second monitor does with its stream alone.
    fn compare(
        &mut self,
        alloc: Global,
        peers: &[Peer],
        turns: u32,
        setting: Setting,
    ) -> Result<()> {
        rise(&mut self.hubs, 1);
        for peer in peers {
            let mut second = SecondMonitor::new(alloc, setting, turns);
            let told = second.serve(alloc, &peer.made.bytes)?;
            let seen = match &peer.told {
                Some(told) => told.as_str(),
                None => "",
            };
            let is_alike = told.as_str() == seen
                && second.written() == peer.written.as_slice()
                && second.sent() == peer.sent.as_slice();
            rise(&mut self.differ, u64::from(!is_alike));
            rise(&mut self.written, peer.written.len() as u64);
            rise(&mut self.sent, peer.sent.len() as u64);
            self.sum.feed(seen.as_bytes());
            self.sum.feed(&peer.written);
            self.sum.feed(&peer.sent);
        }
        Ok(())
    }

    /// The line of the hubs.
    ///
    /// # Errors
    ///
    /// Want of memory.
    pub fn line(&self, alloc: Global, title: &str) -> Result<String, AllocError> {
        let (hubs, messages, late) = (self.hubs, self.messages, self.late);
        let mut line = format!(in alloc; "{title}: {hubs} hubs, messages {messages}, late {late}")?;
        let (written, sent, sum) = (self.written, self.sent, self.sum.number());
        write!(line, ", written {written}, sent {sent}, sum {sum:08x}")?;
        let (differ, misled) = (self.differ, self.misled);
        write!(line, ", {differ} differ, {misled} misled")?;
        Ok(line)
    }
}

impl Peer {
    // What a message that was handled came to.
    fn hears(&mut self, alloc: Global, handled: Handled, offset: u64) -> Result<()> {
        match handled {
            Handled::GoesOn(None) => Ok(()),
            Handled::GoesOn(Some(reply)) => {
                let frame = frame_of(alloc, &Message::Reply(reply))?;
                Ok(self.sent.extend_from_slice(&frame)?)
            }
            Handled::Ended(end) => self.stops(alloc, Ok(end)),
            Handled::Bad(rule) => self.stops(
                alloc,
                Err(RunFault::BadPeer {
                    rule: rule.number(),
                    offset,
                }),
            ),
        }
    }

    // Its stream has no whole frame any more.
    fn ends(&mut self, alloc: Global) -> Result<()> {
        self.is_through = true;
        self.stops(alloc, Err(RunFault::PeerEnded))
    }

    // How it ended, unless it did before.
    fn stops(&mut self, alloc: Global, answer: Result<End, RunFault>) -> Result<()> {
        if self.told.is_some() {
            return Ok(());
        }
        let mut told = String::new(alloc);
        push_answer(&mut told, answer)?;
        self.told = Some(told);
        Ok(())
    }
}

// A session that will say the stream of this seed.
fn opened(alloc: Global, hub: &mut Hub, setting: Setting, seed: u64) -> Result<Peer>
    requires { IsServed hub.old }
    ensures { OnOk result (IsServed hub.new) }
{
    if hub.opened() >= MOST {
        bail!("too many sessions");
    }
    let session = match hub.open(alloc, &[]) {
        Ok(session) => session,
        Err(_) => bail!("no session was opened"),
    };
    let made = Made::new(alloc, setting.program(), seed)?;
    let mut reader = Reader::new(alloc);
    reader.feed(&made.bytes)?;
    Ok(Peer {
        session,
        made,
        reader,
        is_through: false,
        told: None,
        written: Vec::new(alloc),
        sent: Vec::new(alloc),
    })
}

fn rise(number: &mut u64, by: u64) {
    *number = number.wrapping_add(by);
}
