// Sessions of one hub that go on by turns.
ghost use Rattle.std.specs.Prelude.{◌≡◌, ◌<◌, ℕ, true, List, IfOk, OnOk, length, map};
ghost use Rattle.pair_protocol.specs.Pair.{delivered};
ghost use Rattle.pair_meaning.specs.Monitors.{Monitor};
ghost use Rattle.pair_meaning.specs.Pair.{the_sides};
ghost use Rattle.pair_meaning.specs.SlaveRun as s;
ghost use Rattle.sessions.specs.Hubs as of_hub;
ghost use Rattle.sessions.specs.IsHub.{IsHub};
ghost use Rattle.slave_interp.specs.Slaves.{IsSlave};
ghost use Rattle.pair_running.specs.ServedPairsTurns.{AllBegin, AreEnds, AreSeated, HasHeard, HasReached, HasSaid, HasTaken, HasTurned, HaveGone, HaveRun, IsEndOf, IsOpenAt, IsPlace, IsRunning, IsServedSo, MayHear, Pair, ServedOne, StandAt, count_open, end_of, is_open};

use crate::served_pairs::served::SessionEnd;
use marshalling::{BadReply, bodies_keep_counts};
use monitor_interp::Handled;
use pair_meaning::the_sides_are_fair;
use pt_base::{Bytes, Chooser, End, Who};
use sessions::{Hub, HubError};
use slave_interp::{Ran, Slave};
use slave_soundness_law::{calls_are_ready, slaves_stay_sound};
use std::alloc::{AllocError, Global};
use wire::{Message, ReplyBody};

/// A session between two turns: its slave, what its monitor wrote, and how it ended, if it did.
#[derive(Drop)]
pub struct Talk {
    session: u32,
    slave: Slave,
    written: Vec<u8>,
    end: Option<End>,
}

impl Talk {
    ghost use Rattle.std.specs.Prelude.{◌≡◌, [], None};

    /// The session of this number, where it begins with this slave.
    pub fn new(alloc: Global, session: u32, slave: Slave) -> Talk
        ensures session { result.session ≡ session }
        ensures slave { result.slave ≡ slave }
        ensures written { result.written.items ≡ [] }
        ensures runs { result.end ≡ None }
    {
        Talk {
            session,
            slave,
            written: Vec::new(alloc),
            end: None,
        }
    }
}

// The next message of a slave. More than 2^64 - 1 steps to it are want of memory.
fn said(alloc: Global, slave: &mut Slave) -> Result<Message, AllocError>
    ensures { IfOk result (λ message. (x : s.Slave) → IsSlave slave.old x → HasSaid x message slave.new) }
{
    bodies_keep_counts();
    calls_are_ready();
    slaves_stay_sound();
    the_sides_are_fair();
    let Ran { said, made: _ } = slave.run(alloc, u64::MAX)?;
    match said {
        Some(message) => Ok(message),
        None => Err(AllocError),
    }
}

// Gives a slave the reply that it waits for.
fn take(alloc: Global, slave: &mut Slave, reply: &ReplyBody) -> Result<(), AllocError>
    requires { (x : s.Slave) × IsSlave slave.old x × (s.may_take x x.doing reply.now ≡ true) }
    ensures { OnOk result ((x : s.Slave) → IsSlave slave.old x → IsSlave slave.new (s.take reply.now x)) }
{
    match slave.take(alloc, reply) {
        Ok(()) => Ok(()),
        Err(BadReply::Memory) => Err(AllocError),
        Err(BadReply::Shape) => unreachable!(),
    }
}

// Gives a slave the reply to its message, where there is one.
fn answer(alloc: Global, slave: &mut Slave, reply: Option<ReplyBody>) -> Result<(), AllocError>
    requires { (x : s.Slave) × IsSlave slave.old x × MayHear x reply }
    ensures { OnOk result ((x : s.Slave) → IsSlave slave.old x → IsSlave slave.new (delivered the_sides x reply)) }
{
    match reply {
        None => Ok(()),
        Some(reply) => take(alloc, slave, &reply),
    }
}

// What a message of a session comes to: its slave takes the reply, or it is over. Whether it is. No rule is broken and no reply is of
// another call, since the pair comes to an end.
fn hear(alloc: Global, talk: &mut Talk, handled: Handled) -> Result<bool, AllocError>
    requires { (to : s.Slave) × (written : List ℕ) × (v : ServedOne) × IsServedSo talk.old to written v handled }
    ensures { IfOk result (λ over. (to : s.Slave) (written : List ℕ) (v : ServedOne) → IsServedSo talk.old to written v handled → HasHeard talk.old talk.new to written v over) }
{
    match handled {
        Handled::GoesOn(reply) => {
            answer(alloc, &mut talk.slave, reply)?;
            Ok(false)
        }
        Handled::Ended(end) => {
            talk.end = Some(end);
            Ok(true)
        }
        Handled::Bad(_) => unreachable!(),
    }
}

// One turn of a session that runs: its slave says a message, which its monitor serves, and takes the reply. Whether it
// is over.
fn turn(alloc: Global, hub: &mut Hub, talk: &mut Talk) -> Result<bool, AllocError>
    requires { (h : of_hub.Hub) × (x : s.Slave) × (m : Monitor) × IsRunning hub.old h talk.old x m }
    ensures { IfOk result (λ over. (h : of_hub.Hub) (x : s.Slave) (m : Monitor) → IsRunning hub.old h talk.old x m → HasTaken hub.new h talk.old talk.new x m over) }
{
    the_sides_are_fair();
    let message = said(alloc, &mut talk.slave)?;
    match hub.handle(alloc, talk.session, &message, &mut talk.written) {
        Ok(handled) => {
            let over = hear(alloc, talk, handled)?;
            Ok(over)
        }
        Err(HubError::Memory) => Err(AllocError),
        Err(HubError::NotOpen) => unreachable!(),
        Err(HubError::Full) => unreachable!(),
    }
}

// Whether the session at this place runs.
fn runs_at(talks: &[Talk], place: usize) -> bool
    requires { place < length talks.now }
    ensures { IsOpenAt talks.now place result }
{
    talks[place].end.is_none()
}

// The place of the session that runs and before which so many run.
fn place_of(talks: &[Talk], passed: usize) -> usize
    requires { passed < count_open talks.now }
    ensures { IsPlace talks.now passed result }
{
    let mut left = passed;
    for place in 0..talks.len() {
        if !runs_at(talks, place) {
            continue;
        }
        if left == 0 {
            return place;
        }
        left -= 1;
    }
    unreachable!()
}

// The place of the session that the answers of a turn reach, where so many run. The chooser is asked up to the first
// answer that lets one go on, and as many times at most as there are that run.
fn reached<C: Chooser>(talks: &[Talk], running: usize, chooser: &mut C) -> usize
    requires some { 0 < running }
    requires running { running ≡ count_open talks.now }
    ensures { HasReached talks.now running (C.answers chooser.old) (C.answers chooser.new) result }
{
    for passed in 0..running {
        match chooser.next() {
            Who::Parent => return place_of(talks, passed),
            Who::Slave => {}
        }
    }
    place_of(talks, 0)
}

// One turn: the session that the answers reach goes on by a message. How many run then.
fn go_on<C: Chooser>(
    alloc: Global,
    hub: &mut Hub,
    talks: &mut Vec<Talk>,
    running: usize,
    chooser: &mut C,
) -> Result<usize, AllocError>
    requires some { 0 < running }
    requires stand { (h : of_hub.Hub) × (bs : List Pair) × StandAt hub.old h talks.old.items bs running }
    ensures { IfOk result (λ left. (h : of_hub.Hub) (bs : List Pair) → StandAt hub.old h talks.old.items bs running
        → HasTurned hub.new talks.new.items bs (C.answers chooser.old) (C.answers chooser.new) left) }
{
    let place = reached(talks.as_slice(), running, chooser);
    let talk = &mut talks[place];
    let over = turn(alloc, hub, talk)?;
    if over {
        return Ok(running - 1);
    }
    Ok(running)
}

// All turns, up to the one that brings the last session to its end. More than 2^64 - 1 of them are want of memory.
fn turns<C: Chooser>(
    alloc: Global,
    hub: &mut Hub,
    talks: &mut Vec<Talk>,
    chooser: &mut C,
) -> Result<(), AllocError>
    requires { (h : of_hub.Hub) × (bs : List Pair) × StandAt hub.old h talks.old.items bs (length talks.old.items) }
    ensures { OnOk result ((starts : List (s.Slave × Monitor)) → AllBegin hub.old starts talks.old.items
        → HaveGone hub.new talks.new.items 0 starts (C.answers chooser.old) (C.answers chooser.new)) }
{
    let mut running = talks.len();
    for _turn in 0..u64::MAX {
        if running == 0 {
            return Ok(());
        }
        running = go_on(alloc, hub, talks, running, chooser)?;
    }
    Err(AllocError)
}

// What a session came to that is over.
fn ended(talk: Talk) -> SessionEnd
    requires { is_open talk.end ≡ 0 }
    ensures { IsEndOf talk result }
{
    let Talk {
        session: _,
        slave: _,
        written,
        end,
    } = talk;
    let Some(end) = end else { unreachable!() };
    SessionEnd {
        bytes: Bytes::new(written),
        end,
    }
}

// What sessions came to that are all over.
fn ends_of(alloc: Global, talks: Vec<Talk>) -> Result<Vec<SessionEnd>, AllocError>
    requires { count_open talks.items ≡ 0 }
    ensures { IfOk result (λ ends. AreEnds talks.items ends.items) }
{
    let mut ends = Vec::with_capacity(alloc, talks.len())?;
    for talk in talks {
        ends.push(ended(talk))?;
    }
    Ok(ends)
}

/// Runs these sessions of a hub, which are open and begin, and whose pairs come to an end each, one whole message of one of them
/// in each turn. A turn begins at the first session that still runs. The answer Slave passes on to the next one that
/// runs, and the answer Parent lets the one that was reached go on; as many answers Slave in a row as sessions run let the
/// first go on. With no session nobody is asked. Behind an end a session is closed.
///
/// # Errors
///
/// Want of memory alone, and with it 2^64 - 1 turns, or so many steps of a slave to a message. Sessions that run stay open then.
pub fn run_sessions<C: Chooser>(
    alloc: Global,
    hub: &mut Hub,
    talks: Vec<Talk>,
    chooser: &mut C,
) -> Result<Vec<SessionEnd>, AllocError>
    requires { (h : of_hub.Hub) × (starts : List (s.Slave × Monitor)) × IsHub hub.old h × AreSeated h talks.items starts }
    ensures { IfOk result (λ ends. (h : of_hub.Hub) (starts : List (s.Slave × Monitor)) → IsHub hub.old h → AreSeated h talks.items starts
        → HaveRun starts (C.answers chooser.old) (C.answers chooser.new) (map end_of ends.items)) }
{
    let mut talks = talks;
    turns(alloc, hub, &mut talks, chooser)?;
    let ends = ends_of(alloc, talks)?;
    Ok(ends)
}
