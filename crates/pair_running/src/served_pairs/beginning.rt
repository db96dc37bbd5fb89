// Where sessions begin: a slave is made for each input, and a session opened.
ghost use Rattle.std.specs.Prelude.{◌≤◌, IfOk, OnOk, length};
ghost use Rattle.sessions.specs.Hubs as of_hub;
ghost use Rattle.sessions.specs.Hubs.{with_opened};
ghost use Rattle.sessions.specs.IsHub.{IsHub};
ghost use Rattle.pair_texts.specs.Several.{SharedTexts};
ghost use Rattle.pair_running.specs.ServedPairsBeginning.{AreMade, AreOfBytes, HasRoom, HaveBegun, HaveOpened, IsFresh, MayBegin};

use crate::served_pairs::turning::Talk;
use pair_laws::begun_pairs::{
    begun_boots_are_well_formed, begun_monitors_are_well_formed, begun_monitors_hosts_serve,
    begun_pairs_are_expected,
};
use pair_texts::Shared;
use pt_base::{Bytes, Listed};
use sessions::{Hub, HubError};
use slave_interp::Slave;
use std::alloc::{AllocError, Global};
use wire::are_bytes;

/// A hub with a session for each input, and the names of the program's functions.
#[derive(Drop)]
pub(crate) struct Begun {
    pub hub: Hub,
    pub talks: Vec<Talk>,
    pub names: Listed<Bytes>,
}

/// All inputs are of bytes. It does nothing.
pub(crate) fn of_bytes(all: &[Bytes])
    ensures { AreOfBytes all.now }
{
    for input in all {
        are_bytes(input.as_slice());
    }
}

// A session for each input, by its number, with its slave.
fn talks_of(
    alloc: Global,
    shared: &Shared,
    all: &[Bytes],
    turns: u32,
) -> Result<Vec<Talk>, AllocError>
    requires texts { (t : SharedTexts) × MayBegin t shared.now all.now }
    requires few { length all.now ≤ 64 }
    ensures { IfOk result (λ talks. AreMade shared.now turns 0 all.now talks.items) }
{
    begun_boots_are_well_formed();
    let mut talks = Vec::with_capacity(alloc, all.len())?;
    let mut number: u32 = 0;
    for input in all {
        let boot = shared.boot(alloc, input.as_slice(), turns)?;
        let slave = Slave::new(alloc, boot)?;
        let talk = Talk::new(alloc, number, slave);
        talks.push(talk)?;
        number += 1;
    }
    Ok(talks)
}

// Opens a session with this input, where there is room for one.
fn open_one(alloc: Global, hub: &mut Hub, input: &[u8]) -> Result<(), AllocError>
    requires { (h : of_hub.Hub) × IsHub hub.old h × HasRoom h }
    ensures { OnOk result ((h : of_hub.Hub) → IsHub hub.old h → IsHub hub.new (with_opened input.now h)) }
{
    match hub.open(alloc, input) {
        Ok(_number) => Ok(()),
        Err(HubError::Memory) => Err(AllocError),
        Err(HubError::Full) => unreachable!(),
        Err(HubError::NotOpen) => unreachable!(),
    }
}

// Opens a session for each input, in this order.
fn open_all(alloc: Global, hub: &mut Hub, all: &[Bytes]) -> Result<(), AllocError>
    requires fresh { (h : of_hub.Hub) × IsHub hub.old h × IsFresh h }
    requires few { length all.now ≤ 64 }
    ensures { OnOk result ((h : of_hub.Hub) → IsHub hub.old h → IsFresh h → HaveOpened hub.new h all.now) }
{
    for input in all {
        open_one(alloc, hub, input.as_slice())?;
    }
    Ok(())
}

/// A hub of this program with a session for each input, of which there are at most 64. Its sessions are numbered from 0, in
/// this order.
pub(crate) fn begin(
    alloc: Global,
    shared: Shared,
    all: &[Bytes],
    turns: u32,
) -> Result<Begun, AllocError>
    requires texts { (t : SharedTexts) × MayBegin t shared all.now }
    requires few { length all.now ≤ 64 }
    ensures { IfOk result (λ begun. (t : SharedTexts) → MayBegin t shared all.now → HaveBegun t shared all.now turns begun) }
{
    begun_monitors_are_well_formed();
    begun_monitors_hosts_serve();
    begun_pairs_are_expected();
    let talks = talks_of(alloc, &shared, all, turns)?;
    let Shared {
        slave: _,
        monitor,
        hosts,
        policy,
        names,
    } = shared;
    let mut hub = Hub::new(alloc, monitor, hosts, policy, turns)?;
    open_all(alloc, &mut hub, all)?;
    Ok(Begun { hub, talks, names })
}
