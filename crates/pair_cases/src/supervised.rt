// A monitor over a link that gives the pieces of a stream.
ghost use Rattle.std.specs.Prelude.{◌<◌, All, IfOk, IsTrue};
ghost use Rattle.host_table.specs.Hosts.{hosts_of};
ghost use Rattle.host_table.specs.RunHosts.{models_of};
ghost use Rattle.pt_core.specs.CodeTree.{view_monitor};
ghost use Rattle.pt_core.specs.WellFormed.{is_well_formed_monitor};
ghost use Rattle.pair_meaning.specs.Monitors as s;
ghost use Rattle.pair_laws.specs.BegunPairsLaws.{HostsServe};
ghost use Rattle.monitor_interp.specs.Monitors.{IsMonitor};
ghost use Rattle.pair_texts.specs.Start as start;
ghost use Rattle.pair_cases.specs.Begun.{AreTextsOf, monitor_of};

use crate::seen::Seen;
use crate::texts::{Texts, pair_of};
use anyhow::{Result, bail};
use boots::boot_bytes;
use case_rows::{bytes_of, first_word};
use monitor_interp::Monitor;
use pair_laws::begun_pairs::{begun_monitors_are_well_formed, begun_monitors_hosts_serve};
use pair_runner::supervise;
use pair_texts::{Beside, Pair};
use pt_base::{ByteSink, ScriptLink};
use second_monitor::push_big;
use std::alloc::{AllocError, Global};
use std::thread::Threads;
use wire::are_bytes;

/// The longest piece of a boot.
const PIECE: usize = 1_048_576;

// A monitor, and the bytes of its slave's boot.
#[derive(Drop)]
struct Begun {
    boot: Vec<u8>,
    monitor: Monitor,
}

/// What the monitor makes of the stream in pieces that a row spells behind its turns, and what it wrote, sent and stored.
///
/// # Errors
///
/// A row of no such form, texts with faults, and want of memory.
pub fn supervised<R: Threads + Sync>(
    rt: &R,
    alloc: Global,
    texts: &Texts,
    row: &str,
) -> Result<String> {
    let (turns, stream) = first_word(row);
    let pieces = pieces_of(alloc, stream)?;
    let mut told = format!(in alloc; "supervise {row}\n")?;
    let none = (Vec::new(alloc), Vec::new(alloc));
    let shown = outcome(rt, alloc, texts, turns.parse::<u32>()?, pieces, none)?;
    told.push_str(shown.as_str())?;
    Ok(told)
}

/// The same where a call of the link or of the sink fails: the row begins with `link` or `sink` and the call's number, from 1.
///
/// # Errors
///
/// A row of no such form, texts with faults, and want of memory.
pub fn failing<R: Threads + Sync>(
    rt: &R,
    alloc: Global,
    texts: &Texts,
    row: &str,
) -> Result<String> {
    let (what, rest) = first_word(row);
    let (call, rest) = first_word(rest);
    let (turns, stream) = first_word(rest);
    let mut fails = Vec::new(alloc);
    fails.push(call.parse::<u64>()?)?;
    let fails = match what {
        "link" => (fails, Vec::new(alloc)),
        "sink" => (Vec::new(alloc), fails),
        _ => bail!("nothing that fails: {what}"),
    };
    let pieces = pieces_of(alloc, stream)?;
    let mut told = format!(in alloc; "failing {row}\n")?;
    let shown = outcome(rt, alloc, texts, turns.parse::<u32>()?, pieces, fails)?;
    told.push_str(shown.as_str())?;
    Ok(told)
}

// The pieces that a row spells in hexadecimal, with `|` between them.
fn pieces_of(alloc: Global, stream: &str) -> Result<Vec<Vec<u8>>> {
    let mut pieces = Vec::new(alloc);
    for piece in stream.split("|") {
        pieces.push(bytes_of(alloc, piece)?)?;
    }
    Ok(pieces)
}

/// What the monitor of the texts makes of these pieces within so many turns, where the link and the sink fail in the calls of
/// these numbers, in words.
///
/// # Errors
///
/// Texts with faults, a boot of several pieces, and want of memory.
pub fn outcome<R: Threads + Sync>(
    rt: &R,
    alloc: Global,
    texts: &Texts,
    turns: u32,
    pieces: Vec<Vec<u8>>,
    fails: (Vec<u64>, Vec<u64>),
) -> Result<String> {
    let beside = texts.beside(turns);
    let seen = seen_of(rt, alloc, texts.program(), beside, pieces, fails)?;
    Ok(seen.shown(alloc)?)
}

/// What is seen of the monitor of a program and the texts beside it that is given these pieces, where the link and the sink
/// fail in the calls of these numbers.
///
/// # Errors
///
/// Texts with faults, a boot of several pieces, and want of memory.
pub fn seen_of<R: Threads + Sync>(
    rt: &R,
    alloc: Global,
    program: &[u8],
    beside: Beside<'_>,
    pieces: Vec<Vec<u8>>,
    fails: (Vec<u64>, Vec<u64>),
) -> Result<Seen> {
    are_bytes(beside.input);
    let pair = pair_of(rt, alloc, program, beside)?;
    serve(alloc, pair, beside.turns, pieces, fails)
}

// What the monitor of a pair makes of the pieces.
fn serve(
    alloc: Global,
    pair: Pair,
    turns: u32,
    pieces: Vec<Vec<u8>>,
    fails: (Vec<u64>, Vec<u64>),
) -> Result<Seen>
    requires { (t : start.Texts) × AreTextsOf pair turns t }
{
    begun_monitors_are_well_formed();
    begun_monitors_hosts_serve();
    let Begun { boot, monitor } = begin(alloc, pair, turns)?;
    if boot.len() > PIECE {
        bail!("the boot has several pieces");
    }
    Ok(served(alloc, &boot, monitor, pieces, fails)?)
}

// The monitor of a pair, and the bytes of its slave's boot.
fn begin(alloc: Global, pair: Pair, turns: u32) -> Result<Begun, AllocError>
    requires monitor { IsTrue (is_well_formed_monitor (view_monitor pair.monitor)) }
    requires hosts { HostsServe (view_monitor pair.monitor) (models_of (hosts_of pair.hosts).models) }
    requires bytes { All (λ b. b < 256) (hosts_of pair.hosts).input }
    ensures { IfOk result (λ b. IsMonitor b.monitor (monitor_of pair turns)) }
{
    let boot = boot_bytes(alloc, &pair.boot)?;
    let monitor = Monitor::new(alloc, pair.monitor, pair.hosts, pair.policy, turns)?;
    Ok(Begun { boot, monitor })
}

// What the monitor makes of the pieces.
fn served(
    alloc: Global,
    boot: &[u8],
    monitor: Monitor,
    pieces: Vec<Vec<u8>>,
    fails: (Vec<u64>, Vec<u64>),
) -> Result<Seen, AllocError>
    requires { (m : s.Monitor) × IsMonitor monitor m }
{
    let mut monitor = monitor;
    let frames = boot_frames(alloc, boot)?;
    let mut link = ScriptLink::new(alloc, pieces, fails.0);
    let mut sink = ByteSink::new(alloc, fails.1);
    let answer = supervise(alloc, &mut monitor, boot, &mut link, &mut sink);
    let replies = link.sent().strip_prefix(frames.as_slice());
    Seen::new(alloc, answer, sink.bytes(), replies, monitor.store_count())
}

// The frames of a boot of one piece, with which what is sent has to begin.
fn boot_frames(alloc: Global, boot: &[u8]) -> Result<Vec<u8>, AllocError> {
    let mut frames = Vec::new(alloc);
    push_big(&mut frames, (boot.len() as u64).saturating_add(1), 4)?;
    frames.push(0)?;
    frames.extend_from_slice(boot)?;
    frames.extend_from_slice(&[0, 0, 0, 1, 0])?;
    Ok(frames)
}
