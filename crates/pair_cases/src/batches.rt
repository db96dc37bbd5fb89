// Runs in batches, and a line of each batch.
use crate::checksum::Adler;
use crate::seen::{Kind, Seen};
use crate::streams::pieces_of;
use crate::supervised::seen_of;
use anyhow::{Result, bail};
use pair_texts::Beside;
use second_monitor::{SecondMonitor, Setting, count_replies};
use std::alloc::{AllocError, Global};
use std::thread::Threads;

/// The longest line of a host has so many bytes, and the longest reply without cells.
const LONGEST_LINE: usize = 64;

const LONGEST_REPLY: usize = 32;

/// What the runs of a batch came to.
#[derive(Drop)]
pub struct Batch {
    runs: u64,
    ends: [u64; 5],
    rules: [u64; 10],
    handles: u64,
    written: u64,
    sent: u64,
    frames: u64,
    cut: u64,
    sum: Adler,
    differ: u64,
    change: u64,
    beyond: u64,
}

/// A stream, the turns of its run, and the size of the pieces in which it comes at most.
#[derive(Clone, Copy)]
pub struct Given<'a> {
    pub setting: Setting,
    pub turns: u32,
    pub bytes: &'a [u8],
    pub piece: usize,
}

// What the second monitor says of a stream.
#[derive(Drop)]
struct Second {
    told: String,
    monitor: SecondMonitor,
}

impl Batch {
    /// No run yet.
    pub fn new() -> Batch {
        Batch {
            runs: 0,
            ends: [0; 5],
            rules: [0; 10],
            handles: 0,
            written: 0,
            sent: 0,
            frames: 0,
            cut: 0,
            sum: Adler::new(),
            differ: 0,
            change: 0,
            beyond: 0,
        }
    }

    /// Has a monitor serve a stream, and holds what is seen against what the second monitor does, against a run without the
    /// frame that was refused, and against what the turns allow.
    ///
    /// # Errors
    ///
    /// Texts with faults, and want of memory.
    pub fn run<R: Threads + Sync>(
        &mut self,
        rt: &R,
        alloc: Global,
        given: Given<'_>,
    ) -> Result<()> {
        let seen = seen_of_stream(rt, alloc, given)?;
        let second = Second::new(alloc, given)?;
        self.count(&seen);
        self.compare(&seen, &second, given);
        if seen.is_refused() {
            let served = given.bytes.get(..second.monitor.served()).unwrap_or(&[]);
            let before = Given {
                bytes: served,
                ..given
            };
            let cut = seen_of_stream(rt, alloc, before)?;
            rise(&mut self.cut, 1);
            rise(&mut self.change, u64::from(!cut.is_begun_as(&seen)));
        }
        Ok(())
    }

    fn count(&mut self, seen: &Seen) {
        rise(&mut self.runs, 1);
        match seen.kind {
            Kind::Exit => rise_at(&mut self.ends, 0),
            Kind::Trap => rise_at(&mut self.ends, 1),
            Kind::Spent => rise_at(&mut self.ends, 2),
            Kind::Refused => rise_at(&mut self.ends, 3),
            Kind::PeerEnded => rise_at(&mut self.ends, 4),
            Kind::Rule(rule) => rise_at(&mut self.rules, (rule as usize).wrapping_sub(1)),
            Kind::Failed => {}
        }
        rise(&mut self.handles, seen.handles);
        rise(&mut self.written, seen.written.len() as u64);
        rise(&mut self.sent, seen.sent.len() as u64);
        self.sum.feed(seen.told.as_bytes());
        self.sum.feed(&seen.written);
        self.sum.feed(&seen.sent);
    }

    fn compare(&mut self, seen: &Seen, second: &Second, given: Given<'_>) {
        let frames = second.monitor.frames();
        let is_bounded = frames <= u64::from(given.turns).saturating_add(1)
            && is_bounded(seen, given);
        rise(&mut self.frames, frames);
        rise(&mut self.differ, u64::from(!second.is_alike(seen)));
        rise(&mut self.beyond, u64::from(!is_bounded));
    }

    /// The line of the batch.
    ///
    /// # Errors
    ///
    /// Want of memory.
    pub fn line(&self, alloc: Global, title: &str) -> Result<String, AllocError> {
        let mut line = format!(in alloc; "{title}: {} runs,", self.runs)?;
        let names = ["exit", "trap", "spent", "refused", "peer ended"];
        for (name, number) in names.iter().zip(&self.ends) {
            write!(line, " {name} {number},")?;
        }
        line.push_str(" rules")?;
        for number in &self.rules {
            write!(line, " {number}")?;
        }
        let (handles, written, sent) = (self.handles, self.written, self.sent);
        write!(line, ", handles {handles}, written {written}, sent {sent}")?;
        let (frames, cut, sum) = (self.frames, self.cut, self.sum.number());
        write!(line, ", frames {frames}, cut {cut}, sum {sum:08x}")?;
        self.push_faults(&mut line)?;
        Ok(line)
    }

    fn push_faults(&self, line: &mut String) -> Result<(), AllocError> {
        let (differ, change, beyond) = (self.differ, self.change, self.beyond);
        write!(line, ", {differ} differ, {change} change, {beyond} beyond")
    }
}

impl Second {
    fn new(alloc: Global, given: Given<'_>) -> Result<Second, AllocError> {
        let mut monitor = SecondMonitor::new(alloc, given.setting, given.turns);
        let told = monitor.serve(alloc, given.bytes)?;
        Ok(Second { told, monitor })
    }

    // Whether it comes to the same end, bytes, replies and handles.
    fn is_alike(&self, seen: &Seen) -> bool {
        self.told.as_str() == seen.told.as_str()
            && self.monitor.written() == seen.written.as_slice()
            && self.monitor.sent() == seen.sent.as_slice()
            && self.monitor.handles() as u64 == seen.handles
    }
}

fn rise(number: &mut u64, by: u64) {
    *number = number.wrapping_add(by);
}

fn rise_at(numbers: &mut [u64], at: usize) {
    if let Some(number) = numbers.get_mut(at) {
        rise(number, 1);
    }
}

// What is seen of a monitor that serves a stream. What was sent begins with the boot.
fn seen_of_stream<R: Threads + Sync>(rt: &R, alloc: Global, given: Given<'_>) -> Result<Seen> {
    let Given {
        setting,
        turns,
        bytes,
        piece,
    } = given;
    let beside = Beside {
        host: setting.hosts().as_bytes(),
        policy: setting.policy().as_bytes(),
        input: &[],
        turns,
    };
    let pieces = pieces_of(alloc, bytes, piece)?;
    let none = (Vec::new(alloc), Vec::new(alloc));
    let seen = seen_of(rt, alloc, setting.text().as_bytes(), beside, pieces, none)?;
    if matches!(seen.kind, Kind::Failed) {
        bail!("what is in memory failed");
    }
    if !seen.has_booted {
        bail!("what was sent doesn't begin with the boot");
    }
    Ok(seen)
}

// Whether a turn has a reply and a line at most, and all else that was written and sent was brought by the stream: a cell
// that is sent back is shorter than two of those that came.
fn is_bounded(seen: &Seen, given: Given<'_>) -> bool {
    let turns = given.turns as usize;
    let lines = LONGEST_LINE.saturating_mul(turns);
    let replies = LONGEST_REPLY.saturating_mul(turns);
    let brought = given.bytes.len();
    matches!(count_replies(&seen.sent), Some(count) if count <= u64::from(given.turns))
        && seen.written.len() <= brought.saturating_add(lines)
        && seen.sent.len() <= brought.saturating_mul(2).saturating_add(replies)
}
