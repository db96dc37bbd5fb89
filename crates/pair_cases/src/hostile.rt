// Streams that no honest slave says, in batches.
use crate::batches::{Batch, Given};
use crate::crowds::Crowd;
use anyhow::{Result, bail};
use case_rows::first_word;
use second_monitor::{LARGE_STREAMS, Made, SETTINGS, Setting, large_stream};
use std::alloc::Global;
use std::thread::Threads;

/// The streams of these seeds, which go on for some messages, are cut in every place of so many bytes.
const CUT: [u64; 2] = [62, 1303];

const LONGEST_CUT: usize = 200;

/// What monitors do with the streams that a row names, in a line: `large`, those at the limits of frames; `cut
/// SETTING`, two in pieces of each size and ended in each place; `part NUMBER STREAMS SETTING`, those of so many
/// seeds, from the number's multiple of them on; `sessions HUBS SETTING`, so many hubs with three streams at once.
///
/// # Errors
///
/// A row of no such form, and want of memory.
pub fn hostile<R: Threads + Sync>(rt: &R, alloc: Global, row: &str) -> Result<String> {
    let (what, rest) = first_word(row);
    match what {
        "large" => large(rt, alloc),
        "cut" => cut(rt, alloc, setting_of(rest)?),
        "part" => part(rt, alloc, rest),
        "sessions" => sessions(rt, alloc, rest),
        _ => bail!("no such streams: {what}"),
    }
}

// The setting of this name.
fn setting_of(name: &str) -> Result<Setting> {
    for setting in SETTINGS {
        if setting.name() == name {
            return Ok(setting);
        }
    }
    bail!("no setting: {name}")
}

// The streams at the limits of frames.
fn large<R: Threads + Sync>(rt: &R, alloc: Global) -> Result<String> {
    let mut batch = Batch::new();
    for number in 0..LARGE_STREAMS {
        let stream = large_stream(alloc, number)?;
        let given = Given {
            setting: Setting::Ledger,
            turns: 1000,
            bytes: &stream,
            piece: 65_536,
        };
        batch.run(rt, alloc, given)?;
    }
    Ok(batch.line(alloc, "large")?)
}

// Streams in pieces of each size, and ended in each place.
fn cut<R: Threads + Sync>(rt: &R, alloc: Global, setting: Setting) -> Result<String> {
    let mut batch = Batch::new();
    for seed in CUT {
        let made = Made::new(alloc, setting.program(), seed)?;
        let bytes = made.bytes.get(..LONGEST_CUT).unwrap_or(&made.bytes);
        let given = Given {
            setting,
            turns: made.budget,
            bytes,
            piece: 1,
        };
        run_cut(rt, alloc, &mut batch, given)?;
    }
    let title = format!(in alloc; "{}, cut", setting.name())?;
    Ok(batch.line(alloc, title.as_str())?)
}

fn run_cut<R: Threads + Sync>(
    rt: &R,
    alloc: Global,
    batch: &mut Batch,
    given: Given<'_>,
) -> Result<()> {
    for at in 0..=given.bytes.len() {
        let first = given.bytes.get(..at).unwrap_or(&[]);
        let in_pieces = Given { piece: at, ..given };
        batch.run(rt, alloc, in_pieces)?;
        batch.run(
            rt,
            alloc,
            Given {
                bytes: first,
                ..in_pieces
            },
        )?;
    }
    Ok(())
}

// The row `NUMBER STREAMS SETTING`.
fn part<R: Threads + Sync>(rt: &R, alloc: Global, row: &str) -> Result<String> {
    let (number, rest) = first_word(row);
    let (streams, name) = first_word(rest);
    let (number, streams) = (number.parse::<u64>()?, streams.parse::<u64>()?);
    run_part(rt, alloc, setting_of(name)?, number, streams)
}

// The streams of so many seeds from a multiple of them on.
fn run_part<R: Threads + Sync>(
    rt: &R,
    alloc: Global,
    setting: Setting,
    number: u64,
    streams: u64,
) -> Result<String> {
    let mut batch = Batch::new();
    for place in 0..streams {
        let seed = number.wrapping_mul(streams).wrapping_add(place);
        let made = Made::new(alloc, setting.program(), seed)?;
        let given = Given {
            setting,
            turns: made.budget,
            bytes: &made.bytes,
            piece: made.piece,
        };
        batch.run(rt, alloc, given)?;
    }
    let title = format!(in alloc; "{}, part {number}", setting.name())?;
    Ok(batch.line(alloc, title.as_str())?)
}

// The row `HUBS SETTING`.
fn sessions<R: Threads + Sync>(rt: &R, alloc: Global, row: &str) -> Result<String> {
    let (hubs, name) = first_word(row);
    let setting = setting_of(name)?;
    let mut crowd = Crowd::new();
    for number in 0..hubs.parse::<u64>()? {
        crowd.run(rt, alloc, setting, number.wrapping_mul(3))?;
    }
    let title = format!(in alloc; "{}, three sessions at once", setting.name())?;
    Ok(crowd.line(alloc, title.as_str())?)
}
