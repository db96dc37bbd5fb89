// A call of the whole tool that is made again and again, where each call of the outside fails in turn.
use crate::calls::words_of;
use crate::files::Files;
use crate::peer::Peer;
use anyhow::{Result, bail};
use case_rows::{Silent, push_bytes};
use privtrans_app::privtrans;
use pt_base::{Alternate, ByteSink, MapFolder, ScriptLink};
use std::alloc::{AllocError, Global};
use std::thread::Threads;

/// No call of a row makes as many calls of one part of the outside.
const MOST: u64 = 100;

// A part of the outside of which a call fails; a folder's read fails or finds no file.
#[derive(Clone, Copy, PartialEq)]
enum Part {
    Folder,
    Missing,
    Out,
    Report,
    Link,
}

const PARTS: [Part; 5] = [
    Part::Folder,
    Part::Missing,
    Part::Out,
    Part::Report,
    Part::Link,
];

impl Part {
    fn name(self) -> &'static str {
        match self {
            Part::Folder => "folder",
            Part::Missing => "missing",
            Part::Out => "out",
            Part::Report => "report",
            Part::Link => "link",
        }
    }
}

// The call of a part that fails, from 1.
#[derive(Clone, Copy)]
struct Failure {
    part: Part,
    call: u64,
}

// What a call came to, and what it left.
#[derive(Drop)]
struct Left {
    status: u8,
    // So many files were held before.
    held: usize,
    folder: MapFolder,
    out: ByteSink,
    report: ByteSink,
    peer: Peer,
}

impl Left {
    // The outside of a call with these words that isn't made yet.
    fn before(
        alloc: Global,
        files: &Files,
        words: &[&str],
        failure: Option<Failure>,
    ) -> Result<Left, AllocError> {
        let pieces = files.pieces(alloc)?;
        let named = files.named(alloc, words)?;
        Ok(Left {
            status: 0,
            held: named.len(),
            folder: MapFolder::new(named, folder_fails(alloc, failure)?),
            out: ByteSink::new(alloc, fails_of(alloc, failure, Part::Out)?),
            report: ByteSink::new(alloc, fails_of(alloc, failure, Part::Report)?),
            peer: Peer::new(ScriptLink::new(alloc, pieces, fails_of(alloc, failure, Part::Link)?)),
        })
    }

    fn call<R: Threads + Sync>(&mut self, rt: &R, alloc: Global, words: &[&str]) {
        let mut chooser = Alternate::new();
        self.status = privtrans(
            rt,
            alloc,
            words,
            &mut self.folder,
            &mut self.out,
            &mut self.report,
            &mut self.peer,
            &mut chooser,
            &Silent,
        );
    }

    // Whether all is as another call left it.
    fn is_as(&self, other: &Left) -> bool {
        self.status == other.status
            && self.out.bytes() == other.out.bytes()
            && self.report.bytes() == other.report.bytes()
            && self.peer.sent() == other.peer.sent()
            && self.folder.files().len() == other.folder.files().len()
    }

    // Appends what a call came to; of what was sent and of the files that were written, whether they are as another call left them.
    fn push(&self, told: &mut String, whole: &Left) -> Result<(), AllocError> {
        write!(told, "status {}, out \"", self.status)?;
        push_bytes(told, self.out.bytes())?;
        told.push_str("\", report \"")?;
        push_bytes(told, self.report.bytes())?;
        told.push('"')?;
        if !whole.peer.sent().is_empty() {
            write!(
                told,
                ", sent {}",
                part_of(self.peer.sent(), whole.peer.sent())
            )?;
        }
        self.push_files(told, whole)
    }

    // Appends of each file that was written, or changed, whether it is as another call left it.
    fn push_files(&self, told: &mut String, whole: &Left) -> Result<(), AllocError> {
        for (place, file) in self.folder.files().iter().enumerate() {
            let kept = is_file(whole.folder.files().get(place), file);
            if !kept {
                write!(told, ", {} is another", file.0.as_str())?;
            } else if place >= self.held {
                write!(told, ", {} is whole", file.0.as_str())?;
            }
        }
        Ok(())
    }
}

// Whether it is this file.
fn is_file(held: Option<&(String, Vec<u8>)>, file: &(String, Vec<u8>)) -> bool {
    match held {
        Some(held) => held.0.as_str() == file.0.as_str() && held.1.as_slice() == file.1.as_slice(),
        None => false,
    }
}

// Which part of the bytes these are.
fn part_of(bytes: &[u8], whole: &[u8]) -> &'static str {
    if bytes == whole {
        "all"
    } else if bytes.is_empty() {
        "nothing"
    } else if whole.starts_with(bytes) {
        "a part"
    } else {
        "others"
    }
}

// The calls of a folder that fail.
fn folder_fails(alloc: Global, failure: Option<Failure>) -> Result<Vec<(u64, bool)>, AllocError> {
    let mut fails = Vec::new(alloc);
    if let Some(failure) = failure
        && (failure.part == Part::Folder || failure.part == Part::Missing)
    {
        fails.push((failure.call, failure.part == Part::Missing))?;
    }
    Ok(fails)
}

// The calls of another part that fail.
fn fails_of(alloc: Global, failure: Option<Failure>, part: Part) -> Result<Vec<u64>, AllocError> {
    let mut fails = Vec::new(alloc);
    if let Some(failure) = failure
        && failure.part == part
    {
        fails.push(failure.call)?;
    }
    Ok(fails)
}

// What the call comes to with this failure.
fn left_by<R: Threads + Sync>(
    rt: &R,
    alloc: Global,
    files: &Files,
    words: &[&str],
    failure: Option<Failure>,
) -> Result<Left, AllocError> {
    let mut left = Left::before(alloc, files, words, failure)?;
    left.call(rt, alloc, words);
    Ok(left)
}

/// Makes the call with the row's words, and again with each call of the folder, of out, of the report and of the link failing in
/// turn, up to the first that isn't made, where all is as without a failure. Each has a line of its own.
///
/// # Errors
///
/// Calls of one part without end, and want of memory.
pub fn failures<R: Threads + Sync>(
    rt: &R,
    alloc: Global,
    files: &mut Files,
    row: &str,
) -> Result<String> {
    let words = words_of(alloc, row)?;
    let mut told = format!(in alloc; "failures {row}\n  ")?;
    let whole = left_by(rt, alloc, files, &words, None)?;
    whole.push(&mut told, &whole)?;
    for part in PARTS {
        push_part(rt, alloc, files, &words, part, &whole, &mut told)?;
    }
    files.forget_pieces(alloc);
    Ok(told)
}

// Appends what the call comes to with each call of a part failing in turn.
fn push_part<R: Threads + Sync>(
    rt: &R,
    alloc: Global,
    files: &Files,
    words: &[&str],
    part: Part,
    whole: &Left,
    told: &mut String,
) -> Result<()> {
    for call in 1..MOST {
        let left = left_by(rt, alloc, files, words, Some(Failure { part, call }))?;
        if left.is_as(whole) {
            return Ok(());
        }
        write!(told, "\n  {} {call}: ", part.name())?;
        left.push(told, whole)?;
    }
    bail!("calls of {} have no end", part.name())
}
