//! The program over the real outside: its words, the files of the system, its standard streams, and itself as a child or the
//! parent that started it.
#![tactic(auto)]

use honest_link::Witness;
use privtrans_app::privtrans;
use process_link::{Child, RealFolder, RealSink};
use pt_base::{Alternate, FnId, Sink, SinkFault, Watch};
use std::alloc::Global;
use std::io::{ErrorKind, Read};
use std::os::fd::AsFd;
use std::process::{ExitCode, Processes};
use std::rt::{Env, Files};
use std::thread::{Builder, Threads};
use std::{env, io};

/// Work goes as deep as trees and calls do, so it gets this many bytes of stack.
const STACK: usize = 1 << 30;

// Is told of the front end's work, and does nothing.
struct Silent;

impl Watch for Silent {
    fn begin(&self, _f: FnId) {}
}

// The words that follow the program's name.
fn words<R: Env + AllocGlobal>(rt: &R, alloc: Global) -> Result<Vec<String>, io::Error> {
    let mut words = Vec::new(alloc);
    for word in env::args(rt)?.skip(1) {
        words.push(word)?;
    }
    Ok(words)
}

// The file of this program, or the empty name where it has none that can be told. The error is want of memory.
fn own_file<R: Files + AllocGlobal>(rt: &R, alloc: Global) -> Result<String, io::Error> {
    match env::current_exe(rt) {
        Ok(file) => Ok(file.into_string()),
        Err(fault) => {
            match fault.kind() {
                ErrorKind::OutOfMemory => Err(fault),
                _ => Ok(String::new(alloc)),
            }
        }
    }
}

fn texts<'a>(alloc: Global, words: &'a [String]) -> Result<Vec<&'a str>, io::Error> {
    let mut texts = Vec::new(alloc);
    for word in words {
        texts.push(word.as_str())?;
    }
    Ok(texts)
}

// The status where the words or this program's file can't be had: 12 for want of memory, else 1, since a word
// that is no UTF-8 is of no form.
fn not_begun<E: Sink>(alloc: Global, report: &mut E, fault: &io::Error) -> u8 {
    let (line, status): (&[u8], u8) = match fault.kind() {
        ErrorKind::OutOfMemory => (b"memory\n", 12),
        _ => (b"usage\n", 1),
    };
    match report.write(alloc, line) {
        Ok(()) => status,
        Err(SinkFault::Failed) => { if status == 12 { 12 } else { 4 } }
        Err(SinkFault::Memory) => 12,
    }
}

// Does what the words ask for, and gives the status that the program ends with.
fn work<
    R: Env + Files + Threads + Processes + AllocGlobal + Sync,
    I: Read + Drop,
    O: AsFd + Drop,
    E: AsFd,
>(rt: &R, input: I, output: O, report: &E) -> u8 {
    let alloc = rt.alloc();
    let mut report = RealSink::new(report);
    let words = match words(rt, alloc) {
        Ok(words) => words,
        Err(fault) => return not_begun(alloc, &mut report, &fault),
    };
    let texts = match texts(alloc, &words) {
        Ok(texts) => texts,
        Err(fault) => return not_begun(alloc, &mut report, &fault),
    };
    let file = match own_file(rt, alloc) {
        Ok(file) => file,
        Err(fault) => return not_begun(alloc, &mut report, &fault),
    };
    let mut folder = RealFolder::new(rt);
    let mut out = RealSink::new(&output);
    let child = Child::new(rt, alloc, file, input, output);
    let mut spawner = Witness::new(child);
    let mut chooser = Alternate::new();
    privtrans(
        rt,
        alloc,
        &texts,
        &mut folder,
        &mut out,
        &mut report,
        &mut spawner,
        &mut chooser,
        &Silent,
    )
}

// The work is done in a thread with room for it, or here where none can be started.
fn main(rt: HostRuntime) -> ExitCode {
    let started = Builder::new().stack_size(STACK).spawn(
        &rt,
        move || work(&rt, rt.stdin(), rt.stdout(), &rt.stderr()),
    );
    ExitCode::from(match started {
        Ok(thread) => thread.join(&rt),
        Err(_) => work(&rt, rt.stdin(), rt.stdout(), &rt.stderr()),
    })
}
