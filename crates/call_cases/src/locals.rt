// Both halves in one process, under several windows and choosers.
use crate::files::Files;
use anyhow::Result;
use case_rows::{Silent, first_word, spelled};
use pt_base::{Alternate, Chooser, ScriptChooser, Who};
use std::alloc::{AllocError, Global};
use std::thread::Threads;

/// So many answers a chooser gives at first.
const FEW: usize = 20;

/// So many answers, where one half is to go on as long as it may.
const MANY: usize = 20_000;

// Who decides which half goes on.
#[derive(Clone, Copy)]
enum Choosing {
    InTurn,
    SlaveFirst,
    SlaveLong,
    MonitorFirst,
}

impl Choosing {
    fn name(self) -> &'static str {
        match self {
            Choosing::InTurn => "in turn",
            Choosing::SlaveFirst => "the slave first",
            Choosing::SlaveLong => "the slave for long",
            Choosing::MonitorFirst => "the monitor first",
        }
    }
}

// A program with its turns.
#[derive(Clone, Copy)]
struct Run<'a> {
    turns: &'a str,
    text: &'a str,
}

// So many messages may wait, and who decides.
#[derive(Clone, Copy)]
struct Way {
    window: &'static str,
    choosing: Choosing,
}

fn way_of(window: &'static str, choosing: Choosing) -> Way {
    Way { window, choosing }
}

/// Runs the program that the row spells behind its turns as two halves, with the files `host`, `policy` and `input`, under
/// four windows and choosers that differ. What it comes to is told once, and again for each way that comes to something else.
///
/// # Errors
///
/// A text that isn't spelled right, and want of memory.
pub fn local<R: Threads + Sync>(
    rt: &R,
    alloc: Global,
    files: &mut Files,
    row: &str,
) -> Result<String> {
    let told = format!(in alloc; "local {row}")?;
    let ways = [
        way_of("1", Choosing::SlaveLong),
        way_of("4", Choosing::MonitorFirst),
        way_of("1024", Choosing::SlaveLong),
    ];
    told_of(rt, alloc, files, row, &ways, told)
}

/// The same under each of three windows and four choosers.
///
/// # Errors
///
/// A text that isn't spelled right, and want of memory.
pub fn orders<R: Threads + Sync>(
    rt: &R,
    alloc: Global,
    files: &mut Files,
    row: &str,
) -> Result<String> {
    let told = format!(in alloc; "orders {row}")?;
    let ways = [
        way_of("1", Choosing::InTurn),
        way_of("1", Choosing::SlaveFirst),
        way_of("1", Choosing::SlaveLong),
        way_of("1", Choosing::MonitorFirst),
        way_of("4", Choosing::SlaveFirst),
        way_of("4", Choosing::SlaveLong),
        way_of("4", Choosing::MonitorFirst),
        way_of("1024", Choosing::InTurn),
        way_of("1024", Choosing::SlaveFirst),
        way_of("1024", Choosing::SlaveLong),
        way_of("1024", Choosing::MonitorFirst),
    ];
    told_of(rt, alloc, files, row, &ways, told)
}

// What a row's program comes to where both halves take turns and four messages may wait, and in each of these ways that
// comes to something else.
fn told_of<R: Threads + Sync>(
    rt: &R,
    alloc: Global,
    files: &mut Files,
    row: &str,
    ways: &[Way],
    told: String,
) -> Result<String> {
    let (turns, text) = first_word(row);
    let text = spelled(alloc, text)?;
    let run = Run {
        turns,
        text: text.as_str(),
    };
    let mut told = told;
    let first = ending(rt, alloc, files, run, way_of("4", Choosing::InTurn))?;
    told.push_str(first.as_str())?;
    for way in ways {
        let other = ending(rt, alloc, files, run, *way)?;
        if other.as_str() != first.as_str() {
            let (window, name) = (way.window, way.choosing.name());
            write!(told, "\n window {window}, {name}:{other}")?;
        }
    }
    Ok(told)
}

// What a program comes to in one way.
fn ending<R: Threads + Sync>(
    rt: &R,
    alloc: Global,
    files: &mut Files,
    run: Run<'_>,
    way: Way,
) -> Result<String, AllocError> {
    let window = way.window;
    match way.choosing {
        Choosing::InTurn => {
            let mut chooser = Alternate::new();
            ending_by(rt, alloc, files, run, window, &mut chooser)
        }
        Choosing::SlaveFirst => scripted(rt, alloc, files, run, window, (Who::Slave, FEW)),
        Choosing::SlaveLong => scripted(rt, alloc, files, run, window, (Who::Slave, MANY)),
        Choosing::MonitorFirst => scripted(rt, alloc, files, run, window, (Who::Parent, FEW)),
    }
}

// The same under a chooser that gives an answer so many times.
fn scripted<R: Threads + Sync>(
    rt: &R,
    alloc: Global,
    files: &mut Files,
    run: Run<'_>,
    window: &str,
    script: (Who, usize),
) -> Result<String, AllocError> {
    let (who, times) = script;
    let mut answers = Vec::new(alloc);
    for _ in 0..times {
        answers.push(who)?;
    }
    let mut chooser = ScriptChooser::new(answers);
    ending_by(rt, alloc, files, run, window, &mut chooser)
}

// The same under this chooser.
fn ending_by<R: Threads + Sync, C: Chooser>(
    rt: &R,
    alloc: Global,
    files: &mut Files,
    run: Run<'_>,
    window: &str,
    chooser: &mut C,
) -> Result<String, AllocError> {
    let words = [
        "local", "program", "host", "policy", "input", run.turns, window,
    ];
    let mut outside = files.outside_of(alloc, &words, run.text)?;
    let status = outside.call(rt, alloc, &words, chooser, &Silent);
    let mut told = String::new(alloc);
    outside.push_ending(&mut told, status)?;
    Ok(told)
}
