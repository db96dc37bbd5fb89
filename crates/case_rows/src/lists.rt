// Lists of rows, and what each row shows.
ghost use Rattle.std.specs.Thread.{IsSync};

use anyhow::{Context, Result, bail};
use std::alloc::Global;
use std::rt::Runtime;
use std::thread::Threads;
use std::{env, fs};

/// The work that rows ask for goes as deep as a text nests, so it gets this many bytes of stack.
pub const STACK: usize = 1 << 30;

/// What the rows of lists show, one after the other.
pub trait Shows {
    /// A list begins: what the rows of another one have set is gone.
    fn begin_list(&mut self, alloc: Global);

    /// What a row shows, in one line or more. Its first word says which call it makes, and calls may start
    /// threads.
    ///
    /// # Errors
    ///
    /// A row of no such form, and want of memory.
    fn shown<R: Threads + Sync>(&mut self, rt: &R, alloc: Global, row: &str) -> Result<String>
        requires { IsSync R.row };
}

/// Prints what each row of each list shows, in order. Titles and blank lines are printed as they are. The
/// program's words are a folder and the names of lists in it.
///
/// # Errors
///
/// Other words, a list that can't be read, a row of no form, what can't be printed, and want of memory.
pub fn show_lists<R: Runtime + AllocGlobal + Threads + Sync, S: Shows>(
    rt: &R,
    shows: &mut S,
) -> Result<()> {
    let mut words = env::args(rt)?.skip(1);
    let Some(folder) = words.next() else {
        bail!("the words are a folder and the names of lists in it");
    };
    for list in words {
        show_list(rt, shows, folder.as_str(), list.as_str())?;
    }
    Ok(())
}

fn show_list<R: Runtime + AllocGlobal + Threads + Sync, S: Shows>(
    rt: &R,
    shows: &mut S,
    folder: &str,
    list: &str,
) -> Result<()> {
    let alloc = rt.alloc();
    let path = format!(in alloc; "{folder}/{list}")?;
    let text = fs::read_to_string(rt, path.as_str()).context(format_args!("reading {path}"))?;
    shows.begin_list(alloc);
    for line in text.lines() {
        if line.is_empty() || line.starts_with('#') {
            println!(rt; "{line}")?;
        } else {
            let shown = shows
                .shown(rt, alloc, line)
                .context(format_args!("at {line}"))?;
            println!(rt; "{shown}")?;
        }
    }
    Ok(())
}
