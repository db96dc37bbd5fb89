// The whole tool on files in memory.
use crate::files::Files;
use crate::outside::Outside;
use anyhow::Result;
use case_rows::{Silent, first_word, spelled};
use pt_base::Alternate;
use std::alloc::{AllocError, Global};
use std::thread::Threads;

/// Makes the call with the row's words.
///
/// # Errors
///
/// Want of memory.
pub fn call<R: Threads + Sync>(
    rt: &R,
    alloc: Global,
    files: &mut Files,
    row: &str,
) -> Result<String> {
    let words = words_of(alloc, row)?;
    let outside = files.outside(alloc, &words)?;
    let told = format!(in alloc; "run {row}")?;
    Ok(called(rt, alloc, outside, &words, told)?)
}

/// Makes the call with the row's words, and tells what the other process was sent too.
///
/// # Errors
///
/// Want of memory.
pub fn linked<R: Threads + Sync>(
    rt: &R,
    alloc: Global,
    files: &mut Files,
    row: &str,
) -> Result<String> {
    let words = words_of(alloc, row)?;
    let mut outside = files.outside(alloc, &words)?;
    let mut told = format!(in alloc; "linked {row}")?;
    let mut chooser = Alternate::new();
    let status = outside.call(rt, alloc, &words, &mut chooser, &Silent);
    outside.push_ending(&mut told, status)?;
    outside.push_sent(&mut told)?;
    Ok(told)
}

/// Makes the call with the row's words, and tells how the link to the other process began.
///
/// # Errors
///
/// Want of memory.
pub fn begun<R: Threads + Sync>(
    rt: &R,
    alloc: Global,
    files: &mut Files,
    row: &str,
) -> Result<String> {
    let words = words_of(alloc, row)?;
    let mut outside = files.outside(alloc, &words)?;
    let mut told = format!(in alloc; "begun {row}")?;
    let mut chooser = Alternate::new();
    let _status = outside.call(rt, alloc, &words, &mut chooser, &Silent);
    outside.push_begun(&mut told)?;
    Ok(told)
}

/// Runs the program that the row spells behind its turns, with the files `host` and `input`.
///
/// # Errors
///
/// A text that isn't spelled right, and want of memory.
pub fn original<R: Threads + Sync>(
    rt: &R,
    alloc: Global,
    files: &mut Files,
    row: &str,
) -> Result<String> {
    let (turns, text) = first_word(row);
    let told = format!(in alloc; "orig {row}")?;
    let words = ["orig", "program", "host", "input", turns];
    called_on(rt, alloc, files, &words, text, told)
}

/// Checks the program that the row spells.
///
/// # Errors
///
/// A text that isn't spelled right, and want of memory.
pub fn check<R: Threads + Sync>(
    rt: &R,
    alloc: Global,
    files: &mut Files,
    row: &str,
) -> Result<String> {
    let told = format!(in alloc; "check {row}")?;
    called_on(rt, alloc, files, &["check", "program"], row, told)
}

/// Splits the program that the row spells.
///
/// # Errors
///
/// A text that isn't spelled right, and want of memory.
pub fn split<R: Threads + Sync>(
    rt: &R,
    alloc: Global,
    files: &mut Files,
    row: &str,
) -> Result<String> {
    let told = format!(in alloc; "split {row}")?;
    let words = ["split", "program", "slave", "monitor"];
    called_on(rt, alloc, files, &words, row, told)
}

// Makes the call with these words, where the file `program` has the text that a row spells.
fn called_on<R: Threads + Sync>(
    rt: &R,
    alloc: Global,
    files: &mut Files,
    words: &[&str],
    row: &str,
    told: String,
) -> Result<String> {
    let text = spelled(alloc, row)?;
    let outside = files.outside_of(alloc, words, text.as_str())?;
    Ok(called(rt, alloc, outside, words, told)?)
}

// Makes the call, and tells its status and what came to out and to the report.
fn called<R: Threads + Sync>(
    rt: &R,
    alloc: Global,
    outside: Outside,
    words: &[&str],
    told: String,
) -> Result<String, AllocError> {
    let mut outside = outside;
    let mut told = told;
    let mut chooser = Alternate::new();
    let status = outside.call(rt, alloc, words, &mut chooser, &Silent);
    outside.push_ending(&mut told, status)?;
    Ok(told)
}

/// The words of a row.
///
/// # Errors
///
/// Want of memory.
pub fn words_of<'a>(alloc: Global, row: &'a str) -> Result<Vec<&'a str>, AllocError> {
    let mut words = Vec::new(alloc);
    for word in row.split_whitespace() {
        words.push(word)?;
    }
    Ok(words)
}
