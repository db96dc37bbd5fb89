// Where the lines of a text start.
ghost use Rattle.std.specs.Prelude.{◌≡◌, ◌++◌, ◌≤◌, IfOk, OnOk, length};
ghost use Rattle.std.specs.List.Sorted.{IsNonDecreasingBy};
ghost use Rattle.source_places.specs.Places.{is_feed};
ghost use Rattle.source_places.specs.Starts as kept;

use std::alloc::{AllocError, Global};

// adds where a line starts, if the byte before it is a line feed
fn add_start(byte: u8, at: usize, list: &mut Vec<usize>) -> Result<(), AllocError>
    ensures { OnOk result (list.new.items ≡ list.old.items ++ kept.start_if (is_feed byte) at) }
{
    if byte == b'\n' {
        list.push(at)?;
    }
    Ok(())
}

/// Where each line of a text but the first one starts.
pub(crate) fn starts_in(alloc: Global, text: &[u8]) -> Result<Vec<usize>, AllocError>
    ensures { IfOk result (λ v. v.items ≡ kept.starts_of 0 text.now) }
{
    let mut list = Vec::new(alloc);
    let mut at = 0;
    for byte in text {
        at += 1;
        add_start(*byte, at, &mut list)?;
    }
    Ok(list)
}

/// How many of these starts, which ascend, aren't behind the offset.
pub(crate) fn begun(list: &[usize], offset: usize) -> usize
    requires { IsNonDecreasingBy (λ s. s) list.now }
    ensures begun { result ≡ kept.begun list.now offset }
    ensures few { result ≤ length list.now }
{
    list.partition_point(|start| *start <= offset)
}

/// Where the line starts before which so many line feeds stand.
pub(crate) fn start_of(list: &[usize], feeds: usize) -> usize
    ensures { result ≡ kept.start_of list.now feeds }
{
    if feeds == 0 {
        return 0;
    }
    match list.get(feeds - 1) {
        Some(start) => *start,
        None => 0,
    }
}

/// Where it ends, in a text of so many bytes.
pub(crate) fn end_of(list: &[usize], feeds: usize, long: usize) -> usize
    ensures { result ≡ kept.end_of list.now feeds long }
{
    match list.get(feeds) {
        Some(start) => start.saturating_sub(1),
        None => long,
    }
}
