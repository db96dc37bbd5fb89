// The edges of values that move, counted before they are made.
ghost use Rattle.std.specs.Prelude.{◌≡◌, ◌≤◌, ◌<◌, ◌^◌, All, IfOk, length};
ghost use Rattle.flow_edges.specs.MoveView.{moved_edges};

use crate::moves::Move;
use crate::slot_numbers::behind;
use crate::within::are_within;
use pt_base::{Edge, Listed};
use std::alloc::{AllocError, Global};

/// The most edges of a program. What has more is answered as want of memory, before any is made.
pub const MOST_EDGES: u64 = 33_554_432;

// how many edges values that move have together
fn count_of(moves: &[Move]) -> Result<u64, AllocError>
    ensures { IfOk result (λ n. n ≡ length (moved_edges moves.now)) }
{
    let mut all = 0;
    for moving in moves {
        all = behind(all, moving.count()?)?;
    }
    Ok(all)
}

// how many they are, if they are few enough
fn room_for(moves: &[Move]) -> Result<usize, AllocError>
    ensures count { IfOk result (λ n. n ≡ length (moved_edges moves.now)) }
    ensures few { IfOk result (λ n. n ≤ 2 ^ 25) }
{
    let count = count_of(moves)?;
    if count > MOST_EDGES {
        return Err(AllocError);
    }
    Ok(count as usize)
}

// the edges, in a list that is made once
fn made(alloc: Global, moves: &[Move]) -> Result<Vec<Edge>, AllocError>
    ensures edges { IfOk result (λ es. es.items ≡ moved_edges moves.now) }
    ensures few { IfOk result (λ es. length es.items ≤ 2 ^ 25) }
{
    let count = room_for(moves)?;
    let mut edges = Vec::with_capacity(alloc, count)?;
    for moving in moves {
        moving.add_leaves(&mut edges)?;
    }
    Ok(edges)
}

/// The edges of values that move, one value after the other, in a program of so many slots. More than
/// [`MOST_EDGES`] are want of memory, and so would be an edge that doesn't join two slots of the program.
///
/// Time and memory are linear in the edges.
pub fn edges_along(alloc: Global, moves: &[Move], slots: u64) -> Result<Listed<Edge>, AllocError>
    ensures edges { IfOk result (λ es. es ≡ moved_edges moves.now) }
    ensures few { IfOk result (λ es. length es ≤ 2 ^ 25) }
    ensures froms { IfOk result (λ es. All (λ e. e.from.0 < slots) es) }
    ensures tos { IfOk result (λ es. All (λ e. e.to.0 < slots) es) }
{
    let edges = made(alloc, moves)?;
    if !are_within(edges.as_slice(), slots) {
        return Err(AllocError);
    }
    Ok(Listed::new(edges))
}
