// Whether a reply is one that a call can have.
ghost use Rattle.std.specs.Prelude.{◌≡◌, ◌+◌, ◌<◌, ◌≤◌, ◌^◌, [], ◌∷◌, map, option_to_list, true};
ghost use Rattle.machine_memory.specs.Memory.{blocks_of};
ghost use Rattle.marshalling.specs.Ranges.{crossing_among};
ghost use Rattle.marshalling.specs.Replies.{next_after, next_by, places_from, places_of, result_places};
ghost use Rattle.marshalling.specs.Taking.{are_sent, comes_back, is_sent_by};
ghost use Rattle.marshalling.specs.Walks.{Walks};

use crate::crossing::Crossing;
use crate::range::Range;
use crate::ranges::{crossing_at, sealed_or_plain};
use crate::walk::Walk;
use block_memory::BlockName;
use machine_memory::MachineMemory;
use pt_base::IntType;
use pt_int::is_in_range;
use pt_tree::Signature;
use wire::WireCell;

/// Whether this is a result for the signature, where the next handle is this one.
pub(crate) fn result_fits(sig: &Signature, handle: u64, result_cell: Option<WireCell>) -> bool
    ensures { result ≡ are_sent handle (result_places sig.now sig.now.result) (option_to_list result_cell) }
{
    match sig.result {
        Some(ty) => match result_cell {
            Some(cell) => cell_fits(sealed_or_plain(!sig.declassify), ty, handle, cell),
            None => false,
        },
        None => result_cell.is_none(),
    }
}

/// The next handle behind the result.
pub(crate) fn after_result(sig: &Signature, handle: u64) -> u64
    requires { handle ≤ 2 ^ 63 }
    ensures { result ≡ next_after handle (result_places sig.now sig.now.result) }
{
    match sig.result {
        Some(_) => next_handle(sealed_or_plain(!sig.declassify), handle),
        None => handle,
    }
}

fn next_handle(crossing: Crossing, handle: u64) -> u64
    requires { handle + 1 < 2 ^ 64 }
    ensures { result ≡ next_by crossing handle }
{
    match crossing {
        Crossing::Stays | Crossing::Plain => handle,
        Crossing::Sealed => handle + 1,
    }
}

/// Whether these are the cells that come back of the blocks with these names.
pub(crate) fn cells_fit(
    ranges: &[Range],
    names: &[BlockName],
    memory: &MachineMemory,
    handle: u64,
    cells: &[WireCell],
) -> bool
    requires { handle ≤ 2 ^ 63 }
    ensures { result ≡ are_sent handle (places_of (crossing_among ranges.now) 0 (map (λ name. (blocks_of memory.now name).types) names.now)) cells.now }
{
    let start = Walk {
        at: 0,
        next: handle,
    };
    match walk_blocks(start, ranges, names, memory, cells) {
        Some(walk) => walk.at >= cells.len(),
        None => false,
    }
}

fn walk_blocks(
    start: Walk,
    ranges: &[Range],
    names: &[BlockName],
    memory: &MachineMemory,
    cells: &[WireCell],
) -> Option<Walk>
    ensures { Walks result (places_of (crossing_among ranges.now) 0 (map (λ name. (blocks_of memory.now name).types) names.now)) start cells.now }
{
    let mut walk = start;
    for (k, name) in names.iter().enumerate() {
        match walk_block(walk, ranges, k, memory.types(*name), cells) {
            Some(next) => walk = next,
            None => return None,
        }
    }
    Some(walk)
}

fn walk_block(
    start: Walk,
    ranges: &[Range],
    k: usize,
    types: &[IntType],
    cells: &[WireCell],
) -> Option<Walk>
    ensures { Walks result (places_from (crossing_among ranges.now) k 0 types.now) start cells.now }
{
    let mut walk = start;
    for (i, ty) in types.iter().enumerate() {
        match walk_cell(walk, crossing_at(ranges, k, i), *ty, cells) {
            Some(next) => walk = next,
            None => return None,
        }
    }
    Some(walk)
}

fn walk_cell(walk: Walk, crossing: Crossing, ty: IntType, cells: &[WireCell]) -> Option<Walk>
    ensures { Walks result (record { way = crossing; ty = ty } ∷ []) walk cells.now }
{
    match crossing {
        Crossing::Stays => Some(walk),
        Crossing::Plain | Crossing::Sealed => walk_sent(walk, crossing, ty, cells),
    }
}

fn walk_sent(walk: Walk, crossing: Crossing, ty: IntType, cells: &[WireCell]) -> Option<Walk>
    requires { comes_back crossing ≡ true }
    ensures { Walks result (record { way = crossing; ty = ty } ∷ []) walk cells.now }
{
    if walk.at >= cells.len() {
        return None;
    }
    if !cell_fits(crossing, ty, walk.next, cells[walk.at]) {
        return None;
    }
    Some(Walk {
        at: walk.at + 1,
        next: next_handle(crossing, walk.next),
    })
}

fn cell_fits(crossing: Crossing, ty: IntType, handle: u64, cell: WireCell) -> bool
    ensures { result ≡ is_sent_by crossing ty handle cell }
{
    match crossing {
        Crossing::Stays => false,
        Crossing::Plain => match cell {
            WireCell::Number(number) => is_in_range(ty, number),
            WireCell::Sealed(_) => false,
        },
        Crossing::Sealed => match cell {
            WireCell::Number(_) => false,
            WireCell::Sealed(given) => given == handle,
        },
    }
}
