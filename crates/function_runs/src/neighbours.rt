// Work that is cut into runs of neighbours.
ghost use Rattle.std.specs.Prelude.{◌≡◌, ◌≤◌, ◌+◌, ◌*◌, All, IfOk, vec_len};
ghost use Rattle.function_runs.specs.Runs.{AreRuns, IsSingle, IsWithin};

use std::alloc::{AllocError, Global};

/// The most runs: so many threads work at once.
const MOST_RUNS: usize = 8;

/// Neighbours: the places from `from` on, up to and without `to`.
#[derive(Clone, Copy)]
pub struct Run {
    pub from: usize,
    pub to: usize,
}

// how long a run is, where there are so many places
fn run_length(count: usize) -> usize
    ensures enough { count ≤ 8 * result }
    ensures single { count ≤ 8 → result ≤ 1 }
{
    count.div_ceil(MOST_RUNS)
}

/// At most eight runs of so many places, which have each place once and in order. Each of up to eight places
/// is a run of its own.
pub fn runs_of(alloc: Global, count: usize) -> Result<Vec<Run>, AllocError>
    ensures runs { IfOk result (λ rs. AreRuns count rs.items) }
    ensures within { IfOk result (λ rs. All (IsWithin count) rs.items) }
    ensures single { count ≤ 8 → IfOk result (λ rs. All IsSingle rs.items) }
    ensures few { IfOk result (λ rs. vec_len rs ≤ 8) }
{
    let size = run_length(count);
    let mut runs = Vec::new(alloc);
    let mut from = 0;
    for k in 0..MOST_RUNS {
        if from < count {
            let more = size.min(count - from);
            runs.push(Run {
                from,
                to: from + more,
            })?;
            from += more;
        }
    }
    Ok(runs)
}
