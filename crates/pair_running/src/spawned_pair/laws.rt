// What holds of all texts.
ghost use Rattle.pair_running.specs.SpawnedPairLaws.{CutsAreEnough};

use pt_base::{Sink, Spawner};

/// What is said of texts of which only the first 1,048,577 bytes were read holds of the whole texts. It does nothing.
pub fn first_bytes_are_enough<S: Spawner, K: Sink>()
    ensures { CutsAreEnough S.starts S.came S.honest S.sent S.given K.taken }
{}
