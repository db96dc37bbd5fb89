// Room for what is drawn.
ghost use Rattle.std.specs.Prelude.{◌≤◌, OnOk, length};

use crate::arrow::Arrow;
use std::alloc::AllocError;

/// Where there are more objects, only those are shown that may hold secrets.
pub const MOST_NODES: usize = 2000;

// The most arrows of a picture, of which each takes 12 bytes or more.
const MOST_ARROWS: usize = 11_184_810;

/// Whether these are no more arrows than a picture may have.
pub(crate) fn room_for_arrows(arrows: &[Arrow]) -> Result<(), AllocError>
    ensures { OnOk result (length arrows.now ≤ 11184810) }
{
    if arrows.len() > MOST_ARROWS {
        return Err(AllocError);
    }
    Ok(())
}
