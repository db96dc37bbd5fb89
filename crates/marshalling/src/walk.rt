// How far a reply is looked through.
ghost use Rattle.std.specs.Prelude.{◌≤◌, ◌+◌, ◌^◌};

/// So many cells of a reply are looked through, and the next handle is this one.
#[derive(Clone, Copy)]
pub(crate) struct Walk {
    pub(crate) at: usize,
    pub(crate) next: u64,
    ghost small: { next ≤ 2 ^ 63 + at },
}
