// What a slave does next.
use block_memory::Cell;
use pt_base::FnId;

/// What a slave does next.
#[derive(Clone, Copy)]
pub enum Mode {
    /// It goes on.
    Going,
    /// It waits for a reply.
    Waits,
    /// It has said its last, or memory was wanting in a step.
    Over,
}

/// The same, with the call whose reply it waits for.
#[derive(Drop)]
pub(crate) enum Doing {
    Goes,
    Waits { callee: FnId, args: Vec<Cell> },
    Over,
    /// Nothing is known of it: a step is being made, or memory was wanting in one.
    Lost,
}

impl Doing {
    ghost use Rattle.std.specs.Prelude.{◌≡◌, Some};
    ghost use Rattle.pair_meaning.specs.SlaveRun as s;
    ghost use Rattle.slave_interp.specs.Doings.{doing_of, mode_in};

    /// Without the call.
    pub(crate) fn mode(&self) -> Mode
        ensures { (d : s.Doing) → doing_of self.now ≡ Some d → mode_in result ≡ s.mode_by d }
    {
        match self {
            Doing::Goes => Mode::Going,
            Doing::Waits { .. } => Mode::Waits,
            Doing::Over | Doing::Lost => Mode::Over,
        }
    }
}
