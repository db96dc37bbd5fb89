// The sessions that are open, by the place at which they stand.
ghost use Rattle.std.specs.Prelude.{◌≡◌, ◌<◌, ℕ, List, IfOk, OnErr, Some, length, remove, slice_get, slice_set, if◌then◌else◌};
ghost use Rattle.wire.specs.Limits.{KeepsCounts};
ghost use Rattle.pair_meaning.specs.Monitors.{Monitor};
ghost use Rattle.pair_meaning.specs.Serving.{serve};
ghost use Rattle.monitor_interp.specs.Handling.{Handles};
ghost use Rattle.sessions.specs.Alone.{left_by, told_by};
ghost use Rattle.sessions.specs.IsHub.{AreSeats, Tells};
ghost use Rattle.sessions.specs.Places.{is_over, left_at};

use monitor_interp::{Handled, Seat};
use pt_core::MonitorProgram;
use std::alloc::{AllocError, Global};
use wire::Message;

// Serves a message of the session at this place. The others aren't touched.
fn serve_at(
    seats: &mut Vec<(u32, Seat)>,
    place: usize,
    alloc: Global,
    program: &MonitorProgram,
    message: &Message,
    out: &mut Vec<u8>,
) -> Result<Handled, AllocError>
    requires counts { KeepsCounts message.now }
    requires stands { (ms : List (ℕ × Monitor)) × AreSeats program.now seats.old.items ms }
    requires within { place < length seats.old.items }
    ensures served { IfOk result (λ r. (ms : List (ℕ × Monitor)) (s : ℕ) (m : Monitor) → AreSeats program.now seats.old.items ms → slice_get ms place ≡ Some (s, m) →
        Handles (λ next. AreSeats program.now seats.new.items (slice_set ms place (s, next))) m (serve m message.now) r out.old.items out.new.items) }
    ensures others { (ms : List (ℕ × Monitor)) → AreSeats program.now seats.old.items ms → AreSeats program.now (remove seats.new.items place) (remove ms place) }
    ensures within { place < length seats.new.items }
    ensures out { OnErr result (out.new.items ≡ out.old.items) }
{
    let mut bytes = Vec::new(alloc);
    let entry = &mut seats[place];
    let handled = entry.1.handle(alloc, program, message, &mut bytes)?;
    out.extend_from_slice(bytes.as_slice())?;
    Ok(handled)
}

// Closes the session at this place.
pub(crate) fn close_at(seats: &mut Vec<(u32, Seat)>, place: usize)
    requires { place < length seats.old.items }
    ensures { seats.new.items ≡ remove seats.old.items place }
{
    let _seat = seats.remove(place);
}

// Closes the session at this place where it is over.
fn close_over(seats: &mut Vec<(u32, Seat)>, place: usize, handled: &Handled)
    requires { place < length seats.old.items }
    ensures { seats.new.items ≡ (if is_over handled.now then remove seats.old.items place else seats.old.items) }
{
    match handled {
        Handled::GoesOn(_) => {}
        Handled::Ended(_) | Handled::Bad(_) => close_at(seats, place),
    }
}

/// Serves a message of the session at this place, and closes it where it is over or memory is wanting. The others aren't touched.
pub(crate) fn handle_at(
    seats: &mut Vec<(u32, Seat)>,
    place: usize,
    alloc: Global,
    program: &MonitorProgram,
    message: &Message,
    out: &mut Vec<u8>,
) -> Result<Handled, AllocError>
    requires counts { KeepsCounts message.now }
    requires stands { (ms : List (ℕ × Monitor)) × AreSeats program.now seats.old.items ms }
    requires within { place < length seats.old.items }
    ensures handled { IfOk result (λ r. (ms : List (ℕ × Monitor)) (s : ℕ) (m : Monitor) → AreSeats program.now seats.old.items ms → slice_get ms place ≡ Some (s, m) →
        Tells (told_by (serve m message.now)) r out.old.items out.new.items × AreSeats program.now seats.new.items (left_at place s (left_by (serve m message.now)) ms)) }
    ensures closed { OnErr result ((ms : List (ℕ × Monitor)) → AreSeats program.now seats.old.items ms → AreSeats program.now seats.new.items (remove ms place)) }
    ensures out { OnErr result (out.new.items ≡ out.old.items) }
{
    match serve_at(seats, place, alloc, program, message, out) {
        Ok(handled) => {
            close_over(seats, place, &handled);
            Ok(handled)
        }
        Err(e) => {
            close_at(seats, place);
            Err(e)
        }
    }
}
