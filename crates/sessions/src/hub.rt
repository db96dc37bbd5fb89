// Sessions of one program.
use crate::error::HubError;
use crate::seats::{close_at, handle_at};
use host_table::Host;
use monitor_interp::{Handled, Seat};
use policy::Policy;
use pt_core::MonitorProgram;
use std::alloc::{AllocError, Global};
use wire::{Message, are_bytes};

/// So many sessions of a hub are open at most.
pub const MOST_OPEN: usize = 64;

/// Sessions of one program, each with its own store, globals, hosts, policy's state and turns. Contracts see it by `IsHub`.
#[derive(Drop)]
pub struct Hub {
    // what each session begins with
    program: MonitorProgram,
    host: Host,
    policy: Policy,
    budget: u32,
    // so many were opened
    opened: u32,
    // those that are open, by their numbers, which rise
    seats: Vec<(u32, Seat)>,
}

impl Hub {
    ghost use Rattle.std.specs.Prelude.{◌≡◌, ◌<◌, ◌^◌, ◌↔◌, ℕ, suc, true, false, Err, None, Some, IfErr, IfOk, IsTrue, MatchOption, OnErr, OnOk, is_some, nat_eq};
    ghost use Rattle.std.specs.Map.{lookup};
    ghost use Rattle.host_table.specs.Hosts.{hosts_of};
    ghost use Rattle.host_table.specs.RunHosts.{models_of};
    ghost use Rattle.wire.specs.Limits.{KeepsCounts};
    ghost use Rattle.pt_core.specs.CodeTree.{view_monitor};
    ghost use Rattle.pt_core.specs.WellFormed.{is_well_formed_monitor};
    ghost use Rattle.monitor_soundness_law.specs.ServingSound.{HostsServe};
    ghost use Rattle.monitor_interp.specs.Gates.{hosts_for};
    ghost use Rattle.monitor_interp.specs.Monitors.{IsSeat};
    ghost use Rattle.sessions.specs.declared.error.HubError.TheVariants.{Full, NotOpen};
    ghost use Rattle.sessions.specs.Hubs as s;
    ghost use Rattle.sessions.specs.Hubs.{OthersStay, Rise, begun_with, fresh, is_full, monitor_at, with_opened};
    ghost use Rattle.sessions.specs.Alone.{after_call, closes, handles, told_to};
    ghost use Rattle.sessions.specs.IsHub.{IsHub, Tells};
    ghost use Rattle.sessions.specs.Places.{StandsAt, is_over};

    /// A hub of this program, of which no session is open. Each session begins with these hosts as they are here, but for their input,
    /// with this policy where it stands, and with so many turns. Each host that the program calls or that may be asked for has a model
    /// that may stand for it.
    pub fn new(
        alloc: Global,
        program: MonitorProgram,
        host: Host,
        policy: Policy,
        budget: u32,
    ) -> Result<Hub, AllocError>
        requires well_formed { IsTrue (is_well_formed_monitor (view_monitor program)) }
        requires hosts { HostsServe (view_monitor program) (models_of (hosts_of host).models) }
        ensures { IfOk result (λ x. IsHub x (fresh (view_monitor program) (hosts_for (view_monitor program) (models_of (hosts_of host).models)) policy budget)) }
    {
        Ok(Hub {
            program,
            host,
            policy,
            budget,
            opened: 0,
            seats: Vec::new(alloc),
        })
    }

    /// Opens a session with this input. Its number is the count of those that were opened before, of which there are fewer than
    /// 2^32 - 1. Full exactly where [`MOST_OPEN`] are open. After a refusal the hub is as before.
    pub fn open(&mut self, alloc: Global, input: &[u8]) -> Result<u32, HubError>
        requires stands { (h : s.Hub) × IsHub self.old h × (suc h.opened < 2 ^ 32) }
        ensures opened { IfOk result (λ number. (h : s.Hub) → IsHub self.old h → (number ≡ h.opened) × (is_full h ≡ false) × IsHub self.new (with_opened input.now h)) }
        ensures full { (h : s.Hub) → IsHub self.old h → (result ≡ Err Full) ↔ (is_full h ≡ true) }
        ensures same { OnErr result ((h : s.Hub) → IsHub self.old h → IsHub self.new h) }
        ensures never { result ≡ Err NotOpen → ⊥ }
        ensures others { (h : s.Hub) → IsHub self.old h → (next : s.Hub) × IsHub self.new next × OthersStay h.opened h next }
    {
        if self.is_full() {
            return Err(HubError::Full);
        }
        let seat = self.seat(alloc, input)?;
        let number = self.opened;
        self.seats.push((number, seat))?;
        self.opened = number + 1;
        Ok(number)
    }

    // What a session of this input begins with.
    fn seat(&self, alloc: Global, input: &[u8]) -> Result<Seat, AllocError>
        requires { (h : s.Hub) × IsHub self.now h }
        ensures { IfOk result (λ seat. (h : s.Hub) → IsHub self.now h → IsSeat self.now.program seat (begun_with h input.now)) }
    {
        are_bytes(input);
        let host = self.host.with_input(alloc, input)?;
        let policy = self.policy.copy(alloc)?;
        let seat = Seat::new(alloc, &self.program, host, policy, self.budget)?;
        Ok(seat)
    }

    /// Serves a message of a session, whoever says it. What its hosts write is appended to `out`. NotOpen exactly where that session
    /// isn't open; then nothing is changed. Behind an end, a message that breaks a rule or want of memory the session is closed.
    /// Whatever the message is, every other session stays as it was. After an error `out` is as before.
    pub fn handle(
        &mut self,
        alloc: Global,
        session: u32,
        message: &Message,
        out: &mut Vec<u8>,
    ) -> Result<Handled, HubError>
        requires counts { KeepsCounts message.now }
        requires stands { (h : s.Hub) × IsHub self.old h }
        ensures handled { IfOk result (λ r. (h : s.Hub) → IsHub self.old h → Tells (told_to (monitor_at h session) message.now) r out.old.items out.new.items) }
        ensures after { OnOk result ((h : s.Hub) → IsHub self.old h → IsHub self.new (after_call (handles session message.now) h)) }
        ensures closed { OnErr result ((h : s.Hub) → IsHub self.old h → IsHub self.new (after_call (closes session) h)) }
        ensures not_open { (h : s.Hub) → IsHub self.old h → (result ≡ Err NotOpen) ↔ (monitor_at h session ≡ None) }
        ensures never { result ≡ Err Full → ⊥ }
        ensures out { OnErr result (out.new.items ≡ out.old.items) }
        ensures others { (h : s.Hub) → IsHub self.old h → (next : s.Hub) × IsHub self.new next × OthersStay session h next }
        ensures over { IfOk result (λ r. is_over r ≡ true → (h : s.Hub) → IsHub self.old h → (next : s.Hub) × IsHub self.new next × (monitor_at next session ≡ None)) }
    {
        let Some(place) = self.place(session) else {
            return Err(HubError::NotOpen);
        };
        let handled = handle_at(&mut self.seats, place, alloc, &self.program, message, out)?;
        Ok(handled)
    }

    /// Closes a session. NotOpen exactly where it isn't open. It takes no memory, and every other session stays as it was.
    pub fn close(&mut self, session: u32) -> Result<(), HubError>
        requires { (h : s.Hub) × IsHub self.old h }
        ensures closed { (h : s.Hub) → IsHub self.old h → IsHub self.new (after_call (closes session) h) }
        ensures not_open { (h : s.Hub) → IsHub self.old h → (result ≡ Err NotOpen) ↔ (monitor_at h session ≡ None) }
        ensures only { IfErr result (λ e. e ≡ NotOpen) }
        ensures others { (h : s.Hub) → IsHub self.old h → (next : s.Hub) × IsHub self.new next × OthersStay session h next }
    {
        let Some(place) = self.place(session) else {
            return Err(HubError::NotOpen);
        };
        close_at(&mut self.seats, place);
        Ok(())
    }

    /// How many sessions were opened.
    pub fn opened(&self) -> u32
        ensures { (h : s.Hub) → IsHub self.now h → result ≡ h.opened }
    {
        self.opened
    }

    /// Whether as many sessions are open as may be.
    pub fn is_full(&self) -> bool
        ensures { (h : s.Hub) → IsHub self.now h → result ≡ s.is_full h }
    {
        self.seats.len() >= MOST_OPEN
    }

    /// Whether a session is open.
    pub fn is_open(&self, session: u32) -> bool
        requires { (h : s.Hub) × IsHub self.now h }
        ensures { (h : s.Hub) → IsHub self.now h → result ≡ is_some (monitor_at h session) }
    {
        match self.place(session) {
            Some(_) => true,
            None => false,
        }
    }

    // The place of a session that is open.
    fn place(&self, session: u32) -> Option<usize>
        requires { (end : ℕ) × Rise 0 end self.now.seats.items }
        ensures { MatchOption result (lookup (nat_eq session) self.now.seats.items ≡ None) (StandsAt self.now.seats.items session) }
    {
        match self
            .seats
            .as_slice()
            .binary_search_by_key(&session, |seat| seat.0)
        {
            Ok(place) => Some(place),
            Err(_) => None,
        }
    }
}
