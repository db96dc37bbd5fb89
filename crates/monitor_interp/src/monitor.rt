// The monitor as it runs.
use crate::handled::Handled;
use crate::seat::Seat;
use host_table::Host;
use policy::Policy;
use pt_core::MonitorProgram;
use std::alloc::{AllocError, Global};
use wire::Message;

/// A monitor between two messages: its program, what handles stand for, its globals, its hosts, and where its policy stands.
/// Contracts see it by `IsMonitor`. Where memory is wanting in a message, the monitor isn't used again.
#[derive(Drop)]
pub struct Monitor {
    program: MonitorProgram,
    seat: Seat,
}

#[tactic(auto, unfolding(crate::specs::Monitors::IsMonitor))]
impl Monitor {
    ghost use Rattle.std.specs.Prelude.{◌≡◌, ◌<◌, All, IfOk, IsTrue, length};
    ghost use Rattle.host_table.specs.Hosts.{hosts_of};
    ghost use Rattle.host_table.specs.RunHosts.{models_of};
    ghost use Rattle.wire.specs.Limits.{KeepsCounts};
    ghost use Rattle.pt_core.specs.CodeTree.{view_monitor};
    ghost use Rattle.pt_core.specs.WellFormed.{is_well_formed_monitor};
    ghost use Rattle.pair_meaning.specs.Monitors as pair;
    ghost use Rattle.pair_meaning.specs.Serving as s;
    ghost use Rattle.pair_meaning.specs.Start.{monitor_start};
    ghost use Rattle.monitor_soundness_law.specs.ServingSound.{HostsServe};
    ghost use Rattle.monitor_interp.specs.Gates.{hosts_for};
    ghost use Rattle.monitor_interp.specs.Handling.{ChangesNothing, Handles};
    ghost use Rattle.monitor_interp.specs.Monitors.{IsMonitor};

    /// A monitor of this program, which has stored nothing and served nothing. Each host that the program calls or that may be
    /// asked for has a model that may stand for it. Of other hosts nothing is heard.
    pub fn new(
        alloc: Global,
        program: MonitorProgram,
        host: Host,
        policy: Policy,
        budget: u32,
    ) -> Result<Monitor, AllocError>
        requires well_formed { IsTrue (is_well_formed_monitor (view_monitor program)) }
        requires hosts { HostsServe (view_monitor program) (models_of (hosts_of host).models) }
        requires bytes { All (λ b. b < 256) (hosts_of host).input }
        ensures { IfOk result (λ x. IsMonitor x (monitor_start (view_monitor program) (hosts_for (view_monitor program) (models_of (hosts_of host).models)) (hosts_of host).input policy budget)) }
    {
        let seat = Seat::new(alloc, &program, host, policy, budget)?;
        Ok(Monitor { program, seat })
    }

    /// Serves a message of a peer, whoever that is. What hosts write is appended to `out`. A message that breaks a rule, or that
    /// ends the run by itself or by the policy, changes nothing. Behind an end that a call's own work came to the monitor isn't
    /// used again.
    pub fn handle(
        &mut self,
        alloc: Global,
        message: &Message,
        out: &mut Vec<u8>,
    ) -> Result<Handled, AllocError>
        requires counts { KeepsCounts message.now }
        requires stands { (m : pair.Monitor) × IsMonitor self.old m }
        ensures handled { IfOk result (λ h. (m : pair.Monitor) → IsMonitor self.old m → Handles (IsMonitor self.new) m (s.serve m message.now) h out.old.items out.new.items) }
        ensures unchanged { IfOk result (λ h. (m : pair.Monitor) → IsMonitor self.old m → ChangesNothing (s.verdict_on m message.now) → IsMonitor self.new m) }
    {
        let handled = self.seat.handle(alloc, &self.program, message, out)?;
        Ok(handled)
    }

    /// How many values are stored.
    pub fn store_count(&self) -> u64
        ensures { (m : pair.Monitor) → IsMonitor self.now m → result ≡ length m.store }
    {
        self.seat.store_count()
    }
}
