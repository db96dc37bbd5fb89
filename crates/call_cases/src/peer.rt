// Another process, of which all that it says is written down.
use honest_link::Witnessed;
use pt_base::{Link, LinkFault, ScriptLink, Spawner};
use std::alloc::Global;

/// Another process that says what is listed, whatever it is sent. Nobody is told what it says.
#[derive(Drop)]
pub struct Peer {
    link: ScriptLink,
}

impl Peer {
    /// It says what this link gives.
    pub fn new(link: ScriptLink) -> Peer {
        Peer { link }
    }

    /// The bytes that it was sent.
    pub fn sent(&self) -> &[u8] {
        self.link.sent()
    }

    /// How often it was started.
    pub fn started(&self) -> u64 {
        self.link.started()
    }

    /// How often it was taken over from the parent.
    pub fn inherited(&self) -> u64 {
        self.link.inherited()
    }
}

impl Link for Peer {
    ghost use Rattle.std.specs.Prelude.{None, ⊤};
    ghost use Rattle.pt_base.specs.Script.{link_calls};

    ghost sent = { λ _. None };

    ghost given = { λ _. None };

    ghost faults = { λ p. (link_calls p.link).faults };

    ghost ready = { λ _. ⊤ };

    ghost honest = { λ _ says form. ⊥ };

    ghost came = { λ _ _ _. ⊤ };

    ghost same = { λ _. tt };

    ghost further = { λ _ _ _ _ _ _ _. tt };

    fn send(&mut self, alloc: Global, bytes: &[u8]) -> Result<(), LinkFault> {
        self.link.send(alloc, bytes)?;
        Ok(())
    }

    fn receive(&mut self, alloc: Global, max: usize) -> Result<Vec<u8>, LinkFault> {
        let piece = self.link.receive(alloc, max)?;
        Ok(piece)
    }
}

impl Spawner for Peer {
    ghost use Rattle.pt_base.specs.Script.{Inherits, Starts};

    ghost starts = { λ a b. Starts a.link b.link };

    ghost inherits = { λ a b. Inherits a.link b.link };

    fn start(&mut self, alloc: Global) -> Result<(), LinkFault> {
        self.link.start(alloc)?;
        Ok(())
    }

    fn inherit(&mut self, alloc: Global) -> Result<(), LinkFault> {
        self.link.inherit(alloc)?;
        Ok(())
    }
}

impl Witnessed for Peer {
    ghost along = { λ a b talk came says form s g h. absurd h.is };
}
