// Links that tell what an honest peer said.
ghost use Rattle.std.specs.Prelude.{◌≡◌, List};
ghost use Rattle.pt_base.specs.Talk.{Event};
ghost use Rattle.honest_link.specs.Came.{Came};

use pt_base::{Link, LinkFault, Spawner};
use std::alloc::Global;

/// A spawner that tells, by what it came by, what its peer said as long as it was honest.
pub trait Witnessed: Spawner {
    /// Where it was honest, the talk went along what its peer says.
    ghost along: { (a b : Self) (talk : List Event) → Self.came a talk b → Came Self.honest Self.sent Self.given a talk b };
}

/// A link that is used as the one that it has, and tells by what it came by what the peer said as long as that one was honest.
#[derive(Drop)]
pub struct Witness<L: Link> {
    link: L,
}

impl<L: Link> Witness<L> {
    /// It is used as this link.
    pub fn new(link: L) -> Self
        ensures { result.link ≡ link }
    {
        Witness { link }
    }
}

impl<L: Link> Link for Witness<L> {
    ghost use Rattle.honest_link.specs.Came.{Came};
    ghost use Rattle.honest_link.specs.CameLaws.{came-further, came-same};

    ghost sent = { λ w. L.sent w.link };

    ghost given = { λ w. L.given w.link };

    ghost faults = { λ w. L.faults w.link };

    ghost ready = { λ w. L.ready w.link };

    ghost honest = { λ w says form. L.honest w.link says form };

    ghost came = { λ a talk b. Came L.honest L.sent L.given a.link talk b.link };

    ghost same = { λ w. came-same L.honest L.sent L.given w.link };

    ghost further = { λ a b c. came-further L.honest L.sent L.given a.link b.link c.link };

    fn send(&mut self, alloc: Global, bytes: &[u8]) -> Result<(), LinkFault> {
        self.link.send(alloc, bytes)?;
        Ok(())
    }

    fn receive(&mut self, alloc: Global, max: usize) -> Result<Vec<u8>, LinkFault> {
        let piece = self.link.receive(alloc, max)?;
        Ok(piece)
    }
}

impl<S: Spawner> Spawner for Witness<S> {
    ghost starts = { λ a b. S.starts a.link b.link };

    ghost inherits = { λ a b. S.inherits a.link b.link };

    fn start(&mut self, alloc: Global) -> Result<(), LinkFault> {
        self.link.start(alloc)?;
        Ok(())
    }

    fn inherit(&mut self, alloc: Global) -> Result<(), LinkFault> {
        self.link.inherit(alloc)?;
        Ok(())
    }
}

impl<S: Spawner> Witnessed for Witness<S> {
    ghost use Rattle.honest_link.specs.CameLaws.{along-witness};

    ghost along = { along-witness (λ w. w.link) S.honest S.sent S.given };
}
