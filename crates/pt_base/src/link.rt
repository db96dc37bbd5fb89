// The way to another process and back.
ghost use Rattle.std.specs.Prelude.{ℕ, ◌≤◌, List, [], ◌∷◌, ◌++◌, IfSome, IsTrue, Bool, IfOk, OnOk, OnErr, vec_len, Option};
ghost use Rattle.std.specs.Io.KnownBytes.{Appends, Keeps};
ghost use Rattle.pt_base.specs.Faults.{HasCause};
ghost use Rattle.pt_base.specs.Talk.{Event, gave, took};
ghost use Rattle.pt_base.specs.Told.{AppendsPart, GivesWhatIsSaid};

use std::alloc::{AllocError, Global};

/// Why a link didn't serve.
#[derive(Clone, Copy)]
pub enum LinkFault {
    /// The peer can't be started or reached.
    Failed,
    /// Want of memory.
    Memory,
}

impl From<AllocError> for LinkFault {
    ghost use Rattle.std.specs.Prelude.{◌≡◌};
    ghost use Rattle.pt_base.specs.declared.link.LinkFault.TheVariants.{Memory};

    ghost from_gives = { λ _ e. e ≡ Memory };

    fn from(_: AllocError) -> Self {
        LinkFault::Memory
    }
}

/// The way to a peer and back. What was sent and what it gave are told optionally; its count of
/// faults never falls, a call raises it by one at most and not at all where it serves or memory is
/// wanting, and once the link is ready it stays so.
pub trait Link {
    /// The bytes that were sent.
    ghost sent: { Self → Option (List ℕ) };

    /// The bytes that it gave.
    ghost given: { Self → Option (List ℕ) };

    /// How many calls failed.
    ghost faults: { Self → ℕ };

    /// It may be used.
    ghost ready: { Self → Type 0 };

    /// What it gives is this peer's answer to the bytes sent so far, as long as those have this form.
    ghost honest: { Self → (List ℕ → List ℕ) → (List ℕ → Bool) → Type 0 };

    /// It came from that one by this talk.
    ghost came: { Self → List Event → Self → Type 0 };

    /// Appends the bytes to what is sent. After a refusal a first part of them was sent, maybe
    /// none. Failed comes only where the count of faults rose. The link stays honest where what
    /// was sent has the form.
    fn send(&mut self, alloc: Global, bytes: &[u8]) -> Result<(), LinkFault>
        requires { ready self.old }
        ensures ok { OnOk result (Appends (sent self.old) (sent self.new) bytes.now) }
        ensures err { OnErr result (AppendsPart (sent self.old) (sent self.new) bytes.now) }
        ensures given { Keeps (given self.old) (given self.new) }
        ensures honest { (says : List ℕ → List ℕ) (form : List ℕ → Bool) → honest self.old says form
            → IfSome (sent self.new) (λ s. IsTrue (form s)) → honest self.new says form }
        ensures ready { ready self.new }
        ensures cause { HasCause (faults self.old) (faults self.new) result LinkFault.Failed LinkFault.Memory }
        ensures came { OnOk result (came self.old (took bytes.now ∷ []) self.new) };

    /// Some bytes that came, at most `max`; none are the end. A refusal gives none. Failed comes
    /// only where the count of faults rose. What an honest link has given so far is a first part
    /// of what the peer says, and all of it at the end.
    fn receive(&mut self, alloc: Global, max: usize) -> Result<Vec<u8>, LinkFault>
        requires is_ready { ready self.old }
        requires room { 1 ≤ max }
        ensures ok { IfOk result (λ v. Appends (given self.old) (given self.new) v.items) }
        ensures length { IfOk result (λ v. vec_len v ≤ max) }
        ensures err { OnErr result (Keeps (given self.old) (given self.new)) }
        ensures sent { Keeps (sent self.old) (sent self.new) }
        ensures honest { (says : List ℕ → List ℕ) (form : List ℕ → Bool) → honest self.old says form → honest self.new says form }
        ensures said { (says : List ℕ → List ℕ) (form : List ℕ → Bool) → honest self.old says form
            → IfSome (sent self.old) (λ s. IsTrue (form s))
            → IfOk result (λ v. GivesWhatIsSaid says (sent self.old) (given self.new) v.items) }
        ensures ready { ready self.new }
        ensures cause { HasCause (faults self.old) (faults self.new) result LinkFault.Failed LinkFault.Memory }
        ensures came { IfOk result (λ v. came self.old (gave v.items ∷ []) self.new) };

    /// No talk leads to the same link.
    ghost same: { (l : Self) → came l [] l };

    /// A talk goes on.
    ghost further: { (a b c : Self) (x y : List Event) → came a x b → came b y c → came a (x ++ y) c };
}

/// A link that is made by starting the peer, or taken over from the parent. It says of each of both
/// what it makes of the link, so that a caller can say which call began it, and that it was one.
pub trait Spawner: Link {
    /// The first started its peer, and so became the second.
    ghost starts: { Self → Self → Type 0 };

    /// The first was taken over from the parent, and so became the second.
    ghost inherits: { Self → Self → Type 0 };

    /// Starts the peer; from then on this is the link to it. Failed comes only where the count of
    /// faults rose.
    fn start(&mut self, alloc: Global) -> Result<(), LinkFault>
        ensures ready { OnOk result (Self.ready self.new) }
        ensures stays { Self.ready self.old → Self.ready self.new }
        ensures sent { Keeps (Self.sent self.old) (Self.sent self.new) }
        ensures given { Keeps (Self.given self.old) (Self.given self.new) }
        ensures honest { (says : List ℕ → List ℕ) (form : List ℕ → Bool) → Self.honest self.old says form → Self.honest self.new says form }
        ensures cause { HasCause (Self.faults self.old) (Self.faults self.new) result LinkFault.Failed LinkFault.Memory }
        ensures started { OnOk result (starts self.old self.new) };

    /// Makes this the link to the parent. Failed comes only where the count of faults rose.
    fn inherit(&mut self, alloc: Global) -> Result<(), LinkFault>
        ensures ready { OnOk result (Self.ready self.new) }
        ensures stays { Self.ready self.old → Self.ready self.new }
        ensures sent { Keeps (Self.sent self.old) (Self.sent self.new) }
        ensures given { Keeps (Self.given self.old) (Self.given self.new) }
        ensures cause { HasCause (Self.faults self.old) (Self.faults self.new) result LinkFault.Failed LinkFault.Memory }
        ensures inherited { OnOk result (inherits self.old self.new) };
}
