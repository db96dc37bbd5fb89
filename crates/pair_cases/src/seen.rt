// What is seen of a run.
use crate::answers::push_answer;
use case_rows::{push_bytes, push_hex};
use pair_runner::RunFault;
use pt_base::End;
use std::alloc::{AllocError, Global};

/// So many bytes are shown.
const SHOWN: usize = 400;

/// How runs end.
#[derive(Clone, Copy)]
pub enum Kind {
    Exit,
    Trap,
    Spent,
    Refused,
    PeerEnded,
    /// The peer broke this rule.
    Rule(u8),
    /// The link or the sink failed.
    Failed,
}

/// What is seen of a run: how it ended, in words too, what was written, whether the whole boot was sent and which
/// replies behind it, and how many handles were given.
#[derive(Drop)]
pub struct Seen {
    pub kind: Kind,
    pub told: String,
    pub written: Vec<u8>,
    pub has_booted: bool,
    pub sent: Vec<u8>,
    pub handles: u64,
}

impl Seen {
    /// What is seen of a run with this answer, where these replies were sent, or not even the boot.
    ///
    /// # Errors
    ///
    /// Want of memory, here or in the run.
    pub fn new(
        alloc: Global,
        answer: Result<End, RunFault>,
        written: &[u8],
        replies: Option<&[u8]>,
        handles: u64,
    ) -> Result<Seen, AllocError> {
        let kind = kind_of(&answer);
        let mut told = String::new(alloc);
        push_answer(&mut told, answer)?;
        Ok(Seen {
            kind,
            told,
            written: Vec::from_slice(alloc, written)?,
            has_booted: replies.is_some(),
            sent: Vec::from_slice(alloc, replies.unwrap_or(&[]))?,
            handles,
        })
    }

    /// Whether a message broke a rule or was refused by the policy.
    pub fn is_refused(&self) -> bool {
        matches!(self.kind, Kind::Rule(_) | Kind::Refused)
    }

    /// Whether the peer ended where the other run was refused, and all else is as there.
    pub fn is_begun_as(&self, other: &Seen) -> bool {
        matches!(self.kind, Kind::PeerEnded)
            && self.written.as_slice() == other.written.as_slice()
            && self.sent.as_slice() == other.sent.as_slice()
            && self.handles == other.handles
    }

    /// How the run ended, what was written and sent, and how many handles were given, in words.
    ///
    /// # Errors
    ///
    /// Want of memory.
    pub fn shown(&self, alloc: Global) -> Result<String, AllocError> {
        let mut told = format!(in alloc; "  {}, out \"", self.told)?;
        push_bytes(&mut told, &self.written)?;
        told.push_str("\", sent ")?;
        push_hex(&mut told, &self.sent, SHOWN)?;
        write!(told, ", {} handles", self.handles)?;
        Ok(told)
    }
}

fn kind_of(answer: &Result<End, RunFault>) -> Kind {
    match answer {
        Ok(End::Exit(_)) => Kind::Exit,
        Ok(End::Trapped(_, _)) => Kind::Trap,
        Ok(End::Spent) => Kind::Spent,
        Ok(End::Refused { .. }) => Kind::Refused,
        Err(RunFault::BadPeer { rule, .. }) => Kind::Rule(*rule),
        Err(RunFault::PeerEnded) => Kind::PeerEnded,
        Err(RunFault::LinkFailed | RunFault::SinkFailed | RunFault::Memory) => Kind::Failed,
    }
}
