// What some steps came to.
use crate::doing::Doing;
use wire::Message;

/// So many steps: what the last of them said, if it said something, and how many were made.
#[derive(Drop)]
pub struct Ran {
    pub said: Option<Message>,
    pub made: u64,
}

/// What a slave says behind a step, and what it does next.
#[derive(Drop)]
pub(crate) struct Next {
    pub(crate) said: Option<Message>,
    pub(crate) doing: Doing,
}

/// The same behind so many steps.
#[derive(Drop)]
pub(crate) struct Gone {
    pub(crate) next: Next,
    pub(crate) made: u64,
}

impl Next {
    ghost use Rattle.std.specs.Prelude.{◌≡◌, Some};
    ghost use Rattle.slave_interp.specs.declared.doing.Doing.TheVariants.{Over};

    /// It says its last message.
    pub(crate) fn last(message: Message) -> Next
        ensures { result ≡ record { said = Some message; doing = Over } }
    {
        Next {
            said: Some(message),
            doing: Doing::Over,
        }
    }
}
