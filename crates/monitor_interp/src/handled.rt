// What comes of a message.
use pt_base::End;
use serving_rules::PeerRule;
use wire::ReplyBody;

/// What handling a message came to.
#[derive(Drop)]
pub enum Handled {
    /// It goes on, with the reply where one is wanted.
    GoesOn(Option<ReplyBody>),
    /// The run's end.
    Ended(End),
    /// The message breaks this rule.
    Bad(PeerRule),
}
