// The rules by their names.

/// A rule for what a peer says, named for what breaks it.
#[derive(Clone, Copy, Debug, PartialEq, Eq)]
pub enum PeerRule {
    /// A frame that spells no message of a slave.
    BadFrame,
    /// A frame over the limit.
    TooLong,
    /// Turns that went back.
    BadTurns,
    /// A call of what may not be asked for.
    NoEntry,
    /// A body that isn't one for the signature.
    BadShape,
    /// A handle that was never given.
    BadHandle,
    /// A handle of another type.
    WrongType,
    /// A depth that can't be.
    BadDepth,
    /// Turns that aren't used up.
    EarlyPark,
    /// No reply is wanted, though it holds a number.
    PostedPlain,
}

impl PeerRule {
    ghost use Rattle.std.specs.Prelude.{◌≡◌};
    ghost use Rattle.pair_meaning.specs.Rules.{number_of_rule};
    ghost use Rattle.serving_rules.specs.RuleNames.{rule_of};

    /// Its number, from 1.
    pub fn number(self) -> u8
        ensures { result ≡ number_of_rule (rule_of self) }
    {
        match self {
            PeerRule::BadFrame => 1,
            PeerRule::TooLong => 2,
            PeerRule::BadTurns => 3,
            PeerRule::NoEntry => 4,
            PeerRule::BadShape => 5,
            PeerRule::BadHandle => 6,
            PeerRule::WrongType => 7,
            PeerRule::BadDepth => 8,
            PeerRule::EarlyPark => 9,
            PeerRule::PostedPlain => 10,
        }
    }
}
