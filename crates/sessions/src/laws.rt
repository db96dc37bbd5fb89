// A session is as if it were alone, whatever the others say.
ghost use Rattle.sessions.specs.HubLaws.{HubsAreKept, SessionsAreAlone, OthersDontCount, HostileSessionsAreShutOut, SessionsAreAloneFromTheirOpening};

/// Numbers are given once and rise, and no more sessions are open than may be, whatever is called.
pub fn hubs_are_kept()
    ensures { HubsAreKept }
{}

/// After any calls, what an opened session was told and wrote, and where it stands, is what its own messages come to alone.
pub fn sessions_are_alone()
    ensures { SessionsAreAlone }
{}

/// All calls that aren't a session's own may be any others: it is told and writes the same, and stands where it stood.
pub fn others_dont_count()
    ensures { OthersDontCount }
{}

/// A session that ends or breaks a rule is told nothing more, and no message of it changes another session.
pub fn hostile_sessions_are_shut_out()
    ensures { HostileSessionsAreShutOut }
{}

/// Whatever was called before, a session that is opened begins with its input and with what the hub was made with.
pub fn sessions_are_alone_from_their_opening()
    ensures { SessionsAreAloneFromTheirOpening }
{}
