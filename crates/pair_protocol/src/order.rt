// A slave that says messages and a monitor that serves them come to the same, whatever the order of their
// turns.

ghost use Rattle.pair_protocol.specs.OrderAdder.{AdderEnds};
ghost use Rattle.pair_protocol.specs.OrderLaws.{PairIsDescribed, EveryOrderEnds, OrdersAreExpected, HonestPeersAreExpected, PairsAreHonest, FirstPartsAgree, FirstPartsBegin, SlavesAreCounted, ParentsReach, LinksAreWhole};

/// In every order of turns, slave and monitor are those of the pair in which each message is served at once.
pub fn pair_is_described<S, M, X, R, E, Q>()
    ensures { PairIsDescribed S M X R E Q }
{}

/// Where that pair ends, every order ends alike, and comes to the end.
pub fn every_order_ends<S, M, X, R, E, Q>()
    ensures { EveryOrderEnds S M X R E Q }
{}

/// What ends in some order ends alike in that pair.
pub fn orders_are_expected<S, M, X, R, E, Q>()
    ensures { OrdersAreExpected S M X R E Q }
{}

/// Over an honest peer a monitor comes to the same end and bytes.
pub fn honest_peers_are_expected<S, M, X, R, E, Q>()
    ensures { HonestPeersAreExpected S M X R E Q }
{}

/// What a pair has served an honest peer may give.
pub fn pairs_are_honest<S, M, X, R, E, Q>()
    ensures { PairsAreHonest S M X R E Q }
{}

/// Over a first part of what the slave says, a monitor stops where that pair comes.
pub fn first_parts_agree<S, M, X, R, E, Q>()
    ensures { FirstPartsAgree S M X R E Q }
{}

/// Over a first part of a list a monitor writes and replies a first part.
pub fn first_parts_begin<S, M, X, R, E, Q>()
    ensures { FirstPartsBegin S M X R E Q }
{}

/// What a step and a reply make of a slave.
pub fn slaves_are_counted<S, M, X, R, E, Q>()
    ensures { SlavesAreCounted S M X R E Q }
{}

/// A chooser that names the parent alone leads to the end.
pub fn parents_reach<S, M, X, R, E, Q>()
    ensures { ParentsReach S M X R E Q }
{}

/// The answers that a link in memory took, up to an end, are a whole run of the pair.
pub fn links_are_whole<S, M, X, R, E, Q>()
    ensures { LinksAreWhole S M X R E Q }
{}

/// All this at an example: a slave that posts numbers to a monitor that adds them up, goes on behind the
/// monitor's end, and waits for a reply that never comes.
pub fn adders_end()
    ensures { AdderEnds }
{}
