//! Several pairs of a slave and a monitor that go on by turns, one whole message of one of them at a time, as the
//! answers of a chooser have it. What the sides are doesn't matter here. The laws: turns make steps of the pairs and
//! nothing else, so each pair comes to the end to which it comes alone, whatever is answered; the last answer brings
//! the last of them to its end; and every chooser comes to such an end where each pair does.
#![tactic(auto)]

ghost use Rattle.session_turns.specs.TurnsLaws.{TurnsAreSteps, WholeTurnsAreAlone, WholeTurnsAgree, WholeTurnsEndOnce, TurnsJoin, TurnsEnd};
ghost use Rattle.session_turns.specs.TwoAdders.{AddersTurn};

/// Wherever turns lead, each pair has made steps of its own and nothing else.
pub fn turns_are_steps<S, M, X, R, E, Q>()
    ensures { TurnsAreSteps S M X R E Q }
{}

/// The ends of whole turns are those to which each pair comes alone.
pub fn whole_turns_are_alone<S, M, X, R, E, Q>()
    ensures { WholeTurnsAreAlone S M X R E Q }
{}

/// They are the same under any other answers.
pub fn whole_turns_agree<S, M, X, R, E, Q>()
    ensures { WholeTurnsAgree S M X R E Q }
{}

/// Whole turns end with their last answer and not before.
pub fn whole_turns_end_once<S, M, X, R, E, Q>()
    ensures { WholeTurnsEndOnce S M X R E Q }
{}

/// Turns go on where others stopped.
pub fn turns_join<S, M, X, R, E, Q>()
    ensures { TurnsJoin S M X R E Q }
{}

/// Where each pair comes to an end alone, every chooser comes to whole turns.
pub fn turns_end<S, M, X, R, E, Q>()
    ensures { TurnsEnd S M X R E Q }
{}

/// Two pairs by example, under two lists of answers.
pub fn adders_turn()
    ensures { AddersTurn }
{}
