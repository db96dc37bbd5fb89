// What commands tell.
ghost use Rattle.privtrans_app.specs.Told.{CommandsAreSeen, CommandsAreTold, SaysOne, SeenIsNoWant, SeenIsOne, StatusIsOne, TooManySlotsAreUnseen};

/// Words ask for one command at most. It does nothing.
pub fn words_ask_for_one_command()
    ensures { SaysOne }
{}

/// Of a command's texts one status is seen. It does nothing.
pub fn one_status_is_seen()
    ensures { StatusIsOne }
{}

/// Of the texts of a command that tells by lines one thing is seen, but for the ways that faults of flows show. It does
/// nothing.
pub fn one_thing_is_seen()
    ensures { SeenIsOne }
{}

/// What is seen of a command never has the status of want of memory. It does nothing.
pub fn want_is_not_seen()
    ensures { SeenIsNoWant }
{}

/// Of each command that talks with no other process something is seen, whatever texts its files hold, unless its program has
/// more than 2^25 slots. It does nothing.
pub fn commands_are_seen()
    ensures { CommandsAreSeen }
{}

/// Of a program of more than 2^25 slots nothing is seen of a command that lays slots out before all else behind the types. It
/// does nothing.
pub fn too_many_slots_are_unseen()
    ensures { TooManySlotsAreUnseen }
{}

/// What is seen of told texts is told, where nothing failed, or memory was wanting; or nothing can be seen of them, since the
/// program has too many slots, and memory was wanting. It does nothing.
pub fn commands_are_told()
    ensures { CommandsAreTold }
{}
