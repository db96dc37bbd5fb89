//! What holds of every slave of a well-formed boot, whoever made the boot and whatever replies the slave is given: its
//! machine fits, what it asks for may be packed, and its turns, calls and handles keep below named bounds. So a slave's
//! steps have no condition. Each handle in its memory lies in a cell of its own type. And of a boot that has a spelling
//! so has all that its slave says.
#![tactic(auto)]

mod handles;
mod messages;

ghost use Rattle.slave_soundness_law.specs.Laws.{CallsAreReady, SlavesBeginSound, SlavesStaySound, TakersStaySound};

pub use handles::handles_have_their_types;
pub use messages::{
    reached_slaves_are_in_format, slaves_begin_in_format, spoken_messages_are_spelled,
    steps_are_spelled, takers_stay_in_format,
};

/// The slave of a well-formed boot is sound.
pub fn slaves_begin_sound()
    ensures { SlavesBeginSound }
{}

/// A step of a slave that goes on leaves it sound, and what it asks for may be packed.
pub fn slaves_stay_sound()
    ensures { SlavesStaySound }
{}

/// What the step of a sound slave's machine asks for may be packed and sent.
pub fn calls_are_ready()
    ensures { CallsAreReady }
{}

/// A sound slave is sound whatever reply it is given.
pub fn takers_stay_sound()
    ensures { TakersStaySound }
{}
