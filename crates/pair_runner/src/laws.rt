// The laws of what serving frames comes to, each on a function with nothing to do.
ghost use Rattle.pair_runner.specs.Bounds.{FewAreHandled};
ghost use Rattle.pair_runner.specs.Laws.{FramesAreMessages, RepliesAreSpelled, TalksAreFrames};

/// A monitor handles at most one frame more than its budget has turns.
pub fn few_are_handled()
    ensures { FewAreHandled }
{}

/// Frames come to what their messages come to.
pub fn frames_are_messages()
    ensures { FramesAreMessages }
{}

/// The reply to a message within the counts of the format has a spelling.
pub fn replies_are_spelled()
    ensures { RepliesAreSpelled }
{}

/// However a peer cuts its bytes, a talk comes to what their frames come to.
pub fn talks_are_frames()
    ensures { TalksAreFrames }
{}
