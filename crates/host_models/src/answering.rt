// What a model answers that fits its host.
ghost use Rattle.host_models.specs.Answering.{AnswersInRange};

/// A model that fits a host gives a result exactly where the host has one, in the range of its type,
/// and what stands for the host at the next call fits it too.
pub fn answers_in_range()
    ensures { AnswersInRange }
{}
