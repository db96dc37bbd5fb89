// What holds of all seeds.
ghost use Rattle.pair_running.specs.GeneratedPairGenerated.{GeneratedRunsAreTold, OutcomeIsOne};

/// A generated program comes to one outcome at most, but for the ways by which faults of flows show how a secret comes
/// there. It does nothing.
pub fn generated_texts_have_one_outcome()
    ensures { OutcomeIsOne }
{}

/// Where no stage of the generated texts has a fault, the outcome tells of what is expected of them: by the line with the
/// lengths of the program and of the bytes that are expected where main is expected to return, else by the end alone. It
/// does nothing.
pub fn generated_runs_are_told()
    ensures { GeneratedRunsAreTold }
{}
