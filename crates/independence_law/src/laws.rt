// What two runs of one body share.
ghost use Rattle.independence_law.specs.Laws.{IndependentResultsTellNoSecret, SecretControlChangesSecretsAlone};

/// Where it is secret whether a privileged function's statements are done, the run of its body changes nothing
/// that isn't secret.
pub fn secret_control_changes_secrets_alone()
    ensures { SecretControlChangesSecretsAlone }
{}

/// Two runs of the body of a privileged function, with what isn't secret the same at the beginning: if both return,
/// what isn't secret is the same at the end, and so is the result if it isn't secret. Privileged hosts may answer
/// anything, and the budgets of turns may differ. Nothing is said of runs that trap or are spent, and of what is
/// written.
pub fn independent_results_tell_no_secret()
    ensures { IndependentResultsTellNoSecret }
{}
