//! Laws of the definitions that the contracts cite: each is proved, since a function promises it.
ghost use Rattle.analysis.specs.Comparisons.{LinearSafe, SectionsSafe};
ghost use Rattle.analysis.specs.Responses.{RoundedUp};

/// Promises that activations are a quotient rounded up, and does nothing.
pub fn activations_round_up()
    ensures { RoundedUp }
{}

/// Promises that a row on time by the linear test, or with sections, is on time by the exact test; it does nothing.
pub fn exact_is_least()
    ensures linear { LinearSafe }
    ensures sections { SectionsSafe }
{}
