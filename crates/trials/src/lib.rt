//! The worked examples that are proved, as the contract of a function that does nothing.
#![tactic(auto)]

ghost use Rattle.trials.specs.Trials.{Trials};

/// What the definitions say of each trial.
pub fn trials()
    ensures { Trials }
{}
