//! The laws of the step by itself.
ghost use Rattle.machine.specs.Steps.{AdditionsAreOne, OneStepOnly, OneHistory};

/// Law: what a transaction adds to a library is one thing.
pub fn additions_are_one()
    ensures { AdditionsAreOne }
{}

/// Law: a state and a transaction determine the next state.
pub fn one_step()
    ensures { OneStepOnly }
{}

/// Law: a state and a list of transactions determine the last state.
pub fn one_history()
    ensures { OneHistory }
{}
