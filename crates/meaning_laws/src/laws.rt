//! The laws: a text that breaks no rule has a meaning.
ghost use Rattle.meaning_laws.specs.Meanings.{FaultlessTextsMean, FaultlessGraphsMean};
ghost use Rattle.meaning_laws.specs.Meanings.{FaultlessTextsMeanOnce, VerdictsHaveSteps};
ghost use Rattle.meaning_laws.specs.Meanings.{ClearConditionsResolve, AcyclicGraphsHaveOrders};

/// Law: a condition that nothing stands against is resolved.
pub fn clear_conditions_resolve()
    ensures { ClearConditionsResolve }
{}

/// Law: nodes whose edges close no walk have a level order.
pub fn acyclic_graphs_have_orders()
    ensures { AcyclicGraphsHaveOrders }
{}

/// Law: each process of a text that breaks no rule means a graph.
pub fn faultless_graphs_mean()
    ensures { FaultlessGraphsMean }
{}

/// Law: a text that breaks no rule has a meaning.
pub fn faultless_texts_mean()
    ensures { FaultlessTextsMean }
{}

/// Law: and it means one thing.
pub fn faultless_texts_mean_once()
    ensures { FaultlessTextsMeanOnce }
{}

/// Law: so each transaction that a command is judged to has a step.
pub fn verdicts_have_steps()
    ensures { VerdictsHaveSteps }
{}
