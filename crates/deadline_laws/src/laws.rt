//! The law: what is overdue goes by the machine's state.
ghost use Rattle.deadline_laws.specs.Overdue.{OverdueIsOne};

/// Law: two states that the machine sees as one have the same text of what is overdue.
pub fn overdue_is_one()
    ensures { OverdueIsOne }
{}
