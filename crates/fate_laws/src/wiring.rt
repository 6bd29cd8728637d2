ghost use Rattle.fate_laws.specs.WellFormed.{OrderIsFlow};

/// An order in which the connectors lead forward is one in which the data lines do, where those go
/// along walks of connectors.
pub fn order_is_flow()
    ensures { OrderIsFlow }
{}
