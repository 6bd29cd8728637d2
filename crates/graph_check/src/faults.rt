use flow_model::List;
use std::alloc::AllocError;
use std::fmt;
use thiserror::Error;

/// Why a graph's nodes were not put in order.
#[derive(Drop, Error)]
pub enum GraphFault {
    /// The nodes of a closed walk along edges, in the order of the walk, the first one once.
    #[error("the graph has a closed walk")]
    Cycle(List<u32>),
    /// There was no memory for the call.
    #[error("out of memory")]
    NoMemory,
}

impl From<AllocError> for GraphFault {
    ghost use Rattle.std.specs.Prelude.{◌≡◌};
    ghost use Rattle.graph_check.specs.declared.faults.GraphFault.TheVariants.{NoMemory};

    ghost from_gives = { λ _ e. e ≡ NoMemory };

    fn from(_error: AllocError) -> GraphFault {
        GraphFault::NoMemory
    }
}

// By hand, since a list has no `Debug`.
impl fmt::Debug for GraphFault {
    fn fmt<W: fmt::Write>(&self, f: &mut fmt::Formatter<W>) -> fmt::Result {
        match self {
            GraphFault::Cycle(walk) => write!(f, "Cycle({:?})", walk.as_slice()),
            GraphFault::NoMemory => write!(f, "NoMemory"),
        }
    }
}
