//! Why a store isn't moved.
ghost use Rattle.std.specs.Prelude.{◌≡◌};
ghost use Rattle.checkpoint.specs.declared.stops.MoveStop.TheVariants.{StoreFault as Fault, NoMemory as Want};

use flow_disk::Failed;
use std::alloc::AllocError;
use thiserror::Error;

/// Why a store isn't moved to its other slot.
#[derive(Clone, Copy, Debug, PartialEq, Eq, Error)]
pub enum MoveStop {
    /// The disk failed: the log isn't used from then on, and the store is reopened.
    #[error("StoreFault")]
    StoreFault,
    /// There was no memory for a record: the store stands where it stood.
    #[error("NoMemory")]
    NoMemory,
}

impl From<Failed> for MoveStop {
    ghost from_gives = { λ _ e. e ≡ Fault };

    fn from(_failed: Failed) -> MoveStop {
        MoveStop::StoreFault
    }
}

impl From<AllocError> for MoveStop {
    ghost from_gives = { λ _ e. e ≡ Want };

    fn from(_error: AllocError) -> MoveStop {
        MoveStop::NoMemory
    }
}
