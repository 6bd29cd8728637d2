//! Why a log stops.
ghost use Rattle.std.specs.Prelude.{◌≡◌};
ghost use Rattle.txn_log.specs.declared.stops.LogStop.TheVariants.{StoreFault as Fault, NoMemory};

use flow_disk::{Failed, Slot};
use std::alloc::AllocError;
use thiserror::Error;

/// The disk failed: the log isn't used from then on, and the store is reopened.
#[derive(Clone, Copy, Debug, PartialEq, Eq, Error)]
#[error("StoreFault")]
pub struct StoreFault;

/// Why a store wasn't made or opened.
#[derive(Clone, Copy, Debug, PartialEq, Eq, Error)]
pub enum LogStop {
    /// There is no store in either slot.
    #[error("Unmade")]
    Unmade,
    /// There is a store already.
    #[error("Made")]
    Made,
    /// The slot holds something else than a store.
    #[error("Foreign")]
    Foreign(Slot),
    /// The slot can't be read from this place on.
    #[error("Damaged")]
    Damaged(Slot, u64),
    /// The disk failed.
    #[error("StoreFault")]
    StoreFault,
    /// There was no memory.
    #[error("NoMemory")]
    NoMemory,
}

impl From<Failed> for LogStop {
    ghost from_gives = { λ _ e. e ≡ Fault };

    fn from(_failed: Failed) -> LogStop {
        LogStop::StoreFault
    }
}

impl From<AllocError> for LogStop {
    ghost from_gives = { λ _ e. e ≡ NoMemory };

    fn from(_error: AllocError) -> LogStop {
        LogStop::NoMemory
    }
}
