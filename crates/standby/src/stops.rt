//! Why nothing, or no more, is shipped or followed.
ghost use Rattle.std.specs.Prelude.{◌≡◌, ℕ};
ghost use Rattle.flow_session.specs.Stopping.{IsOpenCause};
ghost use Rattle.standby.specs.Endings.{ShipEnd, ShipDiskEnd, FollowEnd};
ghost use Rattle.standby.specs.Followed.{IsEndBy};
ghost use Rattle.standby.specs.Shipped.{IsEndBy as IsShipEndBy};

use std::alloc::AllocError;
use thiserror::Error;
use txn_log::LogStop;

/// Why a store isn't shipped.
#[derive(Clone, Copy, Debug, PartialEq, Eq, Drop, Error)]
pub enum ShipStop {
    /// The store isn't opened.
    #[error("Store")]
    Store(LogStop),
    /// Transactions above the number that is asked for may have been dropped: those up to this one.
    #[error("Gone")]
    Gone(u64),
    /// The number that is asked for is above that of the transactions, which is this one.
    #[error("Ahead")]
    Ahead(u64),
    /// The sink failed.
    #[error("WriteFault")]
    WriteFault,
    /// There was no memory.
    #[error("NoMemory")]
    NoMemory,
}

/// Why a stream isn't followed, or no further.
#[derive(Clone, Copy, Debug, PartialEq, Eq, Drop, Error)]
pub enum FollowStop {
    /// The store isn't opened, or the disk failed.
    #[error("Store")]
    Store(LogStop),
    /// The stream breaks its form at the frame that begins at this byte, at its front, or behind its end.
    #[error("Frame")]
    Frame(u64),
    /// The source ended before the stream; the number of the store's transactions.
    #[error("Cut")]
    Cut(u64),
    /// The stream is of a store with other queues or another limit.
    #[error("Other")]
    Other,
    /// The stream begins behind the next transaction of the store; the number of the store's transactions.
    #[error("Gap")]
    Gap(u64),
    /// The transaction of this number is the next one and isn't allowed.
    #[error("NotAllowed")]
    NotAllowed(u64),
    /// The source failed.
    #[error("ReadFault")]
    ReadFault,
    /// The stream is longer than 268,435,456 bytes.
    #[error("TooLong")]
    TooLong,
    /// There was no memory.
    #[error("NoMemory")]
    NoMemory,
}

impl From<AllocError> for ShipStop {
    ghost use Rattle.standby.specs.declared.stops.ShipStop.TheVariants.{NoMemory};

    ghost from_gives = { λ _ e. e ≡ NoMemory };

    fn from(_fault: AllocError) -> ShipStop {
        ShipStop::NoMemory
    }
}

impl From<AllocError> for FollowStop {
    ghost use Rattle.standby.specs.declared.stops.FollowStop.TheVariants.{NoMemory};

    ghost from_gives = { λ _ e. e ≡ NoMemory };

    fn from(_fault: AllocError) -> FollowStop {
        FollowStop::NoMemory
    }
}

impl From<LogStop> for ShipStop {
    ghost from_gives = { λ stop e. IsShipEndBy stop e × ((from count : ℕ) → ShipEnd from count count e)
        × ((disk disk' : ℕ) → IsOpenCause disk disk' stop → ShipDiskEnd disk disk' e) };

    fn from(stop: LogStop) -> ShipStop {
        match stop {
            LogStop::NoMemory => ShipStop::NoMemory,
            stop => ShipStop::Store(stop),
        }
    }
}

impl From<LogStop> for FollowStop {
    ghost from_gives = { λ stop e. IsEndBy stop e × ((source disk disk' : ℕ)
        → IsOpenCause disk disk' stop → FollowEnd source source disk disk' e) };

    fn from(stop: LogStop) -> FollowStop {
        match stop {
            LogStop::NoMemory => FollowStop::NoMemory,
            stop => FollowStop::Store(stop),
        }
    }
}
