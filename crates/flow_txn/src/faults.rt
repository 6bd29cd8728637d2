//! Why bytes are no record.
ghost use Rattle.std.specs.Prelude.{◌≡◌};
ghost use Rattle.flow_txn.specs.Reading.{fault_of};
ghost use Rattle.flow_txn.specs.declared.faults.RecordFault.TheVariants.{NoMemory};

use flow_model::NameFault;
use std::alloc::AllocError;
use thiserror::Error;

/// Why bytes are no record.
#[derive(Clone, Copy, Debug, PartialEq, Eq, Drop, Error)]
pub enum RecordFault {
    /// No transaction in range has these bytes.
    #[error("BadRecord")]
    BadRecord,
    /// There was no memory for the transaction.
    #[error("NoMemory")]
    NoMemory,
}

impl From<AllocError> for RecordFault {
    ghost from_gives = { λ _ e. e ≡ NoMemory };

    fn from(_fault: AllocError) -> RecordFault {
        RecordFault::NoMemory
    }
}

impl From<NameFault> for RecordFault {
    ghost from_gives = { λ n e. e ≡ fault_of n };

    fn from(fault: NameFault) -> RecordFault {
        match fault {
            NameFault::Bad => RecordFault::BadRecord,
            NameFault::NoMemory => RecordFault::NoMemory,
        }
    }
}
