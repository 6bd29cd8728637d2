//! The results of the completions.
ghost use Rattle.std.specs.Prelude.{◌≡◌};
ghost use Rattle.fate_eval.specs.declared.results.FateFault.TheVariants.{NoMemory};

use flow_model::{Container, FateRow, List};
use std::alloc::AllocError;
use thiserror::Error;

/// The fates of all reached scopes in show order, and the output of the root where its scope is complete.
#[derive(Drop)]
pub struct Fates {
    pub rows: List<FateRow>,
    pub output: Option<Container>,
}

/// Why there are no fates.
#[derive(Clone, Copy, Debug, PartialEq, Eq, Drop, Error)]
pub enum FateFault {
    /// The first completion, counted from 0, that isn't ready by those before it.
    #[error("NotReady")]
    NotReady(u64),
    /// There was no memory for them.
    #[error("NoMemory")]
    NoMemory,
}

impl From<AllocError> for FateFault {
    ghost from_gives = { λ _ e. e ≡ NoMemory };

    fn from(_fault: AllocError) -> FateFault {
        FateFault::NoMemory
    }
}
