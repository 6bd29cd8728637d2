//! Why a text isn't accepted.
ghost use Rattle.std.specs.Prelude.{◌≡◌};
ghost use Rattle.template_check.specs.declared.faults.ImportFault.TheVariants.{NoMemory};

use std::alloc::AllocError;
use thiserror::Error;

/// A broken rule, from 1 to 24, with the line and the place of what breaks it.
#[derive(Clone, Copy, Debug, PartialEq, Eq)]
pub struct RuleFault {
    pub rule: u8,
    pub line: u32,
    pub place: u32,
}

/// Why a text isn't imported.
#[derive(Clone, Copy, Debug, PartialEq, Eq, Drop, Error)]
pub enum ImportFault {
    /// The broken rule of least number, and then of least place.
    #[error("Rule")]
    Rule(RuleFault),
    /// There was no memory for it.
    #[error("NoMemory")]
    NoMemory,
}

impl From<AllocError> for ImportFault {
    ghost from_gives = { λ _ e. e ≡ NoMemory };

    fn from(_fault: AllocError) -> ImportFault {
        ImportFault::NoMemory
    }
}
