//! Why a command is refused, and how that is written.
ghost use Rattle.std.specs.Prelude.{◌≡◌, ◌++◌, IfOk, OnOk};
ghost use Rattle.flow_core.specs.Replies.{with_name, owner_text, code_text, refusal_text};
ghost use Rattle.flow_core.specs.declared.refusals.Stop.TheVariants.{NoMemory};

use crate::words::numbered;
use flow_model::{Bytes, Hold, Mode, Name, Phase};
use flow_text::{decimal, quoted_name};
use reply_text::{write_mode, write_phase};
use std::alloc::{AllocError, AllocFailed, Global};

/// Why a command is refused, with what the reply keeps of it.
#[derive(Drop)]
pub enum Refusal {
    /// A text breaks a rule at a line.
    Rule(u8, u32),
    Person(Name),
    Process(Name),
    Root(u64),
    /// No such item; its token.
    Item(Bytes),
    /// No such queue; the number of queues.
    Queue(u8),
    Mode(Mode),
    State(Phase),
    /// The item isn't held by that person; who holds it.
    Owner(Hold),
    /// The item isn't held under that take number; its own, or 0.
    Take(u64),
    Eligible,
    Value(u32),
    Empty(u8),
    /// Messages of the root are queued; their number.
    Queued(u64),
    /// The clock is later; what it says.
    Clock(u64),
    /// The number of transactions is the limit.
    Full(u64),
}

/// Why a test of a command stops.
#[derive(Drop)]
pub enum Stop {
    Refused(Refusal),
    NoMemory,
}

impl From<AllocError> for Stop {
    ghost from_gives = { λ _ e. e ≡ NoMemory };

    fn from(_fault: AllocError) -> Stop {
        Stop::NoMemory
    }
}

impl<T: Drop> From<AllocFailed<T>> for Stop {
    fn from(_fault: AllocFailed<T>) -> Stop {
        Stop::NoMemory
    }
}

impl From<Refusal> for Stop {
    fn from(refusal: Refusal) -> Stop {
        Stop::Refused(refusal)
    }
}

fn named(out: &mut Vec<u8>, code: &[u8], name: &Name) -> Result<(), AllocError>
    ensures { OnOk result (out.new.items ≡ out.old.items ++ with_name code.now name.now) }
{
    out.extend_from_slice(code)?;
    out.push(b' ')?;
    quoted_name(out, name.as_slice())
}

fn owner(out: &mut Vec<u8>, hold: &Hold) -> Result<(), AllocError>
    ensures { OnOk result (out.new.items ≡ out.old.items ++ owner_text hold.now) }
{
    match hold {
        Hold::Person(name) => named(out, b"OWNER", name),
        Hold::Agent(_) => out.extend_from_slice(b"OWNER NOBODY"),
        Hold::Nobody => out.extend_from_slice(b"OWNER NOBODY"),
    }
}

/// Appends the code of a refusal and what it keeps, without a line feed.
fn write_code(out: &mut Vec<u8>, refusal: &Refusal) -> Result<(), AllocError>
    ensures { OnOk result (out.new.items ≡ out.old.items ++ code_text refusal.now) }
{
    match refusal {
        Refusal::Rule(rule, line) => {
            numbered(out, b"RULE ", u64::from(*rule))?;
            out.push(b' ')?;
            decimal(out, u64::from(*line))
        }
        Refusal::Person(name) => named(out, b"PERSON", name),
        Refusal::Process(name) => named(out, b"PROCESS", name),
        Refusal::Root(root) => numbered(out, b"ROOT ", *root),
        Refusal::Item(token) => {
            out.extend_from_slice(b"ITEM ")?;
            out.extend_from_slice(token.as_slice())
        }
        Refusal::Queue(count) => numbered(out, b"QUEUE ", u64::from(*count)),
        Refusal::Mode(mode) => {
            out.extend_from_slice(b"MODE ")?;
            write_mode(out, *mode)
        }
        Refusal::State(phase) => {
            out.extend_from_slice(b"STATE ")?;
            write_phase(out, *phase)
        }
        Refusal::Owner(hold) => owner(out, hold),
        Refusal::Take(take) => numbered(out, b"TAKE ", *take),
        Refusal::Eligible => out.extend_from_slice(b"ELIGIBLE"),
        Refusal::Value(place) => numbered(out, b"VALUE ", u64::from(*place)),
        Refusal::Empty(queue) => numbered(out, b"EMPTY ", u64::from(*queue)),
        Refusal::Queued(count) => numbered(out, b"QUEUED ", *count),
        Refusal::Clock(clock) => numbered(out, b"CLOCK ", *clock),
        Refusal::Full(limit) => numbered(out, b"FULL ", *limit),
    }
}

/// Appends the reply of a refusal.
pub fn write_refusal(out: &mut Vec<u8>, refusal: &Refusal) -> Result<(), AllocError>
    ensures { OnOk result (out.new.items ≡ out.old.items ++ refusal_text refusal.now) }
{
    out.extend_from_slice(b"no ")?;
    write_code(out, refusal)?;
    out.push(b'\n')?;
    Ok(())
}

/// An equal hold.
pub fn copy_hold(alloc: Global, hold: &Hold) -> Result<Hold, AllocError>
    ensures { IfOk result (λ copy. copy ≡ hold.now) }
{
    match hold {
        Hold::Nobody => Ok(Hold::Nobody),
        Hold::Person(name) => Ok(Hold::Person(name.copy(alloc)?)),
        Hold::Agent(take) => Ok(Hold::Agent(*take)),
    }
}
