//! Eligibility, and the tests of commands on items.
ghost use Rattle.std.specs.Prelude.{◌≡◌, if◌then◌else◌, Ok, Err, option_map, bytes_eq};
ghost use Rattle.staff_worklists.specs.Rights.{has_role as role_test, is_eligible, is_ready, is_running, owner_answer};
ghost use Rattle.staff_worklists.specs.Rights.{able_answer, claim_answer, release_answer, transfer_answer};
ghost use Rattle.staff_worklists.specs.Rights.{taking_answer, done_answer};
ghost use Rattle.staff_worklists.specs.declared.rights.StaffFault.TheVariants.{State};

use flow_model::{DoneBy, Hold, Name, PersonDef, Phase, Program, Who};
use thiserror::Error;

/// Why a command on an item is refused; the holder is the one of the item.
#[derive(Clone, Copy, Debug, PartialEq, Eq, Drop, Error)]
pub enum StaffFault {
    /// The item is in another phase.
    #[error("State")]
    State(Phase),
    /// The item isn't held by that person.
    #[error("Owner")]
    Owner,
    /// The item isn't held by an agent under that take number; its own, or 0.
    #[error("Take")]
    Take(u64),
    /// The person isn't eligible, or the item is manual.
    #[error("Eligible")]
    Eligible,
}

fn same(first: &Name, second: &Name) -> bool
    ensures { result ≡ bytes_eq first.now second.now }
{
    first.as_slice() == second.as_slice()
}

fn has_role(person: &PersonDef, role: &Name) -> bool
    ensures { result ≡ role_test person.now role.now }
{
    person.roles.as_slice().iter().any(|own| same(own, role))
}

/// Whether a person may do a manual item; the performer is the person whose DONE gave the final output
/// that PERFORMER OF asks for, and the starter stands in where there is none.
pub fn eligible(
    person: &PersonDef,
    program: &Program,
    starter: &Name,
    performer: Option<&Name>,
) -> bool
    ensures { result ≡ is_eligible person.now program.now starter.now (option_map (λ name. name.now) performer.entry) }
{
    if !program.manual {
        return false;
    }
    match &program.by {
        DoneBy::Role(role) => has_role(person, role),
        DoneBy::Person(name) => same(&person.name, name),
        DoneBy::Starter => same(&person.name, starter),
        DoneBy::PerformerOf(_) => same(&person.name, performer.unwrap_or(starter)),
    }
}

fn in_ready(phase: Phase) -> Result<(), StaffFault>
    ensures { result ≡ (if is_ready phase then Ok tt else Err (State phase)) }
{
    match phase {
        Phase::Ready => Ok(()),
        Phase::Running => Err(StaffFault::State(phase)),
        Phase::Ended => Err(StaffFault::State(phase)),
    }
}

fn in_running(phase: Phase) -> Result<(), StaffFault>
    ensures { result ≡ (if is_running phase then Ok tt else Err (State phase)) }
{
    match phase {
        Phase::Ready => Err(StaffFault::State(phase)),
        Phase::Running => Ok(()),
        Phase::Ended => Err(StaffFault::State(phase)),
    }
}

fn held_by(hold: &Hold, who: &Name) -> Result<(), StaffFault>
    ensures { result ≡ owner_answer hold.now who.now }
{
    match hold {
        Hold::Person(holder) if same(holder, who) => Ok(()),
        _ => Err(StaffFault::Owner),
    }
}

fn able(is_able: bool) -> Result<(), StaffFault>
    ensures { result ≡ able_answer is_able }
{
    if is_able {
        Ok(())
    } else {
        Err(StaffFault::Eligible)
    }
}

/// Whether a person may claim an item: State, then Eligible.
pub fn claim_test(phase: Phase, is_able: bool) -> Result<(), StaffFault>
    ensures { result ≡ claim_answer phase is_able }
{
    in_ready(phase)?;
    able(is_able)
}

/// Whether a person may give an item back: State, then Owner.
pub fn release_test(phase: Phase, hold: &Hold, who: &Name) -> Result<(), StaffFault>
    ensures { result ≡ release_answer phase hold.now who.now }
{
    in_running(phase)?;
    held_by(hold, who)
}

/// Whether a person may hand an item on to one who is able: State, Owner, then Eligible.
pub fn transfer_test(phase: Phase, hold: &Hold, who: &Name, is_able: bool) -> Result<(), StaffFault>
    ensures { result ≡ transfer_answer phase hold.now who.now is_able }
{
    in_running(phase)?;
    held_by(hold, who)?;
    able(is_able)
}

/// Whether an agent may take an item: State, then Eligible.
pub fn take_test(phase: Phase, manual: bool) -> Result<(), StaffFault>
    ensures { result ≡ taking_answer phase manual }
{
    in_ready(phase)?;
    able(!manual)
}

/// Whether a person or an agent may complete an item: State, then Owner or Take.
pub fn done_test(phase: Phase, hold: &Hold, who: &Who) -> Result<(), StaffFault>
    ensures { result ≡ done_answer phase hold.now who.now }
{
    in_running(phase)?;
    match who {
        Who::Person(name) => held_by(hold, name),
        Who::Agent(take) => match hold {
            Hold::Agent(own) if own == take => Ok(()),
            Hold::Agent(own) => Err(StaffFault::Take(*own)),
            _ => Err(StaffFault::Take(0)),
        },
    }
}
