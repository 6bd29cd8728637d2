//! Items that a token or a path names, and the tests of commands on them.
ghost use Rattle.std.specs.Prelude.{◌≡◌, None, Some, Err, option_copied, option_map, IfOk, IfSome, IfNone, OnOk};
ghost use Rattle.flow_core.specs.Admitting.{is_of as value_is_of, fits, all_fit};
ghost use Rattle.flow_core.specs.Allowing.{seen_entry, known_entry, subject_of, performer_for, IsKnown, IsOpen};
ghost use Rattle.flow_core.specs.Allowing.{IsRunning};
ghost use Rattle.flow_core.specs.Refusals.{StopsBy, IsStop, is_active as active_mode, is_able as able, is_going};
ghost use Rattle.flow_core.specs.Refusals.{mode_test, staff_refusal, claim_test as claiming_test};
ghost use Rattle.flow_core.specs.Refusals.{release_test as releasing_test, transfer_test as transferring_test};
ghost use Rattle.flow_core.specs.Refusals.{taking_test, completing_test, forcing_test, restart_test, item_test};
ghost use Rattle.flow_core.specs.Refusals.{subject_in, IsFound};
ghost use Rattle.flow_core.specs.declared.refusals.Refusal.TheVariants.{Item as NoItem};
ghost use Rattle.flow_core.specs.Driving.{item_of, program_in};
ghost use Rattle.flow_model.specs.declared.instances.Path.{Path as PathOf};

use crate::paths::unquoted;
use crate::refusals::{Refusal, Stop, copy_hold};
use crate::state::Core;
use flow_model::{
    Bytes, DoneBy, Hold, Kind, Leaves, Mode, Name, Path, PathFault, PersonDef, Phase, Program,
    Setting, Value, Who, Work, path_of,
};
use navigator::Item;
use staff_worklists::{
    StaffFault, claim_test, done_test, eligible, release_test, take_test, transfer_test,
};
use std::alloc::AllocError;

/// An item with what the tests ask of it.
pub struct Known<'a> {
    pub item: Item<'a>,
    pub program: &'a Program,
    pub starter: &'a Name,
    pub mode: Mode,
    /// The person whose DONE PERFORMER OF asks for, where there is one.
    pub performer: Option<&'a Name>,
}

impl Drop for Known<'_> {
    fn drop(self) {
        let Known {
            item: _,
            program: _,
            starter: _,
            mode: _,
            performer: _,
        } = self;
    }
}

/// The item that a token names, with the path that the token spells.
#[derive(Drop)]
pub struct Found<'a> {
    pub path: Path,
    pub known: Known<'a>,
}

/// The person whose DONE PERFORMER OF asks for.
fn performer<'a>(item: Item<'a>, program: &Program) -> Option<&'a Name>
    ensures { option_copied result ≡ performer_for (seen_entry item.entry) program.now }
{
    match &program.by {
        DoneBy::Role(_) => None,
        DoneBy::Person(_) => None,
        DoneBy::Starter => None,
        DoneBy::PerformerOf(place) => item.performer_of(*place),
    }
}

impl<'a> Known<'a> {
    fn is_able(&self, person: &PersonDef) -> bool
        ensures { result ≡ able (Some person.now) (subject_of self.now) }
    {
        eligible(person, self.program, self.starter, self.performer)
    }

    fn needs_active(&self) -> Result<(), Stop>
        ensures running { OnOk result (IsRunning self.now.mode) }
        ensures stops { StopsBy (mode_test active_mode self.now.mode) result }
    {
        match self.mode {
            Mode::Active => Ok(()),
            mode => Err(Stop::Refused(Refusal::Mode(mode))),
        }
    }

    fn needs_active_or_suspended(&self) -> Result<(), Stop>
        ensures running { OnOk result (IsRunning self.now.mode) }
        ensures stops { StopsBy (mode_test is_going self.now.mode) result }
    {
        match self.mode {
            Mode::Active => Ok(()),
            Mode::Suspended => Ok(()),
            mode => Err(Stop::Refused(Refusal::Mode(mode))),
        }
    }
}

/// The program that an activity runs; none of a block or a subprocess.
fn program_of(work: &Work) -> Option<&Program>
    ensures { option_copied result ≡ program_in work.now }
{
    match work {
        Work::Program(program) => Some(program),
        Work::Block(_) => None,
        Work::Process(_) => None,
    }
}

impl Core {
    /// The item of a path; None exactly where there is none.
    pub(crate) fn known(&self, path: &Path) -> Option<Known<'_>>
        ensures entry { option_map known_entry result ≡ item_of self.now path.now }
        ensures known { IfSome result (IsKnown self.now path.now) }
    {
        let instance = self.instance(path.root)?;
        let item = instance.item(self.library(), path)?;
        let program = program_of(&item.activity.work)?;
        Some(Known {
            item,
            program,
            starter: &instance.starter,
            mode: instance.mode(),
            performer: performer(item, program),
        })
    }

    /// The item of a path that was read.
    fn found_at(&self, path: Path) -> Option<Found<'_>>
        ensures none { IfNone result (item_of self.now path ≡ None) }
        ensures found { IfSome result (λ f. f.path ≡ path) }
        ensures known { IfSome result (λ f. IsKnown self.now path f.known) }
    {
        let known = self.known(&path)?;
        Some(Found { path, known })
    }

    /// The item that a token names; None exactly where it spells no path, or there is no such item.
    pub(crate) fn found(&self, token: &Bytes) -> Result<Option<Found<'_>>, AllocError>
        ensures { IfOk result (IsFound self.now token.now) }
    {
        match path_of(self.alloc, unquoted(token.as_slice())) {
            Ok(path) => Ok(self.found_at(path)),
            Err(PathFault::BadPath) => Ok(None),
            Err(PathFault::NoMemory) => Err(AllocError),
        }
    }

    fn no_item(&self, token: &Bytes) -> Stop
        ensures { IsStop (Some (NoItem token.now)) result }
    {
        match token.copy(self.alloc) {
            Ok(token) => Stop::Refused(Refusal::Item(token)),
            Err(_) => Stop::NoMemory,
        }
    }

    /// The item that was found of a token, or ITEM.
    pub(crate) fn needs_item<'a>(
        &self,
        token: &Bytes,
        found: Option<Found<'a>>,
    ) -> Result<Found<'a>, Stop>
        ensures stops { StopsBy (item_test token.now (subject_in found.entry)) result }
        ensures there { IfOk result (λ f. found.entry ≡ Some f) }
    {
        match found {
            Some(found) => Ok(found),
            None => Err(self.no_item(token)),
        }
    }

    /// A refusal of one of the tests on an item.
    fn staff(&self, fault: StaffFault, hold: &Hold) -> Stop
        ensures { IsStop (staff_refusal hold.now (Err fault)) result }
    {
        match fault {
            StaffFault::State(phase) => Stop::Refused(Refusal::State(phase)),
            StaffFault::Take(take) => Stop::Refused(Refusal::Take(take)),
            StaffFault::Eligible => Stop::Refused(Refusal::Eligible),
            StaffFault::Owner => match copy_hold(self.alloc, hold) {
                Ok(hold) => Stop::Refused(Refusal::Owner(hold)),
                Err(_) => Stop::NoMemory,
            },
        }
    }

    pub(crate) fn may_claim(&self, known: &Known<'_>, person: &PersonDef) -> Result<(), Stop>
        ensures { StopsBy (claiming_test (Some person.now) (subject_of known.now)) result }
    {
        known.needs_active()?;
        match claim_test(known.item.phase(), known.is_able(person)) {
            Ok(()) => Ok(()),
            Err(fault) => Err(self.staff(fault, known.item.hold())),
        }
    }

    pub(crate) fn may_release(&self, known: &Known<'_>, who: &Name) -> Result<(), Stop>
        ensures { StopsBy (releasing_test who.now (subject_of known.now)) result }
    {
        known.needs_active_or_suspended()?;
        match release_test(known.item.phase(), known.item.hold(), who) {
            Ok(()) => Ok(()),
            Err(fault) => Err(self.staff(fault, known.item.hold())),
        }
    }

    pub(crate) fn may_transfer(
        &self,
        known: &Known<'_>,
        who: &Name,
        to: &PersonDef,
    ) -> Result<(), Stop>
        ensures { StopsBy (transferring_test who.now (Some to.now) (subject_of known.now)) result }
    {
        known.needs_active_or_suspended()?;
        let hold = known.item.hold();
        match transfer_test(known.item.phase(), hold, who, known.is_able(to)) {
            Ok(()) => Ok(()),
            Err(fault) => Err(self.staff(fault, hold)),
        }
    }

    pub(crate) fn may_take(&self, known: &Known<'_>) -> Result<(), Stop>
        ensures { StopsBy (taking_test (subject_of known.now)) result }
    {
        known.needs_active()?;
        match take_test(known.item.phase(), known.program.manual) {
            Ok(()) => Ok(()),
            Err(fault) => Err(self.staff(fault, known.item.hold())),
        }
    }

    pub(crate) fn may_complete(&self, known: &Known<'_>, who: &Who) -> Result<(), Stop>
        ensures stops { StopsBy (completing_test who.now (subject_of known.now)) result }
        ensures opened { (item : PathOf) → IsKnown self.now item known.now → OnOk result (IsOpen self.now item) }
    {
        known.needs_active()?;
        match done_test(known.item.phase(), known.item.hold(), who) {
            Ok(()) => Ok(()),
            Err(fault) => Err(self.staff(fault, known.item.hold())),
        }
    }

    pub(crate) fn may_force(&self, known: &Known<'_>) -> Result<(), Stop>
        ensures stops { StopsBy (forcing_test (subject_of known.now)) result }
        ensures opened { (item : PathOf) → IsKnown self.now item known.now → OnOk result (IsOpen self.now item) }
    {
        known.needs_active_or_suspended()?;
        match known.item.phase() {
            Phase::Ready => Ok(()),
            Phase::Running => Ok(()),
            Phase::Ended => Err(Stop::Refused(Refusal::State(Phase::Ended))),
        }
    }

    pub(crate) fn may_restart(&self, known: &Known<'_>) -> Result<(), Stop>
        ensures { StopsBy (restart_test (subject_of known.now)) result }
    {
        known.needs_active_or_suspended()?;
        match known.item.phase() {
            Phase::Running => Ok(()),
            phase => Err(Stop::Refused(Refusal::State(phase))),
        }
    }
}

/// Whether a value is of a kind.
fn is_of(value: &Value, kind: Kind) -> bool
    ensures { result ≡ value_is_of value.now kind }
{
    match (value, kind) {
        (Value::Whole(_), Kind::Long) => true,
        (Value::Text(_), Kind::Str) => true,
        _ => false,
    }
}

/// Whether the leaf of a setting is there and has the kind of its value.
fn setting_fits(leaves: &Leaves, setting: &Setting) -> bool
    ensures { result ≡ fits leaves.now.leaves setting.now }
{
    match leaves.kind(usize::from(setting.leaf)) {
        None => false,
        Some(kind) => is_of(&setting.value, kind),
    }
}

/// Whether settings fit a container of these leaves.
pub fn settings_fit(leaves: &Leaves, settings: &[Setting]) -> bool
    ensures { result ≡ all_fit leaves.now.leaves settings.now }
{
    settings.iter().all(|setting| setting_fits(leaves, setting))
}
