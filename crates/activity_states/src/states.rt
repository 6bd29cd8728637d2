//! The state of a program activity.
ghost use Rattle.std.specs.Prelude.{◌≡◌, OnOk, OnErr};
ghost use Rattle.std.specs.Option.{option_copied};
ghost use Rattle.flow_model.specs.declared.instances.Hold.TheVariants.{Nobody, Person};
ghost use Rattle.activity_states.specs.States.{waiting, open_fate as open_fate_of, next_number as number_after};
ghost use Rattle.activity_states.specs.States.{fate_of, hold_of, since_of, output_of, performer_of};
ghost use Rattle.activity_states.specs.States.{next_take as take_after, made_ready, killed, held, taken, completed};

use flow_model::{Container, Fate, Hold, Name};
use std::alloc::{AllocError, Global};
use std::marker::Model;

/// Where an activity stands.
#[derive(Clone, Copy, Debug, PartialEq, Eq)]
enum Stage {
    Waiting,
    Dead,
    Open,
    Finished,
}

/// A completed attempt.
#[derive(Drop)]
struct Completed {
    output: Container,
    /// The person whose completion it was, where it was a person's.
    performer: Option<Name>,
}

/// Makes room for one more attempt. Most activities have one alone, so the first gets room for itself and no more;
/// where there are others, the room grows as that of each vector does.
fn make_room(completed: &mut Vec<Completed>) -> Result<(), AllocError>
    ensures { completed.new.items ≡ completed.old.items }
{
    if completed.is_empty() {
        completed.reserve_exact(1)?;
    }
    Ok(())
}

/// The state of a program activity. A call that changes it has no effect where the activity isn't as the call
/// needs it.
#[derive(Drop)]
pub struct ProgramState {
    stage: Stage,
    completed: Vec<Completed>,
    hold: Hold,
    /// How often agents took the next attempt.
    takes: u64,
    /// The clock when the next attempt became ready.
    since: u64,
}

impl Model for ProgramState {
    ghost use Rattle.std.specs.Prelude.{◌≡◌, true};
    ghost use Rattle.activity_states.specs.States.{State as Shown, state_of, is_sound};

    ghost Value = { Shown };

    ghost view = { λ s. state_of s.stage s.completed.items s.hold s.takes s.since };

    ghost invariant = { λ s. is_sound s.stage s.completed.items s.hold s.takes ≡ true };
}

/// The fate of an open activity whose next attempt is this one.
fn open_fate(hold: &Hold, attempt: u64) -> Fate
    ensures { result ≡ open_fate_of hold.now attempt }
{
    match hold {
        Hold::Nobody => Fate::Ready(attempt),
        Hold::Person(_) => Fate::Running(attempt),
        Hold::Agent(_) => Fate::Running(attempt),
    }
}

fn next_number(number: u64) -> u64
    ensures { result ≡ number_after number }
{
    number.saturating_add(1)
}

impl ProgramState {
    /// A waiting activity; it takes no memory.
    pub fn new(alloc: Global) -> ProgramState
        ensures { result ≡ waiting }
    {
        ProgramState {
            stage: Stage::Waiting,
            completed: Vec::new(alloc),
            hold: Hold::Nobody,
            takes: 0,
            since: 0,
        }
    }

    /// A waiting activity gets its first attempt.
    pub fn make_ready(&mut self, clock: u64)
        ensures { self.new ≡ made_ready self.old clock }
    {
        if self.stage == Stage::Waiting {
            self.since = clock;
            self.stage = Stage::Open;
        }
    }

    /// A waiting activity dies.
    pub fn kill(&mut self)
        ensures { self.new ≡ killed self.old }
    {
        if self.stage == Stage::Waiting {
            self.stage = Stage::Dead;
        }
    }

    /// The next attempt gets another hold.
    fn set_hold(&mut self, hold: Hold)
        ensures { self.new ≡ held self.old hold }
    {
        if self.stage == Stage::Open {
            self.hold = hold;
        }
    }

    /// A person takes the next attempt.
    pub fn hold_person(&mut self, who: Name)
        ensures { self.new ≡ held self.old (Person who) }
    {
        self.set_hold(Hold::Person(who));
    }

    /// An agent takes the next attempt; its take number is given.
    pub fn hold_agent(&mut self) -> u64
        ensures number { result ≡ take_after self.old }
        ensures state { self.new ≡ taken self.old }
    {
        if self.stage != Stage::Open {
            return 1;
        }
        let take = next_number(self.takes);
        self.takes = take;
        self.hold = Hold::Agent(take);
        take
    }

    /// Nobody holds the next attempt any more.
    pub fn release(&mut self)
        ensures { self.new ≡ held self.old Nobody }
    {
        self.set_hold(Hold::Nobody);
    }

    /// The next attempt is completed with this output, by a person where one is named; the activity is finished,
    /// or one more attempt is ready. Without memory the state stays as it was.
    pub fn complete(
        &mut self,
        output: Container,
        performer: Option<Name>,
        finished: bool,
        clock: u64,
    ) -> Result<(), AllocError>
        ensures ok { OnOk result (self.new ≡ completed self.old
            (record { output = output; performer = performer }) finished clock) }
        ensures err { OnErr result (self.new ≡ self.old) }
    {
        if self.stage != Stage::Open {
            return Ok(());
        }
        make_room(&mut self.completed)?;
        self.completed.push(Completed { output, performer })?;
        self.hold = Hold::Nobody;
        self.takes = 0;
        self.since = clock;
        if finished {
            self.stage = Stage::Finished;
        }
        Ok(())
    }

    /// What has become of the activity.
    pub fn fate(&self) -> Fate
        ensures { result ≡ fate_of self.now }
    {
        match self.stage {
            Stage::Waiting => Fate::Waiting,
            Stage::Dead => Fate::Dead,
            Stage::Open => open_fate(&self.hold, self.completed.len() as u64 + 1),
            Stage::Finished => Fate::Finished(self.completed.len() as u64),
        }
    }

    /// Who holds the next attempt; nobody where there is none.
    pub fn hold(&self) -> &Hold
        ensures { result.now ≡ hold_of self.now }
    {
        &self.hold
    }

    /// The clock when the next attempt became ready; 0 where there is none.
    pub fn since(&self) -> u64
        ensures { result ≡ since_of self.now }
    {
        if self.stage == Stage::Open {
            self.since
        } else {
            0
        }
    }

    /// The number of the next take of the next attempt.
    pub fn next_take(&self) -> u64
        ensures { result ≡ take_after self.now }
    {
        if self.stage == Stage::Open {
            next_number(self.takes)
        } else {
            1
        }
    }

    /// The output of an attempt, counted from 1; none exactly where that attempt isn't completed.
    pub fn output(&self, attempt: u64) -> Option<&Container>
        ensures { option_copied result ≡ output_of self.now attempt }
    {
        if attempt == 0 {
            return None;
        }
        match self.completed.get(attempt as usize - 1) {
            Some(completed) => Some(&completed.output),
            None => None,
        }
    }

    /// The person whose completion the last one was; none where there is none, or it was an agent's or an
    /// administrator's.
    pub fn performer(&self) -> Option<&Name>
        ensures { option_copied result ≡ performer_of self.now }
    {
        match self.completed.last() {
            Some(completed) => completed.performer.as_ref(),
            None => None,
        }
    }
}
