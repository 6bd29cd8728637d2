//! A waiting activity is done twice, by a person and by an agent.
use activity_states::ProgramState;
use flow_model::{Container, Fate, Hold, List, Name};
use std::alloc::Global;
use std::test::Fail;

fn nothing(alloc: Global) -> Container {
    let values = List::new(alloc);
    Container { values }
}

/// An activity that became ready at 3.
fn ready(alloc: Global) -> ProgramState {
    let mut state = ProgramState::new(alloc);
    state.make_ready(3);
    state
}

fn ann(alloc: Global) -> Result<Name, Fail> {
    Ok(Name::new(alloc, b"ann".as_slice())?)
}

/// The same after a person has done its first attempt in vain at 5.
fn done_once(alloc: Global) -> Result<ProgramState, Fail> {
    let mut state = ready(alloc);
    state.hold_person(ann(alloc)?);
    state.complete(nothing(alloc), Some(ann(alloc)?), false, 5)?;
    Ok(state)
}

/// The same after an agent has done its second attempt at 8.
fn done_twice(alloc: Global) -> Result<ProgramState, Fail> {
    let mut state = done_once(alloc)?;
    let _take = state.hold_agent();
    state.complete(nothing(alloc), None, true, 8)?;
    Ok(state)
}

#[test]
fn an_activity_waits_until_it_is_ready(rt: HostRuntime) -> Result<(), Fail> {
    assert_eq!(rt; ProgramState::new(rt.alloc()).fate(), Fate::Waiting);
    assert_eq!(rt; ready(rt.alloc()).fate(), Fate::Ready(1));
    Ok(())
}

#[test]
fn a_held_activity_is_running(rt: HostRuntime) -> Result<(), Fail> {
    let mut state = ready(rt.alloc());
    state.hold_person(ann(rt.alloc())?);
    assert_eq!(rt; state.fate(), Fate::Running(1));
    Ok(())
}

#[test]
fn an_attempt_in_vain_is_followed_by_another(rt: HostRuntime) -> Result<(), Fail> {
    let state = done_once(rt.alloc())?;
    assert_eq!(rt; state.fate(), Fate::Ready(2));
    assert!(rt; state.performer().is_some() && state.since() == 5);
    Ok(())
}

#[test]
fn an_agent_gets_the_first_take_number(rt: HostRuntime) -> Result<(), Fail> {
    let mut state = done_once(rt.alloc())?;
    assert_eq!(rt; state.hold_agent(), 1);
    assert!(rt; matches!(state.hold(), Hold::Agent(1)));
    Ok(())
}

#[test]
fn the_last_attempt_finishes(rt: HostRuntime) -> Result<(), Fail> {
    let state = done_twice(rt.alloc())?;
    assert_eq!(rt; state.fate(), Fate::Finished(2));
    assert!(rt; state.performer().is_none());
    assert!(rt; state.output(3).is_none() && state.output(2).is_some());
    Ok(())
}
