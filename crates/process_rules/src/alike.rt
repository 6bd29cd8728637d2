//! Which leaves are alike: those of one name and kind.
ghost use Rattle.std.specs.Prelude.{◌≡◌, slice_get};
ghost use Rattle.std.specs.Bool.{Decides};
ghost use Rattle.std.specs.Option.{option_map};
ghost use Rattle.flow_model.specs.LeafSteps.{step_at};
ghost use Rattle.flow_model.specs.declared.graphs.Step.TheVariants.{Member, Rc, Place};
ghost use Rattle.process_rules.specs.Callees.{AreAlike};

use flow_model::{Kind, LeafSteps, Leaves, Name, Step, StepAt};

fn same_kinds(first: Option<Kind>, second: Option<Kind>) -> bool
    ensures { Decides result (first ≡ second) }
{
    first == second
}

fn is_member(name: &Name, found: StepAt<'_>) -> bool
    ensures { Decides result (Member name.now ≡ step_at found.entry) }
{
    match found {
        StepAt::Step(Step::Member(other)) => name.as_slice() == other.as_slice(),
        StepAt::Step(Step::Rc) => false,
        StepAt::Step(Step::Place(_)) => false,
        StepAt::Place(_) => false,
    }
}

fn is_code(found: StepAt<'_>) -> bool
    ensures { Decides result (Rc ≡ step_at found.entry) }
{
    match found {
        StepAt::Step(Step::Member(_)) => false,
        StepAt::Step(Step::Rc) => true,
        StepAt::Step(Step::Place(_)) => false,
        StepAt::Place(_) => false,
    }
}

fn is_place(place: u32, found: StepAt<'_>) -> bool
    ensures { Decides result (Place place ≡ step_at found.entry) }
{
    match found {
        StepAt::Step(Step::Member(_)) => false,
        StepAt::Step(Step::Rc) => false,
        StepAt::Step(Step::Place(other)) => place == *other,
        StepAt::Place(other) => place == other,
    }
}

fn same_step(first: StepAt<'_>, second: StepAt<'_>) -> bool
    ensures { Decides result (step_at first.entry ≡ step_at second.entry) }
{
    match first {
        StepAt::Step(Step::Member(name)) => is_member(name, second),
        StepAt::Step(Step::Rc) => is_code(second),
        StepAt::Step(Step::Place(place)) => is_place(*place, second),
        StepAt::Place(place) => is_place(place, second),
    }
}

fn same_steps(first: LeafSteps<'_>, second: LeafSteps<'_>) -> bool
    ensures { Decides result (first.entry ≡ second.entry) }
{
    let mut ours = first;
    let mut theirs = second;
    while let Some(step) = ours.next() {
        let Some(other) = theirs.next() else {
            return false;
        };
        if !same_step(step, other) {
            return false;
        }
    }
    theirs.next().is_none()
}

/// Whether the leaves at a place are the same, or none is there.
fn same_leaf(first: &Leaves, second: &Leaves, place: usize) -> bool
    ensures { Decides result (slice_get first.now.leaves place ≡ slice_get second.now.leaves place) }
{
    let kinds = same_kinds(first.kind(place), second.kind(place));
    kinds && same_steps(first.steps(place), second.steps(place))
}

fn same_leaves(first: &Leaves, second: &Leaves) -> bool
    ensures { Decides result (first.now.leaves ≡ second.now.leaves) }
{
    if first.len() != second.len() {
        return false;
    }
    for place in 0..first.len() {
        if !same_leaf(first, second, place) {
            return false;
        }
    }
    true
}

/// Whether the leaves of two containers are known, and the same in the same order.
pub fn are_alike(ours: Option<&Leaves>, theirs: Option<&Leaves>) -> bool
    ensures { Decides result (AreAlike (option_map (λ l. l.now.leaves) ours.entry)
        (option_map (λ l. l.now.leaves) theirs.entry)) }
{
    match ours {
        None => false,
        Some(ours) => match theirs {
            None => false,
            Some(theirs) => same_leaves(ours, theirs),
        },
    }
}
