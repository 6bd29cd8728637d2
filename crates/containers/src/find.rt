//! Leaves by their names.
ghost use Rattle.std.specs.Prelude.{◌≡◌, ◌<◌, ◌^◌, length, Option, IfSome};
ghost use Rattle.containers.specs.Named.{names_step, names_leaf, leaf_place};
ghost use Rattle.flow_model.specs.LeafSteps.{step_at};
ghost use Rattle.flow_model.specs.declared.graphs.Step.TheVariants.{Place};

use flow_model::{LeafAt, LeafSteps, Leaves, Step, StepAt, StepTree};

/// Whether a written step names a place of an array.
fn is_place(place: u32, written: &StepTree) -> bool
    ensures { result ≡ names_step written.now (Place place) }
{
    match written {
        StepTree::Member(_) => false,
        StepTree::Rc => false,
        StepTree::Place(other) => u64::from(place) == *other,
    }
}

/// Whether a written step names a step.
fn is_step(step: &Step, written: &StepTree) -> bool
    ensures { result ≡ names_step written.now step.now }
{
    match step {
        Step::Member(name) => match written {
            StepTree::Member(other) => name.as_slice() == other.as_slice(),
            StepTree::Rc => false,
            StepTree::Place(_) => false,
        },
        Step::Rc => match written {
            StepTree::Member(_) => false,
            StepTree::Rc => true,
            StepTree::Place(_) => false,
        },
        Step::Place(place) => is_place(*place, written),
    }
}

/// Whether a written step names a step that is found.
fn is_found(found: StepAt<'_>, written: &StepTree) -> bool
    ensures { result ≡ names_step written.now (step_at found.entry) }
{
    match found {
        StepAt::Step(step) => is_step(step, written),
        StepAt::Place(place) => is_place(place, written),
    }
}

/// Whether written steps name those of a leaf.
fn are_steps(steps: LeafSteps<'_>, written: &[StepTree]) -> bool
    ensures { result ≡ names_leaf written.now steps.entry }
{
    let mut rest = steps;
    for step in written {
        let Some(found) = rest.next() else {
            return false;
        };
        if !is_found(found, step) {
            return false;
        }
    }
    rest.next().is_none()
}

/// The place among all leaves.
fn leaf_index(leaves: &Leaves, steps: &[StepTree]) -> Option<usize>
    ensures place { result ≡ leaf_place leaves.now.leaves steps.now }
    ensures within { IfSome result (λ i. i < length leaves.now.leaves) }
{
    for i in 0..leaves.len() {
        if are_steps(leaves.steps(i), steps) {
            return Some(i);
        }
    }
    None
}

/// The place of the leaf that is written so; None exactly where there is none. No container has 2^32 leaves.
pub fn find_leaf(leaves: &Leaves, leaf: &LeafAt) -> Option<u32>
    ensures { length leaves.now.leaves < 2 ^ 32 → result ≡ leaf_place leaves.now.leaves leaf.now.steps }
{
    match leaf_index(leaves, leaf.steps.as_slice()) {
        None => None,
        Some(place) if place <= u32::MAX as usize => Some(place as u32),
        Some(_) => None,
    }
}
