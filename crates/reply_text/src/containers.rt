//! Leaves and their values.
ghost use Rattle.std.specs.Prelude.{◌≡◌, ◌++◌, slice_get, OnOk, option_copied};
ghost use Rattle.flow_model.specs.LeafSteps.{step_at};
ghost use Rattle.flow_model.specs.declared.graphs.Leaf.{Leaf};
ghost use Rattle.flow_model.specs.declared.graphs.Step.TheVariants.{Place};
ghost use Rattle.reply_text.specs.Leaves.{first_text, later_text, steps_text, value_text, line_text, container_text};

use flow_model::{Container, LeafSteps, Leaves, Step, StepAt, Value};
use flow_text::{decimal, quoted_name, quoted_text, signed};
use std::alloc::AllocError;

/// Appends a place of an array.
fn write_place(out: &mut Vec<u8>, place: u32) -> Result<(), AllocError>
    ensures first { OnOk result (out.new.items ≡ out.old.items ++ first_text (Place place)) }
    ensures later { OnOk result (out.new.items ≡ out.old.items ++ later_text (Place place)) }
{
    out.push(b'[')?;
    decimal(out, u64::from(place))?;
    out.push(b']')?;
    Ok(())
}

/// Appends the first step of a leaf.
fn write_first(out: &mut Vec<u8>, found: StepAt<'_>) -> Result<(), AllocError>
    ensures { OnOk result (out.new.items ≡ out.old.items ++ first_text (step_at found.entry)) }
{
    match found {
        StepAt::Step(Step::Rc) => out.extend_from_slice(b"'_RC'"),
        StepAt::Step(Step::Member(name)) => quoted_name(out, name.as_slice()),
        StepAt::Step(Step::Place(place)) => write_place(out, *place),
        StepAt::Place(place) => write_place(out, place),
    }
}

/// Appends a step behind another one.
fn write_later(out: &mut Vec<u8>, found: StepAt<'_>) -> Result<(), AllocError>
    ensures { OnOk result (out.new.items ≡ out.old.items ++ later_text (step_at found.entry)) }
{
    match found {
        StepAt::Step(Step::Rc) => out.extend_from_slice(b"'_RC'"),
        StepAt::Step(Step::Member(name)) => {
            out.push(b'.')?;
            quoted_name(out, name.as_slice())
        }
        StepAt::Step(Step::Place(place)) => write_place(out, *place),
        StepAt::Place(place) => write_place(out, place),
    }
}

/// Appends a leaf: `'A'`, `'A'.'B'`, `'A'[0]`.
fn write_leaf(out: &mut Vec<u8>, steps: LeafSteps<'_>) -> Result<(), AllocError>
    ensures { OnOk result (out.new.items ≡ out.old.items ++ steps_text steps.entry) }
{
    let mut rest = steps;
    let Some(first) = rest.next() else {
        return Ok(());
    };
    write_first(out, first)?;
    while let Some(step) = rest.next() {
        write_later(out, step)?;
    }
    Ok(())
}

/// Appends a value: a signed number or a quoted text.
fn write_value(out: &mut Vec<u8>, value: &Value) -> Result<(), AllocError>
    ensures { OnOk result (out.new.items ≡ out.old.items ++ value_text value.now) }
{
    match value {
        Value::Whole(number) => signed(out, *number),
        Value::Text(text) => quoted_text(out, text.as_slice()),
    }
}

fn value_at(container: &Container, place: usize) -> Option<&Value>
    ensures { option_copied result ≡ slice_get container.now.values place }
{
    container.values.as_slice().get(place)
}

/// Appends the line of a leaf.
fn write_line(out: &mut Vec<u8>, steps: LeafSteps<'_>, value: &Value) -> Result<(), AllocError>
    ensures { (leaf : Leaf) → steps.entry ≡ leaf.name.steps
        → OnOk result (out.new.items ≡ out.old.items ++ line_text (leaf, value.now)) }
{
    write_leaf(out, steps)?;
    out.extend_from_slice(b" = ")?;
    write_value(out, value)?;
    out.push(b'\n')?;
    Ok(())
}

/// Appends a line `leaf = value` for each leaf of a container. Without memory `out` may have got a part of
/// the lines.
pub fn write_container(
    out: &mut Vec<u8>,
    leaves: &Leaves,
    container: &Container,
) -> Result<(), AllocError>
    ensures { OnOk result (out.new.items ≡ out.old.items ++ container_text leaves.now container.now) }
{
    for place in 0..leaves.len() {
        let Some(value) = value_at(container, place) else {
            return Ok(());
        };
        write_line(out, leaves.steps(place), value)?;
    }
    Ok(())
}
