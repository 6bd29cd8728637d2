//! New containers, and what is put into them.
ghost use Rattle.std.specs.Prelude.{◌≡◌, ◌<◌, length, map, slice_get, slice_set, IfOk};
ghost use Rattle.flow_model.specs.Containers.{first_value as first, fresh as fresh_container, mapped, put as put_leaf};
ghost use Rattle.flow_model.specs.Containers.{with_return_code as with_code};
ghost use Rattle.flow_model.specs.declared.graphs.Value.TheVariants.{Whole};

use flow_model::{Container, Kind, LeafMap, Leaves, List, Txt, Value};
use std::alloc::{AllocError, Global};

/// The value of a leaf in a fresh container.
fn first_value(alloc: Global, kind: Kind) -> Value
    ensures { result ≡ first kind }
{
    match kind {
        Kind::Long => Value::Whole(0),
        Kind::Str => Value::Text(Txt::empty(alloc)),
    }
}

/// A container in which nothing is set.
pub fn fresh(alloc: Global, leaves: &Leaves) -> Result<Container, AllocError>
    ensures { IfOk result (λ c. c ≡ fresh_container leaves.now) }
{
    let mut values = List::with_capacity(alloc, leaves.len())?;
    while let Some(kind) = leaves.kind(values.len()) {
        values.push(first_value(alloc, kind))?;
    }
    Ok(Container { values })
}

/// The container with the return code 0 before its values.
pub fn with_return_code(alloc: Global, container: &Container) -> Result<Container, AllocError>
    ensures { IfOk result (λ c. c ≡ with_code container.now) }
{
    let mut values = List::with_capacity(alloc, container.values.len().saturating_add(1))?;
    values.push(Value::Whole(0))?;
    for value in container.values.as_slice() {
        values.push(value.copy(alloc)?)?;
    }
    Ok(Container { values })
}

/// Sets the value of the leaf at a place.
pub fn set_value(target: &mut Container, place: usize, value: Value)
    requires { place < length target.old.values }
    ensures { target.new ≡ record { values = slice_set target.old.values place value } }
{
    target.values.set(place, value);
}

/// Sets the value of the leaf at a place, if it is there.
pub(crate) fn set_if_there(mut target: Container, place: u32, value: Value) -> Container
    ensures { result ≡ record { values = slice_set target.values place value } }
{
    if (place as usize) < target.values.len() {
        target.values.set(place as usize, value);
    }
    target
}

/// One leaf copied, where both are there.
fn put(
    alloc: Global,
    map: LeafMap,
    source: &Container,
    target: Container,
) -> Result<Container, AllocError>
    ensures { IfOk result (λ c. c ≡ put_leaf (slice_get source.now.values map.from) map.to target) }
{
    match source.values.as_slice().get(map.from as usize) {
        None => Ok(target),
        Some(value) => Ok(set_if_there(target, map.to, value.copy(alloc)?)),
    }
}

/// The maps applied in their order, so that the later wins; without memory the target is given up.
pub fn apply_maps(
    alloc: Global,
    maps: &[LeafMap],
    source: &Container,
    target: Container,
) -> Result<Container, AllocError>
    ensures { IfOk result (λ c. c ≡ mapped maps.now source.now target) }
{
    let mut changed = target;
    for map in maps {
        changed = put(alloc, *map, source, changed)?;
    }
    Ok(changed)
}
