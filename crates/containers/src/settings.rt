//! Settings: what is written for the leaves of a new container.
ghost use Rattle.std.specs.Prelude.{◌≡◌, IfOk, option_copied};
ghost use Rattle.containers.specs.Named.{leaf_place};
ghost use Rattle.containers.specs.Settings.{filled, written_number, number_place as first_token};
ghost use Rattle.containers.specs.Settings.{value_place as value_token, value_for, setting_by, outcome_by};

use crate::fill::set_if_there;
use crate::find::find_leaf;
use flow_model::{
    Container, Kind, LeafAt, Leaves, List, NumberAt, RawSetting, RawValue, Setting, Value,
};
use std::alloc::{AllocError, Global};

/// Places of 16 bits tell so many leaves apart. No structure has as many.
const MOST_LEAVES: usize = 65_536;

/// The value of a written number; None exactly where it has no 64 bits.
pub fn number_value(number: &NumberAt) -> Option<i64>
    ensures { result ≡ written_number number.now }
{
    let size = i128::from(number.size);
    let value = if number.minus.is_some() { -size } else { size };
    i64::try_from(value).ok()
}

/// The place of a number's first token.
fn number_place(number: &NumberAt) -> u32
    ensures { result ≡ first_token number.now }
{
    number.minus.unwrap_or(number.place)
}

/// The place of a value's first token.
fn value_place(value: &RawValue) -> u32
    ensures { result ≡ value_token value.now }
{
    match value {
        RawValue::Number(number) => number_place(number),
        RawValue::Text(_, place) => *place,
    }
}

/// The value for a leaf of this kind; None where it is of another kind or out of range.
fn value_of(alloc: Global, kind: Kind, value: &RawValue) -> Result<Option<Value>, AllocError>
    ensures { IfOk result (λ v. v ≡ value_for value.now kind) }
{
    match value {
        RawValue::Number(number) => match kind {
            Kind::Long => Ok(number_value(number).map(|number| Value::Whole(number))),
            Kind::Str => Ok(None),
        },
        RawValue::Text(text, _) => match kind {
            Kind::Long => Ok(None),
            Kind::Str => Ok(Some(Value::Text(text.copy(alloc)?))),
        },
    }
}

/// The place of the leaf that is written so, if it is there; an error where it needs more than 16 bits,
/// since no container has room for so many leaves.
fn place_of(leaves: &Leaves, leaf: &LeafAt) -> Result<Option<u16>, AllocError>
    ensures { IfOk result (λ place. place ≡ leaf_place leaves.now.leaves leaf.now.steps) }
{
    if leaves.len() > MOST_LEAVES {
        return Err(AllocError);
    }
    let Some(place) = find_leaf(leaves, leaf) else {
        return Ok(None);
    };
    match u16::try_from(place) {
        Ok(place) => Ok(Some(place)),
        Err(_) => Err(AllocError),
    }
}

/// One setting; else the place of its leaf or of its value.
fn setting_of(
    alloc: Global,
    leaves: &Leaves,
    setting: &RawSetting,
) -> Result<Result<Setting, u32>, AllocError>
    ensures { IfOk result (λ made. made ≡ setting_by leaves.now setting.now) }
{
    let Some(place) = place_of(leaves, &setting.leaf)? else {
        return Ok(Err(setting.leaf.place));
    };
    let Some(kind) = leaves.kind(usize::from(place)) else {
        return Ok(Err(setting.leaf.place));
    };
    match value_of(alloc, kind, &setting.value)? {
        None => Ok(Err(value_place(&setting.value))),
        Some(value) => Ok(Ok(Setting { leaf: place, value })),
    }
}

/// The settings for a container of these leaves, the return code first as leaf 0.
///
/// Else the place of the first of them whose leaf isn't there, whose value is of another kind, or whose
/// number is out of range.
pub fn settings_of(
    alloc: Global,
    leaves: &Leaves,
    rc: Option<&NumberAt>,
    written: &[RawSetting],
) -> Result<Result<List<Setting>, u32>, AllocError>
    ensures { IfOk result (λ made. made ≡ outcome_by leaves.now (option_copied rc.entry) written.now) }
{
    let mut settings = List::with_capacity(alloc, written.len())?;
    if let Some(number) = rc {
        let Some(value) = number_value(number) else {
            return Ok(Err(number_place(number)));
        };
        settings.push(Setting {
            leaf: 0,
            value: Value::Whole(value),
        })?;
    }
    for setting in written {
        match setting_of(alloc, leaves, setting)? {
            Err(place) => return Ok(Err(place)),
            Ok(setting) => settings.push(setting)?,
        }
    }
    Ok(Ok(settings))
}

/// The container with the settings applied in their order.
pub fn with_settings(
    alloc: Global,
    target: Container,
    settings: &[Setting],
) -> Result<Container, AllocError>
    ensures { IfOk result (λ c. c ≡ filled settings.now target) }
{
    let mut changed = target;
    for setting in settings {
        changed = set_if_there(changed, u32::from(setting.leaf), setting.value.copy(alloc)?);
    }
    Ok(changed)
}
