//! The texts of activities, and the activities that words name.
ghost use Rattle.std.specs.Prelude.{◌≡◌, ℕ, true, false, None, List as Bytes, ◌∷◌, ◌++◌, IfOk, IfSome};
ghost use Rattle.std.specs.Option.{option_map};
ghost use Rattle.certificates.specs.Naming.{activity_spelling, IsCutAt, NamesActivity, NamesNoOther, NamesNoActivity};
ghost use Rattle.flow_model.specs.Paths.{Spells, SpellsNoOther, SpellsNoPath};
ghost use Rattle.flow_model.specs.Words.{is_name};

use flow_model::{Name, NameFault, Path, PathFault, path_of, path_text};
use std::alloc::{AllocError, Global};

/// A scope's text, `/`, and an activity's name.
pub fn activity_text(alloc: Global, scope: &Path, name: &Name) -> Result<Vec<u8>, AllocError>
    ensures { IfOk result (λ text. text.items ≡ activity_spelling scope.now name.now) }
{
    let mut text = path_text(alloc, scope)?;
    text.push(b'/')?;
    text.extend_from_slice(name.as_slice())?;
    Ok(text)
}

/// The bytes before the last one like this, and those behind it; None where there is none like it.
pub(crate) fn cut_at_last(bytes: &[u8], mark: u8) -> Option<(&[u8], &[u8])>
    ensures whole { IfSome result (λ cut. cut.0.now ++ mark ∷ cut.1.now ≡ bytes.now) }
    ensures found { IsCutAt mark bytes.now (option_map {U = Bytes ℕ × Bytes ℕ} (λ cut. (cut.0.now, cut.1.now)) result) }
{
    match bytes.iter().rposition(|byte| *byte == mark) {
        Some(place) => Some((&bytes[..place], &bytes[place + 1..])),
        None => None,
    }
}

/// The path that these bytes spell.
pub(crate) fn scope_in(alloc: Global, bytes: &[u8]) -> Result<Option<Path>, AllocError>
    ensures spelled { IfOk result (λ found. IfSome found (Spells bytes.now)) }
    ensures one { IfOk result (λ found. IfSome found (SpellsNoOther bytes.now)) }
    ensures none { IfOk result (λ found. found ≡ None → SpellsNoPath bytes.now) }
{
    match path_of(alloc, bytes) {
        Ok(path) => Ok(Some(path)),
        Err(PathFault::BadPath) => Ok(None),
        Err(PathFault::NoMemory) => Err(AllocError),
    }
}

/// The name that these bytes make.
fn name_in(alloc: Global, bytes: &[u8]) -> Result<Option<Name>, AllocError>
    ensures named { IfOk result (λ found. IfSome found (λ n. (n ≡ bytes.now) × (is_name bytes.now ≡ true))) }
    ensures none { IfOk result (λ found. found ≡ None → is_name bytes.now ≡ false) }
{
    match Name::new(alloc, bytes) {
        Ok(name) => Ok(Some(name)),
        Err(NameFault::Bad) => Ok(None),
        Err(NameFault::NoMemory) => Err(AllocError),
    }
}

/// The scope and the name that a word names: a path, `/` and an activity's name; None exactly where it isn't
/// of that form.
pub fn named_activity(alloc: Global, word: &[u8]) -> Result<Option<(Path, Name)>, AllocError>
    ensures named { IfOk result (λ found. IfSome found (λ named. NamesActivity word.now named.0 named.1)) }
    ensures one { IfOk result (λ found. IfSome found (λ named. NamesNoOther word.now named.0 named.1)) }
    ensures none { IfOk result (λ found. found ≡ None → NamesNoActivity word.now) }
{
    let Some((before, behind)) = cut_at_last(word, b'/') else {
        return Ok(None);
    };
    let Some(scope) = scope_in(alloc, before)? else {
        return Ok(None);
    };
    match name_in(alloc, behind)? {
        Some(name) => Ok(Some((scope, name))),
        None => Ok(None),
    }
}
