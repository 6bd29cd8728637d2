//! The path of root 1 that an item token writes.
ghost use Rattle.std.specs.Prelude.{◌≡◌, ◌≤◌, ℕ, List as ListOf, [], ◌∷◌, ◌++◌, length, IfOk, IfSome, Some};
ghost use Rattle.std.specs.Option.{option_copied};
ghost use Rattle.flow_model.specs.declared.instances.Path.{Path as Way};
ghost use Rattle.text_words.specs.Items.{IsPathText, SpellsStep, WritesItem, WritesPath};

use flow_model::{Part, Path, PathFault, path_of};
use std::alloc::{AllocError, Global};

/// From this many bytes before the last step on, it takes less time to keep them than to read them again.
const LONG: usize = 32;

/// What stands behind the first byte, if that is a quote.
fn behind_quote(bytes: &[u8]) -> Option<&[u8]>
    ensures sure { IfSome result (λ rest. bytes.now ≡ 39 ∷ rest.now) }
    ensures found { (rest : ListOf ℕ) → bytes.now ≡ 39 ∷ rest → option_copied result ≡ Some rest }
{
    match bytes.split_first() {
        Some((first, rest)) => { if *first == b'\'' { Some(rest) } else { None } }
        None => None,
    }
}

/// What stands before the last byte, if that is a quote.
fn before_quote(bytes: &[u8]) -> Option<&[u8]>
    ensures sure { IfSome result (λ front. bytes.now ≡ front.now ++ 39 ∷ []) }
    ensures found { (front : ListOf ℕ) → bytes.now ≡ front ++ 39 ∷ [] → option_copied result ≡ Some front }
{
    match bytes.split_last() {
        Some((last, front)) => { if *last == b'\'' { Some(front) } else { None } }
        None => None,
    }
}

/// What stands between the quotes of a token.
fn inside(token: &[u8]) -> Option<&[u8]>
    ensures sure { IfSome result (λ inner. token.now ≡ 39 ∷ inner.now ++ 39 ∷ []) }
    ensures found { (inner : ListOf ℕ) → token.now ≡ 39 ∷ inner ++ 39 ∷ [] → option_copied result ≡ Some inner }
{
    before_quote(behind_quote(token)?)
}

/// The path of root 1 that a text spells.
fn path_of_one(alloc: Global, text: &[u8]) -> Result<Option<Path>, AllocError>
    ensures { IfOk result (WritesPath text.now) }
{
    match path_of(alloc, text) {
        Ok(path) => {
            if path.root == 1 {
                Ok(Some(path))
            } else {
                Ok(None)
            }
        }
        Err(PathFault::BadPath) => Ok(None),
        Err(PathFault::NoMemory) => Err(AllocError),
    }
}

/// The step that a text spells.
fn step_of(alloc: Global, text: &[u8]) -> Result<Option<Part>, AllocError>
    ensures { IfOk result (λ step. IfSome step (SpellsStep text.now)) }
{
    let mut whole = Vec::with_capacity(alloc, text.len().saturating_add(1))?;
    whole.push(b'1')?;
    whole.extend_from_slice(text)?;
    match path_of_one(alloc, &whole)? {
        None => Ok(None),
        Some(path) => match path.parts.as_slice() {
            [step] => Ok(Some(step.copy(alloc)?)),
            _ => Ok(None),
        },
    }
}

/// The path below a scope that one more step leads to, if the text spells a step.
fn path_below(alloc: Global, scope: &Path, text: &[u8]) -> Result<Option<Path>, AllocError>
    ensures { IfOk result (λ found. (front : ListOf ℕ) → IsPathText front scope.now
        → IfSome found (IsPathText (front ++ text.now))) }
{
    match step_of(alloc, text)? {
        Some(step) => Ok(Some(scope.below(alloc, &step.name, step.attempt)?)),
        None => Ok(None),
    }
}

/// The path of root 1 that a text spells, if it is the text before as well.
fn path_again(alloc: Global, before: &[u8], text: &[u8]) -> Result<Option<Path>, AllocError>
    ensures { IfOk result (λ found. IfSome found (IsPathText text.now)) }
{
    if before == text {
        path_of_one(alloc, text)
    } else {
        Ok(None)
    }
}

/// How many bytes stand before the last step.
fn front_len(text: &[u8]) -> usize
    ensures { result ≤ length text.now }
{
    let behind = text.iter().rev().take_while(|byte| **byte != b'/').count();
    text.len().saturating_sub(behind).saturating_sub(1)
}

/// What stood before the last step of the item that was read last. Its path is read once it stands there again:
/// many completions in a row are of one scope, and only their last step is read anew.
#[derive(Drop)]
pub struct Recent {
    text: Vec<u8>,
    scope: Option<Path>,
    ghost spelled: { (p : Way) → scope ≡ Some p → IsPathText text.items p },
}

impl Recent {
    pub fn new(alloc: Global) -> Recent {
        Recent {
            text: Vec::new(alloc),
            scope: None,
        }
    }

    /// Keeps another text, or the path of the one that is kept.
    fn keep(&mut self, alloc: Global, text: &[u8]) -> Result<(), AllocError> {
        *self = Recent {
            scope: path_again(alloc, &self.text, text)?,
            text: Vec::from_slice(alloc, text)?,
        };
        Ok(())
    }

    /// The path that a text spells, if what stands before its last step is kept and no more than a step is new.
    fn path_of(&self, alloc: Global, front: &[u8], step: &[u8]) -> Result<Option<Path>, AllocError>
        ensures { IfOk result (λ found. IfSome found (IsPathText (front.now ++ step.now))) }
    {
        match &self.scope {
            Some(scope) => {
                if self.text.as_slice() == front {
                    path_below(alloc, scope, step)
                } else {
                    Ok(None)
                }
            }
            None => Ok(None),
        }
    }
}

/// The path of root 1 that a text spells; None exactly where it spells none.
fn written_path(alloc: Global, recent: &mut Recent, text: &[u8]) -> Result<Option<Path>, AllocError>
    ensures { IfOk result (WritesPath text.now) }
{
    let (front, step) = text.split_at(front_len(text));
    if front.len() < LONG {
        return path_of_one(alloc, text);
    }
    if let Some(path) = recent.path_of(alloc, front, step)? {
        return Ok(Some(path));
    }
    recent.keep(alloc, front)?;
    path_of_one(alloc, text)
}

/// The path of root 1 that a token writes in quotes; None exactly where it writes none.
pub fn written_item(
    alloc: Global,
    recent: &mut Recent,
    token: &[u8],
) -> Result<Option<Path>, AllocError>
    ensures { IfOk result (WritesItem token.now) }
{
    match inside(token) {
        Some(text) => written_path(alloc, recent, text),
        None => Ok(None),
    }
}
