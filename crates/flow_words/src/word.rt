//! The words of the program, and which one the command line says.
ghost use Rattle.std.specs.Prelude.{◌≡◌, ℕ, List, ◌∷◌, [], codes, map, string_bytes, IfSome, IfNone};
ghost use Rattle.std.specs.Prelude.{◌≤◌, length, drop};
ghost use Rattle.flow_words.specs.Numbers.{NamesLoad, NamesNoLoad, Names};
ghost use Rattle.flow_words.specs.Said.{Behind, BehindFiles, IsSaid, IsWhere};
ghost use Rattle.flow_words.specs.declared.word.Word.TheVariants.{Explain as ExplainWord};

use crate::numbers::{Settings, number_in, settings_of};

/// A load begins with a number below this, 2^31, and makes at most as many roots.
const MOST_SEED: u64 = 2_147_483_647;

const MOST_ROOTS: u64 = 20_000;

/// The greatest number that a stream is shipped from: the greatest limit of a store.
const MOST_NUMBER: u64 = 10_000_000;

/// A word of the program, with its numbers.
#[derive(Clone, Copy, Debug, PartialEq, Eq)]
pub enum Word {
    Check,
    Fate,
    Try(Settings),
    Load { seed: u64, roots: u64 },
    New(Settings),
    Run,
    Follow,
    /// With the activity as the last word.
    Explain,
    Verify,
    Overdue,
    Ship(u64),
}

/// The word with nothing behind it.
fn lone_word(word: Word, rest: &[String]) -> Option<Word>
    ensures { IsWhere (map string_bytes rest.now ≡ []) word result }
{
    match rest {
        [] => Some(word),
        _ => None,
    }
}

/// What stands behind the first two words.
fn after_files(rest: &[String]) -> &[String]
    requires { 2 ≤ length rest.now }
    ensures { result.now ≡ drop 2 rest.now }
{
    &rest[2..]
}

/// What stands behind two different files.
fn behind_files(rest: &[String]) -> Option<&[String]>
    ensures some { IfSome result (λ behind. BehindFiles (λ words. words ≡ map string_bytes behind.now)
        (map string_bytes rest.now)) }
    ensures none { IfNone result (BehindFiles (λ words. Unit {0}) (map string_bytes rest.now) → ⊥) }
{
    let [a, b, ..] = rest else {
        return None;
    };
    if a.as_str() == b.as_str() {
        return None;
    }
    Some(after_files(rest))
}

/// The word with its two files behind it.
fn store_word(word: Word, rest: &[String]) -> Option<Word>
    ensures { IsWhere (BehindFiles (λ words. words ≡ []) (map string_bytes rest.now)) word result }
{
    lone_word(word, behind_files(rest)?)
}

/// The word `try` with these words behind it.
fn try_word(rest: &[String]) -> Option<Word>
    ensures { IsSaid (codes "try" ∷ map string_bytes rest.now) result }
{
    let settings = settings_of(rest)?;
    Some(Word::Try(settings))
}

/// The seed and the number of roots of a load.
fn load_numbers(rest: &[String]) -> Option<(u64, u64)>
    ensures some { IfSome result (λ numbers. NamesLoad (map string_bytes rest.now) numbers.0 numbers.1) }
    ensures none { IfNone result (NamesNoLoad (map string_bytes rest.now)) }
{
    let [seed, roots] = rest else {
        return None;
    };
    let seed = number_in(seed.as_str(), 0, MOST_SEED)?;
    let roots = number_in(roots.as_str(), 1, MOST_ROOTS)?;
    Some((seed, roots))
}

/// The word `load` with these words behind it.
fn load_word(rest: &[String]) -> Option<Word>
    ensures { IsSaid (codes "load" ∷ map string_bytes rest.now) result }
{
    let (seed, roots) = load_numbers(rest)?;
    Some(Word::Load { seed, roots })
}

/// The word `new` with these words behind it.
fn new_word(rest: &[String]) -> Option<Word>
    ensures { IsSaid (codes "new" ∷ map string_bytes rest.now) result }
{
    let settings = settings_of(behind_files(rest)?)?;
    Some(Word::New(settings))
}

/// The word `explain` with these words behind it.
fn explain_word(rest: &[String]) -> Option<Word>
    ensures { IsWhere (Behind ExplainWord (map string_bytes rest.now)) ExplainWord result }
{
    match behind_files(rest)? {
        [_] => Some(Word::Explain),
        _ => None,
    }
}

/// The number behind the files of `ship`.
fn ship_number(behind: &[String]) -> Option<u64>
    ensures some { IfSome result (λ number. (spelled : List ℕ) × (map string_bytes behind.now ≡ spelled ∷ [])
        × Names spelled 0 10000000 number) }
    ensures none { IfNone result ((number : ℕ) (spelled : List ℕ) → map string_bytes behind.now ≡ spelled ∷ []
        → Names spelled 0 10000000 number → ⊥) }
{
    match behind {
        [number] => number_in(number.as_str(), 0, MOST_NUMBER),
        _ => None,
    }
}

/// The word `ship` with these words behind it.
fn ship_word(rest: &[String]) -> Option<Word>
    ensures { IsSaid (codes "ship" ∷ map string_bytes rest.now) result }
{
    let number = ship_number(behind_files(rest)?)?;
    Some(Word::Ship(number))
}

/// The word of this name with these words behind it.
fn word_with(name: &str, rest: &[String]) -> Option<Word>
    ensures { IsSaid (name.now ∷ map string_bytes rest.now) result }
{
    match name {
        "check" => lone_word(Word::Check, rest),
        "fate" => lone_word(Word::Fate, rest),
        "try" => try_word(rest),
        "load" => load_word(rest),
        "new" => new_word(rest),
        "run" => store_word(Word::Run, rest),
        "follow" => store_word(Word::Follow, rest),
        "explain" => explain_word(rest),
        "verify" => store_word(Word::Verify, rest),
        "overdue" => store_word(Word::Overdue, rest),
        "ship" => ship_word(rest),
        _ => None,
    }
}

/// The word that these words say.
pub fn word_of(words: &[String]) -> Option<Word>
    ensures { IsSaid (map string_bytes words.now) result }
{
    match words {
        [] => None,
        [name, rest @ ..] => word_with(name.as_str(), rest),
    }
}
