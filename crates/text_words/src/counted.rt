//! Completions, and which attempt of each activity of the root scope comes behind them.
ghost use Rattle.std.specs.Prelude.{◌≡◌, ◌∷◌, [], ◌++◌, OnOk, OnErr};
ghost use Rattle.text_words.specs.Attempts.{next_attempt};
ghost use Rattle.text_words.specs.Nexts.{next_in, AreNext, CountsOne, CountsFact, AreSameNexts};

use flow_model::Fact;
use indexmap::IndexMap;
use std::alloc::{AllocError, Global};

/// By the name of an activity of the root scope, the attempt behind those that were completed.
type Nexts = IndexMap<Vec<u8>, u64>;

/// Completions in order.
#[derive(Drop)]
pub struct Counted {
    pub facts: Vec<Fact>,
    nexts: Nexts,
    ghost counted: { AreNext nexts facts.items },
}

/// The attempt of this activity behind those that were completed.
fn next_at(nexts: &Nexts, name: &[u8]) -> u64
    ensures { result ≡ next_in nexts.now name.now }
{
    match nexts.get(name) {
        Some(next) => *next,
        None => 1,
    }
}

/// CountsOne one more completed attempt of an activity.
fn count(alloc: Global, nexts: &mut Nexts, name: &[u8]) -> Result<(), AllocError>
    ensures ok { OnOk result (CountsOne name.now nexts.old nexts.new) }
    ensures err { OnErr result (AreSameNexts nexts.old nexts.new) }
{
    let next = next_at(nexts, name).saturating_add(1);
    let key = Vec::from_slice(alloc, name)?;
    nexts.insert(key, next)?;
    Ok(())
}

/// CountsOne a completion, where it is of an activity of the root scope itself.
fn count_fact(alloc: Global, nexts: &mut Nexts, fact: &Fact) -> Result<(), AllocError>
    ensures ok { OnOk result (CountsFact fact.now nexts.old nexts.new) }
    ensures err { OnErr result (AreSameNexts nexts.old nexts.new) }
{
    match fact.item.parts.as_slice() {
        [part] => count(alloc, nexts, part.name.as_slice()),
        _ => Ok(()),
    }
}

impl Counted {
    pub fn new(alloc: Global) -> Counted
        ensures { result.facts.items ≡ [] }
    {
        Counted {
            facts: Vec::new(alloc),
            nexts: IndexMap::new(alloc),
        }
    }

    /// Adds a completion. Room for it is made first, so that the list and the counts can't part.
    pub fn push(&mut self, alloc: Global, fact: Fact) -> Result<(), AllocError>
        ensures { OnOk result (self.new.facts.items ≡ self.old.facts.items ++ fact ∷ []) }
    {
        self.facts.reserve(1)?;
        count_fact(alloc, &mut self.nexts, &fact)?;
        let Ok(()) = self.facts.push(fact) else {
            unreachable!()
        };
        Ok(())
    }

    /// The attempt of this activity of the root scope behind those that were completed.
    pub fn next(&self, name: &[u8]) -> u64
        ensures { result ≡ next_attempt name.now self.now.facts.items }
    {
        next_at(&self.nexts, name)
    }
}
