//! Start conditions.
ghost use Rattle.std.specs.Prelude.{◌≡◌, ◌++◌, ◌∷◌, Bool, Option, List, is_none, None, Some, count_by, replicate};
ghost use Rattle.std.specs.List.{list_all, list_any};
ghost use Rattle.flow_model.specs.Fates.{joined, asks, is_yes};
ghost use Rattle.dead_paths.specs.Tallies.{Counts};

use flow_model::Join;

fn has_unknown(values: &[Option<bool>]) -> bool
    ensures { result ≡ list_any is_none values.now }
{
    values.iter().any(|value| value.is_none())
}

fn all_true(values: &[Option<bool>]) -> bool
    ensures { result ≡ list_all is_yes values.now }
{
    values.iter().all(|value| value.unwrap_or(false))
}

fn some_true(values: &[Option<bool>]) -> bool
    ensures { result ≡ list_any is_yes values.now }
{
    values.iter().any(|value| value.unwrap_or(false))
}

fn count_true(values: &[Option<bool>]) -> usize
    ensures { result ≡ count_by is_yes values.now }
{
    values.iter().filter(|value| value.unwrap_or(false)).count()
}

/// What a join asks of known values.
fn asked(rule: Join, values: &[Option<bool>]) -> bool
    ensures { result ≡ asks rule values.now }
{
    match rule {
        Join::All => all_true(values),
        Join::AtLeastOne => values.is_empty() || some_true(values),
        Join::AtLeast(number) => values.is_empty() || number as usize <= count_true(values),
    }
}

/// The join of these connector values; None is unknown.
pub fn join(rule: Join, values: &[Option<bool>]) -> Option<bool>
    ensures { result ≡ joined rule values.now }
{
    if has_unknown(values) {
        None
    } else {
        Some(asked(rule, values))
    }
}

/// What is kept of the connectors that lead to an activity, in the place of their values.
#[derive(Clone, Copy, Debug, PartialEq, Eq)]
pub struct Tally {
    /// The connectors that lead to the activity.
    pub total: u32,
    /// Those whose value isn't known yet.
    pub missing: u32,
    /// Those whose value is true.
    pub trues: u32,
}

impl Tally {
    /// No value is known yet.
    pub fn new(total: u32) -> Tally
        ensures { Counts result (replicate total None) }
    {
        Tally {
            total,
            missing: total,
            trues: 0,
        }
    }

    /// What a join asks, where each value is known.
    fn asked(&self, rule: Join) -> bool
        ensures { (vs : List (Option Bool)) → Counts self.now vs → result ≡ asks rule vs }
    {
        match rule {
            Join::All => self.trues == self.total,
            Join::AtLeastOne => self.total == 0 || self.trues > 0,
            Join::AtLeast(number) => self.total == 0 || self.trues >= number,
        }
    }

    /// The join, as far as the values tell.
    pub fn join(&self, rule: Join) -> Option<bool>
        ensures { (vs : List (Option Bool)) → Counts self.now vs → result ≡ joined rule vs }
    {
        if self.missing > 0 {
            None
        } else {
            Some(self.asked(rule))
        }
    }

    /// The tally with one more value known.
    fn with(self, value: bool) -> Tally
        ensures { (xs ys : List (Option Bool)) → Counts self (xs ++ None ∷ ys) → Counts result (xs ++ Some value ∷ ys) }
    {
        Tally {
            total: self.total,
            missing: self.missing.saturating_sub(1),
            trues: self.trues.saturating_add(u32::from(value)),
        }
    }

    /// One more value is known.
    pub fn take(&mut self, value: bool)
        ensures { (xs ys : List (Option Bool)) → Counts self.old (xs ++ None ∷ ys)
            → Counts self.new (xs ++ Some value ∷ ys) }
    {
        *self = self.with(value);
    }
}
