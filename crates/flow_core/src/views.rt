//! What the state shows to those who read it: the fates of a root, and what they follow from.
ghost use Rattle.std.specs.Prelude.{◌≡◌, None, option_copied, IfOk, IfSome, IfNone};
ghost use Rattle.containers.specs.Settings.{filled};
ghost use Rattle.flow_model.specs.Containers.{fresh as fresh_of};
ghost use Rattle.flow_model.specs.declared.graphs.Graph.{out-Graph};
ghost use Rattle.std.specs.List.{list_any};
ghost use Rattle.flow_core.specs.Answers.{instance_of, is_at_work as at_work, AreBegun};
ghost use Rattle.flow_core.specs.Driving.{graph_now};
ghost use Rattle.flow_core.specs.Facts.{activity_now, fact_at, fact_of as fact_in, fact_about as fact_told, accepted};
ghost use Rattle.flow_core.specs.Facts.{settings_in, start_settings as settings_of_start, AreFactsOf};

use crate::paths::activity_along;
use crate::state::Core;
use containers::{fresh, with_settings};
use flow_model::{
    Activity, Container, Fact, Fate, FateRow, Graph, List, Numbered, Path, Setting, Transaction,
};
use live_history::{is_about, started_root};
use std::alloc::{AllocError, Global};

/// What the fates of a root follow from: its template, its input, and its accepted completions in order.
#[derive(Drop)]
pub struct RootFacts {
    pub root: u64,
    pub template: u32,
    pub input: Container,
    pub facts: List<Fact>,
}

/// Whether a row is of the root's own scope, and of an activity that waits no longer.
fn is_at_work(row: &FateRow) -> bool
    ensures { result ≡ at_work row.now }
{
    row.scope.parts.is_empty() && !matches!(row.fate, Fate::Waiting)
}

/// Whether a root has begun, by the rows of its view: an activity without connectors waits no longer then.
fn has_begun(rows: &[FateRow]) -> bool
    ensures { result ≡ list_any at_work rows.now }
{
    rows.iter().any(|row| is_at_work(row))
}

/// The settings of a START; none of another transaction.
fn started_with(t: &Transaction) -> &[Setting]
    ensures { result.now ≡ settings_in t.now }
{
    match t {
        Transaction::Start(_, _, _, _, _, settings) => settings.as_slice(),
        _ => &[],
    }
}

/// The settings of the START of a root among transactions; none where it isn't there.
fn start_among(root: u64, entries: &[Numbered]) -> &[Setting]
    ensures { result.now ≡ settings_of_start root entries.now }
{
    for entry in entries {
        if started_root(&entry.transaction) == Some(root) {
            return started_with(&entry.transaction);
        }
    }
    &[]
}

impl Core {
    /// The rows of the begun scopes of a root, in show order; None exactly where there is no live root of
    /// that number.
    pub fn begun_rows(&self, alloc: Global, root: u64) -> Result<Option<List<FateRow>>, AllocError>
        ensures { IfOk result (AreBegun self.now.store (instance_of self.now root)) }
    {
        let Some(instance) = self.instance(root) else {
            return Ok(None);
        };
        let rows = self.rows_in(alloc, instance)?;
        Ok(Some(if has_begun(rows.as_slice()) {
            rows
        } else {
            List::new(alloc)
        }))
    }

    /// The activity of an item of a live root, by the names on its path.
    fn activity_of(&self, item: &Path) -> Option<&Activity>
        ensures { option_copied result ≡ activity_now self.now item.now }
    {
        activity_along(
            self.library(),
            self.root_graph(item.root)?,
            item.parts.as_slice(),
        )
    }

    /// The accepted completion of an item with these settings, where its path leads to an activity.
    fn fact(
        &self,
        alloc: Global,
        item: &Path,
        settings: &[Setting],
    ) -> Result<Option<Fact>, AllocError>
        ensures { IfOk result (λ f. f ≡ fact_at self.now item.now settings.now) }
    {
        let Some(activity) = self.activity_of(item) else {
            return Ok(None);
        };
        let output = fresh(alloc, &activity.output)?;
        Ok(Some(Fact {
            item: item.copy(alloc)?,
            output: with_settings(alloc, output, settings)?,
        }))
    }

    /// The accepted completion that a transaction is.
    fn fact_of(&self, alloc: Global, t: &Transaction) -> Result<Option<Fact>, AllocError>
        ensures { IfOk result (λ f. f ≡ fact_in self.now t.now) }
    {
        match t {
            Transaction::Done(item, _, settings) => self.fact(alloc, item, settings.as_slice()),
            Transaction::Force(item, settings) => self.fact(alloc, item, settings.as_slice()),
            Transaction::Import(_) => Ok(None),
            Transaction::Start(_, _, _, _, _, _) => Ok(None),
            Transaction::Turn(_, _) => Ok(None),
            Transaction::Claim(_, _) => Ok(None),
            Transaction::Release(_, _) => Ok(None),
            Transaction::Transfer(_, _, _) => Ok(None),
            Transaction::Take(_, _) => Ok(None),
            Transaction::Restart(_) => Ok(None),
            Transaction::Suspend(_) => Ok(None),
            Transaction::Resume(_) => Ok(None),
            Transaction::Terminate(_) => Ok(None),
            Transaction::Delete(_) => Ok(None),
            Transaction::Clock(_) => Ok(None),
        }
    }

    /// The accepted completion that a live transaction is, if it is about this root.
    fn fact_about(
        &self,
        alloc: Global,
        root: u64,
        entry: &Numbered,
    ) -> Result<Option<Fact>, AllocError>
        ensures { IfOk result (λ f. f ≡ fact_told self.now root entry.now) }
    {
        if is_about(root, entry) {
            self.fact_of(alloc, &entry.transaction)
        } else {
            Ok(None)
        }
    }

    /// The accepted completions of a root, in order.
    fn facts(&self, alloc: Global, root: u64) -> Result<List<Fact>, AllocError>
        ensures { IfOk result (λ facts. facts ≡ accepted self.now root) }
    {
        let mut facts = List::new(alloc);
        let about = self.live.about(root)?;
        for entry in about.as_slice() {
            if let Some(fact) = self.fact_about(alloc, root, entry)? {
                facts.push(fact)?;
            }
        }
        Ok(facts)
    }

    /// The input with which a root was started.
    fn start_input(&self, alloc: Global, root: u64, graph: &Graph) -> Result<Container, AllocError>
        ensures { IfOk result (λ input. input
            ≡ filled (settings_of_start root self.now.live.items) (fresh_of (out-Graph graph.now).input)) }
    {
        let input = fresh(alloc, &graph.input)?;
        let about = self.live.about(root)?;
        let settings = start_among(root, &about);
        with_settings(alloc, input, settings)
    }

    /// What the fates of a root follow from; None exactly where there is no live root of that number.
    pub fn root_facts(&self, alloc: Global, root: u64) -> Result<Option<RootFacts>, AllocError>
        ensures facts { IfOk result (λ found. IfSome found (AreFactsOf self.now root)) }
        ensures none { IfOk result (λ found. IfNone found (graph_now self.now root ≡ None)) }
    {
        let Some(instance) = self.instance(root) else {
            return Ok(None);
        };
        let Some(graph) = self.root_graph(root) else {
            return Ok(None);
        };
        Ok(Some(RootFacts {
            root,
            template: instance.template,
            input: self.start_input(alloc, root, graph)?,
            facts: self.facts(alloc, root)?,
        }))
    }
}
