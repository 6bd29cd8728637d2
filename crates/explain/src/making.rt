//! Certificates from what the engine shows.
ghost use Rattle.std.specs.Prelude.{◌≡◌, ℕ, ◌-◌, List, length, option_copied, slice_get, Some, IfOk, IfErr};
ghost use Rattle.std.specs.Prelude.{MatchOption};
ghost use Rattle.flow_core.specs.Driving.{templates};
ghost use Rattle.flow_core.specs.Facts.{AreFactsOf};
ghost use Rattle.flow_model.specs.ScopeContainers.{graph_of};
ghost use Rattle.explain.specs.Certificates.{Settles, IsUnsettled};
ghost use Rattle.explain.specs.Explained.{EndsAs, IsCertificate, IsWithout, HasNone};
ghost use Rattle.certificates.specs.Naming.{activity_spelling};
ghost use Rattle.explain.specs.Shown.{fate_at, fate_in, AreShown};
ghost use Rattle.explain.specs.declared.making.ExplainFault.TheVariants.{NoMemory};

use crate::checking::checked;
use crate::graphs::{all_sources, control_sources, graph_at, split_path};
use certificates::{CertLine, activity_at, activity_text, line_bytes, path_below};
use flow_core::{Core, RootFacts};
use flow_model::{Fate, FateRow, Graph, Library, List, Name, Path, Work};
use indexmap::IndexMap;
use std::alloc::{AllocError, Global};
use thiserror::Error;

/// Why there is no certificate.
#[derive(Clone, Copy, Debug, PartialEq, Eq, Drop, Error)]
pub enum ExplainFault {
    /// There is no live root of this number.
    #[error("Root")]
    Root(u64),
    /// The scope isn't begun, or has no such activity.
    #[error("Activity")]
    Activity,
    /// The activity is neither dead nor finished.
    #[error("Unsettled")]
    Unsettled(Fate),
    /// There was no memory for it.
    #[error("NoMemory")]
    NoMemory,
}

impl From<AllocError> for ExplainFault {
    ghost from_gives = { λ _ e. e ≡ NoMemory };

    fn from(_fault: AllocError) -> ExplainFault {
        ExplainFault::NoMemory
    }
}

/// The fates that the engine shows of a root, by the texts of their activities.
#[derive(Drop)]
struct Shown<'a> {
    alloc: Global,
    library: &'a Library,
    graph: &'a Graph,
    fates: IndexMap<Vec<u8>, Fate>,
}

/// The rows of a view by the texts of their activities.
fn by_text(alloc: Global, rows: &[FateRow]) -> Result<IndexMap<Vec<u8>, Fate>, AllocError>
    ensures { IfOk result (λ fates. (text : List ℕ) → fate_at fates text ≡ fate_in rows.now text) }
{
    let mut fates = IndexMap::new(alloc);
    for row in rows {
        fates.insert(activity_text(alloc, &row.scope, &row.name)?, row.fate)?;
    }
    Ok(fates)
}

/// The settled line of an activity of this fate; None where it is neither dead nor finished.
fn settled_line(
    alloc: Global,
    scope: &Path,
    name: &Name,
    fate: Fate,
) -> Result<Option<CertLine>, AllocError>
    ensures { IfOk result (λ found. MatchOption found (IsUnsettled fate) (Settles scope.now name.now fate)) }
{
    match fate {
        Fate::Waiting => Ok(None),
        Fate::Ready(_) => Ok(None),
        Fate::Running(_) => Ok(None),
        Fate::Finished(attempt) => Ok(Some(CertLine::Finished(
            scope.copy(alloc)?,
            name.copy(alloc)?,
            attempt,
        ))),
        Fate::Dead => Ok(Some(CertLine::Dead(scope.copy(alloc)?, name.copy(alloc)?))),
    }
}

impl<'a> Shown<'a> {
    /// The settled line of an activity, if it is settled.
    fn settled(&self, scope: &Path, name: &Name) -> Result<Option<CertLine>, AllocError> {
        let text = activity_text(self.alloc, scope, name)?;
        match self.fates.get(text.as_slice()) {
            None => Ok(None),
            Some(fate) => settled_line(self.alloc, scope, name, *fate),
        }
    }

    /// Adds the settled lines of the activities at these places.
    fn add_settled(
        &self,
        scope: &Path,
        graph: &Graph,
        places: &[u32],
        needs: &mut Vec<CertLine>,
    ) -> Result<(), AllocError> {
        for place in places {
            if let Some(activity) = graph.activities.as_slice().get(*place as usize) {
                if let Some(line) = self.settled(scope, &activity.name)? {
                    needs.push(line)?;
                }
            }
        }
        Ok(())
    }

    fn graph_of(&self, scope: &Path) -> Option<&'a Graph> {
        graph_at(self.library, self.graph, scope.parts.as_slice())
    }

    /// The needs of the line that a scope begins.
    fn scope_needs(&self, scope: &Path) -> Result<Vec<CertLine>, AllocError> {
        let mut needs = Vec::new(self.alloc);
        let Some((outer, part)) = split_path(self.alloc, scope)? else {
            return Ok(needs);
        };
        if part.attempt > 1 {
            let before = part.attempt - 1;
            let last = path_below(self.alloc, &outer, &part.name, before)?;
            needs.push(CertLine::Scope(last.copy(self.alloc)?))?;
            needs.push(CertLine::Ended(last))?;
            return Ok(needs);
        }
        needs.push(CertLine::Scope(outer.copy(self.alloc)?))?;
        if let Some(graph) = self.graph_of(&outer) {
            if let Some(found) = activity_at(graph, &part.name) {
                let sources = all_sources(self.alloc, graph, found.place)?;
                self.add_settled(&outer, graph, &sources, &mut needs)?;
            }
        }
        Ok(needs)
    }

    /// The needs of the settled line of an activity; `attempts` is 0 of a dead one.
    fn settled_needs(
        &self,
        scope: &Path,
        name: &Name,
        attempts: u64,
    ) -> Result<Vec<CertLine>, AllocError> {
        let mut needs = Vec::new(self.alloc);
        needs.push(CertLine::Scope(scope.copy(self.alloc)?))?;
        let Some(graph) = self.graph_of(scope) else {
            return Ok(needs);
        };
        let Some(found) = activity_at(graph, name) else {
            return Ok(needs);
        };
        let sources = control_sources(self.alloc, graph, found.place)?;
        self.add_settled(scope, graph, &sources, &mut needs)?;
        if let Work::Program(_) = &found.activity.work {
            return Ok(needs);
        }
        for before in 0..attempts {
            let inner = path_below(self.alloc, scope, name, before + 1)?;
            needs.push(CertLine::Ended(inner))?;
        }
        Ok(needs)
    }

    /// The needs of the line that a scope has ended.
    fn ended_needs(&self, scope: &Path) -> Result<Vec<CertLine>, AllocError> {
        let mut needs = Vec::new(self.alloc);
        needs.push(CertLine::Scope(scope.copy(self.alloc)?))?;
        let Some(graph) = self.graph_of(scope) else {
            return Ok(needs);
        };
        for activity in graph.activities.as_slice() {
            if let Some(line) = self.settled(scope, &activity.name)? {
                needs.push(line)?;
            }
        }
        Ok(needs)
    }

    /// The needs of a line, in their order.
    fn needs(&self, line: &CertLine) -> Result<Vec<CertLine>, AllocError> {
        match line {
            CertLine::Scope(scope) => self.scope_needs(scope),
            CertLine::Dead(scope, name) => self.settled_needs(scope, name, 0),
            CertLine::Finished(scope, name, attempts) => {
                self.settled_needs(scope, name, *attempts)
            }
            CertLine::Ended(scope) => self.ended_needs(scope),
        }
    }
}

/// What is still to be done: a line whose needs aren't listed yet, or one whose needs are.
#[derive(Drop)]
enum Task {
    Visit(CertLine),
    List(CertLine),
}

/// A certificate that is being listed.
#[derive(Drop)]
struct Listing {
    lines: List<CertLine>,
    /// The texts of the lines so far.
    listed: IndexMap<Vec<u8>, u64>,
    /// What is to be done, the next last.
    tasks: Vec<Task>,
}

impl Listing {
    /// Lists a line whose needs are listed.
    fn list(&mut self, alloc: Global, line: CertLine) -> Result<(), AllocError> {
        let number = self.lines.len() as u64;
        self.listed.insert(line_bytes(alloc, &line)?, number)?;
        self.lines.push(line)
    }

    /// Plans to visit the needs of a line, the first of them next.
    fn plan(&mut self, needs: Vec<CertLine>) -> Result<(), AllocError> {
        let mut needs = needs;
        needs.reverse();
        for need in needs {
            self.tasks.push(Task::Visit(need))?;
        }
        Ok(())
    }

    /// Plans to list a line behind its needs, unless it is listed.
    fn visit(&mut self, shown: &Shown<'_>, line: CertLine) -> Result<(), AllocError> {
        let text = line_bytes(shown.alloc, &line)?;
        if self.listed.contains_key(text.as_slice()) {
            return Ok(());
        }
        let needs = shown.needs(&line)?;
        self.tasks.push(Task::List(line))?;
        self.plan(needs)
    }

    /// Does what is to be done until nothing is left.
    fn run(&mut self, shown: &Shown<'_>) -> Result<(), AllocError> {
        for _ in 0..u64::MAX {
            match self.tasks.pop() {
                None => return Ok(()),
                Some(Task::Visit(line)) => self.visit(shown, line)?,
                Some(Task::List(line)) => self.list(shown.alloc, line)?,
            }
        }
        Ok(())
    }
}

/// A line behind its needs, each behind its own.
fn certificate(shown: &Shown<'_>, line: CertLine) -> Result<List<CertLine>, AllocError>
    ensures { IfOk result (λ lines. slice_get lines (length lines - 1) ≡ Some line) }
{
    let mut listing = Listing {
        lines: List::new(shown.alloc),
        listed: IndexMap::new(shown.alloc),
        tasks: Vec::new(shown.alloc),
    };
    listing.plan(shown.needs(&line)?)?;
    listing.run(shown)?;
    let Listing {
        lines,
        listed: _,
        tasks: _,
    } = listing;
    let mut lines = lines;
    lines.push(line)?;
    Ok(lines)
}

/// The graph of a template.
fn root_graph(core: &Core, template: u32) -> Option<&Graph>
    ensures { option_copied result ≡ graph_of (templates core.now) template }
{
    match core.library().templates.as_slice().get(template as usize) {
        None => None,
        Some(template) => Some(&template.graph),
    }
}

/// The fates that the engine shows of a live root.
fn fates_shown<'a>(
    alloc: Global,
    core: &'a Core,
    facts: &RootFacts,
) -> Result<Shown<'a>, AllocError>
    requires { AreFactsOf core.now facts.now.root facts.now }
    ensures { IfOk result (λ shown. AreShown core.now facts.now.root shown.fates) }
{
    let Some(graph) = root_graph(core, facts.template) else {
        unreachable!();
    };
    let Some(rows) = core.begun_rows(alloc, facts.root)? else {
        unreachable!();
    };
    Ok(Shown {
        alloc,
        library: core.library(),
        graph,
        fates: by_text(alloc, rows.as_slice())?,
    })
}

/// The certificate of an activity of a live root.
fn explain_shown(
    shown: &Shown<'_>,
    scope: &Path,
    activity: &Name,
) -> Result<List<CertLine>, ExplainFault>
    ensures certificate { IfOk result (EndsAs (fate_at shown.now.fates (activity_spelling scope.now activity.now))
        scope.now activity.now) }
    ensures fault { IfErr result (IsWithout (fate_at shown.now.fates (activity_spelling scope.now activity.now))) }
{
    let text = activity_text(shown.alloc, scope, activity)?;
    let Some(fate) = shown.fates.get(text.as_slice()).copied() else {
        return Err(ExplainFault::Activity);
    };
    match settled_line(shown.alloc, scope, activity, fate)? {
        None => Err(ExplainFault::Unsettled(fate)),
        Some(line) => Ok(certificate(shown, line)?),
    }
}

/// The certificate of an activity of a root with these facts, every line of it justified by them.
fn explain_over(
    alloc: Global,
    core: &Core,
    facts: &RootFacts,
    scope: &Path,
    activity: &Name,
) -> Result<List<CertLine>, ExplainFault>
    requires { AreFactsOf core.now scope.now.root facts.now }
    ensures certificate { IfOk result (IsCertificate core.now scope.now activity.now) }
    ensures fault { IfErr result (HasNone core.now scope.now activity.now) }
{
    let shown = fates_shown(alloc, core, facts)?;
    let lines = explain_shown(&shown, scope, activity)?;
    Ok(checked(alloc, core, facts, lines)?)
}

/// The certificate of an activity that is dead or finished: its line behind all that it needs, each once. Every
/// line is justified by those before it, over the accepted completions of the root, and the last one tells the fate
/// that the state shows of the activity.
///
/// `Root` exactly where there is no live root of that number, else `Activity` where its scope isn't begun or has
/// no such activity, else `Unsettled` with its fate where it is neither dead nor finished.
pub fn explain(
    alloc: Global,
    core: &Core,
    scope: &Path,
    activity: &Name,
) -> Result<List<CertLine>, ExplainFault>
    ensures certificate { IfOk result (IsCertificate core.now scope.now activity.now) }
    ensures fault { IfErr result (HasNone core.now scope.now activity.now) }
{
    let Some(facts) = core.root_facts(alloc, scope.root)? else {
        return Err(ExplainFault::Root(scope.root));
    };
    explain_over(alloc, core, &facts, scope, activity)
}
