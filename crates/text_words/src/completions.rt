//! The completion lines of `fate`, as far as the first one that can't be accepted.
ghost use Rattle.std.specs.Prelude.{◌≡◌, Some, IfOk, OnOk};
ghost use Rattle.std.specs.Option.{option_copied};
ghost use Rattle.text_words.specs.Attempts.{next_of};
ghost use Rattle.text_words.specs.Completions.{said, unsaid, with_fact, with_fault, NamesItem, activity_of as named_in};
ghost use Rattle.text_words.specs.Completions.{activity_at as reached, program_at as program_reached, SaysOf, SaysItem};
ghost use Rattle.text_words.specs.Completions.{SaysIt, SaysLine, SaysBehind, IsRead};

use crate::counted::Counted;
use crate::input::Numbered;
use crate::paths::{Recent, written_item};
use blocks_subprocs::graph_of;
use command_lang::{CommandFault, Reader};
use containers::{fresh, settings_of, with_settings};
use flow_io::MAX_LINE;
use flow_model::{
    Activity, Completion, Fact, Graph, Library, List, Name, Outcome, Part, Path, Target, Work,
};
use std::alloc::{AllocError, Global};

/// Why a line can't be accepted, if its target is ready.
#[derive(Clone, Copy, Debug, PartialEq, Eq)]
pub enum LineFault {
    /// The line is no completion; the place.
    Word(u32),
    /// The target is none that could be ready.
    Target,
    /// A value is refused; the place.
    Value(u32),
}

/// The completions of the lines before the first that can't be accepted.
#[derive(Drop)]
pub struct Read {
    pub counted: Counted,
    /// For each completion the number of its line.
    pub lines: Vec<u64>,
    /// The number of the first line that can't be accepted, and why.
    pub fault: Option<(u64, LineFault)>,
    recent: Recent,
}

/// The activity of this name.
fn activity_of<'a>(graph: &'a Graph, name: &Name) -> Option<&'a Activity>
    ensures { option_copied result ≡ named_in name.now graph.now }
{
    graph
        .activities
        .as_slice()
        .iter()
        .find(|activity| activity.name.as_slice() == name.as_slice())
}

/// The activity to which the parts of a path lead down from a graph, through blocks and subprocesses.
fn activity_at<'a>(library: &'a Library, graph: &'a Graph, parts: &[Part]) -> Option<&'a Activity>
    ensures { option_copied result ≡ reached library.now.templates parts.now graph.now }
{
    match parts {
        [] => None,
        [part] => activity_of(graph, &part.name),
        [part, below @ ..] => {
            let activity = activity_of(graph, &part.name)?;
            let inner = graph_of(library, &activity.work)?;
            activity_at(library, inner, below)
        }
    }
}

/// The program activity to which the parts of a path lead.
fn program_at<'a>(library: &'a Library, graph: &'a Graph, parts: &[Part]) -> Option<&'a Activity>
    ensures { option_copied result ≡ program_reached library.now.templates parts.now graph.now }
{
    let activity = activity_at(library, graph, parts)?;
    match &activity.work {
        Work::Program(_) => Some(activity),
        _ => None,
    }
}

/// The ready attempt of an activity of the root scope, if it has one: the one after those that were completed.
fn named_item(alloc: Global, counted: &Counted, name: &Name) -> Result<Path, AllocError>
    ensures { IfOk result (λ path. path ≡ next_of name.now counted.now.facts.items) }
{
    let mut parts = List::new(alloc);
    parts.push(Part {
        name: name.copy(alloc)?,
        attempt: counted.next(name.as_slice()),
    })?;
    Ok(Path { root: 1, parts })
}

/// The item that a line completes; None where it is none of root 1.
fn item_of(
    alloc: Global,
    counted: &Counted,
    recent: &mut Recent,
    target: &Target,
) -> Result<Option<Path>, AllocError>
    ensures { IfOk result (NamesItem counted.now.facts.items target.now) }
{
    match target {
        Target::Activity(name) => Ok(Some(named_item(alloc, counted, name)?)),
        Target::Item(token) => written_item(alloc, recent, token.as_slice()),
    }
}

impl Read {
    fn new(alloc: Global) -> Read
        ensures { said result ≡ unsaid }
    {
        Read {
            counted: Counted::new(alloc),
            lines: Vec::new(alloc),
            fault: None,
            recent: Recent::new(alloc),
        }
    }

    fn stop(&mut self, line: u64, fault: LineFault)
        ensures { said self.new ≡ with_fault line fault (said self.old) }
    {
        self.fault = Some((line, fault));
    }

    fn accept(&mut self, alloc: Global, line: u64, fact: Fact) -> Result<(), AllocError>
        ensures { OnOk result (said self.new ≡ with_fact line fact (said self.old)) }
    {
        self.counted.push(alloc, fact)?;
        self.lines.push(line)?;
        Ok(())
    }

    /// Adds the completion of an item with this outcome. Where a value is refused, the item is added all
    /// the same, since only a ready item has its values judged.
    fn complete(
        &mut self,
        alloc: Global,
        line: u64,
        item: Path,
        activity: &Activity,
        outcome: &Outcome,
    ) -> Result<(), AllocError>
        ensures { OnOk result (SaysOf line outcome.now item (Some activity.now) (said self.old) (said self.new)) }
    {
        let output = fresh(alloc, &activity.output)?;
        let settings = outcome.settings.as_slice();
        match settings_of(alloc, &activity.output, outcome.rc.as_ref(), settings)? {
            Err(place) => {
                self.stop(line, LineFault::Value(place.saturating_add(1)));
                self.accept(alloc, line, Fact { item, output })
            }
            Ok(settings) => {
                let output = with_settings(alloc, output, settings.as_slice())?;
                self.accept(alloc, line, Fact { item, output })
            }
        }
    }

    /// Adds the completion of the item that a target names.
    fn add_item(
        &mut self,
        alloc: Global,
        library: &Library,
        graph: &Graph,
        line: u64,
        item: Option<Path>,
        outcome: &Outcome,
    ) -> Result<(), AllocError>
        ensures { OnOk result (SaysItem library.now.templates graph.now line outcome.now item (said self.old)
            (said self.new)) }
    {
        let Some(item) = item else {
            self.stop(line, LineFault::Target);
            return Ok(());
        };
        match program_at(library, graph, item.parts.as_slice()) {
            None => {
                self.stop(line, LineFault::Target);
                Ok(())
            }
            Some(activity) => self.complete(alloc, line, item, activity, outcome),
        }
    }

    /// Adds the completion of a line.
    fn add(
        &mut self,
        alloc: Global,
        library: &Library,
        graph: &Graph,
        line: u64,
        completion: &Completion,
    ) -> Result<(), AllocError>
        ensures { OnOk result (SaysIt library.now.templates graph.now line completion.now (said self.old)
            (said self.new)) }
    {
        let item = item_of(alloc, &self.counted, &mut self.recent, &completion.target)?;
        self.add_item(alloc, library, graph, line, item, &completion.outcome)
    }

    /// Adds what a line says.
    fn add_line(
        &mut self,
        alloc: Global,
        library: &Library,
        graph: &Graph,
        reader: &mut Reader,
        numbered: &Numbered,
    ) -> Result<(), AllocError>
        ensures { OnOk result (SaysLine library.now.templates graph.now numbered.now (said self.old) (said self.new)) }
    {
        let line = numbered.line.as_slice();
        if line.len() > MAX_LINE {
            self.stop(numbered.number, LineFault::Word(MAX_LINE as u32 + 1));
            return Ok(());
        }
        match reader.completion(line) {
            Ok(None) => Ok(()),
            Ok(Some(completion)) => self.add(alloc, library, graph, numbered.number, &completion),
            Err(CommandFault::Word(place)) => {
                self.stop(numbered.number, LineFault::Word(place));
                Ok(())
            }
            Err(CommandFault::NoMemory) => Err(AllocError),
        }
    }

    /// Adds what a line says, if no line before it was refused.
    fn add_next(
        &mut self,
        alloc: Global,
        library: &Library,
        graph: &Graph,
        reader: &mut Reader,
        numbered: &Numbered,
    ) -> Result<(), AllocError>
        ensures { OnOk result (SaysBehind library.now.templates graph.now numbered.now self.old.fault (said self.old)
            (said self.new)) }
    {
        match self.fault {
            Some(_) => Ok(()),
            None => self.add_line(alloc, library, graph, reader, numbered),
        }
    }
}

/// The completions of these lines, as far as the first that can't be accepted.
pub fn read_completions(
    alloc: Global,
    library: &Library,
    graph: &Graph,
    lines: &[Numbered],
) -> Result<Read, AllocError>
    ensures { IfOk result (IsRead library.now.templates graph.now lines.now) }
{
    let mut read = Read::new(alloc);
    let mut reader = Reader::new(alloc);
    for numbered in lines {
        read.add_next(alloc, library, graph, &mut reader, numbered)?;
    }
    Ok(read)
}
