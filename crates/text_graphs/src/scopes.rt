//! The graphs of a text: its processes, and the blocks in them.
ghost use Rattle.std.specs.Prelude.{◌≡◌, ◌<◌, ◌≤◌, map, IfOk, option_copied};
ghost use Rattle.text_graphs.specs.Texts.{activities_in, controls_in, lines_in, number_in, activity_named, pair_of};
ghost use Rattle.text_graphs.specs.Texts.{AreNumbered};
ghost use Rattle.text_graphs.specs.GraphEdges.{AreEdgesOf};

use crate::edges::Edges;
use flow_model::{ActivityTree, ControlTree, DataTree, ElementTree, NameAt, WorkTree};
use indexmap::IndexMap;
use std::alloc::{AllocError, Global};

/// A number of something of which a text has fewer than 2^32.
pub fn small(number: usize) -> u32
    ensures { result ≤ number }
{
    u32::try_from(number).unwrap_or(u32::MAX)
}

/// A number of 32 bits; an error where it is larger, since nothing that large has room.
pub fn narrow(number: usize) -> Result<u32, AllocError>
    ensures { IfOk result (λ narrow. narrow ≡ number) }
{
    match u32::try_from(number) {
        Ok(narrow) => Ok(narrow),
        Err(_) => Err(AllocError),
    }
}

fn activities_of<'a>(
    alloc: Global,
    elements: &'a [ElementTree],
) -> Result<Vec<&'a ActivityTree>, AllocError>
    ensures { IfOk result (λ found. map (λ a. a.now) found.items ≡ activities_in elements.now) }
{
    let mut activities = Vec::new(alloc);
    for element in elements {
        match element {
            ElementTree::Activity(activity) => activities.push(activity)?,
            ElementTree::Control(_) => {}
            ElementTree::Line(_) => {}
        }
    }
    Ok(activities)
}

fn controls_of<'a>(
    alloc: Global,
    elements: &'a [ElementTree],
) -> Result<Vec<&'a ControlTree>, AllocError>
    ensures { IfOk result (λ found. map (λ c. c.now) found.items ≡ controls_in elements.now) }
{
    let mut controls = Vec::new(alloc);
    for element in elements {
        match element {
            ElementTree::Control(control) => controls.push(control)?,
            ElementTree::Activity(_) => {}
            ElementTree::Line(_) => {}
        }
    }
    Ok(controls)
}

fn lines_of<'a>(alloc: Global, elements: &'a [ElementTree]) -> Result<Vec<&'a DataTree>, AllocError>
    ensures { IfOk result (λ found. map (λ l. l.now) found.items ≡ lines_in elements.now) }
{
    let mut lines = Vec::new(alloc);
    for element in elements {
        match element {
            ElementTree::Line(line) => lines.push(line)?,
            ElementTree::Activity(_) => {}
            ElementTree::Control(_) => {}
        }
    }
    Ok(lines)
}

/// The number of each name; of two activities of one name the first has it.
fn numbers_of<'a>(
    alloc: Global,
    activities: &[&'a ActivityTree],
) -> Result<IndexMap<&'a [u8], u32>, AllocError>
    ensures { IfOk result (λ numbers. AreNumbered (map (λ a. a.now) activities.now) numbers) }
{
    let mut numbers: IndexMap<&'a [u8], u32> = IndexMap::new(alloc);
    for (i, activity) in activities.iter().enumerate() {
        let name = activity.name.name.as_slice();
        if !numbers.contains_key(&name) {
            numbers.insert(name, narrow(i)?)?;
        }
    }
    Ok(numbers)
}

/// A graph of a text, with its elements by kind and the numbers of its activities by name.
#[derive(Drop)]
pub struct Scope<'a> {
    /// The number of its process in the text.
    pub process: u32,
    /// The place of its word PROCESS or BLOCK.
    pub place: u32,
    pub input: &'a NameAt,
    pub output: &'a NameAt,
    pub elements: &'a [ElementTree],
    pub activities: Vec<&'a ActivityTree>,
    pub controls: Vec<&'a ControlTree>,
    pub lines: Vec<&'a DataTree>,
    numbers: IndexMap<&'a [u8], u32>,
    ghost with_activities: { map (λ a. a.now) activities.items ≡ activities_in elements.now },
    ghost with_controls: { map (λ c. c.now) controls.items ≡ controls_in elements.now },
    ghost with_lines: { map (λ l. l.now) lines.items ≡ lines_in elements.now },
    ghost numbered: { AreNumbered (activities_in elements.now) numbers },
}

impl<'a> Scope<'a> {
    /// The graph of these elements.
    pub fn new(
        alloc: Global,
        process: u32,
        place: u32,
        input: &'a NameAt,
        output: &'a NameAt,
        elements: &'a [ElementTree],
    ) -> Result<Scope<'a>, AllocError>
        ensures numbered { IfOk result (λ scope. scope.process ≡ process) }
        ensures place { IfOk result (λ scope. scope.place ≡ place) }
        ensures elements { IfOk result (λ scope. scope.elements.now ≡ elements.now) }
        ensures input { IfOk result (λ scope. scope.input.now ≡ input.now) }
        ensures output { IfOk result (λ scope. scope.output.now ≡ output.now) }
    {
        let activities = activities_of(alloc, elements)?;
        let numbers = numbers_of(alloc, &activities)?;
        Ok(Scope {
            process,
            place,
            input,
            output,
            elements,
            controls: controls_of(alloc, elements)?,
            lines: lines_of(alloc, elements)?,
            activities,
            numbers,
        })
    }

    /// The number of the activity of this name.
    pub fn number(&self, name: &'a NameAt) -> Option<u32>
        ensures { result ≡ number_in self.now.elements.now name.now.name }
    {
        self.numbers.get(&name.name.as_slice()).copied()
    }

    /// The numbers of the activities of two names, where both are known.
    pub fn ends(&self, from: &'a NameAt, to: &'a NameAt) -> Option<(u32, u32)>
        ensures { result ≡ pair_of (number_in self.now.elements.now from.now.name)
            (number_in self.now.elements.now to.now.name) }
    {
        Some((self.number(from)?, self.number(to)?))
    }

    /// The activity of this name.
    pub fn activity(&self, name: &'a NameAt) -> Option<&'a ActivityTree>
        ensures { option_copied result ≡ activity_named self.now.elements.now name.now.name }
    {
        match self.number(name) {
            None => None,
            Some(number) => self.activities.get(number as usize).copied(),
        }
    }

    /// The connectors whose ends are known, as pairs of numbers.
    pub fn edges(&self, alloc: Global) -> Result<Edges, AllocError>
        ensures { IfOk result (AreEdgesOf self.now.elements.now) }
    {
        let mut edges = Edges::new(alloc, narrow(self.activities.len())?);
        for control in &self.controls {
            match self.ends(&control.from, &control.to) {
                Some((from, to)) => edges.add(from, to)?,
                None => {}
            }
        }
        Ok(edges)
    }
}

/// The elements of a block; none of another activity.
pub fn block_elements(activity: &ActivityTree) -> &[ElementTree] {
    match &activity.work {
        WorkTree::Block(elements) => elements.as_slice(),
        WorkTree::Process(_) => &[],
        WorkTree::Program => &[],
    }
}
