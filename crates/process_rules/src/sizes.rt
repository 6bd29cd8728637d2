//! Rules 21 and 22: how deep the processes of a text nest, and how large they are with all that they run.
ghost use Rattle.std.specs.Prelude.{◌≡◌, ◌<◌, ◌+◌, ◌-◌, ◌^◌, List, Some, min, max, map, IfOk};
ghost use Rattle.flow_model.specs.declared.trees.ProcessTree.{ProcessTree};
ghost use Rattle.process_rules.specs.Calling.{callee_meant};
ghost use Rattle.process_rules.specs.Knowing.{IsKnowing};
ghost use Rattle.process_rules.specs.Shapes.{nothing, callee_shape, named_shape, element_adds, work_adds, graph_shape};
ghost use Rattle.process_rules.specs.Shapes.{shape_at, shapes_by, shapes_of, told_shape, IsDeep, IsLargeProcess};
ghost use Rattle.process_rules.specs.Shapes.{NestsDeep, HasLargeSize};
ghost use Rattle.process_rules.specs.declared.people.Callee.TheVariants as callee;
ghost use Rattle.process_rules.specs.declared.sizes.Shape.{Shape};
ghost use Rattle.text_graphs.specs.Places.{IsLeastOf};

use crate::people::{Callee, Known};
use flow_model::{ElementTree, NameAt, ProcessTree, WorkTree};
use std::alloc::{AllocError, Global};
use text_graphs::{lesser, narrow};

const MOST_DEPTH: u32 = 16;

const MOST_SIZE: u64 = 65_536;

/// How deep a graph nests, and its expanded size.
#[derive(Clone, Copy, Debug, PartialEq, Eq)]
pub struct Shape {
    pub depth: u32,
    pub size: u64,
}

impl Shape {
    /// The shape of nothing.
    fn nothing() -> Shape
        ensures { result ≡ nothing }
    {
        Shape { depth: 0, size: 0 }
    }

    /// What this adds to a graph in which it is nested.
    fn nested(self) -> Shape
        ensures { result ≡ record { depth = min (self.depth + 1) (2 ^ 32 - 1); size = self.size } }
    {
        Shape {
            depth: self.depth.saturating_add(1),
            size: self.size,
        }
    }

    /// The shape of a graph, with what one more element adds.
    fn with(self, added: Shape) -> Shape
        ensures { result ≡ record {
          depth = max self.depth added.depth;
          size = min (self.size + added.size)
              (2 ^ 64 - 1);
        } }
    {
        Shape {
            depth: self.depth.max(added.depth),
            size: self.size.saturating_add(added.size),
        }
    }
}

/// The shape of the process of a number; of nothing where there is none.
fn nth_shape(shapes: &[Shape], number: usize) -> Shape
    ensures { result ≡ shape_at shapes.now number }
{
    match shapes.get(number).copied() {
        None => Shape::nothing(),
        Some(shape) => shape,
    }
}

/// The shape that a template says.
fn written_shape(depth: u32, size: u32) -> Shape
    ensures { result ≡ told_shape (record { depth = depth; size = size }) }
{
    Shape {
        depth,
        size: u64::from(size),
    }
}

/// The shape of the template at a place of the library; of nothing where there is none.
fn stored_shape(known: &Known<'_>, place: u32) -> Shape
    ensures { (before : List Shape) → result ≡ told_shape
        (callee_shape known.now.catalog.now.library before (Some (callee.Library place))) }
{
    match known.catalog().template(place) {
        None => Shape::nothing(),
        Some(template) => written_shape(template.depth, template.size),
    }
}

/// The shape of what a name leads to, where those of the processes before are known.
fn named_shape<'a>(known: &Known<'a>, shapes: &[Shape], process: u32, name: &'a NameAt) -> Shape
    ensures { (before : List Shape) → shapes.now ≡ map told_shape before
        → result ≡ told_shape (named_shape (callee_meant known.now) known.now.catalog.now.library before process
        name.now.name) }
{
    match known.callee(process, name) {
        None => Shape::nothing(),
        Some(Callee::Text(number)) => nth_shape(shapes, number as usize),
        Some(Callee::Library(place)) => stored_shape(known, place),
    }
}

/// What an activity adds to its graph.
#[cycle(shape)]
fn work_adds<'a>(known: &Known<'a>, shapes: &[Shape], process: u32, work: &'a WorkTree) -> Shape
    ensures { (before : List Shape) → shapes.now ≡ map told_shape before
        → result ≡ told_shape (work_adds (named_shape (callee_meant known.now) known.now.catalog.now.library before
        process) work.now) }
{
    match work {
        WorkTree::Program => Shape::nothing(),
        WorkTree::Process(name) => named_shape(known, shapes, process, name).nested(),
        WorkTree::Block(inner) => graph_shape(known, shapes, process, inner.as_slice()).nested(),
    }
}

/// What an element adds to its graph.
#[cycle(shape)]
fn element_adds<'a>(
    known: &Known<'a>,
    shapes: &[Shape],
    process: u32,
    element: &'a ElementTree,
) -> Shape
    ensures { (before : List Shape) → shapes.now ≡ map told_shape before
        → result ≡ told_shape (element_adds (named_shape
        (callee_meant known.now) known.now.catalog.now.library before process) element.now) }
{
    match element {
        ElementTree::Activity(activity) => work_adds(known, shapes, process, &activity.work),
        ElementTree::Control(_) => Shape { depth: 0, size: 1 },
        ElementTree::Line(_) => Shape::nothing(),
    }
}

/// The shape of a graph of the process of this number, where those of the processes before it are known.
#[cycle(shape)]
fn graph_shape<'a>(
    known: &Known<'a>,
    shapes: &[Shape],
    process: u32,
    elements: &'a [ElementTree],
) -> Shape
    ensures { (before : List Shape) → shapes.now ≡ map told_shape before
        → result ≡ told_shape (graph_shape (named_shape
        (callee_meant known.now) known.now.catalog.now.library before process) elements.now) }
{
    let mut shape = Shape { depth: 0, size: 2 };
    for element in elements {
        shape = shape.with(element_adds(known, shapes, process, element));
    }
    shape
}

fn shapes_meant(alloc: Global, known: &Known<'_>) -> Result<Vec<Shape>, AllocError>
    ensures { IfOk result (λ shapes. shapes.items ≡ map told_shape
        (shapes_by (callee_meant known.now) known.now.catalog.now.library
        (map (λ p. p.now) known.now.processes.items))) }
{
    let mut shapes = Vec::new(alloc);
    for (i, process) in known.processes().iter().enumerate() {
        let shape = graph_shape(known, &shapes, narrow(i)?, process.elements.as_slice());
        shapes.push(shape)?;
    }
    Ok(shapes)
}

/// The shapes of the processes of a text; a depth is told as far as 32 bits do, a size as far as 64 bits.
pub fn shapes(alloc: Global, known: &Known<'_>) -> Result<Vec<Shape>, AllocError>
    ensures { IfOk result (λ shapes. (processes : List ProcessTree) → IsKnowing known.now processes
        → shapes.items ≡ map told_shape (shapes_of known.now.catalog.now.library processes)) }
{
    shapes_meant(alloc, known)
}

/// The place of a process that nests deeper than 16.
fn deep_place(process: &ProcessTree, shape: Shape) -> Option<u32>
    ensures { (exact : Shape) → shape ≡ told_shape exact
        → IsLeastOf (λ place. (16 < exact.depth) × (process.now.place ≡ place)) result }
{
    if shape.depth > MOST_DEPTH {
        Some(process.place)
    } else {
        None
    }
}

/// The place of a process whose size is above 65,536.
fn large_place(process: &ProcessTree, shape: Shape) -> Option<u32>
    ensures { (exact : Shape) → shape ≡ told_shape exact
        → IsLeastOf (λ place. (65536 < exact.size) × (process.now.place ≡ place)) result }
{
    if shape.size > MOST_SIZE {
        Some(process.place)
    } else {
        None
    }
}

fn deep_among(processes: &[&ProcessTree], shapes: &[Shape]) -> Option<u32>
    ensures { (exact : List Shape) → shapes.now ≡ map told_shape exact
        → IsLeastOf (NestsDeep exact (map (λ p. p.now) processes.now)) result }
{
    let mut least = None;
    for (i, process) in processes.iter().enumerate() {
        least = lesser(least, deep_place(process, nth_shape(shapes, i)));
    }
    least
}

fn large_among(processes: &[&ProcessTree], shapes: &[Shape]) -> Option<u32>
    ensures { (exact : List Shape) → shapes.now ≡ map told_shape exact
        → IsLeastOf (HasLargeSize exact (map (λ p. p.now) processes.now)) result }
{
    let mut least = None;
    for (i, process) in processes.iter().enumerate() {
        least = lesser(least, large_place(process, nth_shape(shapes, i)));
    }
    least
}

/// Rule 21: a process nests deeper than 16.
pub fn deep_processes(known: &Known<'_>, shapes: &[Shape]) -> Option<u32>
    ensures { (processes : List ProcessTree) → IsKnowing known.now processes
        → shapes.now ≡ map told_shape (shapes_of known.now.catalog.now.library processes)
        → IsLeastOf (IsDeep known.now.catalog.now.library processes) result }
{
    deep_among(known.processes(), shapes)
}

/// Rule 22: the expanded size of a process is above 65,536.
pub fn large_processes(known: &Known<'_>, shapes: &[Shape]) -> Option<u32>
    ensures { (processes : List ProcessTree) → IsKnowing known.now processes
        → shapes.now ≡ map told_shape (shapes_of known.now.catalog.now.library processes)
        → IsLeastOf (IsLargeProcess known.now.catalog.now.library processes) result }
{
    large_among(known.processes(), shapes)
}
