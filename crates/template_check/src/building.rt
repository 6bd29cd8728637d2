//! From the tree of an accepted text to its templates and people.
//!
//! What it looks up is there, as its contracts ask: `specs/Found.antt`.
ghost use Rattle.std.specs.Prelude.{◌≡◌, ℕ, ◌<◌, ◌^◌, Some, length, map, option_copied, IfOk, IfSome, IsSome};
ghost use Rattle.std.specs.List.{All};
ghost use Rattle.template_check.specs.Built.{end_in, IsDrawn, IsSound, IsSoundAlone, IsSoundInside, IsSoundWork};
ghost use Rattle.conditions.specs.Resolving.{IsClear, IsResolved};
ghost use Rattle.text_graphs.specs.Attributes.{first_said, join_said, joined_by, expires_said, expires_by, exit_said};
ghost use Rattle.text_graphs.specs.Attributes.{doer_said, done_by, program_by};
ghost use Rattle.process_rules.specs.Imports.{next_version};
ghost use Rattle.template_check.specs.Classed.{IsClassNamed};
ghost use Rattle.template_check.specs.Compiling.{declared_person};
ghost use Rattle.template_check.specs.Numbered.{HasToldShape};
ghost use Rattle.process_rules.specs.Calling.{place_behind, place_meant, IsCalling, IsCallingWork};
ghost use Rattle.template_check.specs.Found.{IsMapFound, AreMapsFound, IsExitFound, IsWhenFound, IsControlFound};
ghost use Rattle.template_check.specs.Found.{IsLineFound, IsDoerFound, IsActivityFound, AreFoundInside, AreFound};
ghost use Rattle.text_graphs.specs.Graphs.{process_at};
ghost use Rattle.text_graphs.specs.GraphTexts.{text_of, process_text};
ghost use Rattle.leaf_rules.specs.Leaves.{table_leaves, with_code, output_leaves, line_source, line_target};
ghost use Rattle.template_check.specs.Meant.{AreParts, IsOne, IsMap, AreMaps, IsExit, IsWhen, IsControl, IsDataLine};
ghost use Rattle.template_check.specs.Meant.{IsLoopLine, IsWork, IsActivity, MeantTo, IsMeant, reading_of};
ghost use Rattle.text_graphs.specs.Texts.{activities_in, controls_in, names_in, lines_in, edge_of, edges_in};
ghost use Rattle.text_graphs.specs.Texts.{IsLineAlong};
ghost use Rattle.template_check.specs.Wires.{pairs_of};

use crate::wires::wiring;
use conditions::{TypeFault, resolve};
use containers::find_leaf;
use flow_model::{
    Activity, ActivityTree, AttrTree, Cond, CondAt, Control, ControlTree, DataLine, DataTree,
    DoneBy, ElementTree, EndTree, EndsTree, Expr, Graph, Join, JoinTree, LeafMap, Leaves, List,
    LoopLine, MapEnd, MapTree, NameAt, NumberAt, PersonDef, PersonTree, ProcessTree, Program,
    Template, When, WhenTree, Work, WorkTree,
};
use leaf_rules::LeafTable;
use process_rules::{Callee, Catalog, ContainerClasses, Known, Shape, is_manual};
use std::alloc::{AllocError, Global};
use text_graphs::{Scope, narrow};

/// What building rests on: the structures with their leaves, and what names stand for.
#[derive(Drop)]
pub struct Builder<'a> {
    pub alloc: Global,
    pub table: LeafTable<'a>,
    pub known: Known<'a>,
}

/// The join that an attribute says.
fn join_in(what: &AttrTree) -> Option<Join>
    ensures { result ≡ join_said what.now }
{
    match what {
        AttrTree::When(JoinTree::All) => Some(Join::All),
        AttrTree::When(JoinTree::AtLeastOne) => Some(Join::AtLeastOne),
        AttrTree::When(JoinTree::AtLeast(number)) => Some(Join::AtLeast(u32::try_from(
            number.size,
        ).unwrap_or(u32::MAX))),
        AttrTree::Exit(_) => None,
        AttrTree::Start(_) => None,
        AttrTree::Expires(_) => None,
        AttrTree::Role(_) => None,
        AttrTree::Person(_) => None,
        AttrTree::Starter => None,
        AttrTree::Performer(_) => None,
    }
}

/// The join of an activity; ALL where nothing is said.
fn join_of(activity: &ActivityTree) -> Join
    ensures { result ≡ joined_by activity.now.attrs }
{
    for attribute in activity.attrs.as_slice() {
        if let Some(join) = join_in(&attribute.what) {
            return join;
        }
    }
    Join::All
}

/// The minutes after which an attribute says that an activity is late.
fn expires_in(what: &AttrTree) -> Option<&NumberAt>
    ensures { option_copied result ≡ expires_said what.now }
{
    match what {
        AttrTree::Expires(minutes) => Some(minutes),
        AttrTree::When(_) => None,
        AttrTree::Exit(_) => None,
        AttrTree::Start(_) => None,
        AttrTree::Role(_) => None,
        AttrTree::Person(_) => None,
        AttrTree::Starter => None,
        AttrTree::Performer(_) => None,
    }
}

fn expires_of(activity: &ActivityTree) -> Option<u32>
    ensures { result ≡ expires_by activity.now.attrs }
{
    for attribute in activity.attrs.as_slice() {
        if let Some(minutes) = expires_in(&attribute.what) {
            return u32::try_from(minutes.size).ok();
        }
    }
    None
}

/// The exit condition that an attribute says.
fn exit_in(what: &AttrTree) -> Option<&CondAt>
    ensures { option_copied result ≡ exit_said what.now }
{
    match what {
        AttrTree::Exit(cond) => Some(cond),
        AttrTree::When(_) => None,
        AttrTree::Start(_) => None,
        AttrTree::Expires(_) => None,
        AttrTree::Role(_) => None,
        AttrTree::Person(_) => None,
        AttrTree::Starter => None,
        AttrTree::Performer(_) => None,
    }
}

/// The exit condition of an activity, if it has one.
fn exit_of(activity: &ActivityTree) -> Option<&CondAt>
    ensures { option_copied result ≡ first_said exit_said activity.now.attrs }
{
    for attribute in activity.attrs.as_slice() {
        if let Some(cond) = exit_in(&attribute.what) {
            return Some(cond);
        }
    }
    None
}

/// One map of a line, by the places of its leaves.
fn leaf_map(map: &MapTree, from: &Leaves, to: &Leaves) -> LeafMap
    requires few_from { length from.now.leaves < 2 ^ 32 }
    requires few_to { length to.now.leaves < 2 ^ 32 }
    requires found { IsMapFound from.now.leaves to.now.leaves map.now }
    ensures { IsMap from.now.leaves to.now.leaves map.now result }
{
    let Some(source) = find_leaf(from, &map.from) else {
        unreachable!();
    };
    let Some(target) = find_leaf(to, &map.to) else {
        unreachable!();
    };
    LeafMap {
        from: source,
        to: target,
    }
}

/// The maps of a line, by the places of the leaves.
fn leaf_maps(
    alloc: Global,
    maps: &[MapTree],
    from: &Leaves,
    to: &Leaves,
) -> Result<List<LeafMap>, AllocError>
    requires few_from { length from.now.leaves < 2 ^ 32 }
    requires few_to { length to.now.leaves < 2 ^ 32 }
    requires found { All (IsMapFound from.now.leaves to.now.leaves) maps.now }
    ensures { IfOk result (AreParts (IsOne (IsMap from.now.leaves to.now.leaves)) maps.now) }
{
    let mut places = List::new(alloc);
    for map in maps {
        places.push(leaf_map(map, from, to))?;
    }
    Ok(places)
}

/// A condition with places for these leaves.
fn expr(alloc: Global, cond: &Cond, leaves: &Leaves) -> Result<Expr, AllocError>
    requires few { length leaves.now.leaves < 2 ^ 32 }
    requires clear { IsClear leaves.now.leaves cond.now }
    ensures { IfOk result (IsResolved leaves.now.leaves cond.now) }
{
    match resolve(alloc, cond, leaves) {
        Ok(expr) => Ok(expr),
        Err(TypeFault::UnknownMember(_)) => unreachable!(),
        Err(TypeFault::Mismatch(_)) => unreachable!(),
        Err(TypeFault::Number(_)) => unreachable!(),
        Err(TypeFault::NoMemory) => Err(AllocError),
    }
}

/// The end of a line, where its name is known.
fn map_end<'a>(scope: &Scope<'a>, end: &'a EndTree) -> Option<MapEnd>
    ensures { result ≡ end_in scope.now.elements.now end.now }
{
    match end {
        EndTree::Border => Some(MapEnd::Border),
        EndTree::Activity(name) => match scope.number(name) {
            Some(number) => Some(MapEnd::Activity(number)),
            None => None,
        },
    }
}

impl<'a> Builder<'a> {
    /// The exit condition of an activity.
    fn exit(&self, activity: &'a ActivityTree) -> Result<Option<Expr>, AllocError>
        requires { IsExitFound (with_code (table_leaves self.now.table activity.now.output.name))
            (first_said exit_said activity.now.attrs) }
        ensures { IfOk result (IsExit (with_code (table_leaves self.now.table activity.now.output.name))
            (first_said exit_said activity.now.attrs)) }
    {
        match exit_of(activity) {
            None => Ok(None),
            Some(cond) => match self.table.coded(&activity.output) {
                None => unreachable!(),
                Some(leaves) => Ok(Some(expr(self.alloc, &cond.cond, leaves)?)),
            },
        }
    }

    /// Who may do an activity, as an attribute says.
    fn doer_in(&self, scope: &Scope<'a>, what: &'a AttrTree) -> Result<Option<DoneBy>, AllocError>
        requires { IsDoerFound scope.now.elements.now what.now }
        ensures { IfOk result (λ doer. doer ≡ doer_said scope.now.elements.now what.now) }
    {
        match what {
            AttrTree::Role(name) => Ok(Some(DoneBy::Role(name.name.copy(self.alloc)?))),
            AttrTree::Person(name) => Ok(Some(DoneBy::Person(name.name.copy(self.alloc)?))),
            AttrTree::Starter => Ok(Some(DoneBy::Starter)),
            AttrTree::Performer(name) => match scope.number(name) {
                Some(number) => Ok(Some(DoneBy::PerformerOf(number))),
                None => unreachable!(),
            },
            AttrTree::When(_) => Ok(None),
            AttrTree::Exit(_) => Ok(None),
            AttrTree::Start(_) => Ok(None),
            AttrTree::Expires(_) => Ok(None),
        }
    }

    /// Who may do an activity; its starter where nothing is said.
    fn done_by(&self, scope: &Scope<'a>, activity: &'a ActivityTree) -> Result<DoneBy, AllocError>
        requires { All (λ x. IsDoerFound scope.now.elements.now x.what) activity.now.attrs }
        ensures { IfOk result (λ doer. doer ≡ done_by scope.now.elements.now activity.now.attrs) }
    {
        for attribute in activity.attrs.as_slice() {
            if let Some(doer) = self.doer_in(scope, &attribute.what)? {
                return Ok(doer);
            }
        }
        Ok(DoneBy::Starter)
    }

    fn program(&self, scope: &Scope<'a>, activity: &'a ActivityTree) -> Result<Program, AllocError>
        requires { All (λ x. IsDoerFound scope.now.elements.now x.what) activity.now.attrs }
        ensures { IfOk result (λ made. made ≡ program_by scope.now.elements.now activity.now.attrs) }
    {
        Ok(Program {
            manual: is_manual(activity),
            by: self.done_by(scope, activity)?,
            expires: expires_of(activity),
        })
    }

    /// The place in the library of the process that an activity runs.
    fn callee(&self, process: u32, name: &'a NameAt) -> Result<u32, AllocError>
        requires { IsSome (place_meant self.now.known process name.now.name) }
        ensures before { IfOk result (λ place. place < place_behind self.now.known.catalog.now.library process) }
        ensures meant { IfOk result (λ place. place_meant self.now.known process name.now.name ≡ Some place) }
    {
        match self.known.callee(process, name) {
            Some(Callee::Library(place)) => Ok(place),
            Some(Callee::Text(number)) => {
                let earlier = narrow(self.known.catalog().library().templates.len())?;
                // No library has room for more templates than 32 bits tell.
                match earlier.checked_add(number) {
                    Some(place) => Ok(place),
                    None => Err(AllocError),
                }
            }
            None => unreachable!(),
        }
    }

    /// The transition condition of a connector.
    fn when(&self, scope: &Scope<'a>, control: &'a ControlTree) -> Result<When, AllocError>
        requires { IsWhenFound (output_leaves (table_leaves self.now.table) scope.now.elements.now
            control.now.from.name) control.now.when }
        ensures { IfOk result (IsWhen (output_leaves (table_leaves self.now.table) scope.now.elements.now
            control.now.from.name) control.now.when) }
    {
        match &control.when {
            WhenTree::Always => Ok(When::Always),
            WhenTree::Otherwise => Ok(When::Otherwise),
            WhenTree::Cond(cond) => match self.table.connector_leaves(scope, control) {
                None => unreachable!(),
                Some(leaves) => Ok(When::Cond(expr(self.alloc, &cond.cond, leaves)?)),
            },
        }
    }

    /// A connector.
    fn control(&self, scope: &Scope<'a>, control: &'a ControlTree) -> Result<Control, AllocError>
        requires { IsControlFound (table_leaves self.now.table) scope.now.elements.now control.now }
        ensures ends { IfOk result (λ made. edge_of scope.now.elements.now control.now ≡ Some (made.from, made.to)) }
        ensures meant { IfOk result (IsControl (table_leaves self.now.table) scope.now.elements.now control.now) }
    {
        match scope.number(&control.from) {
            None => unreachable!(),
            Some(from) => match scope.number(&control.to) {
                None => unreachable!(),
                Some(to) => Ok(Control {
                    from,
                    to,
                    when: self.when(scope, control)?,
                }),
            },
        }
    }

    fn controls(&self, scope: &Scope<'a>) -> Result<List<Control>, AllocError>
        requires { All (IsControlFound (table_leaves self.now.table) scope.now.elements.now)
            (controls_in scope.now.elements.now) }
        ensures ends { IfOk result (λ controls. pairs_of controls ≡ edges_in scope.now.elements.now) }
        ensures meant { IfOk result (AreParts (IsOne (IsControl (table_leaves self.now.table) scope.now.elements.now))
            (controls_in scope.now.elements.now)) }
    {
        let mut controls = List::new(self.alloc);
        for control in &scope.controls {
            controls.push(self.control(scope, control)?)?;
        }
        Ok(controls)
    }

    /// The maps of a line, by the places of the leaves.
    fn maps(&self, scope: &Scope<'a>, line: &'a DataTree) -> Result<List<LeafMap>, AllocError>
        requires { AreMapsFound (line_source (table_leaves self.now.table) (text_of scope.now) line.now.ends)
            (line_target (table_leaves self.now.table) (text_of scope.now) line.now.ends) line.now.maps }
        ensures { IfOk result (AreMaps (line_source (table_leaves self.now.table) (text_of scope.now) line.now.ends)
            (line_target (table_leaves self.now.table) (text_of scope.now) line.now.ends) line.now.maps) }
    {
        match self.table.line_source(scope, &line.ends) {
            None => unreachable!(),
            Some(from) => match self.table.line_target(scope, &line.ends) {
                None => unreachable!(),
                Some(to) => leaf_maps(self.alloc, line.maps.as_slice(), from, to),
            },
        }
    }

    /// A line between two known ends.
    fn data_line(
        &self,
        scope: &Scope<'a>,
        line: &'a DataTree,
    ) -> Result<Option<DataLine>, AllocError>
        requires along { IsLineAlong scope.now.elements.now line.now }
        requires found { IsLineFound (table_leaves self.now.table) (text_of scope.now) line.now }
        ensures drawn { IfOk result (λ drawn. IfSome drawn (IsDrawn scope.now.elements.now)) }
        ensures meant { IfOk result (IsDataLine (table_leaves self.now.table) (text_of scope.now) line.now) }
    {
        match &line.ends {
            EndsTree::Loop(_) => Ok(None),
            EndsTree::Line(from, to) => {
                let Some(from) = map_end(scope, from) else {
                    unreachable!();
                };
                let Some(to) = map_end(scope, to) else {
                    unreachable!();
                };
                let maps = self.maps(scope, line)?;
                Ok(Some(DataLine { from, to, maps }))
            }
        }
    }

    fn lines(&self, scope: &Scope<'a>) -> Result<List<DataLine>, AllocError>
        requires along { All (IsLineAlong scope.now.elements.now) (lines_in scope.now.elements.now) }
        requires found { All (IsLineFound (table_leaves self.now.table) (text_of scope.now))
            (lines_in scope.now.elements.now) }
        ensures drawn { IfOk result (All (IsDrawn scope.now.elements.now)) }
        ensures meant { IfOk result (AreParts (IsDataLine (table_leaves self.now.table) (text_of scope.now))
            (lines_in scope.now.elements.now)) }
    {
        let mut lines = List::new(self.alloc);
        for line in &scope.lines {
            match self.data_line(scope, line)? {
                None => {}
                Some(line) => lines.push(line)?,
            }
        }
        Ok(lines)
    }

    /// A LOOP line of a known activity.
    fn loop_line(
        &self,
        scope: &Scope<'a>,
        line: &'a DataTree,
    ) -> Result<Option<LoopLine>, AllocError>
        requires { IsLineFound (table_leaves self.now.table) (text_of scope.now) line.now }
        ensures within { IfOk result (λ made. IfSome made
            (λ l. l.activity < length (activities_in scope.now.elements.now))) }
        ensures meant { IfOk result (IsLoopLine (table_leaves self.now.table) (text_of scope.now) line.now) }
    {
        match &line.ends {
            EndsTree::Line(_, _) => Ok(None),
            EndsTree::Loop(name) => {
                let Some(activity) = scope.number(name) else {
                    unreachable!();
                };
                let maps = self.maps(scope, line)?;
                Ok(Some(LoopLine { activity, maps }))
            }
        }
    }

    fn loops(&self, scope: &Scope<'a>) -> Result<List<LoopLine>, AllocError>
        requires { All (IsLineFound (table_leaves self.now.table) (text_of scope.now))
            (lines_in scope.now.elements.now) }
        ensures within { IfOk result (All (λ l. l.activity < length (activities_in scope.now.elements.now))) }
        ensures meant { IfOk result (AreParts (IsLoopLine (table_leaves self.now.table) (text_of scope.now))
            (lines_in scope.now.elements.now)) }
    {
        let mut loops = List::new(self.alloc);
        for line in &scope.lines {
            match self.loop_line(scope, line)? {
                None => {}
                Some(line) => loops.push(line)?,
            }
        }
        Ok(loops)
    }

    /// The leaves of a structure.
    fn plain(&self, name: &'a NameAt) -> Result<Leaves, AllocError>
        requires { IsSome (table_leaves self.now.table name.now.name) }
        ensures { IfOk result (λ made. table_leaves self.now.table name.now.name ≡ Some made.leaves) }
    {
        match self.table.plain(name) {
            None => unreachable!(),
            Some(leaves) => Ok(leaves.copy()?),
        }
    }

    /// The leaves of a structure, with `_RC` before them.
    fn coded(&self, name: &'a NameAt) -> Result<Leaves, AllocError>
        requires { IsSome (table_leaves self.now.table name.now.name) }
        ensures { IfOk result (λ made. with_code (table_leaves self.now.table name.now.name) ≡ Some made.leaves) }
    {
        match self.table.coded(name) {
            None => unreachable!(),
            Some(leaves) => Ok(leaves.copy()?),
        }
    }

    #[cycle(building)]
    fn work(&self, scope: &Scope<'a>, activity: &'a ActivityTree) -> Result<Work, AllocError>
        requires sound { IsSoundInside activity.now }
        requires found { IsActivityFound (reading_of self.now) (text_of scope.now) activity.now }
        requires inside { AreFoundInside (reading_of self.now) scope.now.process activity.now }
        ensures sound { IfOk result IsSoundWork }
        ensures calls { IfOk result
            (IsCallingWork (place_behind self.now.known.catalog.now.library scope.now.process)) }
        ensures meant { IfOk result (λ made. (depth : ℕ)
            → IsWork (MeantTo (reading_of self.now) depth) (reading_of self.now)
            (text_of scope.now) activity.now made) }
    {
        match &activity.work {
            WorkTree::Program => Ok(Work::Program(self.program(scope, activity)?)),
            WorkTree::Process(name) => Ok(Work::Process(self.callee(scope.process, name)?)),
            WorkTree::Block(elements) => {
                let (input, output) = (&activity.input, &activity.output);
                let elements = elements.as_slice();
                let graph = self.graph(scope.process, activity.place, input, output, elements)?;
                Ok(Work::Block(graph))
            }
        }
    }

    #[cycle(building)]
    fn activity(
        &self,
        scope: &Scope<'a>,
        activity: &'a ActivityTree,
    ) -> Result<Activity, AllocError>
        requires sound { IsSoundInside activity.now }
        requires found { IsActivityFound (reading_of self.now) (text_of scope.now) activity.now }
        requires inside { AreFoundInside (reading_of self.now) scope.now.process activity.now }
        ensures named { IfOk result (λ built. built.name ≡ activity.now.name.name) }
        ensures sound { IfOk result (λ built. IsSoundWork built.work) }
        ensures calls { IfOk result (λ built. IsCallingWork
            (place_behind self.now.known.catalog.now.library scope.now.process) built.work) }
        ensures meant { IfOk result (λ built. (depth : ℕ)
            → IsActivity (MeantTo (reading_of self.now) depth) (reading_of self.now)
            (text_of scope.now) activity.now built) }
    {
        Ok(Activity {
            name: activity.name.name.copy(self.alloc)?,
            work: self.work(scope, activity)?,
            input: self.plain(&activity.input)?,
            output: self.coded(&activity.output)?,
            join: join_of(activity),
            exit: self.exit(activity)?,
        })
    }

    #[cycle(building)]
    fn activities(
        &self,
        scope: &Scope<'a>,
        elements: &'a [ElementTree],
    ) -> Result<List<Activity>, AllocError>
        requires sound { All IsSoundInside (activities_in elements.now) }
        requires found { All (IsActivityFound (reading_of self.now) (text_of scope.now)) (activities_in elements.now) }
        requires inside { All (AreFoundInside (reading_of self.now) scope.now.process) (activities_in elements.now) }
        ensures named { IfOk result (λ built. map (λ a. a.name) built ≡ names_in elements.now) }
        ensures sound { IfOk result (All (λ built. IsSoundWork built.work)) }
        ensures calls { IfOk result (All (λ built. IsCallingWork
            (place_behind self.now.known.catalog.now.library scope.now.process) built.work)) }
        ensures meant { IfOk result (λ built. (depth : ℕ)
            → AreParts (IsOne (IsActivity (MeantTo (reading_of self.now) depth) (reading_of self.now)
            (text_of scope.now))) (activities_in elements.now) built) }
    {
        let mut activities = List::new(self.alloc);
        for element in elements {
            match element {
                ElementTree::Activity(activity) => {
                    activities.push(self.activity(scope, activity)?)?;
                }
                ElementTree::Control(_) => {}
                ElementTree::Line(_) => {}
            }
        }
        Ok(activities)
    }

    #[cycle(building)]
    fn graph(
        &self,
        process: u32,
        place: u32,
        input: &'a NameAt,
        output: &'a NameAt,
        elements: &'a [ElementTree],
    ) -> Result<Graph, AllocError>
        requires sound { IsSound elements.now }
        requires found { AreFound (reading_of self.now) (record {
          process = process;
          place = place;
          input = input.now;
          output = output.now;
          elements = elements.now;
        }) }
        ensures sound { IfOk result IsSoundAlone }
        ensures calls { IfOk result (IsCalling (place_behind self.now.known.catalog.now.library process)) }
        ensures meant { IfOk result (IsMeant (reading_of self.now)
            (record { process = process; input = input.now.name; output = output.now.name; elements = elements.now })) }
    {
        let scope = Scope::new(self.alloc, process, place, input, output, elements)?;
        let activities = self.activities(&scope, elements)?;
        let controls = self.controls(&scope)?;
        let lines = self.lines(&scope)?;
        let loops = self.loops(&scope)?;
        let wiring = wiring(
            self.alloc,
            activities.len(),
            controls.as_slice(),
            lines.as_slice(),
            loops.as_slice(),
        )?;
        Ok(Graph {
            input: self.plain(input)?,
            output: self.plain(output)?,
            activities,
            controls,
            lines,
            loops,
            wiring,
        })
    }

    /// The template of the process of this number.
    pub fn template(
        &self,
        number: u32,
        process: &'a ProcessTree,
        shape: Shape,
    ) -> Result<Template, AllocError>
        requires sound { IsSound process.now.elements }
        requires found { AreFound (reading_of self.now) (process_at number process.now) }
        ensures named { IfOk result (λ template. template.name ≡ process.now.name.name) }
        ensures sound { IfOk result (λ template. IsSoundAlone template.graph) }
        ensures calls { IfOk result (λ template. IsCalling
            (place_behind self.now.known.catalog.now.library number) template.graph) }
        ensures meant { IfOk result (λ template. IsMeant (reading_of self.now)
            (process_text number process.now) template.graph) }
        ensures version { IfOk result (λ template.
            template.version ≡ next_version self.now.known.catalog.now.library process.now.name.name) }
        ensures shape { IfOk result (λ template. HasToldShape template shape) }
    {
        let (input, output) = (&process.input, &process.output);
        let elements = process.elements.as_slice();
        let catalog: &Catalog = self.known.catalog();
        Ok(Template {
            name: process.name.name.copy(self.alloc)?,
            version: catalog.next_version(&process.name.name),
            graph: self.graph(number, process.place, input, output, elements)?,
            depth: shape.depth,
            size: u32::try_from(shape.size).unwrap_or(u32::MAX),
        })
    }

    /// The classes of the containers of a process, where they are known.
    pub fn containers(&self, process: &'a ProcessTree) -> ContainerClasses
        ensures input { IsClassNamed self.now.table result.input process.now.input.name }
        ensures output { IsClassNamed self.now.table result.output process.now.output.name }
    {
        ContainerClasses {
            input: self.table.class(&process.input),
            output: self.table.class(&process.output),
        }
    }

    /// A person with the roles.
    pub fn person(&self, person: &'a PersonTree) -> Result<PersonDef, AllocError>
        ensures { IfOk result (λ made. made ≡ declared_person person.now) }
    {
        let mut roles = List::new(self.alloc);
        for role in person.roles.as_slice() {
            roles.push(role.name.copy(self.alloc)?)?;
        }
        Ok(PersonDef {
            name: person.name.name.copy(self.alloc)?,
            roles,
        })
    }
}
