//! A text judged by the rules in their order, and what an accepted one compiles to.
ghost use Rattle.std.specs.Prelude.{◌≡◌, ℕ, ◌<◌, ◌≤◌, ◌-◌, ◌^◌, map, None, length, take, IfOk, IfErr, OnOk};
ghost use Rattle.std.specs.List.{All};
ghost use Rattle.leaf_rules.specs.Ordered.{IsOrdered};
ghost use Rattle.leaf_rules.specs.Leaves.{table_leaves};
ghost use Rattle.leaf_rules.specs.StructureLeaves.{leaves_in};
ghost use Rattle.leaf_rules.specs.Structures.{behind};
ghost use Rattle.leaf_rules.specs.Tables.{HasContainers};
ghost use Rattle.process_rules.specs.Callees.{NamesNone};
ghost use Rattle.process_rules.specs.Calling.{callee_meant};
ghost use Rattle.process_rules.specs.Doers.{NamesNoPerformer};
ghost use Rattle.process_rules.specs.Knowing.{IsKnowing};
ghost use Rattle.process_rules.specs.Shapes.{shape_at, shapes_of, told_shape};
ghost use Rattle.template_check.specs.Built.{AreSoundBehind, AreSoundWithin, IsSound};
ghost use Rattle.template_check.specs.Classed.{IsClassed};
ghost use Rattle.template_check.specs.Compiling.{AreBuilt, AreLeavesOf, HasPeopleOf, HasTree, IsNamedBy, IsMeantBy};
ghost use Rattle.template_check.specs.Found.{AreGraphsFound};
ghost use Rattle.template_check.specs.Meant.{reading_of};
ghost use Rattle.template_check.specs.Judged.{line_at, IsFault, IsEarlyFault, IsJudged};
ghost use Rattle.template_check.specs.Rules.{fault_in, from_callees, from_connectors, from_leaves, from_sizes};
ghost use Rattle.template_check.specs.Rules.{later_rules, rules_on_connectors, rules_on_names, rules_on_uses};
ghost use Rattle.template_check.specs.Rules.{IsFirstBroken};
ghost use Rattle.text_graphs.specs.Blocks.{lists_of, IsCovered};
ghost use Rattle.text_graphs.specs.Graphs.{graph_at, graphs_in, AreGraphsOf, InGraphs};
ghost use Rattle.text_graphs.specs.Texts.{processes_in, structures_in, AreNamesApart, IsConnected};

use crate::building::Builder;
use crate::faults::{ImportFault, RuleFault};
use crate::judging::{
    first_of_callees, first_of_connectors, first_of_counts, first_of_leaves, first_of_lines,
    first_of_names, first_of_people, first_of_sizes, first_of_structures,
};
use fdl_lexer::{LexFault, lex};
use fdl_parser::{SyntaxFault, parse};
use flow_model::{ItemTree, List, PersonDef, Template, Tree};
use leaf_rules::{LeafClass, LeafTable, Structures};
use process_rules::{Catalog, ContainerClasses, Known, Shape, shapes};
use std::alloc::{AllocError, Global};
use text_graphs::{Scope, narrow, text_scopes};

/// A text has at most this many bytes.
const MOST_BYTES: usize = 1_048_576;

/// What an accepted text adds to the library.
#[derive(Drop)]
pub struct Compiled {
    pub templates: List<Template>,
    pub people: List<PersonDef>,
    /// The classes of the containers of each template.
    pub containers: List<ContainerClasses>,
    /// The classes of structures that the text adds.
    pub classes: List<LeafClass>,
}

/// The line of a place: 1 and the number of line feeds before it.
pub fn line_of(text: &[u8], place: u32) -> u32
    requires { length (take place text.now) < 2 ^ 32 - 1 }
    ensures { result ≡ line_at text.now place }
{
    let before = text.get(..place as usize).unwrap_or(text);
    let mut line = 1;
    for byte in before {
        if *byte == b'\n' {
            line += 1;
        }
    }
    line
}

fn fault(text: &[u8], rule: u8, place: u32) -> ImportFault
    requires { length (take place text.now) < 2 ^ 32 - 1 }
    ensures { IsFault text.now rule place result }
{
    ImportFault::Rule(RuleFault {
        rule,
        line: line_of(text, place),
        place,
    })
}

/// The tree of a text; else the first of rules 1, 2 and 3 that is broken, or rule 24 of a text that is too long.
pub fn syntax_tree(alloc: Global, text: &[u8]) -> Result<Tree, ImportFault>
    ensures tree { IfOk result (HasTree text.now) }
    ensures short { OnOk result (length text.now ≤ 1048576) }
    ensures early { IfErr result (IsEarlyFault text.now) }
{
    if text.len() > MOST_BYTES {
        return Err(fault(text, 24, 0));
    }
    let tokens = match lex(alloc, text) {
        Ok(tokens) => tokens,
        Err(LexFault::Byte(place)) => return Err(fault(text, 1, place)),
        Err(LexFault::Token(place)) => return Err(fault(text, 2, place)),
        Err(LexFault::NoMemory) => return Err(ImportFault::NoMemory),
    };
    match parse(alloc, text, &tokens) {
        Ok(tree) => Ok(tree),
        Err(SyntaxFault::At(place)) => Err(fault(text, 3, place)),
        Err(SyntaxFault::NoMemory) => Err(ImportFault::NoMemory),
    }
}

/// The templates and the people of an accepted text, with the classes of its structures.
fn built<'a>(builder: Builder<'a>, tree: &'a Tree, shapes: &[Shape]) -> Result<Compiled, AllocError>
    requires sound { All (λ p. IsSound p.elements) (processes_in tree.now.items) }
    requires performers { (p : ℕ) → InGraphs tree.now.items NamesNoPerformer p → ⊥ }
    requires leaves { AreLeavesOf tree.now.items (table_leaves builder.table) }
    requires found { AreGraphsFound (reading_of builder) tree.now.items }
    requires knowing { IsKnowing builder.known (processes_in tree.now.items) }
    requires shapes { shapes.now
        ≡ map told_shape (shapes_of builder.known.catalog.now.library (processes_in tree.now.items)) }
    ensures built { IfOk result (AreBuilt builder.entry.known.catalog.now.library tree.now.items) }
    ensures classed { IfOk result (IsClassed builder.entry.table.known.now.classes) }
{
    let mut templates = List::new(builder.alloc);
    let mut people = List::new(builder.alloc);
    let mut containers = List::new(builder.alloc);
    for item in tree.items.as_slice() {
        match item {
            ItemTree::Structure(_) => {}
            ItemTree::Person(person) => people.push(builder.person(person)?)?,
            ItemTree::Process(process) => {
                let number = templates.len();
                let shape = shape_of(shapes, number);
                let template = builder.template(narrow(number)?, process, shape)?;
                templates.push(template)?;
                let classes = builder.containers(process);
                containers.push(classes)?;
            }
        }
    }
    Ok(Compiled {
        templates,
        people,
        containers,
        classes: builder.table.into_added(),
    })
}

/// The shape of the process of this number.
fn shape_of(shapes: &[Shape], number: usize) -> Shape
    ensures { result ≡ shape_at shapes.now number }
{
    let shape = shapes.get(number).copied();
    shape.unwrap_or(Shape { depth: 0, size: 0 })
}

/// What a text adds, or the first rule that it breaks, with the place.
type Judged = Result<Compiled, (u8, u32)>;

/// Judges rules 21 to 24 in a text that breaks none of the others, and builds what it adds where it breaks none.
///
/// Names, leaves and conditions that the rules have passed stand for something, so building finds whatever it looks
/// up.
fn sized_and_built<'a>(
    builder: Builder<'a>,
    tree: &'a Tree,
    shapes: &[Shape],
    scopes: &[Scope<'a>],
) -> Result<Judged, AllocError>
    requires graphs { AreGraphsOf tree.now.items (graphs_in scopes.now) }
    requires sound { AreSoundWithin scopes.now (processes_in tree.now.items) }
    requires unbroken { IsFirstBroken (rules_on_uses tree.now.items) None }
    requires called { (p : ℕ) → InGraphs tree.now.items (NamesNone (callee_meant builder.known)) p → ⊥ }
    requires performers { (p : ℕ) → InGraphs tree.now.items NamesNoPerformer p → ⊥ }
    requires structures { behind builder.table.structures.definitions.items ≡ structures_in tree.now.items }
    requires leaves { AreLeavesOf tree.now.items (table_leaves builder.table) }
    requires knowing { IsKnowing builder.known (processes_in tree.now.items) }
    requires shapes { shapes.now
        ≡ map told_shape (shapes_of builder.known.catalog.now.library (processes_in tree.now.items)) }
    ensures built { IfOk result (λ judged.
        IfOk judged (AreBuilt builder.entry.known.catalog.now.library tree.now.items)) }
    ensures classed { IfOk result (λ judged. IfOk judged (IsClassed builder.entry.table.known.now.classes)) }
    ensures first { IfOk result (λ judged.
        IsFirstBroken (from_sizes builder.entry.known.catalog.now.library tree.now.items) (fault_in judged)) }
{
    let known = &builder.known;
    if let Some(fault) = first_of_sizes(known, tree, shapes) {
        return Ok(Err(fault));
    }
    let structures = builder.table.structures();
    if let Some(fault) = first_of_counts(builder.alloc, tree, structures, known, scopes)? {
        return Ok(Err(fault));
    }
    Ok(Ok(built(builder, tree, shapes)?))
}

/// Judges rules 17 to 24, and builds what the text adds where none is broken.
fn called_and_built<'a>(
    alloc: Global,
    tree: &'a Tree,
    table: LeafTable<'a>,
    scopes: &[Scope<'a>],
    earlier: &'a Catalog,
) -> Result<Judged, AllocError>
    requires graphs { AreGraphsOf tree.now.items (graphs_in scopes.now) }
    requires sound { AreSoundWithin scopes.now (processes_in tree.now.items) }
    requires unbroken { IsFirstBroken (rules_on_uses tree.now.items) None }
    requires structures { behind table.structures.definitions.items ≡ structures_in tree.now.items }
    requires leaves { All (λ s. HasContainers (leaves_in (structures_in tree.now.items)) (table_leaves table)
        (graph_at s)) scopes.now }
    requires known { table.known.now ≡ earlier.now.classes }
    ensures built { IfOk result (λ judged. IfOk judged (AreBuilt earlier.now.library tree.now.items)) }
    ensures classed { IfOk result (λ judged. IfOk judged (IsClassed earlier.now.classes.classes)) }
    ensures first { IfOk result (λ judged.
        IsFirstBroken (from_callees earlier.now.library tree.now.items) (fault_in judged)) }
{
    let known = Known::new(alloc, tree, earlier)?;
    if let Some(fault) = first_of_callees(alloc, &known, tree, &table, scopes)? {
        return Ok(Err(fault));
    }
    if let Some(fault) = first_of_people(alloc, &known, tree, scopes)? {
        return Ok(Err(fault));
    }
    let shapes = shapes(alloc, &known)?;
    let builder = Builder {
        alloc,
        table,
        known,
    };
    sized_and_built(builder, tree, &shapes, scopes)
}

/// Judges rules 13 to 24, and builds what the text adds where none is broken.
fn read_and_built<'a>(
    alloc: Global,
    tree: &'a Tree,
    structures: Structures<'a>,
    scopes: &[Scope<'a>],
    earlier: &'a Catalog,
) -> Result<Judged, AllocError>
    requires graphs { AreGraphsOf tree.now.items (graphs_in scopes.now) }
    requires structures { behind structures.definitions.items ≡ structures_in tree.now.items }
    requires ordered { IsOrdered (behind structures.definitions.items) structures.order }
    requires covered { All (λ p. IsCovered (lists_of scopes.now) p.elements) (processes_in tree.now.items) }
    requires named { All (λ s. AreNamesApart s.elements.now) scopes.now }
    requires connected { All (λ s. IsConnected s.elements.now) scopes.now }
    requires names { IsFirstBroken (rules_on_names tree.now.items) None }
    requires connectors { IsFirstBroken (rules_on_connectors tree.now.items) None }
    ensures built { IfOk result (λ judged. IfOk judged (AreBuilt earlier.now.library tree.now.items)) }
    ensures classed { IfOk result (λ judged. IfOk judged (IsClassed earlier.now.classes.classes)) }
    ensures first { IfOk result (λ judged.
        IsFirstBroken (from_leaves earlier.now.library tree.now.items) (fault_in judged)) }
{
    let table = LeafTable::new(alloc, structures, earlier.classes())?;
    if let Some(fault) = first_of_leaves(tree, &table, scopes) {
        return Ok(Err(fault));
    }
    if let Some(fault) = first_of_lines(alloc, tree, scopes)? {
        return Ok(Err(fault));
    }
    called_and_built(alloc, tree, table, scopes, earlier)
}

/// Judges rules 9 to 24, and builds what the text adds where none is broken.
fn connected_and_built<'a>(
    alloc: Global,
    tree: &'a Tree,
    structures: Structures<'a>,
    scopes: &[Scope<'a>],
    earlier: &'a Catalog,
) -> Result<Judged, AllocError>
    requires graphs { AreGraphsOf tree.now.items (graphs_in scopes.now) }
    requires structures { behind structures.definitions.items ≡ structures_in tree.now.items }
    requires ordered { IsOrdered (behind structures.definitions.items) structures.order }
    requires covered { All (λ p. IsCovered (lists_of scopes.now) p.elements) (processes_in tree.now.items) }
    requires named { All (λ s. AreNamesApart s.elements.now) scopes.now }
    requires names { IsFirstBroken (rules_on_names tree.now.items) None }
    ensures built { IfOk result (λ judged. IfOk judged (AreBuilt earlier.now.library tree.now.items)) }
    ensures classed { IfOk result (λ judged. IfOk judged (IsClassed earlier.now.classes.classes)) }
    ensures first { IfOk result (λ judged.
        IsFirstBroken (from_connectors earlier.now.library tree.now.items) (fault_in judged)) }
{
    match first_of_connectors(alloc, tree, scopes)? {
        Some(fault) => Ok(Err(fault)),
        None => read_and_built(alloc, tree, structures, scopes, earlier),
    }
}

/// What a tree adds to the library, or the first rule from 4 on that it breaks.
fn compile_tree(alloc: Global, tree: &Tree, earlier: &Catalog) -> Result<Judged, AllocError>
    ensures built { IfOk result (λ judged. IfOk judged (AreBuilt earlier.now.library tree.now.items)) }
    ensures classed { IfOk result (λ judged. IfOk judged (IsClassed earlier.now.classes.classes)) }
    ensures first { IfOk result (λ judged.
        IsFirstBroken (later_rules earlier.now.library tree.now.items) (fault_in judged)) }
{
    let scopes = text_scopes(alloc, tree)?;
    let mut structures = Structures::new(alloc, tree)?;
    if let Some(fault) = first_of_names(alloc, tree, &structures, &scopes)? {
        return Ok(Err(fault));
    }
    if let Some(fault) = first_of_structures(alloc, &mut structures, tree)? {
        return Ok(Err(fault));
    }
    connected_and_built(alloc, tree, structures, &scopes, earlier)
}

/// What a text adds to the library of the earlier imports.
///
/// `Rule` comes exactly where it breaks a rule: the least rule, and then the least place, with its line.
pub fn compile(alloc: Global, text: &[u8], earlier: &Catalog) -> Result<Compiled, ImportFault>
    ensures sound { IfOk result (λ compiled. AreSoundBehind (length earlier.now.library.templates) compiled.templates) }
    ensures named { IfOk result (λ compiled. IsNamedBy text.now compiled.templates) }
    ensures meant { IfOk result (λ compiled. IsMeantBy text.now earlier.now.library compiled.templates) }
    ensures people { IfOk result (λ compiled. HasPeopleOf text.now compiled.people) }
    ensures classed { IfOk result (IsClassed earlier.now.classes.classes) }
    ensures judged { IsJudged earlier.now.library text.now result }
{
    let tree = syntax_tree(alloc, text)?;
    match compile_tree(alloc, &tree, earlier)? {
        Ok(compiled) => Ok(compiled),
        Err((rule, place)) => Err(fault(text, rule, place)),
    }
}
