//! Compiled processes: leaves and containers, conditions, graphs, templates, the library.

use crate::boxes::Boxed;
use crate::leaf_rows::LeafRows;
use crate::lists::List;
use crate::names::{Name, Txt};
use std::marker::Model;
use std::rc::Rc;

/// One step of a leaf's name: a member, the return code, or a place of an array.
#[derive(Drop)]
pub enum Step {
    Member(Name),
    Rc,
    Place(u32),
}

/// The name of a leaf, as `'A'.'B'[0]` or `'_RC'`.
#[derive(Drop)]
pub struct LeafName {
    pub steps: List<Step>,
}

/// What a leaf holds: a whole number of 64 bits or a text.
#[derive(Clone, Copy, Debug, PartialEq, Eq)]
pub enum Kind {
    Long,
    Str,
}

/// A leaf of a structure.
#[derive(Drop)]
pub struct Leaf {
    pub name: LeafName,
    pub kind: Kind,
}

/// The leaves of a structure, depth first in the order of declaration: a run of the rows of a table that
/// all structures of a text share.
#[derive(Drop)]
pub struct Leaves {
    pub(crate) table: Rc<LeafRows>,
    pub(crate) first: u32,
    pub(crate) count: u32,
}

impl Model for Leaves {
    ghost use Rattle.std.specs.Prelude.{◌≤◌, ◌-◌, length};
    ghost use Rattle.flow_model.specs.LeafLists.{LeafList, run_of};

    ghost Value = { LeafList };

    ghost view = { λ it. run_of it.table.value it.first it.count };

    ghost invariant = { λ it. it.count ≤ length it.table.value - it.first };
}

/// The value of a leaf.
#[derive(Drop)]
pub enum Value {
    Whole(i64),
    Text(Txt),
}

/// One value for each leaf.
#[derive(Drop)]
pub struct Container {
    pub values: List<Value>,
}

/// A comparison.
#[derive(Clone, Copy, Debug, PartialEq, Eq)]
pub enum Operator {
    Eq,
    Ne,
    Lt,
    Le,
    Gt,
    Ge,
}

/// An operand of a sum: a number, or the leaf at a place.
#[derive(Clone, Copy, Debug, PartialEq, Eq)]
pub enum Operand {
    Number(i64),
    Leaf(u32),
}

/// An operand with the sign that it has in its sum.
#[derive(Clone, Copy, Debug, PartialEq, Eq)]
pub struct Term {
    pub minus: bool,
    pub operand: Operand,
}

/// A side of a comparison of texts.
#[derive(Drop)]
pub enum TextSide {
    Leaf(u32),
    Text(Txt),
}

/// A condition whose leaves are places of a container.
#[derive(Drop)]
pub enum Expr {
    Or(List<Expr>),
    And(List<Expr>),
    Not(Boxed<Expr>),
    Whole(Operator, List<Term>, List<Term>),
    Texts(Operator, TextSide, TextSide),
}

/// The start condition of an activity: what it asks of its incoming connectors.
#[derive(Clone, Copy, Debug, PartialEq, Eq)]
pub enum Join {
    All,
    AtLeastOne,
    AtLeast(u32),
}

/// Who may do a manual activity.
#[derive(Drop)]
pub enum DoneBy {
    Role(Name),
    Person(Name),
    Starter,
    /// The person who did the activity at this place of the same graph.
    PerformerOf(u32),
}

/// A program activity: whether a person starts it, who may, and after how many minutes it is late.
#[derive(Drop)]
pub struct Program {
    pub manual: bool,
    pub by: DoneBy,
    pub expires: Option<u32>,
}

/// What an activity does.
#[cycle(graph)]
#[derive(Drop)]
pub enum Work {
    Program(Program),
    Block(Graph),
    /// The template at this place of the library.
    Process(u32),
}

/// An activity: a node of a graph.
#[cycle(graph)]
#[derive(Drop)]
pub struct Activity {
    pub name: Name,
    pub work: Work,
    pub input: Leaves,
    pub output: Leaves,
    pub join: Join,
    pub exit: Option<Expr>,
}

/// The transition condition of a connector.
#[derive(Drop)]
pub enum When {
    Always,
    Cond(Expr),
    Otherwise,
}

/// A control connector between the activities at two places.
#[derive(Drop)]
pub struct Control {
    pub from: u32,
    pub to: u32,
    pub when: When,
}

/// One leaf copied to another.
#[derive(Clone, Copy, Debug, PartialEq, Eq)]
pub struct LeafMap {
    pub from: u32,
    pub to: u32,
}

/// An end of a data line: the scope's own container, or the activity at a place.
#[derive(Clone, Copy, Debug, PartialEq, Eq)]
pub enum MapEnd {
    Border,
    Activity(u32),
}

/// A data line: from the scope's input or an activity's output to an activity's input or the scope's output.
#[derive(Drop)]
pub struct DataLine {
    pub from: MapEnd,
    pub to: MapEnd,
    pub maps: List<LeafMap>,
}

/// A LOOP line: from the output of an attempt to the input of the next one.
#[derive(Drop)]
pub struct LoopLine {
    pub activity: u32,
    pub maps: List<LeafMap>,
}

/// Where a graph's lines lead, by the places of its activities: what follows from its lists alone.
#[derive(Drop)]
pub struct Wiring {
    /// The activities by the longest walk of connectors that leads to each, and then by number.
    pub order: List<u32>,
    /// For each activity the places of the connectors that lead to it.
    pub incoming: List<List<u32>>,
    /// For each activity the places of the connectors that leave it.
    pub outgoing: List<List<u32>>,
    /// For each activity the places of the data lines that lead to it.
    pub feeding: List<List<u32>>,
    /// The places of the data lines that lead to the scope's output.
    pub sinking: List<u32>,
    /// For each activity the places of its LOOP lines.
    pub looping: List<List<u32>>,
}

/// A graph of activities with its connectors and data lines, in text order.
#[cycle(graph)]
#[derive(Drop)]
pub struct Graph {
    pub input: Leaves,
    pub output: Leaves,
    pub activities: List<Activity>,
    pub controls: List<Control>,
    pub lines: List<DataLine>,
    pub loops: List<LoopLine>,
    pub wiring: Wiring,
}

/// A version of a process.
#[derive(Drop)]
pub struct Template {
    pub name: Name,
    pub version: u32,
    pub graph: Graph,
    /// How deep blocks and subprocesses nest in it.
    pub depth: u32,
    /// Its connectors, 2, and the sizes of its blocks and of the processes that it calls, at each use.
    pub size: u32,
}

/// A person with the roles of the latest declaration.
#[derive(Drop)]
pub struct PersonDef {
    pub name: Name,
    pub roles: List<Name>,
}

/// The templates and the persons of all imports.
#[derive(Drop)]
pub struct Library {
    pub templates: List<Template>,
    pub people: List<PersonDef>,
}
