//! The syntax tree of a text. A place is the number of a byte of the text, counted from 0.

use crate::boxes::Boxed;
use crate::graphs::Operator;
use crate::lists::List;
use crate::names::{Name, Txt};

/// A name with the place of its token.
#[derive(Drop)]
pub struct NameAt {
    pub name: Name,
    pub place: u32,
}

/// A number: the place of its `-`, its size (at most 2^64 - 1, else that), and the place of its digits.
#[derive(Drop)]
pub struct NumberAt {
    pub minus: Option<u32>,
    pub size: u64,
    pub place: u32,
}

/// One step of a leaf as it is written.
#[derive(Drop)]
pub enum StepTree {
    Member(Name),
    Rc,
    Place(u64),
}

/// A leaf as it is written, with the place of its first token.
#[derive(Drop)]
pub struct LeafAt {
    pub steps: List<StepTree>,
    pub place: u32,
}

/// The kind of a member.
#[derive(Drop)]
pub enum KindTree {
    Long,
    Str,
    Struct(NameAt),
}

/// A member of a structure, with the count of an array.
#[derive(Drop)]
pub struct Member {
    pub name: NameAt,
    pub kind: KindTree,
    pub count: Option<NumberAt>,
}

/// A STRUCTURE.
#[derive(Drop)]
pub struct StructDef {
    pub name: NameAt,
    pub members: List<Member>,
    pub end: NameAt,
}

/// A PERSON.
#[derive(Drop)]
pub struct PersonTree {
    pub name: NameAt,
    pub roles: List<NameAt>,
    pub end: NameAt,
}

/// An operand of a sum.
#[derive(Drop)]
pub enum OperandTree {
    Leaf(LeafAt),
    Number(NumberAt),
}

/// An operand; `minus` is true behind the mark `-` between two operands.
#[derive(Drop)]
pub struct TermTree {
    pub minus: bool,
    pub operand: OperandTree,
}

/// A side of a comparison: a text with its place, or a sum.
#[derive(Drop)]
pub enum Side {
    Text(Txt, u32),
    Sum(List<TermTree>),
}

/// A condition. Parentheses have no variant of their own.
#[derive(Drop)]
pub enum Cond {
    Or(List<Cond>),
    And(List<Cond>),
    Not(Boxed<Cond>),
    Compare(Side, Operator, Side),
}

/// A condition with the place of its opening parenthesis.
#[derive(Drop)]
pub struct CondAt {
    pub place: u32,
    pub cond: Cond,
}

/// The start condition of an activity.
#[derive(Drop)]
pub enum JoinTree {
    All,
    AtLeastOne,
    AtLeast(NumberAt),
}

/// An attribute of an activity; `Start(true)` is START MANUAL.
#[derive(Drop)]
pub enum AttrTree {
    When(JoinTree),
    Exit(CondAt),
    Start(bool),
    Expires(NumberAt),
    Role(NameAt),
    Person(NameAt),
    Starter,
    Performer(NameAt),
}

/// An attribute with the place of its first word.
#[derive(Drop)]
pub struct AttrAt {
    pub place: u32,
    pub what: AttrTree,
}

/// The transition condition of a connector.
#[derive(Drop)]
pub enum WhenTree {
    Always,
    Cond(CondAt),
    Otherwise,
}

/// A CONTROL line.
#[derive(Drop)]
pub struct ControlTree {
    pub place: u32,
    pub from: NameAt,
    pub to: NameAt,
    pub when: WhenTree,
}

/// An end of a DATA line: SOURCE or SINK, or an activity.
#[derive(Drop)]
pub enum EndTree {
    Border,
    Activity(NameAt),
}

/// The two ends of a DATA line, or the activity of a LOOP line.
#[derive(Drop)]
pub enum EndsTree {
    Line(EndTree, EndTree),
    Loop(NameAt),
}

/// One leaf copied to another.
#[derive(Drop)]
pub struct MapTree {
    pub from: LeafAt,
    pub to: LeafAt,
}

/// A DATA line.
#[derive(Drop)]
pub struct DataTree {
    pub place: u32,
    pub ends: EndsTree,
    pub maps: List<MapTree>,
}

/// What an activity does.
#[cycle(elements)]
#[derive(Drop)]
pub enum WorkTree {
    Program,
    Process(NameAt),
    Block(List<ElementTree>),
}

/// An activity.
#[cycle(elements)]
#[derive(Drop)]
pub struct ActivityTree {
    pub place: u32,
    pub work: WorkTree,
    pub name: NameAt,
    pub input: NameAt,
    pub output: NameAt,
    pub attrs: List<AttrAt>,
    pub end: NameAt,
}

/// An element of a process or a block.
#[cycle(elements)]
#[derive(Drop)]
pub enum ElementTree {
    Activity(ActivityTree),
    Control(ControlTree),
    Line(DataTree),
}

/// A PROCESS.
#[derive(Drop)]
pub struct ProcessTree {
    pub place: u32,
    pub name: NameAt,
    pub input: NameAt,
    pub output: NameAt,
    pub elements: List<ElementTree>,
    pub end: NameAt,
}

/// An item of a text.
#[derive(Drop)]
pub enum ItemTree {
    Structure(StructDef),
    Person(PersonTree),
    Process(ProcessTree),
}

/// The syntax tree of a text.
#[derive(Drop)]
pub struct Tree {
    pub items: List<ItemTree>,
}
