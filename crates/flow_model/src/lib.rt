//! What are the things called, and what do they mean: the types of process texts, compiled processes,
//! commands and transactions, and in `specs/` the definitions of containers, conditions, fates and views.
//!
//! Knows nothing of how any of it is kept, printed or read. Begin with [`graphs`] (a compiled process)
//! and `specs/Fates.antt` (what follows from the accepted completions).
#![tactic(auto)]

mod boxes;
mod commands;
mod copies;
mod graphs;
mod instances;
mod leaf_rows;
mod leaves;
mod lists;
mod names;
mod path_reading;
mod paths;
mod transactions;
mod trees;

pub use boxes::Boxed;
pub use commands::{Command, Completion, Outcome, Query, RawSetting, RawValue, Target};
pub use graphs::{
    Activity, Container, Control, DataLine, DoneBy, Expr, Graph, Join, Kind, Leaf, LeafMap,
    LeafName, Leaves, Library, LoopLine, MapEnd, Operand, Operator, PersonDef, Program, Step,
    Template, Term, TextSide, Value, When, Wiring, Work,
};
pub use instances::{
    Fact, Fate, FateRow, Hold, ItemLine, Message, Mode, Part, Path, Phase, SourceEnd, Who, WorkLine,
};
pub use leaf_rows::{LeafRow, LeafRows};
pub use leaves::{LeafSteps, StepAt};
pub use lists::List;
pub use names::{Bytes, Name, NameFault, Txt, is_name, is_text};
pub use path_reading::path_of;
pub use paths::{PathFault, path_text, write_path};
pub use transactions::{Numbered, Setting, Transaction};
pub use trees::{
    ActivityTree, AttrAt, AttrTree, Cond, CondAt, ControlTree, DataTree, ElementTree, EndTree,
    EndsTree, ItemTree, JoinTree, KindTree, LeafAt, MapTree, Member, NameAt, NumberAt, OperandTree,
    PersonTree, ProcessTree, Side, StepTree, StructDef, TermTree, Tree, WhenTree, WorkTree,
};
