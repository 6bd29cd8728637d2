//! The rows of the leaves of all structures of a text: those of a structure go on with those of its members' kinds.
ghost use Rattle.std.specs.Prelude.{◌≡◌, ◌<◌, ◌+◌, ◌++◌, ◌∷◌, [], length, map, false, slice_set};
ghost use Rattle.std.specs.Prelude.{List as Seq, ℕ, IfOk, OnOk};
ghost use Rattle.flow_model.specs.LeafRows.{place_steps, linked_steps};
ghost use Rattle.flow_model.specs.declared.graphs.Kind.TheVariants.{Long};
ghost use Rattle.flow_model.specs.declared.graphs.Leaf.{Leaf};
ghost use Rattle.graph_check.specs.Walks.{IsOrder};
ghost use Rattle.leaf_rules.specs.KindEdges.{kind_edges};
ghost use Rattle.leaf_rules.specs.ReturnCodes.{return_code};
ghost use Rattle.leaf_rules.specs.Runs.{run_named, IsRun, IsKindMade, AreKindsMade, AreLeavesMade, IsRowed};
ghost use Rattle.leaf_rules.specs.Structures.{behind};
ghost use Rattle.leaf_rules.specs.StructureLeaves.{place_step, below, kind_leaves, member_leaves, members_leaves};

use crate::structures::{Structures, element_count};
use flow_model::{Kind, KindTree, LeafRow, LeafRows, Member, NameAt, Step, StructDef};
use std::alloc::{AllocError, Global};
use std::rc::Rc;
use text_graphs::narrow;

/// The rows of a structure, that of the return code before those of its leaves.
#[derive(Clone, Copy, Debug)]
pub struct Run {
    pub first: u32,
    pub count: u32,
}

/// Adds a leaf that begins with a step, and goes on with the row before this one; 0 is none.
fn add_row(
    table: &mut LeafRows,
    head: &Rc<Step>,
    place: u16,
    rest: usize,
    kind: Kind,
) -> Result<(), AllocError>
    ensures { OnOk result (table.new ≡ table.old ++ record {
      name =
          record { steps = head.now.value ∷ (place_steps place ++ linked_steps table.old rest) };
      kind = kind;
    } ∷ []) }
{
    let rest = narrow(rest)?;
    table.push(LeafRow {
        head: head.clone()?,
        rest,
        place,
        kind,
    })
}

/// Adds the leaves of a structure behind a step that leads to it.
fn add_below(table: &mut LeafRows, head: &Rc<Step>, place: u16, run: Run) -> Result<(), AllocError>
    ensures { (inner : Seq Leaf) → IsRun table.old run (return_code ∷ inner)
        → OnOk result (table.new ≡ table.old ++ map (below (head.now.value ∷ place_steps place)) inner) }
{
    let first = run.first as usize + 1;
    let past = table.len().min(run.first as usize + run.count as usize);
    for row in first..past {
        if let Some(kind) = table.kind(row) {
            add_row(table, head, place, row + 1, kind)?;
        }
    }
    Ok(())
}

/// One more than a place; an error where it is larger than a row has room for: no structure has so many leaves.
fn small_place(element: u64) -> Result<u16, AllocError>
    ensures { IfOk result (λ place. place ≡ element + 1) }
{
    match u16::try_from(element.saturating_add(1)) {
        Ok(place) => Ok(place),
        Err(_) => Err(AllocError),
    }
}

/// The place of an element as a row has it.
fn place_of(member: &Member, element: u64) -> Result<u16, AllocError>
    ensures { IfOk result (λ place. place_steps place ≡ place_step member.now.count element) }
{
    match &member.count {
        None => Ok(0),
        Some(_) => small_place(element),
    }
}

fn no_runs(alloc: Global, structures: usize) -> Result<Vec<Run>, AllocError>
    ensures { IfOk result (λ runs. length runs.items ≡ structures) }
{
    let none = Run { first: 0, count: 0 };
    Ok(vec![in alloc; none; structures]?)
}

fn set_run(runs: &mut Vec<Run>, number: u32, run: Run)
    requires { number < length runs.old.items }
    ensures { runs.new.items ≡ slice_set runs.old.items number run }
{
    runs[number as usize] = run;
}

impl<'a> Structures<'a> {
    /// The run of the structure of this name.
    fn run(&self, runs: &[Run], name: &'a NameAt) -> Option<Run>
        ensures { result ≡ run_named (behind self.now.definitions.items) runs.now name.now.name }
    {
        let number = self.number(name)?;
        runs.get(number as usize).copied()
    }

    /// Whether a kind has leaves.
    pub(crate) fn has_leaves(&self, runs: &[Run], kind: &'a KindTree) -> bool
        ensures { result ≡ false → (leaves : Seq Leaf) (inner : Seq ℕ → Seq Leaf)
            → IsKindMade (behind self.now.definitions.items) runs.now leaves inner kind.now
            → kind_leaves inner kind.now ≡ [] }
    {
        match kind {
            KindTree::Long => true,
            KindTree::Str => true,
            KindTree::Struct(name) => match self.run(runs, name) {
                None => false,
                Some(run) => run.count > 1,
            },
        }
    }

    /// Adds the leaves of an element of a member.
    fn add_element(
        &self,
        table: &mut LeafRows,
        runs: &[Run],
        head: &Rc<Step>,
        place: u16,
        kind: &'a KindTree,
    ) -> Result<(), AllocError>
        ensures { (inner : Seq ℕ → Seq Leaf) → IsKindMade
            (behind self.now.definitions.items) runs.now table.old inner kind.now
            → OnOk result (table.new ≡ table.old ++ map (below (head.now.value ∷ place_steps place))
            (kind_leaves inner kind.now)) }
    {
        match kind {
            KindTree::Long => add_row(table, head, place, 0, Kind::Long),
            KindTree::Str => add_row(table, head, place, 0, Kind::Str),
            KindTree::Struct(name) => match self.run(runs, name) {
                None => Ok(()),
                Some(run) => add_below(table, head, place, run),
            },
        }
    }

    /// Adds the leaves of a member, element by element.
    fn add_member(
        &self,
        alloc: Global,
        table: &mut LeafRows,
        runs: &[Run],
        member: &'a Member,
    ) -> Result<(), AllocError>
        ensures { (inner : Seq ℕ → Seq Leaf) → IsKindMade
            (behind self.now.definitions.items) runs.now table.old inner member.now.kind
            → OnOk result (table.new ≡ table.old ++ member_leaves inner member.now) }
    {
        if !self.has_leaves(runs, &member.kind) {
            return Ok(());
        }
        let head = Rc::new(alloc, Step::Member(member.name.name.copy(alloc)?))?;
        for element in 0..element_count(member) {
            let place = place_of(member, element)?;
            self.add_element(table, runs, &head, place, &member.kind)?;
        }
        Ok(())
    }

    fn add_members(
        &self,
        alloc: Global,
        table: &mut LeafRows,
        runs: &[Run],
        members: &'a [Member],
    ) -> Result<(), AllocError>
        ensures { (inner : Seq ℕ → Seq Leaf) → AreKindsMade
            (behind self.now.definitions.items) runs.now table.old inner members.now
            → OnOk result (table.new ≡ table.old ++ members_leaves inner members.now) }
    {
        for member in members {
            self.add_member(alloc, table, runs, member)?;
        }
        Ok(())
    }

    /// Adds the rows of a structure behind those of its kinds.
    fn add_structure(
        &self,
        alloc: Global,
        table: &mut LeafRows,
        runs: &[Run],
        structure: &'a StructDef,
    ) -> Result<Run, AllocError>
        ensures { (inner : Seq ℕ → Seq Leaf) → AreKindsMade
            (behind self.now.definitions.items) runs.now table.old inner structure.now.members
            → IfOk result (λ run. IsRowed table.old table.new run
            (return_code ∷ members_leaves inner structure.now.members)) }
    {
        let first = table.len();
        add_row(table, &Rc::new(alloc, Step::Rc)?, 0, 0, Kind::Long)?;
        self.add_members(alloc, table, runs, structure.members.as_slice())?;
        Ok(Run {
            first: narrow(first)?,
            count: narrow(table.len().saturating_sub(first))?,
        })
    }

    /// The rows of all structures, made in an order in which each comes behind its kinds.
    pub(crate) fn rows(
        &self,
        alloc: Global,
        order: &[u32],
    ) -> Result<(LeafRows, Vec<Run>), AllocError>
        requires { IsOrder (length (behind self.now.definitions.items))
            (kind_edges (behind self.now.definitions.items)) order.now }
        ensures { IfOk result (λ made. AreLeavesMade (behind self.now.definitions.items) made.1.items made.0) }
    {
        let mut table = LeafRows::new(alloc);
        let mut runs = no_runs(alloc, self.len())?;
        for number in order {
            let structure = self.structure(*number);
            let run = self.add_structure(alloc, &mut table, &runs, structure)?;
            set_run(&mut runs, *number, run);
        }
        Ok((table, runs))
    }
}
