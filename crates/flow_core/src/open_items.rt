//! The open items of all roots that haven't ended, and the clock.
ghost use Rattle.std.specs.Prelude.{◌≡◌, ◌++◌, map, option_map, IfOk, OnOk};
ghost use Rattle.std.specs.List.{filter_map};
ghost use Rattle.flow_core.specs.Answers.{AreRowsOf};
ghost use Rattle.flow_core.specs.OpenItems.{told_of, open_at as opened_at, attempt_left, attempt_of, open_in, AreOpen};
ghost use Rattle.flow_core.specs.OpenItems.{AddsOpen};
ghost use Rattle.flow_core.specs.Refusals.{is_going};

use crate::state::{Core, Root};
use flow_model::{Fate, FateRow, Hold, List, Mode, Name, Part, Path, Program};
use navigator::Instance;
use std::alloc::{AllocError, Global};

/// An open item, and what decides when it is late and who may do it.
#[derive(Drop)]
pub struct OpenItem<'a> {
    pub item: Path,
    /// The clock when the item became ready.
    pub since: u64,
    pub program: &'a Program,
    pub hold: &'a Hold,
    /// Who started its root.
    pub starter: &'a Name,
    /// The person whose DONE PERFORMER OF asks for, where there is one.
    pub performer: Option<&'a Name>,
}

/// The attempt that a fate leaves open.
fn open_attempt(fate: Fate) -> Option<u64>
    ensures { result ≡ attempt_left fate }
{
    match fate {
        Fate::Waiting => None,
        Fate::Ready(attempt) => Some(attempt),
        Fate::Running(attempt) => Some(attempt),
        Fate::Finished(_) => None,
        Fate::Dead => None,
    }
}

/// The path of an attempt of a row's activity.
fn attempt_path(row: FateRow, attempt: u64) -> Result<Path, AllocError>
    ensures { IfOk result (λ path. path ≡ attempt_of row attempt) }
{
    let FateRow {
        scope,
        name,
        fate: _,
    } = row;
    let Path { root, parts } = scope;
    let mut parts = parts;
    parts.push(Part { name, attempt })?;
    Ok(Path { root, parts })
}

/// Whether the items of a root of this mode are open.
fn has_open_items(mode: Mode) -> bool
    ensures { result ≡ is_going mode }
{
    match mode {
        Mode::Active => true,
        Mode::Suspended => true,
        Mode::Done => false,
        Mode::Terminated => false,
    }
}

impl Core {
    /// The clock: the minutes of the last CLOCK, 0 before the first.
    pub fn clock(&self) -> u64
        ensures { result ≡ self.now.clock }
    {
        self.clock
    }

    /// The item of a path as one that is open; None exactly where there is none.
    fn open_at(&self, item: Path) -> Option<OpenItem<'_>>
        ensures { option_map told_of result ≡ opened_at self.now item }
    {
        let known = self.known(&item)?;
        Some(OpenItem {
            since: known.item.state.since(),
            program: known.program,
            hold: known.item.hold(),
            starter: known.starter,
            performer: known.performer,
            item,
        })
    }

    /// The open item of a row; None where the row has none.
    fn open_item(&self, row: FateRow) -> Result<Option<OpenItem<'_>>, AllocError>
        ensures { IfOk result (λ left. option_map told_of left ≡ open_in self.now row) }
    {
        let Some(attempt) = open_attempt(row.fate) else {
            return Ok(None);
        };
        let item = attempt_path(row, attempt)?;
        Ok(self.open_at(item))
    }

    /// Adds the open items of rows.
    fn add_open_rows<'a>(
        &'a self,
        rows: List<FateRow>,
        found: &mut Vec<OpenItem<'a>>,
    ) -> Result<(), AllocError>
        ensures { OnOk result (map told_of found.new.items ≡ map told_of found.old.items
            ++ filter_map (open_in self.now) rows) }
    {
        for row in rows.into_vec() {
            if let Some(open) = self.open_item(row)? {
                found.push(open)?;
            }
        }
        Ok(())
    }

    /// The view of a root in show order.
    pub(crate) fn rows_in(
        &self,
        alloc: Global,
        instance: &Instance,
    ) -> Result<List<FateRow>, AllocError>
        ensures { IfOk result (AreRowsOf self.now.store instance.now) }
    {
        instance.rows(alloc, self.library())
    }

    /// Adds the open items of a root.
    fn add_open_items<'a>(
        &'a self,
        alloc: Global,
        root: &'a Root,
        found: &mut Vec<OpenItem<'a>>,
    ) -> Result<(), AllocError>
        ensures { OnOk result (AddsOpen self.now root.now.instance (map told_of found.old.items)
            (map told_of found.new.items)) }
    {
        if !has_open_items(root.instance.mode()) {
            return Ok(());
        }
        let rows = self.rows_in(alloc, &root.instance)?;
        self.add_open_rows(rows, found)
    }

    /// The items that are ready or running in roots that are active or suspended, by root and then in show order.
    pub fn open_items(&self, alloc: Global) -> Result<Vec<OpenItem<'_>>, AllocError>
        ensures { IfOk result (λ found. AreOpen self.now (map told_of found.items)) }
    {
        let mut found = Vec::new(alloc);
        for (_number, root) in self.live_roots.iter() {
            self.add_open_items(alloc, root, &mut found)?;
        }
        Ok(found)
    }
}
