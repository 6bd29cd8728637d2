//! What the worklists say of an item that became ready, changed its hold or was completed.
ghost use Rattle.std.specs.Prelude.{◌≡◌, OnOk, IfOk, is_some};
ghost use Rattle.flow_core.specs.Shelving.{line_now, stands, SameStanding, listed, all_listed, unlisted};

use crate::paths::rank_of;
use crate::refusals::copy_hold;
use crate::state::Core;
use flow_model::{DoneBy, ItemLine, Path, Program};
use std::alloc::{AllocError, Global};

/// An equal program.
fn copy_program(alloc: Global, program: &Program) -> Result<Program, AllocError>
    ensures { IfOk result (λ copy. copy ≡ program.now) }
{
    Ok(Program {
        manual: program.manual,
        by: match &program.by {
            DoneBy::Role(role) => DoneBy::Role(role.copy(alloc)?),
            DoneBy::Person(name) => DoneBy::Person(name.copy(alloc)?),
            DoneBy::Starter => DoneBy::Starter,
            DoneBy::PerformerOf(place) => DoneBy::PerformerOf(*place),
        },
        expires: program.expires,
    })
}

impl Core {
    /// What the worklists know of an item; None where it isn't there or isn't manual.
    fn manual_line(&self, item: &Path) -> Result<Option<ItemLine>, AllocError>
        ensures { IfOk result (λ line. line ≡ line_now self.now item.now) }
    {
        let Some(known) = self.known(item) else {
            return Ok(None);
        };
        if !known.program.manual {
            return Ok(None);
        }
        let performer = match known.performer {
            None => None,
            Some(name) => Some(name.copy(self.alloc)?),
        };
        Ok(Some(ItemLine {
            hold: copy_hold(self.alloc, known.item.hold())?,
            program: copy_program(self.alloc, known.program)?,
            starter: known.starter.copy(self.alloc)?,
            performer,
        }))
    }

    /// Lists a manual item as it stands now.
    pub(crate) fn list_item(&mut self, item: &Path) -> Result<(), AllocError>
        ensures rest { self.new ≡ record self.old { worklists = self.new.worklists } }
        ensures shelves { OnOk result (SameStanding (stands self.new) (listed self.old (stands self.old) item.now)) }
    {
        let Some(line) = self.manual_line(item)? else {
            return Ok(());
        };
        let Some(graph) = self.root_graph(item.root) else {
            return Ok(());
        };
        let rank = rank_of(self.alloc, self.library(), graph, item)?;
        self.worklists.set(item, &rank, &line)
    }

    /// Lists manual items as they stand now, one after the other.
    pub(crate) fn list_all(&mut self, items: Vec<Path>) -> Result<(), AllocError>
        ensures rest { self.new ≡ record self.old { worklists = self.new.worklists } }
        ensures shelves { OnOk result (SameStanding (stands self.new)
            (all_listed self.old items.items (stands self.old))) }
    {
        for item in items {
            self.list_item(&item)?;
        }
        Ok(())
    }

    /// Takes an item off the worklists, where it is manual: no other is on one.
    pub(crate) fn unlist_item(&mut self, item: &Path, manual: bool) -> Result<(), AllocError>
        requires { manual ≡ is_some (line_now self.old item.now) }
        ensures rest { self.new ≡ record self.old { worklists = self.new.worklists } }
        ensures shelves { OnOk result (SameStanding (stands self.new) (unlisted self.old item.now (stands self.old))) }
    {
        if !manual {
            return Ok(());
        }
        if let Some(graph) = self.root_graph(item.root) {
            let rank = rank_of(self.alloc, self.library(), graph, item)?;
            self.worklists.drop_item(&rank);
        }
        Ok(())
    }
}
