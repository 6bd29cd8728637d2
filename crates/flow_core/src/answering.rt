//! Replies to queries and to transactions.
ghost use Rattle.std.specs.Prelude.{◌≡◌, ◌++◌, Some, OnOk, IfOk};
ghost use Rattle.process_rules.specs.Imports.{latest_person};
ghost use Rattle.flow_core.specs.Replies.{note_text, applied_text, refusal_text};
ghost use Rattle.flow_core.specs.Answers.{templates_text as text_of_templates, queue_answer, audit_answer, instance_of};
ghost use Rattle.flow_core.specs.Answers.{mode_now, IsShown, IsListed};
ghost use Rattle.flow_core.specs.Allowing.{seen_entry, known_entry};
ghost use Rattle.flow_core.specs.Containing.{IsOutputOf, IsInputOf, IsOutputShown, IsOutputBy, IsOutputAnswer};
ghost use Rattle.flow_core.specs.Containing.{IsInputShown, IsInputAnswer};
ghost use Rattle.flow_core.specs.Queries.{IsAnswer};
ghost use Rattle.flow_core.specs.Driving.{templates};
ghost use Rattle.flow_model.specs.ScopeContainers.{graph_of};
ghost use Rattle.flow_core.specs.declared.refusals.Refusal.TheVariants.{Item as NoItem};

use crate::applying::{Applied, Note};
use crate::items::Found;
use crate::listings::{
    write_audit, write_input, write_output, write_queue, write_templates, write_view,
    write_worklist,
};
use crate::refusals::{Refusal, write_refusal};
use crate::state::Core;
use crate::words::{end_line, numbered};
use audit_trail::write_message;
use flow_model::{Bytes, Container, Graph, Mode, Name, PersonDef, Query};
use navigator::{Instance, Item};
use reply_text::{write_fate, write_mode};
use std::alloc::AllocError;

/// Appends what the reply of a transaction says behind its number.
fn write_note(out: &mut Vec<u8>, note: &Note) -> Result<(), AllocError>
    ensures { OnOk result (out.new.items ≡ out.old.items ++ note_text note.now) }
{
    match note {
        Note::Imported(count) => numbered(out, b"IMPORT ", u64::from(*count)),
        Note::Rooted(root) => numbered(out, b"ROOT ", *root),
        Note::Turned(queue, message) => {
            numbered(out, b"TURN ", u64::from(*queue))?;
            out.push(b' ')?;
            write_message(out, message)
        }
        Note::Fated(fate) => write_fate(out, *fate),
        Note::Taken(take) => numbered(out, b"TAKE ", *take),
        Note::Moded(mode) => write_mode(out, *mode),
        Note::Deleted => out.extend_from_slice(b"DELETED"),
        Note::Clocked(minutes) => numbered(out, b"CLOCK ", *minutes),
    }
}

/// Appends the reply of a transaction.
pub fn write_applied(out: &mut Vec<u8>, applied: &Applied) -> Result<(), AllocError>
    ensures { OnOk result (out.new.items ≡ out.old.items ++ applied_text applied.now) }
{
    numbered(out, b"ok ", applied.number)?;
    out.push(b' ')?;
    write_note(out, &applied.note)?;
    end_line(out)
}

impl Core {
    fn refused(&self, refusal: &Refusal) -> Result<Vec<u8>, AllocError>
        ensures { IfOk result (λ out. out.items ≡ refusal_text refusal.now) }
    {
        let mut out = Vec::new(self.alloc);
        write_refusal(&mut out, refusal)?;
        Ok(out)
    }

    fn view_of(&self, root: u64, instance: &Instance) -> Result<Vec<u8>, AllocError>
        ensures { IfOk result (λ out. IsShown self.now.store root (Some instance.now) out.items) }
    {
        let rows = self.rows_in(self.alloc, instance)?;
        let mut out = Vec::new(self.alloc);
        write_view(&mut out, root, instance.mode(), rows.as_slice())?;
        Ok(out)
    }

    fn show(&self, root: u64) -> Result<Vec<u8>, AllocError>
        ensures { IfOk result (λ out. IsShown self.now.store root
            (instance_of self.now root) out.items) }
    {
        match self.instance(root) {
            None => self.refused(&Refusal::Root(root)),
            Some(instance) => self.view_of(root, instance),
        }
    }

    /// The output of a root, where it is complete.
    fn root_output(&self, instance: &Instance, graph: &Graph) -> Result<Container, AllocError>
        requires { graph_of (templates self.now) instance.now.template ≡ Some graph.now }
        ensures { IfOk result (IsOutputOf (templates self.now) graph.now instance.now) }
    {
        instance.output(self.alloc, self.library())
    }

    /// The text of the output of a root that is done.
    fn output_of(
        &self,
        root: u64,
        instance: &Instance,
        graph: &Graph,
    ) -> Result<Vec<u8>, AllocError>
        requires { graph_of (templates self.now) instance.now.template ≡ Some graph.now }
        ensures { IfOk result (λ out. IsOutputShown (templates self.now) root graph.now instance.now out.items) }
    {
        let output = self.root_output(instance, graph)?;
        let mut out = Vec::new(self.alloc);
        write_output(&mut out, root, &graph.output, &output)?;
        Ok(out)
    }

    /// The output of a root, if it is done.
    fn output_by_mode(
        &self,
        root: u64,
        instance: &Instance,
        graph: &Graph,
    ) -> Result<Vec<u8>, AllocError>
        requires { graph_of (templates self.now) instance.now.template ≡ Some graph.now }
        ensures { IfOk result (λ out. IsOutputBy (templates self.now) root graph.now instance.now
            (mode_now instance.now) out.items) }
    {
        match instance.mode() {
            Mode::Done => self.output_of(root, instance, graph),
            mode => self.refused(&Refusal::Mode(mode)),
        }
    }

    fn output_text(&self, root: u64) -> Result<Vec<u8>, AllocError>
        ensures { IfOk result (λ out. IsOutputAnswer self.now root (instance_of self.now root) out.items) }
    {
        let Some(instance) = self.instance(root) else {
            return self.refused(&Refusal::Root(root));
        };
        match instance.graph(self.library()) {
            None => self.refused(&Refusal::Root(root)),
            Some(graph) => self.output_by_mode(root, instance, graph),
        }
    }

    fn no_such_item(&self, token: &Bytes) -> Result<Vec<u8>, AllocError>
        ensures { IfOk result (λ out. out.items ≡ refusal_text (NoItem token.now)) }
    {
        self.refused(&Refusal::Item(token.copy(self.alloc)?))
    }

    /// What an item reads.
    fn read_by(&self, item: Item<'_>) -> Result<Container, AllocError>
        ensures { IfOk result (IsInputOf (seen_entry item.entry)) }
    {
        item.input(self.alloc)
    }

    /// The text of the input of an item that was found.
    fn input_of(&self, found: &Found<'_>) -> Result<Vec<u8>, AllocError>
        ensures { IfOk result (λ out. IsInputShown found.now.path (known_entry found.now.known) out.items) }
    {
        let input = self.read_by(found.known.item)?;
        let leaves = &found.known.item.activity.input;
        let mut out = Vec::new(self.alloc);
        write_input(&mut out, &found.path, leaves, &input)?;
        Ok(out)
    }

    fn input_text(&self, token: &Bytes) -> Result<Vec<u8>, AllocError>
        ensures { IfOk result (λ out. IsInputAnswer self.now token.now out.items) }
    {
        match self.found(token)? {
            None => self.no_such_item(token),
            Some(found) => self.input_of(&found),
        }
    }

    fn worklist_of(&self, name: &Name, person: &PersonDef) -> Result<Vec<u8>, AllocError>
        ensures { IfOk result (λ out. IsListed self.now name.now (Some person.now) out.items) }
    {
        let lines = self.worklists.worklist(person)?;
        let mut out = Vec::new(self.alloc);
        write_worklist(&mut out, name, lines.as_slice())?;
        Ok(out)
    }

    fn worklist_text(&self, name: &Name) -> Result<Vec<u8>, AllocError>
        ensures { IfOk result (λ out. IsListed self.now name.now (latest_person self.now.store name.now) out.items) }
    {
        match self.store.person(name) {
            None => self.refused(&Refusal::Person(name.copy(self.alloc)?)),
            Some(person) => self.worklist_of(name, person),
        }
    }

    fn queue_text(&self, number: u64) -> Result<Vec<u8>, AllocError>
        ensures { IfOk result (λ out. out.items ≡ queue_answer self.now number) }
    {
        let count = self.queues.count();
        if number < 1 || number > u64::from(count) {
            return self.refused(&Refusal::Queue(count));
        }
        let mut out = Vec::new(self.alloc);
        write_queue(&mut out, &self.queues, number as u8)?;
        Ok(out)
    }

    fn audit_text(&self, root: u64) -> Result<Vec<u8>, AllocError>
        ensures { IfOk result (λ out. out.items ≡ audit_answer self.now root) }
    {
        if self.instance(root).is_none() {
            return self.refused(&Refusal::Root(root));
        }
        let mut out = Vec::new(self.alloc);
        write_audit(&mut out, root, &self.live.about(root)?)?;
        Ok(out)
    }

    fn templates_text(&self) -> Result<Vec<u8>, AllocError>
        ensures { IfOk result (λ out. out.items ≡ text_of_templates self.now.store.templates) }
    {
        let mut out = Vec::new(self.alloc);
        write_templates(&mut out, self.library().templates.as_slice())?;
        Ok(out)
    }

    /// The reply to a query.
    pub fn answer(&self, query: &Query) -> Result<Vec<u8>, AllocError>
        ensures { IfOk result (λ out. IsAnswer self.now query.now out.items) }
    {
        match query {
            Query::Show(root) => self.show(*root),
            Query::Output(root) => self.output_text(*root),
            Query::Input(token) => self.input_text(token),
            Query::Worklist(name) => self.worklist_text(name),
            Query::Queue(queue) => self.queue_text(*queue),
            Query::Audit(root) => self.audit_text(*root),
            Query::Templates => self.templates_text(),
        }
    }
}
