//! The items of a text.
ghost use Rattle.std.specs.Prelude.{◌≡◌, OnOk, IfOk};
ghost use Rattle.std.specs.List.{flat_map};
ghost use Rattle.fdl_print.specs.Pieces.{with_piece, with_pieces};
ghost use Rattle.fdl_print.specs.Elements.{kind_piece, count_pieces, member_line as member_pieces, structure_pieces};
ghost use Rattle.fdl_print.specs.Elements.{first_role as first_role_pieces, later_role as later_role_pieces};
ghost use Rattle.fdl_print.specs.Elements.{roles_pieces, person_pieces};
ghost use Rattle.fdl_print.specs.Canonical.{process_pieces, item_pieces, canonical_text};

use crate::printer::Printer;
use fdl_lexer::Mark;
use flow_model::{
    ItemTree, KindTree, Member, NameAt, NumberAt, PersonTree, ProcessTree, StructDef, Tree,
};
use flow_table::Keyword;
use std::alloc::{AllocError, Global};

impl Printer {
    fn kind(&mut self, kind: &KindTree) -> Result<(), AllocError>
        ensures { OnOk result (self.new ≡ with_piece (kind_piece kind.now) self.old) }
    {
        match kind {
            KindTree::Long => self.word(Keyword::Long),
            KindTree::Str => self.word(Keyword::String),
            KindTree::Struct(name) => self.name(&name.name),
        }
    }

    /// The count of an array in its parentheses.
    #[tactic(auto, using(crate::proofs::Laying::append_rule))]
    fn count(&mut self, count: &Option<NumberAt>) -> Result<(), AllocError>
        ensures { OnOk result (self.new ≡ with_pieces (count_pieces count.now) self.old) }
    {
        match count {
            None => Ok(()),
            Some(count) => {
                self.mark(Mark::Open)?;
                self.number(count)?;
                self.mark(Mark::Close)
            }
        }
    }

    #[tactic(auto, using(crate::proofs::Laying::append_rule), unfolding(crate::specs::Elements::member_line))]
    fn member(&mut self, member: &Member) -> Result<(), AllocError>
        ensures { OnOk result (self.new ≡ with_pieces (member_pieces member.now) self.old) }
    {
        self.name(&member.name.name)?;
        self.mark(Mark::Colon)?;
        self.kind(&member.kind)?;
        self.count(&member.count)?;
        self.mark(Mark::Semicolon)?;
        self.end_line()
    }

    fn members_of(&mut self, members: &[Member]) -> Result<(), AllocError>
        ensures { OnOk result (self.new ≡ with_pieces (flat_map member_pieces members.now) self.old) }
    {
        for member in members {
            self.member(member)?;
        }
        Ok(())
    }

    #[tactic(auto, using(crate::proofs::Laying::append_rule))]
    fn structure(&mut self, structure: &StructDef) -> Result<(), AllocError>
        ensures { OnOk result (self.new ≡ with_pieces (structure_pieces structure.now) self.old) }
    {
        self.word(Keyword::Structure)?;
        self.name(&structure.name.name)?;
        self.end_line()?;
        self.members_of(structure.members.as_slice())?;
        self.closing(&structure.end)
    }

    #[tactic(auto, unfolding(crate::specs::Elements::first_role))]
    fn first_role(&mut self, role: &NameAt) -> Result<(), AllocError>
        ensures { OnOk result (self.new ≡ with_pieces (first_role_pieces role.now) self.old) }
    {
        self.word(Keyword::Roles)?;
        self.name(&role.name)
    }

    #[tactic(auto, unfolding(crate::specs::Elements::later_role))]
    fn later_role(&mut self, role: &NameAt) -> Result<(), AllocError>
        ensures { OnOk result (self.new ≡ with_pieces (later_role_pieces role.now) self.old) }
    {
        self.mark(Mark::Comma)?;
        self.name(&role.name)
    }

    fn roles(&mut self, roles: &[NameAt]) -> Result<(), AllocError>
        ensures { OnOk result (self.new ≡ with_pieces (roles_pieces roles.now) self.old) }
    {
        let [first, rest @ ..] = roles else {
            return Ok(());
        };
        self.first_role(first)?;
        for role in rest {
            self.later_role(role)?;
        }
        Ok(())
    }

    #[tactic(auto, using(crate::proofs::Laying::append_rule))]
    fn person(&mut self, person: &PersonTree) -> Result<(), AllocError>
        ensures { OnOk result (self.new ≡ with_pieces (person_pieces person.now) self.old) }
    {
        self.word(Keyword::Person)?;
        self.name(&person.name.name)?;
        self.roles(person.roles.as_slice())?;
        self.end_line()?;
        self.closing(&person.end)
    }

    #[tactic(auto, using(crate::proofs::Laying::append_rule))]
    fn process(&mut self, process: &ProcessTree) -> Result<(), AllocError>
        ensures { OnOk result (self.new ≡ with_pieces (process_pieces process.now) self.old) }
    {
        self.word(Keyword::Process)?;
        self.heading(&process.name, &process.input, &process.output)?;
        self.end_line()?;
        self.elements(process.elements.as_slice())?;
        self.closing(&process.end)
    }

    #[tactic(auto, unfolding(crate::specs::Canonical::item_pieces))]
    fn item(&mut self, item: &ItemTree) -> Result<(), AllocError>
        ensures { OnOk result (self.new ≡ with_pieces (item_pieces item.now) self.old) }
    {
        match item {
            ItemTree::Structure(structure) => self.structure(structure),
            ItemTree::Person(person) => self.person(person),
            ItemTree::Process(process) => self.process(process),
        }
    }

    fn items(&mut self, items: &[ItemTree]) -> Result<(), AllocError>
        ensures { OnOk result (self.new ≡ with_pieces (flat_map item_pieces items.now) self.old) }
    {
        for item in items {
            self.item(item)?;
        }
        Ok(())
    }
}

/// The canonical text of a tree: its tokens with one space between two of a line.
#[tactic(auto, using(crate::proofs::Laying::written_rule))]
pub fn canonical(alloc: Global, tree: &Tree) -> Result<Vec<u8>, AllocError>
    ensures { IfOk result (λ text. text.items ≡ canonical_text tree.now) }
{
    let mut printer = Printer::new(alloc);
    printer.items(tree.items.as_slice())?;
    Ok(printer.into_text())
}
