//! The items of a text: structures, persons, processes.
ghost use Rattle.std.specs.Prelude.{◌≡◌, ◌<◌, ◌≤◌, length, IfOk, IfErr};
ghost use Rattle.fdl_lexer.specs.Tokens.{AreTokens};
ghost use Rattle.fdl_parser.specs.Faults.{Names, NamesOne};
ghost use Rattle.fdl_parser.specs.Refusing.{RefusesFirst, HaveNoTree};
ghost use Rattle.fdl_parser.specs.Stops.{Reads, Anything, IsTaken, Stops};
ghost use Rattle.fdl_parser.specs.Tiers.{Looser};
ghost use Rattle.fdl_parser.specs.Tokens.{spell, reading, StaysWithin};
ghost use Rattle.fdl_parser.specs.Items.{IsKind, IsCount, IsMember, IsStructure, AreRoles, IsPerson, IsProcess, IsItem};
ghost use Rattle.fdl_parser.specs.Items.{IsTree};

use crate::activities::LEVELS;
use crate::cursor::{Cursor, SyntaxFault};
use fdl_lexer::{Mark, Tokens, What};
use flow_model::{
    ItemTree, KindTree, List, Member, NameAt, NumberAt, PersonTree, ProcessTree, StructDef, Tree,
};
use flow_table::Keyword;
use std::alloc::Global;

impl<'a> Cursor<'a> {
    fn kind(&mut self) -> Result<KindTree, SyntaxFault>
        ensures shorter { IfOk result (λ _. length self.new.left < length self.old.left) }
        ensures within { StaysWithin self.old self.new }
        ensures read { IfOk result (λ kind. IsKind kind self.old.left self.new.left) }
        ensures names { IfErr result (Names self.new) }
        ensures stops { IfErr result (Stops Anything (Reads IsKind) self.old.left self.new.left) }
    {
        if self.is_word(Keyword::Long) {
            self.word(Keyword::Long)?;
            return Ok(KindTree::Long);
        }
        if self.is_word(Keyword::String) {
            self.word(Keyword::String)?;
            return Ok(KindTree::Str);
        }
        let name = self.name()?;
        Ok(KindTree::Struct(name))
    }

    /// Takes the count of an array, if one stands there.
    fn count(&mut self) -> Result<Option<NumberAt>, SyntaxFault>
        ensures shorter { IfOk result (λ _. length self.new.left ≤ length self.old.left) }
        ensures within { StaysWithin self.old self.new }
        ensures read { IfOk result (λ count. IsCount count self.old.left self.new.left) }
        ensures names { IfErr result (Names self.new) }
        ensures taken { IfOk result (λ _. IsTaken (Looser 1) (Reads IsCount) self.old.left self.new.left) }
        ensures stops { IfErr result (Stops (Looser 1) (Reads IsCount) self.old.left self.new.left) }
    {
        if !self.is_mark(Mark::Open) {
            return Ok(None);
        }
        self.mark(Mark::Open)?;
        let count = self.number()?;
        self.mark(Mark::Close)?;
        Ok(Some(count))
    }

    fn member(&mut self) -> Result<Member, SyntaxFault>
        ensures shorter { IfOk result (λ _. length self.new.left < length self.old.left) }
        ensures within { StaysWithin self.old self.new }
        ensures read { IfOk result (λ member. IsMember member self.old.left self.new.left) }
        ensures names { IfErr result (Names self.new) }
        ensures stops { IfErr result (Stops Anything (Reads IsMember) self.old.left self.new.left) }
    {
        let name = self.name()?;
        self.mark(Mark::Colon)?;
        let kind = self.kind()?;
        let count = self.count()?;
        self.mark(Mark::Semicolon)?;
        Ok(Member { name, kind, count })
    }

    fn structure(&mut self) -> Result<StructDef, SyntaxFault>
        ensures shorter { IfOk result (λ _. length self.new.left < length self.old.left) }
        ensures within { StaysWithin self.old self.new }
        ensures read { IfOk result (λ structure. IsStructure structure self.old.left self.new.left) }
        ensures names { IfErr result (Names self.new) }
        ensures stops { IfErr result (Stops Anything (Reads IsStructure) self.old.left self.new.left) }
    {
        self.word(Keyword::Structure)?;
        let name = self.name()?;
        let mut members = List::new(self.alloc());
        while self.is_next(What::Name) {
            members.push(self.member()?)?;
        }
        let end = self.closing()?;
        Ok(StructDef { name, members, end })
    }

    /// Takes the roles of a person, if there are any.
    fn roles(&mut self) -> Result<List<NameAt>, SyntaxFault>
        ensures shorter { IfOk result (λ _. length self.new.left ≤ length self.old.left) }
        ensures within { StaysWithin self.old self.new }
        ensures read { IfOk result (λ roles. AreRoles roles self.old.left self.new.left) }
        ensures names { IfErr result (Names self.new) }
        ensures taken { IfOk result (λ _. IsTaken (Looser 4) (Reads AreRoles) self.old.left self.new.left) }
        ensures stops { IfErr result (Stops (Looser 4) (Reads AreRoles) self.old.left self.new.left) }
    {
        let mut roles = List::new(self.alloc());
        if !self.is_word(Keyword::Roles) {
            return Ok(roles);
        }
        self.word(Keyword::Roles)?;
        let first = self.name()?;
        roles.push(first)?;
        while self.is_mark(Mark::Comma) {
            self.mark(Mark::Comma)?;
            let next = self.name()?;
            roles.push(next)?;
        }
        Ok(roles)
    }

    fn person(&mut self) -> Result<PersonTree, SyntaxFault>
        ensures shorter { IfOk result (λ _. length self.new.left < length self.old.left) }
        ensures within { StaysWithin self.old self.new }
        ensures read { IfOk result (λ person. IsPerson person self.old.left self.new.left) }
        ensures names { IfErr result (Names self.new) }
        ensures stops { IfErr result (Stops Anything (Reads IsPerson) self.old.left self.new.left) }
    {
        self.word(Keyword::Person)?;
        let name = self.name()?;
        let roles = self.roles()?;
        let end = self.closing()?;
        Ok(PersonTree { name, roles, end })
    }

    fn process(&mut self) -> Result<ProcessTree, SyntaxFault>
        ensures shorter { IfOk result (λ _. length self.new.left < length self.old.left) }
        ensures within { StaysWithin self.old self.new }
        ensures read { IfOk result (λ process. IsProcess process self.old.left self.new.left) }
        ensures names { IfErr result (Names self.new) }
        ensures stops { IfErr result (Stops Anything (Reads IsProcess) self.old.left self.new.left) }
    {
        let place = self.word(Keyword::Process)?;
        let name = self.name()?;
        let (input, output) = self.structures()?;
        let elements = self.elements(LEVELS)?;
        let end = self.closing()?;
        Ok(ProcessTree {
            place,
            name,
            input,
            output,
            elements,
            end,
        })
    }

    fn text_item(&mut self) -> Result<ItemTree, SyntaxFault>
        ensures shorter { IfOk result (λ _. length self.new.left < length self.old.left) }
        ensures within { StaysWithin self.old self.new }
        ensures read { IfOk result (λ item. IsItem item self.old.left self.new.left) }
        ensures names { IfErr result (Names self.new) }
        ensures stops { IfErr result (Stops Anything (Reads IsItem) self.old.left self.new.left) }
    {
        if self.is_word(Keyword::Structure) {
            let structure = self.structure()?;
            return Ok(ItemTree::Structure(structure));
        }
        if self.is_word(Keyword::Person) {
            let person = self.person()?;
            return Ok(ItemTree::Person(person));
        }
        let process = self.process()?;
        Ok(ItemTree::Process(process))
    }
}

/// The tree of a text's tokens: the one that the grammar relates to them.
///
/// Where the tokens are the lexer's there is no other: each tree that they have is equal to it.
///
/// `At` comes where they have none, with the place of the first token with which they begin no text of
/// the grammar, or else the text's length.
pub fn parse(alloc: Global, text: &[u8], tokens: &Tokens) -> Result<Tree, SyntaxFault>
    ensures tree { IfOk result (λ tree. IsTree tree (spell text.now tokens.now.items)) }
    ensures one { IfOk result (λ tree. AreTokens text.now tokens.now.items → (other : Tree)
        → IsTree other (spell text.now tokens.now.items) → tree ≡ other) }
    ensures names { IfErr result (NamesOne (reading text.now tokens.now.items)) }
    ensures first { IfErr result (RefusesFirst text.now tokens.now.items) }
    ensures none { IfErr result (HaveNoTree text.now tokens.now.items) }
{
    let mut cursor = Cursor::new(alloc, text, tokens.items.as_slice());
    let mut items = List::new(alloc);
    while !cursor.is_at_end() {
        items.push(cursor.text_item()?)?;
    }
    Ok(Tree { items })
}
