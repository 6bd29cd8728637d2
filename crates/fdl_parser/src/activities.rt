//! Activities with their attributes, and the elements of a process or a block.
ghost use Rattle.std.specs.Prelude.{◌≡◌, ◌<◌, ◌≤◌, length, IfOk, IfErr, true, false};
ghost use Rattle.fdl_parser.specs.Faults.{Names};
ghost use Rattle.fdl_parser.specs.Stops.{Reads, Structures, Anything, common_kinds, attribute_kinds, element_kinds};
ghost use Rattle.fdl_parser.specs.Stops.{OneComes, NoneComes, IsTaken, Stops};
ghost use Rattle.fdl_parser.specs.Tiers.{Looser};
ghost use Rattle.fdl_parser.specs.Tokens.{StaysWithin};
ghost use Rattle.fdl_parser.specs.Activities.{AreStructures, IsClosing, IsJoin, ConnectorsTrue, IsCommonAttribute};
ghost use Rattle.fdl_parser.specs.Activities.{AreCommonAttributes, IsDoneBy, IsStart, IsAttribute, AreAttributes};
ghost use Rattle.fdl_parser.specs.Activities.{IsProgramActivity, IsProcessActivity, IsBlock, IsElement, AreElements};

use crate::cursor::{Cursor, SyntaxFault};
use fdl_lexer::Mark;
use flow_model::{ActivityTree, AttrAt, AttrTree, ElementTree, JoinTree, List, NameAt, WorkTree};
use flow_table::Keyword;

/// How many levels of BLOCK a text may have.
pub(crate) const LEVELS: u32 = 64;

impl<'a> Cursor<'a> {
    /// Takes the two structures of a container in their parentheses.
    pub(crate) fn structures(&mut self) -> Result<(NameAt, NameAt), SyntaxFault>
        ensures shorter { IfOk result (λ _. length self.new.left < length self.old.left) }
        ensures within { StaysWithin self.old self.new }
        ensures read { IfOk result (λ both. AreStructures both.0 both.1 self.old.left self.new.left) }
        ensures names { IfErr result (Names self.new) }
        ensures stops { IfErr result (Stops Anything Structures self.old.left self.new.left) }
    {
        self.mark(Mark::Open)?;
        let input = self.name()?;
        self.mark(Mark::Comma)?;
        let output = self.name()?;
        self.mark(Mark::Close)?;
        Ok((input, output))
    }

    /// Takes END and the name behind it.
    pub(crate) fn closing(&mut self) -> Result<NameAt, SyntaxFault>
        ensures shorter { IfOk result (λ _. length self.new.left < length self.old.left) }
        ensures within { StaysWithin self.old self.new }
        ensures read { IfOk result (λ name. IsClosing name self.old.left self.new.left) }
        ensures names { IfErr result (Names self.new) }
        ensures stops { IfErr result (Stops Anything (Reads IsClosing) self.old.left self.new.left) }
    {
        self.word(Keyword::End)?;
        let name = self.name()?;
        Ok(name)
    }

    /// Takes what a join asks, behind WHEN.
    fn join(&mut self) -> Result<JoinTree, SyntaxFault>
        ensures shorter { IfOk result (λ _. length self.new.left < length self.old.left) }
        ensures within { StaysWithin self.old self.new }
        ensures read { IfOk result (λ join. IsJoin join self.old.left self.new.left) }
        ensures names { IfErr result (Names self.new) }
        ensures stops { IfErr result (Stops Anything (Reads IsJoin) self.old.left self.new.left) }
    {
        if self.is_word(Keyword::AtLeastOne) {
            self.word(Keyword::AtLeastOne)?;
            self.word(Keyword::Connector)?;
            self.word(Keyword::True)?;
            return Ok(JoinTree::AtLeastOne);
        }
        if self.is_word(Keyword::AtLeast) {
            self.word(Keyword::AtLeast)?;
            let number = self.number()?;
            self.connectors_true()?;
            return Ok(JoinTree::AtLeast(number));
        }
        self.word(Keyword::All)?;
        self.connectors_true()?;
        Ok(JoinTree::All)
    }

    fn connectors_true(&mut self) -> Result<(), SyntaxFault>
        ensures shorter { IfOk result (λ _. length self.new.left < length self.old.left) }
        ensures within { StaysWithin self.old self.new }
        ensures read { IfOk result (λ _. ConnectorsTrue self.old.left self.new.left) }
        ensures names { IfErr result (Names self.new) }
        ensures stops { IfErr result (Stops Anything ConnectorsTrue self.old.left self.new.left) }
    {
        self.word(Keyword::Connectors)?;
        self.word(Keyword::True)?;
        Ok(())
    }

    /// Whether an attribute that any activity may have stands next.
    fn is_common_attribute(&self) -> bool
        ensures yes { result ≡ true → OneComes common_kinds self.now.left }
        ensures no { result ≡ false → NoneComes common_kinds self.now.left }
    {
        self.is_word(Keyword::When) || self.is_word(Keyword::Exit)
    }

    /// Takes a start condition or an exit condition.
    fn common_attribute(&mut self) -> Result<AttrAt, SyntaxFault>
        ensures shorter { IfOk result (λ _. length self.new.left < length self.old.left) }
        ensures within { StaysWithin self.old self.new }
        ensures read { IfOk result (λ attribute. IsCommonAttribute attribute self.old.left self.new.left) }
        ensures names { IfErr result (Names self.new) }
        ensures stops { IfErr result (Stops Anything (Reads IsCommonAttribute) self.old.left self.new.left) }
    {
        if self.is_word(Keyword::When) {
            let place = self.word(Keyword::When)?;
            let join = self.join()?;
            let what = AttrTree::When(join);
            return Ok(AttrAt { place, what });
        }
        let place = self.word(Keyword::Exit)?;
        self.word(Keyword::When)?;
        let condition = self.condition()?;
        let what = AttrTree::Exit(condition);
        Ok(AttrAt { place, what })
    }

    fn common_attributes(&mut self) -> Result<List<AttrAt>, SyntaxFault>
        ensures shorter { IfOk result (λ _. length self.new.left ≤ length self.old.left) }
        ensures within { StaysWithin self.old self.new }
        ensures read { IfOk result (λ attributes. AreCommonAttributes attributes self.old.left self.new.left) }
        ensures names { IfErr result (Names self.new) }
        ensures taken { IfOk result (λ _. IsTaken (Looser 4) (Reads AreCommonAttributes) self.old.left self.new.left) }
        ensures stops { IfErr result (Stops (Looser 4) (Reads AreCommonAttributes) self.old.left self.new.left) }
    {
        let mut attributes = List::new(self.alloc());
        while self.is_common_attribute() {
            attributes.push(self.common_attribute()?)?;
        }
        Ok(attributes)
    }

    /// Takes who may do an activity, behind DONE_BY.
    fn done_by(&mut self) -> Result<AttrTree, SyntaxFault>
        ensures shorter { IfOk result (λ _. length self.new.left < length self.old.left) }
        ensures within { StaysWithin self.old self.new }
        ensures read { IfOk result (λ attribute. IsDoneBy attribute self.old.left self.new.left) }
        ensures names { IfErr result (Names self.new) }
        ensures stops { IfErr result (Stops Anything (Reads IsDoneBy) self.old.left self.new.left) }
    {
        if self.is_word(Keyword::Role) {
            self.word(Keyword::Role)?;
            let role = self.name()?;
            return Ok(AttrTree::Role(role));
        }
        if self.is_word(Keyword::Person) {
            self.word(Keyword::Person)?;
            let person = self.name()?;
            return Ok(AttrTree::Person(person));
        }
        if self.is_word(Keyword::Starter) {
            self.word(Keyword::Starter)?;
            return Ok(AttrTree::Starter);
        }
        self.word(Keyword::Performer)?;
        self.word(Keyword::Of)?;
        let performer = self.name()?;
        Ok(AttrTree::Performer(performer))
    }

    /// Takes how an activity is started, behind START.
    fn start(&mut self) -> Result<AttrTree, SyntaxFault>
        ensures shorter { IfOk result (λ _. length self.new.left < length self.old.left) }
        ensures within { StaysWithin self.old self.new }
        ensures read { IfOk result (λ attribute. IsStart attribute self.old.left self.new.left) }
        ensures names { IfErr result (Names self.new) }
        ensures stops { IfErr result (Stops Anything (Reads IsStart) self.old.left self.new.left) }
    {
        if self.is_word(Keyword::Manual) {
            self.word(Keyword::Manual)?;
            return Ok(AttrTree::Start(true));
        }
        self.word(Keyword::Automatic)?;
        Ok(AttrTree::Start(false))
    }

    /// Whether an attribute that a program activity may have stands next.
    fn is_attribute(&self) -> bool
        ensures yes { result ≡ true → OneComes attribute_kinds self.now.left }
        ensures no { result ≡ false → NoneComes attribute_kinds self.now.left }
    {
        self.is_word(Keyword::When)
            || self.is_word(Keyword::Exit)
            || self.is_word(Keyword::Start)
            || self.is_word(Keyword::Expires)
            || self.is_word(Keyword::DoneBy)
    }

    fn attribute(&mut self) -> Result<AttrAt, SyntaxFault>
        ensures shorter { IfOk result (λ _. length self.new.left < length self.old.left) }
        ensures within { StaysWithin self.old self.new }
        ensures read { IfOk result (λ attribute. IsAttribute attribute self.old.left self.new.left) }
        ensures names { IfErr result (Names self.new) }
        ensures stops { IfErr result (Stops Anything (Reads IsAttribute) self.old.left self.new.left) }
    {
        if self.is_common_attribute() {
            let attribute = self.common_attribute()?;
            return Ok(attribute);
        }
        if self.is_word(Keyword::Start) {
            let place = self.word(Keyword::Start)?;
            let what = self.start()?;
            return Ok(AttrAt { place, what });
        }
        if self.is_word(Keyword::Expires) {
            let place = self.word(Keyword::Expires)?;
            let number = self.number()?;
            let what = AttrTree::Expires(number);
            return Ok(AttrAt { place, what });
        }
        let place = self.word(Keyword::DoneBy)?;
        let what = self.done_by()?;
        Ok(AttrAt { place, what })
    }

    fn attributes(&mut self) -> Result<List<AttrAt>, SyntaxFault>
        ensures shorter { IfOk result (λ _. length self.new.left ≤ length self.old.left) }
        ensures within { StaysWithin self.old self.new }
        ensures read { IfOk result (λ attributes. AreAttributes attributes self.old.left self.new.left) }
        ensures names { IfErr result (Names self.new) }
        ensures taken { IfOk result (λ _. IsTaken (Looser 4) (Reads AreAttributes) self.old.left self.new.left) }
        ensures stops { IfErr result (Stops (Looser 4) (Reads AreAttributes) self.old.left self.new.left) }
    {
        let mut attributes = List::new(self.alloc());
        while self.is_attribute() {
            attributes.push(self.attribute()?)?;
        }
        Ok(attributes)
    }

    fn program_activity(&mut self) -> Result<ActivityTree, SyntaxFault>
        ensures shorter { IfOk result (λ _. length self.new.left < length self.old.left) }
        ensures within { StaysWithin self.old self.new }
        ensures read { IfOk result (λ activity. IsProgramActivity activity self.old.left self.new.left) }
        ensures names { IfErr result (Names self.new) }
        ensures stops { IfErr result (Stops Anything (Reads IsProgramActivity) self.old.left self.new.left) }
    {
        let place = self.word(Keyword::ProgramActivity)?;
        let name = self.name()?;
        let (input, output) = self.structures()?;
        let attrs = self.attributes()?;
        let end = self.closing()?;
        Ok(ActivityTree {
            place,
            work: WorkTree::Program,
            name,
            input,
            output,
            attrs,
            end,
        })
    }

    fn process_activity(&mut self) -> Result<ActivityTree, SyntaxFault>
        ensures shorter { IfOk result (λ _. length self.new.left < length self.old.left) }
        ensures within { StaysWithin self.old self.new }
        ensures read { IfOk result (λ activity. IsProcessActivity activity self.old.left self.new.left) }
        ensures names { IfErr result (Names self.new) }
        ensures stops { IfErr result (Stops Anything (Reads IsProcessActivity) self.old.left self.new.left) }
    {
        let place = self.word(Keyword::ProcessActivity)?;
        let name = self.name()?;
        let (input, output) = self.structures()?;
        self.word(Keyword::Process)?;
        let process = self.name()?;
        let attrs = self.common_attributes()?;
        let end = self.closing()?;
        Ok(ActivityTree {
            place,
            work: WorkTree::Process(process),
            name,
            input,
            output,
            attrs,
            end,
        })
    }

    #[cycle(elements)]
    fn block(&mut self, levels: u32) -> Result<ActivityTree, SyntaxFault>
        ensures shorter { IfOk result (λ _. length self.new.left < length self.old.left) }
        ensures within { StaysWithin self.old self.new }
        ensures read { IfOk result (λ activity. IsBlock levels activity self.old.left self.new.left) }
        ensures names { IfErr result (Names self.new) }
        ensures level { levels ≡ 0 → self.new ≡ self.old }
        ensures stops { 0 < levels → IfErr result (Stops Anything
            (Reads (IsBlock levels)) self.old.left self.new.left) }
    {
        if levels == 0 {
            return Err(self.fault());
        }
        let place = self.word(Keyword::Block)?;
        let name = self.name()?;
        let (input, output) = self.structures()?;
        let attrs = self.common_attributes()?;
        let elements = self.elements(levels - 1)?;
        let end = self.closing()?;
        Ok(ActivityTree {
            place,
            work: WorkTree::Block(elements),
            name,
            input,
            output,
            attrs,
            end,
        })
    }

    /// Whether an element stands next.
    fn is_element(&self) -> bool
        ensures yes { result ≡ true → OneComes element_kinds self.now.left }
        ensures no { result ≡ false → NoneComes element_kinds self.now.left }
    {
        self.is_word(Keyword::Block)
            || self.is_word(Keyword::Control)
            || self.is_word(Keyword::Data)
            || self.is_word(Keyword::ProcessActivity)
            || self.is_word(Keyword::ProgramActivity)
    }

    #[cycle(elements)]
    fn element(&mut self, levels: u32) -> Result<ElementTree, SyntaxFault>
        ensures shorter { IfOk result (λ _. length self.new.left < length self.old.left) }
        ensures within { StaysWithin self.old self.new }
        ensures read { IfOk result (λ element. IsElement levels element self.old.left self.new.left) }
        ensures names { IfErr result (Names self.new) }
        ensures taken { IfOk result (λ _. IsTaken (Looser 4) (Reads (IsElement levels)) self.old.left self.new.left) }
        ensures stops { IfErr result (Stops (Looser 4) (Reads (IsElement levels)) self.old.left self.new.left) }
    {
        if self.is_word(Keyword::Block) {
            let block = self.block(levels)?;
            return Ok(ElementTree::Activity(block));
        }
        if self.is_word(Keyword::Control) {
            let control = self.control()?;
            return Ok(ElementTree::Control(control));
        }
        if self.is_word(Keyword::Data) {
            let line = self.data_line()?;
            return Ok(ElementTree::Line(line));
        }
        if self.is_word(Keyword::ProcessActivity) {
            let process = self.process_activity()?;
            return Ok(ElementTree::Activity(process));
        }
        let program = self.program_activity()?;
        Ok(ElementTree::Activity(program))
    }

    /// Takes the elements of a process or a block, in which so many levels of blocks may stand.
    #[cycle(elements)]
    pub(crate) fn elements(&mut self, levels: u32) -> Result<List<ElementTree>, SyntaxFault>
        ensures shorter { IfOk result (λ _. length self.new.left ≤ length self.old.left) }
        ensures within { StaysWithin self.old self.new }
        ensures read { IfOk result (λ elements. AreElements levels elements self.old.left self.new.left) }
        ensures names { IfErr result (Names self.new) }
        ensures taken { IfOk result (λ _. IsTaken (Looser 3) (Reads (AreElements levels)) self.old.left self.new.left) }
        ensures stops { IfErr result (Stops (Looser 3) (Reads (AreElements levels)) self.old.left self.new.left) }
    {
        let mut elements = List::new(self.alloc());
        while self.is_element() {
            elements.push(self.element(levels)?)?;
        }
        Ok(elements)
    }
}
