//! Activities, connectors and data lines.
ghost use Rattle.std.specs.Prelude.{◌≡◌, ◌∷◌, [], OnOk};
ghost use Rattle.std.specs.List.{flat_map};
ghost use Rattle.fdl_print.specs.Pieces.{with_piece, with_pieces, word as word_piece, name as name_piece};
ghost use Rattle.fdl_print.specs.Elements.{closing_pieces, heading_pieces, join_pieces, attr_pieces, attr_line};
ghost use Rattle.fdl_print.specs.Elements.{when_pieces, control_pieces, end_piece, ends_pieces, map_pieces};
ghost use Rattle.fdl_print.specs.Elements.{later_map as later_map_pieces, maps_pieces, data_pieces};
ghost use Rattle.fdl_print.specs.Canonical.{worked, opening_pieces, activity_pieces, element_pieces};

use crate::printer::Printer;
use fdl_lexer::Mark;
use flow_model::{
    ActivityTree, AttrAt, AttrTree, ControlTree, DataTree, ElementTree, EndTree, EndsTree,
    JoinTree, MapTree, NameAt, WhenTree, WorkTree,
};
use flow_table::Keyword;
use std::alloc::AllocError;

/// The first word of an activity.
fn opening_word(work: &WorkTree) -> Keyword
    ensures { result ≡ (worked work.now).opening }
{
    match work {
        WorkTree::Program => Keyword::ProgramActivity,
        WorkTree::Process(_) => Keyword::ProcessActivity,
        WorkTree::Block(_) => Keyword::Block,
    }
}

impl Printer {
    /// END and the name behind it, as a line.
    pub fn closing(&mut self, end: &NameAt) -> Result<(), AllocError>
        ensures { OnOk result (self.new ≡ with_pieces (closing_pieces end.now) self.old) }
    {
        self.word(Keyword::End)?;
        self.name(&end.name)?;
        self.end_line()
    }

    /// A name and the two structures in their parentheses.
    pub fn heading(
        &mut self,
        name: &NameAt,
        input: &NameAt,
        output: &NameAt,
    ) -> Result<(), AllocError>
        ensures { OnOk result (self.new ≡ with_pieces (heading_pieces name.now input.now output.now) self.old) }
    {
        self.name(&name.name)?;
        self.mark(Mark::Open)?;
        self.name(&input.name)?;
        self.mark(Mark::Comma)?;
        self.name(&output.name)?;
        self.mark(Mark::Close)
    }

    /// CONNECTORS TRUE.
    fn connectors(&mut self) -> Result<(), AllocError>
        ensures { OnOk result (self.new ≡ with_piece (word_piece Keyword.True)
            (with_piece (word_piece Keyword.Connectors) self.old)) }
    {
        self.word(Keyword::Connectors)?;
        self.word(Keyword::True)
    }

    #[tactic(auto, using(crate::proofs::Laying::append_rule))]
    fn join(&mut self, join: &JoinTree) -> Result<(), AllocError>
        ensures { OnOk result (self.new ≡ with_pieces (join_pieces join.now) self.old) }
    {
        self.word(Keyword::When)?;
        match join {
            JoinTree::AtLeastOne => {
                self.word(Keyword::AtLeastOne)?;
                self.word(Keyword::Connector)?;
                self.word(Keyword::True)
            }
            JoinTree::All => {
                self.word(Keyword::All)?;
                self.connectors()
            }
            JoinTree::AtLeast(number) => {
                self.word(Keyword::AtLeast)?;
                self.number(number)?;
                self.connectors()
            }
        }
    }

    /// DONE_BY, a word, and a name behind it.
    fn done_by(&mut self, word: Keyword, name: &NameAt) -> Result<(), AllocError>
        ensures { OnOk result (self.new ≡ with_pieces (word_piece Keyword.DoneBy ∷ word_piece word
            ∷ name_piece name.now.name ∷ []) self.old) }
    {
        self.word(Keyword::DoneBy)?;
        self.word(word)?;
        self.name(&name.name)
    }

    fn performer(&mut self, name: &NameAt) -> Result<(), AllocError>
        ensures { OnOk result (self.new ≡ with_pieces (word_piece Keyword.DoneBy ∷ word_piece Keyword.Performer
            ∷ word_piece Keyword.Of ∷ name_piece name.now.name ∷ []) self.old) }
    {
        self.word(Keyword::DoneBy)?;
        self.word(Keyword::Performer)?;
        self.word(Keyword::Of)?;
        self.name(&name.name)
    }

    fn attribute(&mut self, what: &AttrTree) -> Result<(), AllocError>
        ensures { OnOk result (self.new ≡ with_pieces (attr_pieces what.now) self.old) }
    {
        match what {
            AttrTree::When(join) => self.join(join),
            AttrTree::Exit(cond) => {
                self.word(Keyword::Exit)?;
                self.word(Keyword::When)?;
                self.condition(cond)
            }
            AttrTree::Start(manual) => {
                self.word(Keyword::Start)?;
                self.word(if *manual {
                    Keyword::Manual
                } else {
                    Keyword::Automatic
                })
            }
            AttrTree::Expires(minutes) => {
                self.word(Keyword::Expires)?;
                self.number(minutes)
            }
            AttrTree::Role(name) => self.done_by(Keyword::Role, name),
            AttrTree::Person(name) => self.done_by(Keyword::Person, name),
            AttrTree::Starter => {
                self.word(Keyword::DoneBy)?;
                self.word(Keyword::Starter)
            }
            AttrTree::Performer(name) => self.performer(name),
        }
    }

    /// An attribute as a line.
    #[tactic(auto, using(crate::proofs::Laying::append_rule), unfolding(crate::specs::Elements::attr_line))]
    fn attribute_line(&mut self, attribute: &AttrAt) -> Result<(), AllocError>
        ensures { OnOk result (self.new ≡ with_pieces (attr_line attribute.now) self.old) }
    {
        self.attribute(&attribute.what)?;
        self.end_line()
    }

    fn attributes(&mut self, attributes: &[AttrAt]) -> Result<(), AllocError>
        ensures { OnOk result (self.new ≡ with_pieces (flat_map attr_line attributes.now) self.old) }
    {
        for attribute in attributes {
            self.attribute_line(attribute)?;
        }
        Ok(())
    }

    /// The process that an activity calls, if it calls one.
    fn called(&mut self, work: &WorkTree) -> Result<(), AllocError>
        ensures { OnOk result (self.new ≡ with_pieces (worked work.now).called self.old) }
    {
        match work {
            WorkTree::Program => Ok(()),
            WorkTree::Process(process) => {
                self.word(Keyword::Process)?;
                self.name(&process.name)
            }
            WorkTree::Block(_) => Ok(()),
        }
    }

    /// The first line of an activity.
    #[tactic(auto, using(crate::proofs::Laying::append_rule))]
    fn opening(&mut self, activity: &ActivityTree) -> Result<(), AllocError>
        ensures { OnOk result (self.new ≡ with_pieces (opening_pieces activity.now) self.old) }
    {
        self.word(opening_word(&activity.work))?;
        self.heading(&activity.name, &activity.input, &activity.output)?;
        self.called(&activity.work)?;
        self.end_line()
    }

    /// The elements of a block.
    #[cycle(elements)]
    fn inside(&mut self, work: &WorkTree) -> Result<(), AllocError>
        ensures { OnOk result (self.new ≡ with_pieces (worked work.now).inside self.old) }
    {
        match work {
            WorkTree::Program => Ok(()),
            WorkTree::Process(_) => Ok(()),
            WorkTree::Block(elements) => {
                self.elements(elements.as_slice())?;
                Ok(())
            }
        }
    }

    #[cycle(elements)]
    #[tactic(auto, using(crate::proofs::Laying::append_rule))]
    fn activity(&mut self, activity: &ActivityTree) -> Result<(), AllocError>
        ensures { OnOk result (self.new ≡ with_pieces (activity_pieces activity.now) self.old) }
    {
        self.opening(activity)?;
        self.attributes(activity.attrs.as_slice())?;
        self.inside(&activity.work)?;
        self.closing(&activity.end)
    }

    /// What follows the two names of a connector.
    fn transition(&mut self, when: &WhenTree) -> Result<(), AllocError>
        ensures { OnOk result (self.new ≡ with_pieces (when_pieces when.now) self.old) }
    {
        match when {
            WhenTree::Always => Ok(()),
            WhenTree::Otherwise => self.word(Keyword::Otherwise),
            WhenTree::Cond(cond) => {
                self.word(Keyword::When)?;
                self.condition(cond)
            }
        }
    }

    #[tactic(auto, using(crate::proofs::Laying::append_rule))]
    fn control(&mut self, control: &ControlTree) -> Result<(), AllocError>
        ensures { OnOk result (self.new ≡ with_pieces (control_pieces control.now) self.old) }
    {
        self.word(Keyword::Control)?;
        self.word(Keyword::From)?;
        self.name(&control.from.name)?;
        self.word(Keyword::To)?;
        self.name(&control.to.name)?;
        self.transition(&control.when)?;
        self.end_line()
    }

    fn end(&mut self, end: &EndTree, border: Keyword) -> Result<(), AllocError>
        ensures { OnOk result (self.new ≡ with_piece (end_piece end.now border) self.old) }
    {
        match end {
            EndTree::Border => self.word(border),
            EndTree::Activity(name) => self.name(&name.name),
        }
    }

    fn ends(&mut self, ends: &EndsTree) -> Result<(), AllocError>
        ensures { OnOk result (self.new ≡ with_pieces (ends_pieces ends.now) self.old) }
    {
        match ends {
            EndsTree::Line(from, to) => {
                self.word(Keyword::From)?;
                self.end(from, Keyword::Source)?;
                self.word(Keyword::To)?;
                self.end(to, Keyword::Sink)
            }
            EndsTree::Loop(name) => {
                self.word(Keyword::Loop)?;
                self.name(&name.name)
            }
        }
    }

    #[tactic(auto, using(crate::proofs::Laying::append_rule), unfolding(crate::specs::Elements::map_pieces))]
    fn map(&mut self, map: &MapTree) -> Result<(), AllocError>
        ensures { OnOk result (self.new ≡ with_pieces (map_pieces map.now) self.old) }
    {
        self.leaf(&map.from)?;
        self.word(Keyword::To)?;
        self.leaf(&map.to)
    }

    #[tactic(auto, unfolding(crate::specs::Elements::later_map))]
    fn later_map(&mut self, map: &MapTree) -> Result<(), AllocError>
        ensures { OnOk result (self.new ≡ with_pieces (later_map_pieces map.now) self.old) }
    {
        self.mark(Mark::Comma)?;
        self.map(map)
    }

    fn maps(&mut self, maps: &[MapTree]) -> Result<(), AllocError>
        ensures { OnOk result (self.new ≡ with_pieces (maps_pieces maps.now) self.old) }
    {
        let [first, rest @ ..] = maps else {
            return Ok(());
        };
        self.map(first)?;
        for map in rest {
            self.later_map(map)?;
        }
        Ok(())
    }

    #[tactic(auto, using(crate::proofs::Laying::append_rule))]
    fn data_line(&mut self, line: &DataTree) -> Result<(), AllocError>
        ensures { OnOk result (self.new ≡ with_pieces (data_pieces line.now) self.old) }
    {
        self.word(Keyword::Data)?;
        self.ends(&line.ends)?;
        self.word(Keyword::Map)?;
        self.maps(line.maps.as_slice())?;
        self.end_line()
    }

    #[cycle(elements)]
    fn element(&mut self, element: &ElementTree) -> Result<(), AllocError>
        ensures { OnOk result (self.new ≡ with_pieces (element_pieces element.now) self.old) }
    {
        match element {
            ElementTree::Activity(activity) => self.activity(activity),
            ElementTree::Control(control) => self.control(control),
            ElementTree::Line(line) => self.data_line(line),
        }
    }

    /// The elements of a process or a block.
    #[cycle(elements)]
    pub fn elements(&mut self, elements: &[ElementTree]) -> Result<(), AllocError>
        ensures { OnOk result (self.new ≡ with_pieces (flat_map element_pieces elements.now) self.old) }
    {
        for element in elements {
            self.element(element)?;
        }
        Ok(())
    }
}
