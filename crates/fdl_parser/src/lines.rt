//! CONTROL and DATA lines.
ghost use Rattle.std.specs.Prelude.{◌<◌, ◌≤◌, length, IfOk, IfErr};
ghost use Rattle.fdl_parser.specs.Faults.{Names};
ghost use Rattle.fdl_parser.specs.Stops.{Reads, Anything, IsTaken, Stops};
ghost use Rattle.fdl_parser.specs.Tiers.{Looser};
ghost use Rattle.fdl_parser.specs.Tokens.{StaysWithin};
ghost use Rattle.fdl_parser.specs.Lines.{IsTransition, IsControl, IsEnd, AreEnds, IsMap, AreMaps, IsDataLine};

use crate::cursor::{Cursor, SyntaxFault};
use fdl_lexer::Mark;
use flow_model::{ControlTree, DataTree, EndTree, EndsTree, List, MapTree, WhenTree};
use flow_table::Keyword;

impl<'a> Cursor<'a> {
    /// Takes the transition condition of a connector, if one stands there.
    fn transition(&mut self) -> Result<WhenTree, SyntaxFault>
        ensures shorter { IfOk result (λ _. length self.new.left ≤ length self.old.left) }
        ensures within { StaysWithin self.old self.new }
        ensures read { IfOk result (λ when. IsTransition when self.old.left self.new.left) }
        ensures names { IfErr result (Names self.new) }
        ensures taken { IfOk result (λ _. IsTaken (Looser 4) (Reads IsTransition) self.old.left self.new.left) }
        ensures stops { IfErr result (Stops (Looser 4) (Reads IsTransition) self.old.left self.new.left) }
    {
        if self.is_word(Keyword::Otherwise) {
            self.word(Keyword::Otherwise)?;
            return Ok(WhenTree::Otherwise);
        }
        if self.is_word(Keyword::When) {
            self.word(Keyword::When)?;
            let cond = self.condition()?;
            return Ok(WhenTree::Cond(cond));
        }
        Ok(WhenTree::Always)
    }

    pub(crate) fn control(&mut self) -> Result<ControlTree, SyntaxFault>
        ensures shorter { IfOk result (λ _. length self.new.left < length self.old.left) }
        ensures within { StaysWithin self.old self.new }
        ensures read { IfOk result (λ control. IsControl control self.old.left self.new.left) }
        ensures names { IfErr result (Names self.new) }
        ensures taken { IfOk result (λ _. IsTaken (Looser 4) (Reads IsControl) self.old.left self.new.left) }
        ensures stops { IfErr result (Stops (Looser 4) (Reads IsControl) self.old.left self.new.left) }
    {
        let place = self.word(Keyword::Control)?;
        self.word(Keyword::From)?;
        let from = self.name()?;
        self.word(Keyword::To)?;
        let to = self.name()?;
        let when = self.transition()?;
        Ok(ControlTree {
            place,
            from,
            to,
            when,
        })
    }

    /// Takes an activity's name, or the word for the scope's own container.
    fn end(&mut self, border: Keyword) -> Result<EndTree, SyntaxFault>
        ensures shorter { IfOk result (λ _. length self.new.left < length self.old.left) }
        ensures within { StaysWithin self.old self.new }
        ensures read { IfOk result (λ end. IsEnd border end self.old.left self.new.left) }
        ensures names { IfErr result (Names self.new) }
        ensures stops { IfErr result (Stops Anything (Reads (IsEnd border)) self.old.left self.new.left) }
    {
        if self.is_word(border) {
            self.word(border)?;
            return Ok(EndTree::Border);
        }
        let name = self.name()?;
        Ok(EndTree::Activity(name))
    }

    /// Takes what stands between DATA and MAP.
    fn ends(&mut self) -> Result<EndsTree, SyntaxFault>
        ensures shorter { IfOk result (λ _. length self.new.left < length self.old.left) }
        ensures within { StaysWithin self.old self.new }
        ensures read { IfOk result (λ ends. AreEnds ends self.old.left self.new.left) }
        ensures names { IfErr result (Names self.new) }
        ensures stops { IfErr result (Stops Anything (Reads AreEnds) self.old.left self.new.left) }
    {
        if self.is_word(Keyword::Loop) {
            self.word(Keyword::Loop)?;
            let name = self.name()?;
            return Ok(EndsTree::Loop(name));
        }
        self.word(Keyword::From)?;
        let from = self.end(Keyword::Source)?;
        self.word(Keyword::To)?;
        let to = self.end(Keyword::Sink)?;
        Ok(EndsTree::Line(from, to))
    }

    fn map(&mut self) -> Result<MapTree, SyntaxFault>
        ensures shorter { IfOk result (λ _. length self.new.left < length self.old.left) }
        ensures within { StaysWithin self.old self.new }
        ensures read { IfOk result (λ map. IsMap map self.old.left self.new.left) }
        ensures names { IfErr result (Names self.new) }
        ensures taken { IfOk result (λ _. IsTaken (Looser 9) (Reads IsMap) self.old.left self.new.left) }
        ensures stops { IfErr result (Stops (Looser 9) (Reads IsMap) self.old.left self.new.left) }
    {
        let from = self.leaf()?;
        self.word(Keyword::To)?;
        let to = self.leaf()?;
        Ok(MapTree { from, to })
    }

    fn maps(&mut self) -> Result<List<MapTree>, SyntaxFault>
        ensures shorter { IfOk result (λ _. length self.new.left < length self.old.left) }
        ensures within { StaysWithin self.old self.new }
        ensures read { IfOk result (λ maps. AreMaps maps self.old.left self.new.left) }
        ensures names { IfErr result (Names self.new) }
        ensures taken { IfOk result (λ _. IsTaken (Looser 5) (Reads AreMaps) self.old.left self.new.left) }
        ensures stops { IfErr result (Stops (Looser 5) (Reads AreMaps) self.old.left self.new.left) }
    {
        self.word(Keyword::Map)?;
        let mut maps = List::new(self.alloc());
        let first = self.map()?;
        maps.push(first)?;
        while self.is_mark(Mark::Comma) {
            self.mark(Mark::Comma)?;
            let next = self.map()?;
            maps.push(next)?;
        }
        Ok(maps)
    }

    pub(crate) fn data_line(&mut self) -> Result<DataTree, SyntaxFault>
        ensures shorter { IfOk result (λ _. length self.new.left < length self.old.left) }
        ensures within { StaysWithin self.old self.new }
        ensures read { IfOk result (λ line. IsDataLine line self.old.left self.new.left) }
        ensures names { IfErr result (Names self.new) }
        ensures taken { IfOk result (λ _. IsTaken (Looser 5) (Reads IsDataLine) self.old.left self.new.left) }
        ensures stops { IfErr result (Stops (Looser 5) (Reads IsDataLine) self.old.left self.new.left) }
    {
        let place = self.word(Keyword::Data)?;
        let ends = self.ends()?;
        let maps = self.maps()?;
        Ok(DataTree { place, ends, maps })
    }
}
