//! The inputs of `check` and `fate`, read to their end.
ghost use Rattle.std.specs.Prelude.{◌≡◌, ◌≢◌, [], ◌∷◌, ◌++◌, map, IfOk, OnOk, MatchResult};
ghost use Rattle.flow_io.specs.Told.{StopCause};
ghost use Rattle.text_words.specs.Gathered.{kept, nothing, is_end, with_text, with_line, first_long, with_input};
ghost use Rattle.text_words.specs.Gathered.{found_input, IsGathered, as_input, AreLines};
ghost use Rattle.text_words.specs.Limits.{IsWithinLimit, StopsBeyond};
ghost use Rattle.flow_io.specs.declared.lines.Line.TheVariants.{Ended as EndedLine};

use flow_io::{IoStop, Line, Lines, Source};
use std::alloc::{AllocError, Global};

/// The most bytes that an input may have.
pub const MOST_BYTES: u64 = 268_435_456;

/// The most bytes of a text that are judged: a longer text breaks the same rule, however it goes on.
const MOST_TEXT: usize = 1_048_576;

/// A line of an input, with its number from 1.
#[derive(Drop)]
pub struct Numbered {
    pub number: u64,
    pub line: Vec<u8>,
}

/// An input: a text, and the lines behind the line `.` that ends it.
#[derive(Drop)]
pub struct Input {
    pub text: Vec<u8>,
    pub is_ended: bool,
    pub behind: Vec<Numbered>,
    /// The number of the first line that is too long.
    pub too_long: Option<u64>,
}

/// Whether a line ends a text: `.`, or `.` and a carriage return.
pub fn ends_text(line: &[u8]) -> bool
    ensures { result ≡ is_end line.now }
{
    line == b".".as_slice() || line == b".\r".as_slice()
}

impl Input {
    fn new(alloc: Global) -> Input
        ensures { kept result ≡ nothing }
    {
        Input {
            text: Vec::new(alloc),
            is_ended: false,
            behind: Vec::new(alloc),
            too_long: None,
        }
    }

    /// Adds a line to the text, as far as it is judged.
    fn add_text(&mut self, line: &[u8]) -> Result<(), AllocError>
        ensures { OnOk result (kept self.new ≡ record (kept self.old) {
          text =
              with_text self.old.text.items line.now;
        }) }
    {
        if self.text.len() <= MOST_TEXT {
            self.text.extend_from_slice(line)?;
            self.text.push(b'\n')?;
        }
        Ok(())
    }

    /// Adds a line behind the end.
    fn add_behind(&mut self, alloc: Global, number: u64, line: &[u8]) -> Result<(), AllocError>
        ensures { OnOk result (kept self.new ≡ record (kept self.old) {
          behind = (kept self.old).behind
              ++ (number, line.now) ∷ [];
        }) }
    {
        self.behind.push(Numbered {
            number,
            line: Vec::from_slice(alloc, line)?,
        })?;
        Ok(())
    }

    /// Adds a line; with `has_end` the line `.` ends the text.
    fn add_line(
        &mut self,
        alloc: Global,
        number: u64,
        line: &[u8],
        has_end: bool,
    ) -> Result<(), AllocError>
        ensures { OnOk result (kept self.new ≡ with_line has_end number (kept self.old) line.now) }
    {
        if self.is_ended {
            return self.add_behind(alloc, number, line);
        }
        if has_end && ends_text(line) {
            self.is_ended = true;
            return Ok(());
        }
        self.add_text(line)
    }

    fn note_long(&mut self, number: u64)
        ensures { kept self.new ≡ record (kept self.old) { too_long = first_long self.old.too_long number } }
    {
        if self.too_long.is_none() {
            self.too_long = Some(number);
        }
    }

    /// Adds what was found as the line of this number.
    fn add(
        &mut self,
        alloc: Global,
        number: u64,
        found: Line,
        line: &[u8],
        has_end: bool,
    ) -> Result<(), AllocError>
        ensures { OnOk result (kept self.new ≡ with_input has_end number (kept self.old) (found_input found line.now)) }
    {
        match found {
            Line::Text => self.add_line(alloc, number, line, has_end),
            Line::TooLong => {
                self.note_long(number);
                Ok(())
            }
            Line::Ended => Ok(()),
        }
    }

    /// Reads a source to its end. It stops as `Lines::next` does.
    #[tactic(auto, using(crate::proofs::Limits::within, crate::proofs::Limits::beyond, crate::proofs::Limits::ends_behind))]
    pub fn read<S: Source>(alloc: Global, src: &mut S, has_end: bool) -> Result<Input, IoStop>
        ensures cause { MatchResult result (λ _. S.faults src.new ≡ S.faults src.old)
            (StopCause (S.faults src.old) (S.faults src.new)) }
        ensures gathered { IfOk result (IsGathered has_end (S.left src.old)) }
        ensures limit { MatchResult result (λ _. IsWithinLimit (S.left src.old)) (StopsBeyond (S.left src.old)) }
    {
        let mut input = Input::new(alloc);
        let mut lines = Lines::new(alloc, MOST_BYTES)?;
        let mut number = 0;
        'turns: loop {
            let found = lines.next(src)?;
            if found == Line::Ended {
                return Ok(input);
            }
            number += 1;
            input.add(alloc, number, found, lines.text(), has_end)?;
        }
    }
}

/// Lines, each with whether it is too long; then its bytes aren't kept.
type Kept = Vec<(Vec<u8>, bool)>;

/// Keeps what was found as a line.
fn keep(alloc: Global, kept: &mut Kept, found: Line, line: &[u8]) -> Result<(), AllocError>
    ensures { OnOk result (found ≢ EndedLine → map as_input kept.new.items
        ≡ map as_input kept.old.items ++ found_input found line.now ∷ []) }
{
    match found {
        Line::Text => kept.push((Vec::from_slice(alloc, line)?, false))?,
        Line::TooLong => kept.push((Vec::new(alloc), true))?,
        Line::Ended => {}
    }
    Ok(())
}

/// The lines of a source to its end. It stops as `Lines::next` does.
#[tactic(auto, using(crate::proofs::Limits::within, crate::proofs::Limits::beyond))]
pub fn all_lines<S: Source>(alloc: Global, src: &mut S) -> Result<Kept, IoStop>
    ensures cause { MatchResult result (λ _. S.faults src.new ≡ S.faults src.old)
        (StopCause (S.faults src.old) (S.faults src.new)) }
    ensures lines { IfOk result (λ kept. AreLines (S.left src.old) kept.items) }
    ensures limit { MatchResult result (λ _. IsWithinLimit (S.left src.old)) (StopsBeyond (S.left src.old)) }
{
    let mut kept = Vec::new(alloc);
    let mut lines = Lines::new(alloc, MOST_BYTES)?;
    'turns: loop {
        let found = lines.next(src)?;
        if found == Line::Ended {
            return Ok(kept);
        }
        keep(alloc, &mut kept, found, lines.text())?;
    }
}
