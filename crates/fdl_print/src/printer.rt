//! Tokens with one space between them, in lines.
ghost use Rattle.std.specs.Prelude.{◌≡◌, [], false, OnOk};
ghost use Rattle.fdl_print.specs.Pieces.{Token, Stop, with_piece, with_pieces, sign_text, word as word_piece};
ghost use Rattle.fdl_print.specs.Pieces.{sign as sign_piece, name as name_piece, quoted as text_piece};
ghost use Rattle.fdl_print.specs.Pieces.{digits as size_piece};
ghost use Rattle.fdl_print.specs.Parts.{number_pieces, first_step as first_step_pieces};
ghost use Rattle.fdl_print.specs.Parts.{later_step as later_step_pieces, leaf_pieces};

use fdl_lexer::Mark;
use flow_model::{LeafAt, Name, NumberAt, StepTree, Txt};
use flow_table::Keyword;
use flow_text::{decimal, quoted_name, quoted_text};
use std::alloc::{AllocError, Global};
use std::marker::Model;

/// The text so far.
#[derive(Drop)]
pub struct Printer {
    out: Vec<u8>,
    begun: bool,
}

impl Model for Printer {
    ghost use Rattle.fdl_print.specs.Pieces.{Page};

    ghost Value = { Page };

    ghost view = { λ p. record { written = p.out.items; begun = p.begun } };
}

/// How a mark is written.
fn spelling(mark: Mark) -> &'static [u8]
    ensures { result.now ≡ sign_text mark }
{
    match mark {
        Mark::Open => b"(",
        Mark::Close => b")",
        Mark::Comma => b",",
        Mark::Semicolon => b";",
        Mark::Colon => b":",
        Mark::Dot => b".",
        Mark::OpenBracket => b"[",
        Mark::CloseBracket => b"]",
        Mark::Equal => b"=",
        Mark::NotEqual => b"<>",
        Mark::Less => b"<",
        Mark::AtMost => b"<=",
        Mark::Greater => b">",
        Mark::AtLeast => b">=",
        Mark::Plus => b"+",
        Mark::Minus => b"-",
    }
}

impl Printer {
    pub fn new(alloc: Global) -> Printer
        ensures { result ≡ record { written = []; begun = false } }
    {
        Printer {
            out: Vec::new(alloc),
            begun: false,
        }
    }

    pub fn into_text(self) -> Vec<u8>
        ensures { result.items ≡ self.written }
    {
        let Printer { out, .. } = self;
        out
    }

    /// Puts a token, with a space before it but for the first of a line.
    fn token(&mut self, bytes: &[u8]) -> Result<(), AllocError>
        ensures { OnOk result (self.new ≡ with_piece (Token bytes.now) self.old) }
    {
        if self.begun {
            self.out.push(b' ')?;
        }
        self.begun = true;
        self.out.extend_from_slice(bytes)
    }

    pub fn end_line(&mut self) -> Result<(), AllocError>
        ensures { OnOk result (self.new ≡ with_piece Stop self.old) }
    {
        self.out.push(b'\n')?;
        self.begun = false;
        Ok(())
    }

    pub fn word(&mut self, keyword: Keyword) -> Result<(), AllocError>
        ensures { OnOk result (self.new ≡ with_piece (word_piece keyword) self.old) }
    {
        self.token(keyword.spelling())
    }

    pub fn mark(&mut self, mark: Mark) -> Result<(), AllocError>
        ensures { OnOk result (self.new ≡ with_piece (sign_piece mark) self.old) }
    {
        self.token(spelling(mark))
    }

    /// Puts the space before a token, but for the first of a line.
    fn space(&mut self) -> Result<(), AllocError>
        ensures { OnOk result (self.new ≡ with_piece (Token []) self.old) }
    {
        self.token(b"")
    }

    pub fn name(&mut self, name: &Name) -> Result<(), AllocError>
        ensures { OnOk result (self.new ≡ with_piece (name_piece name.now) self.old) }
    {
        self.space()?;
        quoted_name(&mut self.out, name.as_slice())
    }

    pub fn text(&mut self, text: &Txt) -> Result<(), AllocError>
        ensures { OnOk result (self.new ≡ with_piece (text_piece text.now) self.old) }
    {
        self.space()?;
        quoted_text(&mut self.out, text.as_slice())
    }

    pub fn size(&mut self, size: u64) -> Result<(), AllocError>
        ensures { OnOk result (self.new ≡ with_piece (size_piece size) self.old) }
    {
        self.space()?;
        decimal(&mut self.out, size)
    }

    pub fn number(&mut self, number: &NumberAt) -> Result<(), AllocError>
        ensures { OnOk result (self.new ≡ with_pieces (number_pieces number.now) self.old) }
    {
        if number.minus.is_some() {
            self.mark(Mark::Minus)?;
            return self.size(number.size);
        }
        self.size(number.size)
    }

    fn first_step(&mut self, step: &StepTree) -> Result<(), AllocError>
        ensures { OnOk result (self.new ≡ with_pieces (first_step_pieces step.now) self.old) }
    {
        match step {
            StepTree::Rc => self.token(b"'_RC'"),
            StepTree::Member(name) => self.name(name),
            StepTree::Place(place) => {
                self.mark(Mark::OpenBracket)?;
                self.size(*place)?;
                self.mark(Mark::CloseBracket)
            }
        }
    }

    fn later_step(&mut self, step: &StepTree) -> Result<(), AllocError>
        ensures { OnOk result (self.new ≡ with_pieces (later_step_pieces step.now) self.old) }
    {
        if let StepTree::Member(_) = step {
            self.mark(Mark::Dot)?;
            return self.first_step(step);
        }
        self.first_step(step)
    }

    #[tactic(auto, using(crate::proofs::Laying::append_rule))]
    pub fn leaf(&mut self, leaf: &LeafAt) -> Result<(), AllocError>
        ensures { OnOk result (self.new ≡ with_pieces (leaf_pieces leaf.now) self.old) }
    {
        let [first, rest @ ..] = leaf.steps.as_slice() else {
            return Ok(());
        };
        self.first_step(first)?;
        for step in rest {
            self.later_step(step)?;
        }
        Ok(())
    }
}
