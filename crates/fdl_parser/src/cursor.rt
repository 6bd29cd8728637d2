//! The tokens that are left to read, and the parts that one or two of them make.
ghost use Rattle.std.specs.Prelude.{◌≡◌, ◌≢◌, ◌<◌, List as Seq, ℕ, length, slice_range, true, false};
ghost use Rattle.std.specs.Prelude.{IfOk, IfErr, IfSome, ◌==◌};
ghost use Rattle.fdl_lexer.specs.Bytes.{single_quoted};
ghost use Rattle.fdl_parser.specs.declared.cursor.SyntaxFault.TheVariants.{NoMemory};
ghost use Rattle.fdl_parser.specs.Faults.{Names};
ghost use Rattle.fdl_parser.specs.Stops.{Reads, Anything, Quotes, FirstSteps, StepComes, NoStep, IsTaken, Stops};
ghost use Rattle.fdl_parser.specs.Tokens.{reading, StaysWithin, first_kind, HasBytes, IsToken, IsName, IsQuote};
ghost use Rattle.fdl_parser.specs.Tokens.{IsItemToken, IsNumber, IsSigned, IsFirstStep, IsNextStep, IsLeaf};

use fdl_lexer::{Mark, Token, What, text_value};
use flow_model::{Bytes, LeafAt, List, Name, NameAt, NameFault, NumberAt, StepTree, Txt};
use flow_table::Keyword;
use std::alloc::{AllocError, Global};
use std::marker::Model;
use thiserror::Error;

/// Why tokens have no tree.
#[derive(Clone, Copy, Debug, PartialEq, Eq, Drop, Error)]
pub enum SyntaxFault {
    /// The place of the first token with which the tokens begin no text of the grammar, or the text's length.
    #[error("At")]
    At(u32),
    /// There was no memory for the tree.
    #[error("NoMemory")]
    NoMemory,
}

impl From<AllocError> for SyntaxFault {
    ghost from_gives = { λ _ e. e ≡ NoMemory };

    fn from(_fault: AllocError) -> SyntaxFault {
        SyntaxFault::NoMemory
    }
}

/// The tokens of a text that are left to read; contracts see it as their list, each with its bytes,
/// and the place where the text ends.
#[derive(Drop)]
pub struct Cursor<'a> {
    alloc: Global,
    text: &'a [u8],
    left: &'a [Token],
}

impl<'a> Model for Cursor<'a> {
    ghost use Rattle.fdl_parser.specs.Tokens.{Reading, reading};

    ghost Value = { Reading };

    ghost view = { λ c. reading c.text.now c.left.now };
}

impl<'a> Cursor<'a> {
    /// All tokens of a text.
    pub fn new(alloc: Global, text: &'a [u8], tokens: &'a [Token]) -> Cursor<'a>
        ensures { result ≡ reading text.now tokens.now }
    {
        Cursor {
            alloc,
            text,
            left: tokens,
        }
    }

    /// The allocator for what is made of the tokens.
    pub fn alloc(&self) -> Global {
        self.alloc
    }

    /// What the next token is.
    pub fn peek(&self) -> Option<What>
        ensures { result ≡ first_kind self.now.left }
    {
        match self.left {
            [token, ..] => Some(token.what),
            [] => None,
        }
    }

    /// Whether no token is left.
    pub fn is_at_end(&self) -> bool
        ensures { result ≡ (length self.now.left == 0) }
    {
        self.left.is_empty()
    }

    /// Where the next token stands, or the text's length.
    pub fn place(&self) -> u32
        ensures { Names self.now (SyntaxFault.At result) }
    {
        match self.left {
            [token, ..] => token.from,
            [] => self.text.len().min(u32::MAX as usize) as u32,
        }
    }

    /// The fault of the next token.
    pub fn fault(&self) -> SyntaxFault
        ensures { Names self.now result }
    {
        SyntaxFault::At(self.place())
    }

    /// Whether the next token is this one.
    pub fn is_next(&self, what: What) -> bool
        ensures yes { result ≡ true → first_kind self.now.left ≡ Some what }
        ensures no { result ≡ false → first_kind self.now.left ≢ Some what }
    {
        match self.left {
            [token, ..] => is_same(token.what, what),
            [] => false,
        }
    }

    /// Whether the next token is this word.
    pub fn is_word(&self, word: Keyword) -> bool
        ensures yes { result ≡ true → first_kind self.now.left ≡ Some (What.Word word) }
        ensures no { result ≡ false → first_kind self.now.left ≢ Some (What.Word word) }
    {
        self.is_next(What::Word(word))
    }

    /// Whether the next token is this mark.
    pub fn is_mark(&self, mark: Mark) -> bool
        ensures yes { result ≡ true → first_kind self.now.left ≡ Some (What.Mark mark) }
        ensures no { result ≡ false → first_kind self.now.left ≢ Some (What.Mark mark) }
    {
        self.is_next(What::Mark(mark))
    }

    /// Takes the next token, if it is this one; gives its place.
    pub fn token(&mut self, what: What) -> Result<u32, SyntaxFault>
        ensures shorter { IfOk result (λ _. length self.new.left < length self.old.left) }
        ensures within { StaysWithin self.old self.new }
        ensures read { IfOk result (λ place. IsToken what place self.old.left self.new.left) }
        ensures refused { IfErr result (λ e. Names self.old e × (self.new ≡ self.old)
            × (first_kind self.old.left ≢ Some what)) }
    {
        match self.left {
            [token, rest @ ..] if is_same(token.what, what) => {
                self.left = rest;
                Ok(token.from)
            }
            _ => Err(self.fault()),
        }
    }

    /// Takes the next token, if it is this word; gives its place.
    pub fn word(&mut self, word: Keyword) -> Result<u32, SyntaxFault>
        ensures shorter { IfOk result (λ _. length self.new.left < length self.old.left) }
        ensures within { StaysWithin self.old self.new }
        ensures read { IfOk result (λ place. IsToken (What.Word word) place self.old.left self.new.left) }
        ensures refused { IfErr result (λ e. Names self.old e × (self.new ≡ self.old)
            × (first_kind self.old.left ≢ Some (What.Word word))) }
    {
        self.token(What::Word(word))
    }

    /// Takes the next token, if it is this mark; gives its place.
    pub fn mark(&mut self, mark: Mark) -> Result<u32, SyntaxFault>
        ensures shorter { IfOk result (λ _. length self.new.left < length self.old.left) }
        ensures within { StaysWithin self.old self.new }
        ensures read { IfOk result (λ place. IsToken (What.Mark mark) place self.old.left self.new.left) }
        ensures refused { IfErr result (λ e. Names self.old e × (self.new ≡ self.old)
            × (first_kind self.old.left ≢ Some (What.Mark mark))) }
    {
        self.token(What::Mark(mark))
    }

    /// The bytes of the next token, if it is of a kind that is read from them.
    fn spelled(&self, what: What) -> Result<&'a [u8], SyntaxFault>
        ensures read { IfOk result (λ bytes. HasBytes what bytes.now self.now.left) }
        ensures names { IfErr result (Names self.now) }
        ensures other { IfErr result (λ _. first_kind self.now.left ≢ Some what) }
    {
        match self.left {
            [token, ..] if is_same(token.what, what) => {
                Ok(bytes_between(self.text, token.from as usize, token.to as usize))
            }
            _ => Err(self.fault()),
        }
    }

    /// Takes a name.
    pub fn name(&mut self) -> Result<NameAt, SyntaxFault>
        ensures shorter { IfOk result (λ _. length self.new.left < length self.old.left) }
        ensures within { StaysWithin self.old self.new }
        ensures read { IfOk result (λ name. IsName name self.old.left self.new.left) }
        ensures names { IfErr result (Names self.new) }
        ensures stops { IfErr result (Stops Anything (Reads IsName) self.old.left self.new.left) }
    {
        let bytes = self.spelled(What::Name)?;
        match Name::new(self.alloc, unquoted(bytes)) {
            Ok(name) => {
                let place = self.token(What::Name)?;
                Ok(NameAt { name, place })
            }
            Err(NameFault::Bad) => Err(self.fault()),
            Err(NameFault::NoMemory) => Err(SyntaxFault::NoMemory),
        }
    }

    /// Takes a text; gives its place too.
    pub fn text(&mut self) -> Result<(Txt, u32), SyntaxFault>
        ensures shorter { IfOk result (λ _. length self.new.left < length self.old.left) }
        ensures within { StaysWithin self.old self.new }
        ensures read { IfOk result (λ read. IsQuote read.0 read.1 self.old.left self.new.left) }
        ensures names { IfErr result (Names self.new) }
        ensures stops { IfErr result (Stops Anything Quotes self.old.left self.new.left) }
    {
        let bytes = self.spelled(What::Text)?;
        let value = text_value(self.alloc, bytes)?;
        match Txt::new(self.alloc, &value) {
            Ok(text) => {
                let place = self.token(What::Text)?;
                Ok((text, place))
            }
            Err(NameFault::Bad) => Err(self.fault()),
            Err(NameFault::NoMemory) => Err(SyntaxFault::NoMemory),
        }
    }

    /// Takes an item, with its quotes.
    pub fn item(&mut self) -> Result<Bytes, SyntaxFault>
        ensures shorter { IfOk result (λ _. length self.new.left < length self.old.left) }
        ensures within { StaysWithin self.old self.new }
        ensures read { IfOk result (λ bytes. IsItemToken bytes self.old.left self.new.left) }
        ensures names { IfErr result (Names self.new) }
        ensures stops { IfErr result (Stops Anything (Reads IsItemToken) self.old.left self.new.left) }
    {
        let bytes = Bytes::new(self.alloc, self.spelled(What::Item)?)?;
        self.token(What::Item)?;
        Ok(bytes)
    }

    /// The next token's number, if it is one.
    fn next_size(&self) -> Option<u64>
        ensures number { IfSome result (λ size. first_kind self.now.left ≡ Some (What.Number size)) }
        ensures other { (size : ℕ) → first_kind self.now.left ≡ Some (What.Number size) → result ≡ Some size }
    {
        match self.left {
            [token, ..] => size_of(token.what),
            [] => None,
        }
    }

    /// Takes a number without a sign.
    pub fn number(&mut self) -> Result<NumberAt, SyntaxFault>
        ensures shorter { IfOk result (λ _. length self.new.left < length self.old.left) }
        ensures within { StaysWithin self.old self.new }
        ensures read { IfOk result (λ number. IsNumber number self.old.left self.new.left) }
        ensures names { IfErr result (Names self.new) }
        ensures stops { IfErr result (Stops Anything (Reads IsNumber) self.old.left self.new.left) }
    {
        let Some(size) = self.next_size() else {
            return Err(self.fault());
        };
        let place = self.token(What::Number(size))?;
        Ok(NumberAt {
            minus: None,
            size,
            place,
        })
    }

    /// Takes a number, with a `-` before it or without.
    pub fn signed(&mut self) -> Result<NumberAt, SyntaxFault>
        ensures shorter { IfOk result (λ _. length self.new.left < length self.old.left) }
        ensures within { StaysWithin self.old self.new }
        ensures read { IfOk result (λ number. IsSigned number self.old.left self.new.left) }
        ensures names { IfErr result (Names self.new) }
        ensures stops { IfErr result (Stops Anything (Reads IsSigned) self.old.left self.new.left) }
    {
        if !self.is_mark(Mark::Minus) {
            let unsigned = self.number()?;
            return Ok(unsigned);
        }
        let minus = self.mark(Mark::Minus)?;
        let number = self.number()?;
        Ok(NumberAt {
            minus: Some(minus),
            size: number.size,
            place: number.place,
        })
    }

    /// Takes the first step of a leaf: a name or `'_RC'`; gives its place too.
    fn first_step(&mut self) -> Result<(StepTree, u32), SyntaxFault>
        ensures shorter { IfOk result (λ _. length self.new.left < length self.old.left) }
        ensures within { StaysWithin self.old self.new }
        ensures read { IfOk result (λ step. IsFirstStep step.0 step.1 self.old.left self.new.left) }
        ensures names { IfErr result (Names self.new) }
        ensures stops { IfErr result (Stops Anything FirstSteps self.old.left self.new.left) }
    {
        if self.is_next(What::Rc) {
            let place = self.token(What::Rc)?;
            return Ok((StepTree::Rc, place));
        }
        let member = self.name()?;
        Ok((StepTree::Member(member.name), member.place))
    }

    /// Takes `. name` or `[ number ]`.
    fn next_step(&mut self) -> Result<StepTree, SyntaxFault>
        ensures shorter { IfOk result (λ _. length self.new.left < length self.old.left) }
        ensures within { StaysWithin self.old self.new }
        ensures read { IfOk result (λ step. IsNextStep step self.old.left self.new.left) }
        ensures names { IfErr result (Names self.new) }
        ensures stops { IfErr result (Stops Anything (Reads IsNextStep) self.old.left self.new.left) }
    {
        if self.is_mark(Mark::Dot) {
            self.mark(Mark::Dot)?;
            let member = self.name()?;
            return Ok(StepTree::Member(member.name));
        }
        self.mark(Mark::OpenBracket)?;
        let number = self.number()?;
        self.mark(Mark::CloseBracket)?;
        Ok(StepTree::Place(number.size))
    }

    /// Whether a further step of a leaf comes next.
    fn is_step_next(&self) -> bool
        ensures yes { result ≡ true → StepComes self.now.left }
        ensures no { result ≡ false → NoStep self.now.left }
    {
        self.is_mark(Mark::Dot) || self.is_mark(Mark::OpenBracket)
    }

    /// Takes a leaf.
    pub fn leaf(&mut self) -> Result<LeafAt, SyntaxFault>
        ensures shorter { IfOk result (λ _. length self.new.left < length self.old.left) }
        ensures within { StaysWithin self.old self.new }
        ensures read { IfOk result (λ leaf. IsLeaf leaf self.old.left self.new.left) }
        ensures names { IfErr result (Names self.new) }
        ensures taken { IfOk result (λ _. IsTaken NoStep (Reads IsLeaf) self.old.left self.new.left) }
        ensures stops { IfErr result (Stops NoStep (Reads IsLeaf) self.old.left self.new.left) }
    {
        let (first, place) = self.first_step()?;
        let mut steps = List::new(self.alloc);
        steps.push(first)?;
        while self.is_step_next() {
            steps.push(self.next_step()?)?;
        }
        Ok(LeafAt { steps, place })
    }
}

/// Whether a token is this one.
fn is_same(token: What, what: What) -> bool
    ensures yes { result ≡ true → token ≡ what }
    ensures no { result ≡ false → token ≢ what }
{
    token == what
}

/// What a token counts, if it is a number.
fn size_of(what: What) -> Option<u64>
    ensures number { IfSome result (λ size. what ≡ What.Number size) }
    ensures other { (size : ℕ) → what ≡ What.Number size → result ≡ Some size }
{
    match what {
        What::Number(size) => Some(size),
        _ => None,
    }
}

/// The bytes from one place to another, as far as there are some.
fn bytes_between(bytes: &[u8], from: usize, to: usize) -> &[u8]
    ensures { result.now ≡ slice_range bytes.now from to }
{
    let (_, behind) = bytes.split_at(from.min(bytes.len()));
    let (between, _) = behind.split_at(to.saturating_sub(from).min(behind.len()));
    between
}

/// The bytes between the quotes.
fn unquoted(bytes: &[u8]) -> &[u8]
    ensures { (value : Seq ℕ) → bytes.now ≡ single_quoted value → result.now ≡ value }
{
    match bytes {
        [_, inner @ .., _] => inner,
        _ => bytes,
    }
}
