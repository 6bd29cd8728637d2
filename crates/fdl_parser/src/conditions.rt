//! Conditions.
ghost use Rattle.std.specs.Prelude.{◌≡◌, ◌≢◌, ◌<◌, length, IfOk, IfErr, IfSome, Some, None, true, false, [], ◌∷◌};
ghost use Rattle.flow_model.specs.declared.trees.Cond.TheVariants as form;
ghost use Rattle.fdl_lexer.specs.declared.kinds.Mark.TheVariants as sign;
ghost use Rattle.fdl_parser.specs.Faults.{Names};
ghost use Rattle.fdl_parser.specs.Stops.{Reads, Anything, OneComes, NoneComes, IsTaken, Stops};
ghost use Rattle.fdl_parser.specs.Tiers.{Looser};
ghost use Rattle.fdl_parser.specs.Tokens.{StaysWithin};
ghost use Rattle.fdl_parser.specs.Conditions.{mark_of, IsOperand, IsNextTerm, IsSide, IsComparison, IsNegation};
ghost use Rattle.fdl_parser.specs.Conditions.{IsConjunction, IsDisjunction, IsCondition};

use crate::cursor::{Cursor, SyntaxFault};
use fdl_lexer::{Mark, What};
use flow_model::{Boxed, Cond, CondAt, List, OperandTree, Operator, Side, TermTree};
use flow_table::Keyword;
use std::alloc::Global;

/// How many levels of NOT and parentheses a condition may have.
const LEVELS: u32 = 64;

/// The comparison of a mark.
fn operator_of(what: Option<What>) -> Option<Operator>
    ensures some { IfSome result (λ operator. what ≡ Some (What.Mark (mark_of operator))) }
    ensures none { result ≡ None → (operator : Operator) → what ≢ Some (What.Mark (mark_of operator)) }
{
    match what {
        Some(What::Mark(Mark::Equal)) => Some(Operator::Eq),
        Some(What::Mark(Mark::NotEqual)) => Some(Operator::Ne),
        Some(What::Mark(Mark::Less)) => Some(Operator::Lt),
        Some(What::Mark(Mark::AtMost)) => Some(Operator::Le),
        Some(What::Mark(Mark::Greater)) => Some(Operator::Gt),
        Some(What::Mark(Mark::AtLeast)) => Some(Operator::Ge),
        _ => None,
    }
}

/// The mark of a comparison.
fn mark_of(operator: Operator) -> Mark
    ensures { result ≡ mark_of operator }
{
    match operator {
        Operator::Eq => Mark::Equal,
        Operator::Ne => Mark::NotEqual,
        Operator::Lt => Mark::Less,
        Operator::Le => Mark::AtMost,
        Operator::Gt => Mark::Greater,
        Operator::Ge => Mark::AtLeast,
    }
}

impl<'a> Cursor<'a> {
    /// Whether a leaf comes next.
    fn is_leaf_next(&self) -> bool
        ensures yes { result ≡ true → OneComes (What.Name ∷ What.Rc ∷ []) self.now.left }
        ensures no { result ≡ false → NoneComes (What.Name ∷ What.Rc ∷ []) self.now.left }
    {
        self.is_next(What::Name) || self.is_next(What::Rc)
    }

    fn operand(&mut self) -> Result<OperandTree, SyntaxFault>
        ensures shorter { IfOk result (λ _. length self.new.left < length self.old.left) }
        ensures within { StaysWithin self.old self.new }
        ensures read { IfOk result (λ operand. IsOperand operand self.old.left self.new.left) }
        ensures names { IfErr result (Names self.new) }
        ensures taken { IfOk result (λ _. IsTaken (Looser 9) (Reads IsOperand) self.old.left self.new.left) }
        ensures stops { IfErr result (Stops (Looser 9) (Reads IsOperand) self.old.left self.new.left) }
    {
        if self.is_leaf_next() {
            let leaf = self.leaf()?;
            return Ok(OperandTree::Leaf(leaf));
        }
        let number = self.signed()?;
        Ok(OperandTree::Number(number))
    }

    /// Takes `+` or `-` and an operand.
    fn next_term(&mut self) -> Result<TermTree, SyntaxFault>
        ensures shorter { IfOk result (λ _. length self.new.left < length self.old.left) }
        ensures within { StaysWithin self.old self.new }
        ensures read { IfOk result (λ term. IsNextTerm term self.old.left self.new.left) }
        ensures names { IfErr result (Names self.new) }
        ensures taken { IfOk result (λ _. IsTaken (Looser 9) (Reads IsNextTerm) self.old.left self.new.left) }
        ensures stops { IfErr result (Stops (Looser 9) (Reads IsNextTerm) self.old.left self.new.left) }
    {
        if self.is_mark(Mark::Minus) {
            self.mark(Mark::Minus)?;
            let operand = self.operand()?;
            return Ok(TermTree {
                minus: true,
                operand,
            });
        }
        self.mark(Mark::Plus)?;
        let operand = self.operand()?;
        Ok(TermTree {
            minus: false,
            operand,
        })
    }

    /// Whether a further operand of a sum comes next.
    fn is_term_next(&self) -> bool
        ensures yes { result ≡ true → OneComes (What.Mark sign.Minus ∷ What.Mark sign.Plus ∷ []) self.now.left }
        ensures no { result ≡ false → NoneComes (What.Mark sign.Minus ∷ What.Mark sign.Plus ∷ []) self.now.left }
    {
        self.is_mark(Mark::Minus) || self.is_mark(Mark::Plus)
    }

    fn side(&mut self) -> Result<Side, SyntaxFault>
        ensures shorter { IfOk result (λ _. length self.new.left < length self.old.left) }
        ensures within { StaysWithin self.old self.new }
        ensures read { IfOk result (λ side. IsSide side self.old.left self.new.left) }
        ensures names { IfErr result (Names self.new) }
        ensures taken { IfOk result (λ _. IsTaken (Looser 8) (Reads IsSide) self.old.left self.new.left) }
        ensures stops { IfErr result (Stops (Looser 8) (Reads IsSide) self.old.left self.new.left) }
    {
        if self.is_next(What::Text) {
            let (text, place) = self.text()?;
            return Ok(Side::Text(text, place));
        }
        let mut terms = List::new(self.alloc());
        let operand = self.operand()?;
        terms.push(TermTree {
            minus: false,
            operand,
        })?;
        while self.is_term_next() {
            terms.push(self.next_term()?)?;
        }
        Ok(Side::Sum(terms))
    }

    fn comparison(&mut self) -> Result<Cond, SyntaxFault>
        ensures shorter { IfOk result (λ _. length self.new.left < length self.old.left) }
        ensures within { StaysWithin self.old self.new }
        ensures read { IfOk result (λ cond. IsComparison cond self.old.left self.new.left) }
        ensures names { IfErr result (Names self.new) }
        ensures taken { IfOk result (λ _. IsTaken (Looser 8) (Reads IsComparison) self.old.left self.new.left) }
        ensures stops { IfErr result (Stops (Looser 8) (Reads IsComparison) self.old.left self.new.left) }
    {
        let left = self.side()?;
        let Some(operator) = operator_of(self.peek()) else {
            return Err(self.fault());
        };
        self.mark(mark_of(operator))?;
        let right = self.side()?;
        Ok(Cond::Compare(left, operator, right))
    }

    /// Takes NOT and what it denies, or a condition in parentheses, or a comparison.
    #[cycle(condition)]
    fn negation(&mut self, levels: u32) -> Result<Cond, SyntaxFault>
        ensures shorter { IfOk result (λ _. length self.new.left < length self.old.left) }
        ensures within { StaysWithin self.old self.new }
        ensures read { IfOk result (λ cond. IsNegation levels cond self.old.left self.new.left) }
        ensures names { IfErr result (Names self.new) }
        ensures taken { IfOk result (λ _. IsTaken (Looser 8) (Reads (IsNegation levels)) self.old.left self.new.left) }
        ensures stops { IfErr result (Stops (Looser 8) (Reads (IsNegation levels)) self.old.left self.new.left) }
    {
        let denies = self.is_word(Keyword::Not);
        if !denies && !self.is_mark(Mark::Open) {
            let comparison = self.comparison()?;
            return Ok(comparison);
        }
        if levels == 0 {
            return Err(self.fault());
        }
        if denies {
            self.word(Keyword::Not)?;
            let denied = self.negation(levels - 1)?;
            let denial = not_of(self.alloc(), denied)?;
            return Ok(denial);
        }
        self.mark(Mark::Open)?;
        let inner = self.disjunction(levels - 1)?;
        self.mark(Mark::Close)?;
        Ok(inner)
    }

    #[cycle(condition)]
    fn conjunction(&mut self, levels: u32) -> Result<Cond, SyntaxFault>
        ensures shorter { IfOk result (λ _. length self.new.left < length self.old.left) }
        ensures within { StaysWithin self.old self.new }
        ensures read { IfOk result (λ cond. IsConjunction levels cond self.old.left self.new.left) }
        ensures names { IfErr result (Names self.new) }
        ensures taken { IfOk result (λ _. IsTaken (Looser 7)
            (Reads (IsConjunction levels)) self.old.left self.new.left) }
        ensures stops { IfErr result (Stops (Looser 7) (Reads (IsConjunction levels)) self.old.left self.new.left) }
    {
        let first = self.negation(levels)?;
        if !self.is_word(Keyword::And) {
            return Ok(first);
        }
        let mut members = List::new(self.alloc());
        members.push(first)?;
        self.word(Keyword::And)?;
        members.push(self.negation(levels)?)?;
        while self.is_word(Keyword::And) {
            self.word(Keyword::And)?;
            members.push(self.negation(levels)?)?;
        }
        Ok(Cond::And(members))
    }

    #[cycle(condition)]
    fn disjunction(&mut self, levels: u32) -> Result<Cond, SyntaxFault>
        ensures shorter { IfOk result (λ _. length self.new.left < length self.old.left) }
        ensures within { StaysWithin self.old self.new }
        ensures read { IfOk result (λ cond. IsDisjunction levels cond self.old.left self.new.left) }
        ensures names { IfErr result (Names self.new) }
        ensures taken { IfOk result (λ _. IsTaken (Looser 6)
            (Reads (IsDisjunction levels)) self.old.left self.new.left) }
        ensures stops { IfErr result (Stops (Looser 6) (Reads (IsDisjunction levels)) self.old.left self.new.left) }
    {
        let first = self.conjunction(levels)?;
        if !self.is_word(Keyword::Or) {
            return Ok(first);
        }
        let mut members = List::new(self.alloc());
        members.push(first)?;
        self.word(Keyword::Or)?;
        members.push(self.conjunction(levels)?)?;
        while self.is_word(Keyword::Or) {
            self.word(Keyword::Or)?;
            members.push(self.conjunction(levels)?)?;
        }
        Ok(Cond::Or(members))
    }

    /// Takes a condition in the parentheses of WHEN.
    pub(crate) fn condition(&mut self) -> Result<CondAt, SyntaxFault>
        ensures shorter { IfOk result (λ _. length self.new.left < length self.old.left) }
        ensures within { StaysWithin self.old self.new }
        ensures read { IfOk result (λ cond. IsCondition cond self.old.left self.new.left) }
        ensures names { IfErr result (Names self.new) }
        ensures stops { IfErr result (Stops Anything (Reads IsCondition) self.old.left self.new.left) }
    {
        let place = self.mark(Mark::Open)?;
        let cond = self.disjunction(LEVELS)?;
        self.mark(Mark::Close)?;
        Ok(CondAt { place, cond })
    }
}

fn not_of(alloc: Global, denied: Cond) -> Result<Cond, SyntaxFault>
    ensures denies { IfOk result (λ denial. denial ≡ form.Not denied) }
    ensures memory { IfErr result (λ e. e ≡ SyntaxFault.NoMemory) }
{
    match Boxed::new(alloc, denied) {
        Ok(boxed) => Ok(Cond::Not(boxed)),
        Err(_) => Err(SyntaxFault::NoMemory),
    }
}
