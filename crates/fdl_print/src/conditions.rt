//! Conditions.
ghost use Rattle.std.specs.Prelude.{◌≡◌, ◌∷◌, ◌++◌, map, OnOk};
ghost use Rattle.fdl_print.specs.Pieces.{with_pieces, sign as sign_piece};
ghost use Rattle.fdl_print.specs.Parts.{operator_mark as mark_of, operand_pieces, later_term as later_term_pieces};
ghost use Rattle.fdl_print.specs.Parts.{side_pieces, sum_pieces};
ghost use Rattle.fdl_print.specs.Conditions.{shown, in_or, in_and, in_parentheses, or_pieces, and_pieces, later_or};
ghost use Rattle.fdl_print.specs.Conditions.{later_and, condition_pieces};

use crate::printer::Printer;
use fdl_lexer::Mark;
use flow_model::{Cond, CondAt, OperandTree, Operator, Side, TermTree};
use flow_table::Keyword;
use std::alloc::AllocError;

fn operator_mark(operator: Operator) -> Mark
    ensures { result ≡ mark_of operator }
{
    match operator {
        Operator::Eq => Mark::Equal,
        Operator::Ne => Mark::NotEqual,
        Operator::Lt => Mark::Less,
        Operator::Le => Mark::AtMost,
        Operator::Gt => Mark::Greater,
        Operator::Ge => Mark::AtLeast,
    }
}

impl Printer {
    fn operand(&mut self, operand: &OperandTree) -> Result<(), AllocError>
        ensures { OnOk result (self.new ≡ with_pieces (operand_pieces operand.now) self.old) }
    {
        match operand {
            OperandTree::Leaf(leaf) => self.leaf(leaf),
            OperandTree::Number(number) => self.number(number),
        }
    }

    /// An operand behind its mark.
    #[tactic(auto, unfolding(crate::specs::Parts::later_term))]
    fn later_term(&mut self, term: &TermTree) -> Result<(), AllocError>
        ensures { OnOk result (self.new ≡ with_pieces (later_term_pieces term.now) self.old) }
    {
        self.mark(if term.minus { Mark::Minus } else { Mark::Plus })?;
        self.operand(&term.operand)
    }

    fn sum(&mut self, terms: &[TermTree]) -> Result<(), AllocError>
        ensures { OnOk result (self.new ≡ with_pieces (sum_pieces terms.now) self.old) }
    {
        let [first, rest @ ..] = terms else {
            return Ok(());
        };
        self.operand(&first.operand)?;
        for term in rest {
            self.later_term(term)?;
        }
        Ok(())
    }

    fn side(&mut self, side: &Side) -> Result<(), AllocError>
        ensures { OnOk result (self.new ≡ with_pieces (side_pieces side.now) self.old) }
    {
        match side {
            Side::Text(text, _) => self.text(text),
            Side::Sum(terms) => self.sum(terms.as_slice()),
        }
    }

    /// A member of an OR, in parentheses where it is an OR itself.
    #[cycle(condition)]
    #[tactic(auto, using(crate::proofs::Laying::append_rule))]
    fn in_or(&mut self, cond: &Cond) -> Result<(), AllocError>
        ensures { OnOk result (self.new ≡ with_pieces (in_or (shown cond.now)) self.old) }
    {
        match cond {
            Cond::Or(_) => self.enclosed(cond),
            Cond::And(_) => self.bare(cond),
            Cond::Not(_) => self.bare(cond),
            Cond::Compare(_, _, _) => self.bare(cond),
        }
    }

    /// A member of an AND or the operand of NOT, in parentheses where it is an OR or an AND itself.
    #[cycle(condition)]
    fn in_and(&mut self, cond: &Cond) -> Result<(), AllocError>
        ensures { OnOk result (self.new ≡ with_pieces (in_and (shown cond.now)) self.old) }
    {
        match cond {
            Cond::Or(_) => self.enclosed(cond),
            Cond::And(_) => self.enclosed(cond),
            Cond::Not(_) => self.bare(cond),
            Cond::Compare(_, _, _) => self.bare(cond),
        }
    }

    #[cycle(condition)]
    #[tactic(auto, using(crate::proofs::Laying::append_rule))]
    fn enclosed(&mut self, cond: &Cond) -> Result<(), AllocError>
        ensures { OnOk result (self.new ≡ with_pieces (in_parentheses (shown cond.now).bare) self.old) }
    {
        self.mark(Mark::Open)?;
        self.bare(cond)?;
        self.mark(Mark::Close)
    }

    #[cycle(condition)]
    #[tactic(auto, unfolding(crate::specs::Conditions::later_or))]
    fn later_or(&mut self, member: &Cond) -> Result<(), AllocError>
        ensures { OnOk result (self.new ≡ with_pieces (later_or (shown member.now)) self.old) }
    {
        self.word(Keyword::Or)?;
        self.in_or(member)
    }

    #[cycle(condition)]
    fn members_of_or(&mut self, members: &[Cond]) -> Result<(), AllocError>
        ensures { OnOk result (self.new ≡ with_pieces (or_pieces (map shown members.now)) self.old) }
    {
        let [first, rest @ ..] = members else {
            return Ok(());
        };
        self.in_or(first)?;
        for member in rest {
            self.later_or(member)?;
        }
        Ok(())
    }

    #[cycle(condition)]
    #[tactic(auto, unfolding(crate::specs::Conditions::later_and))]
    fn later_and(&mut self, member: &Cond) -> Result<(), AllocError>
        ensures { OnOk result (self.new ≡ with_pieces (later_and (shown member.now)) self.old) }
    {
        self.word(Keyword::And)?;
        self.in_and(member)
    }

    #[cycle(condition)]
    fn members_of_and(&mut self, members: &[Cond]) -> Result<(), AllocError>
        ensures { OnOk result (self.new ≡ with_pieces (and_pieces (map shown members.now)) self.old) }
    {
        let [first, rest @ ..] = members else {
            return Ok(());
        };
        self.in_and(first)?;
        for member in rest {
            self.later_and(member)?;
        }
        Ok(())
    }

    #[tactic(auto, using(crate::proofs::Laying::append_rule))]
    fn compare(&mut self, left: &Side, operator: Operator, right: &Side) -> Result<(), AllocError>
        ensures { OnOk result (self.new ≡ with_pieces (side_pieces left.now
            ++ sign_piece (mark_of operator) ∷ side_pieces right.now) self.old) }
    {
        self.side(left)?;
        self.mark(operator_mark(operator))?;
        self.side(right)
    }

    /// A condition without parentheses round it.
    #[cycle(condition)]
    fn bare(&mut self, cond: &Cond) -> Result<(), AllocError>
        ensures { OnOk result (self.new ≡ with_pieces (shown cond.now).bare self.old) }
    {
        match cond {
            Cond::Or(members) => self.members_of_or(members.as_slice()),
            Cond::And(members) => self.members_of_and(members.as_slice()),
            Cond::Not(member) => {
                self.word(Keyword::Not)?;
                self.in_and(member.get())
            }
            Cond::Compare(left, operator, right) => self.compare(left, *operator, right),
        }
    }

    /// A condition in the parentheses of WHEN.
    pub fn condition(&mut self, cond: &CondAt) -> Result<(), AllocError>
        ensures { OnOk result (self.new ≡ with_pieces (condition_pieces cond.now) self.old) }
    {
        self.enclosed(&cond.cond)
    }
}
