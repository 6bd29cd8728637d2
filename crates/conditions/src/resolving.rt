//! From a written condition to one whose leaves are places.
ghost use Rattle.std.specs.Prelude.{◌≡◌, ◌<◌, ◌^◌, Some, None, IfOk, MatchResult, length};
ghost use Rattle.conditions.specs.Resolving.{resolved_term, resolved_text, text_operand, AreKnown, IsSumMade};
ghost use Rattle.conditions.specs.Resolving.{IsNumbers, IsSideMade, IsClear, AreClear, IsMade, AreMade, IsResolution};
ghost use Rattle.conditions.specs.declared.resolving.TypeFault.TheVariants.{NoMemory};
ghost use Rattle.flow_model.specs.declared.trees.Cond.TheVariants.{Compare};

use crate::faults::{first_mismatch, first_number_fault, first_unknown, is_text_term};
use containers::{find_leaf, number_value};
use flow_model::{
    Boxed, Cond, Expr, Leaves, List, Operand, OperandTree, Operator, Side, Term, TermTree, TextSide,
};
use std::alloc::{AllocError, Global};
use thiserror::Error;

/// Why a condition can't be resolved; each with the place that it names.
#[derive(Clone, Copy, Debug, PartialEq, Eq, Drop, Error)]
pub enum TypeFault {
    /// A leaf isn't one of the container that is read.
    #[error("UnknownMember")]
    UnknownMember(u32),
    /// The sides of a comparison don't have one kind, or a text leaf stands in a sum.
    #[error("Mismatch")]
    Mismatch(u32),
    /// A number has no 64 bits.
    #[error("Number")]
    Number(u32),
    /// There was no memory for it.
    #[error("NoMemory")]
    NoMemory,
}

impl From<AllocError> for TypeFault {
    ghost from_gives = { λ _ e. e ≡ NoMemory };

    fn from(_fault: AllocError) -> TypeFault {
        TypeFault::NoMemory
    }
}

/// A term whose leaf is a place.
fn term_of(term: &TermTree, leaves: &Leaves) -> Result<Term, TypeFault>
    ensures { length leaves.now.leaves < 2 ^ 32
        → MatchResult result (λ made. resolved_term leaves.now.leaves term.now ≡ Some made)
        (λ fault. resolved_term leaves.now.leaves term.now ≡ None) }
{
    let operand = match &term.operand {
        OperandTree::Leaf(leaf) => match find_leaf(leaves, leaf) {
            Some(place) => Operand::Leaf(place),
            None => return Err(TypeFault::UnknownMember(leaf.place)),
        },
        OperandTree::Number(number) => match number_value(number) {
            Some(value) => Operand::Number(value),
            None => return Err(TypeFault::Number(number.place)),
        },
    };
    Ok(Term {
        minus: term.minus,
        operand,
    })
}

/// The terms of a sum.
fn sum_of(alloc: Global, written: &[TermTree], leaves: &Leaves) -> Result<List<Term>, TypeFault>
    ensures { length leaves.now.leaves < 2 ^ 32 → AreKnown leaves.now.leaves written.now
        → IsSumMade leaves.now.leaves written.now result }
{
    let mut terms = List::new(alloc);
    for term in written {
        terms.push(term_of(term, leaves)?)?;
    }
    Ok(terms)
}

/// The terms of a side of numbers; none of a text.
fn side_sum(alloc: Global, side: &Side, leaves: &Leaves) -> Result<List<Term>, TypeFault>
    ensures { length leaves.now.leaves < 2 ^ 32 → IsNumbers leaves.now.leaves side.now
        → IsSideMade leaves.now.leaves side.now result }
{
    match side {
        Side::Text(_, _) => Ok(List::new(alloc)),
        Side::Sum(terms) => sum_of(alloc, terms.as_slice(), leaves),
    }
}

/// The leaf of a term, where it holds a text.
fn text_leaf(term: &TermTree, leaves: &Leaves) -> Option<TextSide>
    ensures { length leaves.now.leaves < 2 ^ 32 → result ≡ text_operand leaves.now.leaves term.now.operand }
{
    if !is_text_term(term, leaves) {
        return None;
    }
    match &term.operand {
        OperandTree::Number(_) => None,
        OperandTree::Leaf(leaf) => match find_leaf(leaves, leaf) {
            None => None,
            Some(place) => Some(TextSide::Leaf(place)),
        },
    }
}

/// The text, or the leaf, of a side of texts.
fn text_of(alloc: Global, side: &Side, leaves: &Leaves) -> Result<Option<TextSide>, AllocError>
    ensures { length leaves.now.leaves < 2 ^ 32 → IfOk result
        (λ made. made ≡ resolved_text leaves.now.leaves side.now) }
{
    match side {
        Side::Text(text, _) => Ok(Some(TextSide::Text(text.copy(alloc)?))),
        Side::Sum(terms) => match terms.as_slice() {
            [term] => Ok(text_leaf(term, leaves)),
            _ => Ok(None),
        },
    }
}

/// A comparison of two sums.
fn numbers(
    alloc: Global,
    left: &Side,
    operator: Operator,
    right: &Side,
    leaves: &Leaves,
) -> Result<Expr, TypeFault>
    ensures { length leaves.now.leaves < 2 ^ 32 → IsNumbers leaves.now.leaves left.now
        → IsNumbers leaves.now.leaves right.now
        → IsMade leaves.now.leaves (Compare left.now operator right.now) result }
{
    let first = side_sum(alloc, left, leaves)?;
    let second = side_sum(alloc, right, leaves)?;
    Ok(Expr::Whole(operator, first, second))
}

/// A comparison whose sides are known to have one kind.
fn comparison(
    alloc: Global,
    left: &Side,
    operator: Operator,
    right: &Side,
    leaves: &Leaves,
) -> Result<Expr, TypeFault>
    ensures { length leaves.now.leaves < 2 ^ 32 → IsClear leaves.now.leaves (Compare left.now operator right.now)
        → IsMade leaves.now.leaves (Compare left.now operator right.now) result }
{
    match text_of(alloc, left, leaves)? {
        None => numbers(alloc, left, operator, right, leaves),
        Some(first) => match text_of(alloc, right, leaves)? {
            None => numbers(alloc, left, operator, right, leaves),
            Some(second) => Ok(Expr::Texts(operator, first, second)),
        },
    }
}

/// The members of a condition with places for leaves, where nothing stands against them.
#[cycle(expression)]
fn members_of(alloc: Global, members: &[Cond], leaves: &Leaves) -> Result<List<Expr>, TypeFault>
    ensures { length leaves.now.leaves < 2 ^ 32 → AreClear leaves.now.leaves members.now
        → AreMade leaves.now.leaves members.now result }
{
    let mut resolved = List::new(alloc);
    for member in members {
        resolved.push(expr_of(alloc, member, leaves)?)?;
    }
    Ok(resolved)
}

/// The condition with places for leaves, where nothing stands against it.
#[cycle(expression)]
fn expr_of(alloc: Global, cond: &Cond, leaves: &Leaves) -> Result<Expr, TypeFault>
    ensures { length leaves.now.leaves < 2 ^ 32 → IsClear leaves.now.leaves cond.now
        → IsMade leaves.now.leaves cond.now result }
{
    match cond {
        Cond::Or(members) => Ok(Expr::Or(members_of(alloc, members.as_slice(), leaves)?)),
        Cond::And(members) => Ok(Expr::And(members_of(alloc, members.as_slice(), leaves)?)),
        Cond::Not(member) => {
            let resolved = expr_of(alloc, member.get(), leaves)?;
            Ok(Expr::Not(Boxed::new(alloc, resolved)?))
        }
        Cond::Compare(left, operator, right) => comparison(alloc, left, *operator, right, leaves),
    }
}

/// A condition with places of these leaves. No container has 2^32 leaves.
///
/// `UnknownMember` comes where a leaf isn't one of these; else `Mismatch` where a comparison's sides
/// don't have one kind; else `Number` where a number has no 64 bits; each with the first such place.
pub fn resolve(alloc: Global, cond: &Cond, leaves: &Leaves) -> Result<Expr, TypeFault>
    ensures { length leaves.now.leaves < 2 ^ 32 → IsResolution leaves.now.leaves cond.now result }
{
    if let Some(place) = first_unknown(cond, leaves) {
        return Err(TypeFault::UnknownMember(place));
    }
    if let Some(place) = first_mismatch(cond, leaves) {
        return Err(TypeFault::Mismatch(place));
    }
    if let Some(place) = first_number_fault(cond) {
        return Err(TypeFault::Number(place));
    }
    expr_of(alloc, cond, leaves)
}
