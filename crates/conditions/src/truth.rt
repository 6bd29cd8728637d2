//! The value of a condition on a container.
ghost use Rattle.std.specs.Prelude.{◌≡◌, ◌≤◌, ◌-◌, ◌*◌, ◌^◌, ◌+ℤ◌, ◌≤ℤ◌, pos, [], ◌∷◌, Option};
ghost use Rattle.std.specs.Prelude.{true, false};
ghost use Rattle.flow_model.specs.Conditions.{truth, holds as is_held, satisfies as is_satisfied, side_text, sum_from};
ghost use Rattle.flow_model.specs.Conditions.{sum_of, operand_value as number_of};

use flow_model::{Container, Expr, Operand, Operator, Term, TextSide, Value};
use std::cmp::Ordering;

/// Whether a comparison asks for this order of its sides.
fn satisfies(operator: Operator, order: Ordering) -> bool
    ensures { result ≡ is_satisfied operator order }
{
    match operator {
        Operator::Eq => order.is_eq(),
        Operator::Ne => order.is_ne(),
        Operator::Lt => order.is_lt(),
        Operator::Le => order.is_le(),
        Operator::Gt => order.is_gt(),
        Operator::Ge => order.is_ge(),
    }
}

/// The number of an operand; a leaf that holds none counts as 0.
fn operand_value(operand: Operand, container: &Container) -> i64
    ensures { result ≡ number_of operand container.now }
{
    match operand {
        Operand::Number(number) => number,
        Operand::Leaf(place) => match container.values.as_slice().get(place as usize) {
            Some(Value::Whole(number)) => *number,
            Some(Value::Text(_)) => 0,
            None => 0,
        },
    }
}

/// A sum with one more term.
fn with_term(so_far: i128, term: Term, container: &Container) -> i128
    requires low { pos 0 ≤ℤ (so_far +ℤ pos (2 ^ 63 * (2 ^ 64 - 2))) }
    requires high { so_far ≤ℤ pos (2 ^ 63 * (2 ^ 64 - 2)) }
    ensures sum { result ≡ sum_from so_far (term ∷ []) container.now }
    ensures fall { so_far ≤ℤ (result +ℤ pos (2 ^ 63)) }
    ensures rise { result ≤ℤ (so_far +ℤ pos (2 ^ 63)) }
{
    let operand = i128::from(operand_value(term.operand, container));
    if term.minus {
        so_far - operand
    } else {
        so_far + operand
    }
}

/// The sum of the terms; of fewer than 2^64 numbers of 64 bits it has 128 bits.
fn sum(terms: &[Term], container: &Container) -> i128
    ensures { result ≡ sum_of terms.now container.now }
{
    let mut so_far = 0i128;
    for term in terms {
        so_far = with_term(so_far, *term, container);
    }
    so_far
}

/// The text of a side; a leaf that holds none counts as empty.
fn text<'a>(side: &'a TextSide, container: &'a Container) -> &'a [u8]
    ensures { result.now ≡ side_text side.now container.now }
{
    match side {
        TextSide::Text(text) => text.as_slice(),
        TextSide::Leaf(place) => match container.values.as_slice().get(*place as usize) {
            Some(Value::Text(text)) => text.as_slice(),
            Some(Value::Whole(_)) => &[],
            None => &[],
        },
    }
}

/// The value of a condition on a container.
#[tactic(auto, using(crate::proofs::Members::truth_or, crate::proofs::Members::truth_and))]
pub fn value(e: &Expr, container: &Container) -> bool
    ensures { result ≡ truth e.now container.now }
{
    match e {
        Expr::Or(members) => {
            for member in members.as_slice() {
                if value(member, container) {
                    return true;
                }
            }
            false
        }
        Expr::And(members) => {
            for member in members.as_slice() {
                if !value(member, container) {
                    return false;
                }
            }
            true
        }
        Expr::Not(member) => !value(member.get(), container),
        Expr::Whole(operator, left, right) => {
            let left = sum(left.as_slice(), container);
            let right = sum(right.as_slice(), container);
            satisfies(*operator, left.cmp(&right))
        }
        Expr::Texts(operator, left, right) => {
            satisfies(*operator, text(left, container).cmp(text(right, container)))
        }
    }
}

/// The value of a condition that may be absent; then it is true.
pub fn holds(e: &Option<Expr>, container: &Container) -> bool
    ensures { result ≡ is_held e.now container.now }
{
    match e {
        None => true,
        Some(e) => value(e, container),
    }
}
