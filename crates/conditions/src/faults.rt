//! Why a written condition can't be resolved, and how large it is.
ghost use Rattle.std.specs.Prelude.{◌≡◌, ◌<◌, ◌+◌, ◌-◌, ◌^◌, if◌then◌else◌, Option, Some, None, length, map, sum_by};
ghost use Rattle.std.specs.List.{list_any};
ghost use Rattle.conditions.specs.Faults.{first_found, unknown_term, unknown_side, unknown_leaf, kind_at};
ghost use Rattle.conditions.specs.Faults.{is_text_term as holds_text, side_kind as kind_of, sum_kind as kind_of_sum};
ghost use Rattle.conditions.specs.Faults.{same_kind as alike, operand_place as token_of, side_place as place_of};
ghost use Rattle.conditions.specs.Faults.{mismatch, unsized_term as unsized_in, unsized_side as unsized_among};
ghost use Rattle.conditions.specs.Faults.{unsized_number};
ghost use Rattle.conditions.specs.Sizes.{told, side_operands as count_of, operands_of, nodes_of};
ghost use Rattle.containers.specs.Named.{leaf_place};

use containers::{find_leaf, number_value};
use flow_model::{Cond, Kind, LeafAt, Leaves, OperandTree, Side, TermTree};

/// How many operands and nodes a condition has: nodes are comparisons and the words AND, OR and NOT.
#[derive(Clone, Copy, Debug, PartialEq, Eq)]
pub struct Size {
    pub operands: u64,
    pub nodes: u64,
}

/// The kind of the leaf that is written so, if there is one.
fn leaf_kind(leaves: &Leaves, leaf: &LeafAt) -> Option<Kind>
    ensures { length leaves.now.leaves < 2 ^ 32 → result
        ≡ kind_at leaves.now.leaves (leaf_place leaves.now.leaves leaf.now.steps) }
{
    let place = find_leaf(leaves, leaf)?;
    leaves.kind(place as usize)
}

/// The place of a term's leaf, where it isn't there.
fn unknown_in_term(term: &TermTree, leaves: &Leaves) -> Option<u32>
    ensures { length leaves.now.leaves < 2 ^ 32 → result ≡ unknown_term leaves.now.leaves term.now }
{
    match &term.operand {
        OperandTree::Number(_) => None,
        OperandTree::Leaf(leaf) => match find_leaf(leaves, leaf) {
            Some(_) => None,
            None => Some(leaf.place),
        },
    }
}

/// The place of the first leaf of a sum that isn't there.
fn unknown_in_sum(terms: &[TermTree], leaves: &Leaves) -> Option<u32>
    ensures { length leaves.now.leaves < 2 ^ 32 → result
        ≡ first_found (map (unknown_term leaves.now.leaves) terms.now) }
{
    for term in terms {
        if let Some(place) = unknown_in_term(term, leaves) {
            return Some(place);
        }
    }
    None
}

/// The place of the first leaf of a side that isn't there.
fn unknown_in_side(side: &Side, leaves: &Leaves) -> Option<u32>
    ensures { length leaves.now.leaves < 2 ^ 32 → result ≡ unknown_side leaves.now.leaves side.now }
{
    match side {
        Side::Text(_, _) => None,
        Side::Sum(terms) => unknown_in_sum(terms.as_slice(), leaves),
    }
}

/// The place of the first leaf of some conditions that isn't one of these.
#[cycle(unknown)]
fn first_unknown_among(members: &[Cond], leaves: &Leaves) -> Option<u32>
    ensures { length leaves.now.leaves < 2 ^ 32 → result
        ≡ first_found (map (unknown_leaf leaves.now.leaves) members.now) }
{
    for member in members {
        if let Some(place) = first_unknown(member, leaves) {
            return Some(place);
        }
    }
    None
}

/// The place of the first leaf of a condition that isn't one of these. No container has 2^32 leaves.
#[cycle(unknown)]
pub fn first_unknown(cond: &Cond, leaves: &Leaves) -> Option<u32>
    ensures { length leaves.now.leaves < 2 ^ 32 → result ≡ unknown_leaf leaves.now.leaves cond.now }
{
    match cond {
        Cond::Or(members) => first_unknown_among(members.as_slice(), leaves),
        Cond::And(members) => first_unknown_among(members.as_slice(), leaves),
        Cond::Not(member) => first_unknown(member.get(), leaves),
        Cond::Compare(left, _, right) => {
            unknown_in_side(left, leaves).or(unknown_in_side(right, leaves))
        }
    }
}

/// Whether a term is a text leaf.
pub fn is_text_term(term: &TermTree, leaves: &Leaves) -> bool
    ensures { length leaves.now.leaves < 2 ^ 32 → result ≡ holds_text leaves.now.leaves term.now }
{
    match &term.operand {
        OperandTree::Number(_) => false,
        OperandTree::Leaf(leaf) => match leaf_kind(leaves, leaf) {
            None => false,
            Some(Kind::Long) => false,
            Some(Kind::Str) => true,
        },
    }
}

/// Whether a text leaf is among terms.
fn has_text_term(terms: &[TermTree], leaves: &Leaves) -> bool
    ensures { length leaves.now.leaves < 2 ^ 32 → result ≡ list_any (holds_text leaves.now.leaves) terms.now }
{
    for term in terms {
        if is_text_term(term, leaves) {
            return true;
        }
    }
    false
}

/// The kind of a sum; None where a text leaf stands beside another term.
fn sum_kind(terms: &[TermTree], leaves: &Leaves) -> Option<Kind>
    ensures { length leaves.now.leaves < 2 ^ 32 → result ≡ kind_of_sum leaves.now.leaves terms.now }
{
    if !has_text_term(terms, leaves) {
        Some(Kind::Long)
    } else if terms.len() == 1 {
        Some(Kind::Str)
    } else {
        None
    }
}

/// The kind of a side; None where a text leaf stands in a sum.
fn side_kind(side: &Side, leaves: &Leaves) -> Option<Kind>
    ensures { length leaves.now.leaves < 2 ^ 32 → result ≡ kind_of leaves.now.leaves side.now }
{
    match side {
        Side::Text(_, _) => Some(Kind::Str),
        Side::Sum(terms) => sum_kind(terms.as_slice(), leaves),
    }
}

/// Whether two sides have a kind, and the same one.
fn is_same_kind(left: Option<Kind>, right: Option<Kind>) -> bool
    ensures { result ≡ alike left right }
{
    match (left, right) {
        (Some(Kind::Long), Some(Kind::Long)) => true,
        (Some(Kind::Str), Some(Kind::Str)) => true,
        _ => false,
    }
}

/// The place of a term's first token.
fn term_place(term: &TermTree) -> u32
    ensures { result ≡ token_of term.now.operand }
{
    match &term.operand {
        OperandTree::Leaf(leaf) => leaf.place,
        OperandTree::Number(number) => number.minus.unwrap_or(number.place),
    }
}

/// The place of a side's first token.
fn side_place(side: &Side) -> u32
    ensures { result ≡ place_of side.now }
{
    match side {
        Side::Text(_, place) => *place,
        Side::Sum(terms) => match terms.as_slice() {
            [] => 0,
            [first, ..] => term_place(first),
        },
    }
}

/// The place of a comparison, where its sides don't have one kind.
fn mismatch_between(left: &Side, right: &Side, leaves: &Leaves) -> Option<u32>
    ensures { length leaves.now.leaves < 2 ^ 32 → result
        ≡ (if alike (kind_of leaves.now.leaves left.now) (kind_of leaves.now.leaves right.now) then None else Some
        (place_of left.now)) }
{
    if is_same_kind(side_kind(left, leaves), side_kind(right, leaves)) {
        None
    } else {
        Some(side_place(left))
    }
}

/// The place of the first comparison of some conditions whose sides don't have one kind.
#[cycle(mismatch)]
fn first_mismatch_among(members: &[Cond], leaves: &Leaves) -> Option<u32>
    ensures { length leaves.now.leaves < 2 ^ 32 → result ≡ first_found (map (mismatch leaves.now.leaves) members.now) }
{
    for member in members {
        if let Some(place) = first_mismatch(member, leaves) {
            return Some(place);
        }
    }
    None
}

/// The place of the first comparison whose sides don't have one kind. No container has 2^32 leaves.
#[cycle(mismatch)]
pub fn first_mismatch(cond: &Cond, leaves: &Leaves) -> Option<u32>
    ensures { length leaves.now.leaves < 2 ^ 32 → result ≡ mismatch leaves.now.leaves cond.now }
{
    match cond {
        Cond::Or(members) => first_mismatch_among(members.as_slice(), leaves),
        Cond::And(members) => first_mismatch_among(members.as_slice(), leaves),
        Cond::Not(member) => first_mismatch(member.get(), leaves),
        Cond::Compare(left, _, right) => mismatch_between(left, right, leaves),
    }
}

/// The place of a term's number, where it has no 64 bits.
fn number_fault_in_term(term: &TermTree) -> Option<u32>
    ensures { result ≡ unsized_in term.now }
{
    match &term.operand {
        OperandTree::Leaf(_) => None,
        OperandTree::Number(number) => match number_value(number) {
            Some(_) => None,
            None => Some(number.place),
        },
    }
}

/// The place of the first number of a sum that has no 64 bits.
fn number_fault_in_sum(terms: &[TermTree]) -> Option<u32>
    ensures { result ≡ first_found (map unsized_in terms.now) }
{
    for term in terms {
        if let Some(place) = number_fault_in_term(term) {
            return Some(place);
        }
    }
    None
}

/// The place of the first number of a side that has no 64 bits.
fn number_fault_in_side(side: &Side) -> Option<u32>
    ensures { result ≡ unsized_among side.now }
{
    match side {
        Side::Text(_, _) => None,
        Side::Sum(terms) => number_fault_in_sum(terms.as_slice()),
    }
}

/// The place of the first number of some conditions that has no 64 bits.
#[cycle(unsized_number)]
fn first_number_fault_among(members: &[Cond]) -> Option<u32>
    ensures { result ≡ first_found (map unsized_number members.now) }
{
    for member in members {
        if let Some(place) = first_number_fault(member) {
            return Some(place);
        }
    }
    None
}

/// The place of the first number of a condition that has no 64 bits.
#[cycle(unsized_number)]
pub fn first_number_fault(cond: &Cond) -> Option<u32>
    ensures { result ≡ unsized_number cond.now }
{
    match cond {
        Cond::Or(members) => first_number_fault_among(members.as_slice()),
        Cond::And(members) => first_number_fault_among(members.as_slice()),
        Cond::Not(member) => first_number_fault(member.get()),
        Cond::Compare(left, _, right) => {
            number_fault_in_side(left).or(number_fault_in_side(right))
        }
    }
}

/// The number of operands of a side.
fn side_operands(side: &Side) -> u64
    ensures { result ≡ count_of side.now }
{
    match side {
        Side::Text(_, _) => 1,
        Side::Sum(terms) => terms.len() as u64,
    }
}

impl Size {
    /// The sizes of two parts together.
    fn plus(self, other: Size) -> Size
        ensures operands { result.operands ≡ told (self.operands + other.operands) }
        ensures nodes { result.nodes ≡ told (self.nodes + other.nodes) }
    {
        Size {
            operands: self.operands.saturating_add(other.operands),
            nodes: self.nodes.saturating_add(other.nodes),
        }
    }
}

/// How large some conditions are, with a word between two of them.
#[cycle(size)]
fn size_among(members: &[Cond]) -> Size
    ensures operands { result.operands ≡ told (sum_by operands_of members.now) }
    ensures nodes { result.nodes ≡ told (sum_by nodes_of members.now + (length members.now - 1)) }
{
    let mut size = Size {
        operands: 0,
        nodes: (members.len() as u64).saturating_sub(1),
    };
    for member in members {
        size = size.plus(size_of(member));
    }
    size
}

/// How large a condition is; a word OR or AND stands between two members of a list.
#[cycle(size)]
pub fn size_of(cond: &Cond) -> Size
    ensures operands { result.operands ≡ told (operands_of cond.now) }
    ensures nodes { result.nodes ≡ told (nodes_of cond.now) }
{
    match cond {
        Cond::Or(members) => size_among(members.as_slice()),
        Cond::And(members) => size_among(members.as_slice()),
        Cond::Not(member) => size_of(member.get()).plus(Size {
            operands: 0,
            nodes: 1,
        }),
        Cond::Compare(left, _, right) => Size {
            operands: side_operands(left).saturating_add(side_operands(right)),
            nodes: 1,
        },
    }
}
