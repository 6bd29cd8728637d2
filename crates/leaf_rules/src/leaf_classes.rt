//! Classes of structures over all texts, so that two of one class need no comparison leaf by leaf.
ghost use Rattle.std.specs.Prelude.{◌≡◌, ◌∷◌, ◌++◌, [], ℕ, Some, OnOk, IsTrue, length, slice_get, option_copied};
ghost use Rattle.std.specs.Prelude.{List as Seq};
ghost use Rattle.flow_model.specs.declared.graphs.Leaf.{Leaf};
ghost use Rattle.leaf_rules.specs.Classes.{AreClassesMade, AreMadeBehind, IsClassMade, class_leaves};

use flow_model::{Leaves, List, Name};
use indexmap::IndexMap;
use std::alloc::{AllocError, Global};
use text_graphs::narrow;

/// What the kind of a member tells of its leaves.
#[derive(Clone, Copy, Debug, PartialEq, Eq)]
pub enum MemberKind {
    Long,
    Str,
    /// A structure of the class of this number.
    Class(u32),
}

/// What a member of a structure tells of its leaves.
#[derive(Drop)]
pub struct MemberForm {
    pub name: Name,
    /// The number of elements of an array.
    pub size: Option<u64>,
    pub kind: MemberKind,
}

/// Structures whose members with leaves are of these forms, and so have these leaves.
#[derive(Drop)]
pub struct LeafClass {
    pub members: List<MemberForm>,
    pub leaves: Leaves,
}

/// The classes of the structures of the texts so far.
#[derive(Drop)]
pub struct LeafClasses {
    pub(crate) classes: List<LeafClass>,
    /// The class of such members, by what they tell.
    pub(crate) numbers: IndexMap<Vec<u8>, u32>,
    pub ghost made: { AreClassesMade classes },
}

/// A number for each kind.
fn kind_code(kind: MemberKind) -> u64 {
    match kind {
        MemberKind::Long => 0,
        MemberKind::Str => 1,
        MemberKind::Class(class) => u64::from(class) + 2,
    }
}

/// Adds what a member tells. No name has the byte 0.
fn add_to_key(key: &mut Vec<u8>, member: &MemberForm) -> Result<(), AllocError> {
    let size = member.size.unwrap_or(u64::MAX);
    key.extend_from_slice(member.name.as_slice())?;
    key.push(0)?;
    key.extend_from_slice(&size.to_be_bytes())?;
    key.extend_from_slice(&kind_code(member.kind).to_be_bytes())
}

/// What some members tell, as bytes. It only leads to a class to compare with, so nothing rests on it but time.
pub(crate) fn key_of(alloc: Global, members: &[MemberForm]) -> Result<Vec<u8>, AllocError> {
    let mut key = Vec::new(alloc);
    for member in members {
        add_to_key(&mut key, member)?;
    }
    Ok(key)
}

/// Whether two members tell the same.
fn same_form(ours: &MemberForm, theirs: &MemberForm) -> bool
    ensures { IsTrue result → ours.now ≡ theirs.now }
{
    let named = ours.name.as_slice() == theirs.name.as_slice();
    named && ours.size == theirs.size && ours.kind == theirs.kind
}

/// Whether some members tell the same as others, one by one.
pub(crate) fn same_forms(ours: &[MemberForm], theirs: &[MemberForm]) -> bool
    ensures { IsTrue result → ours.now ≡ theirs.now }
{
    if ours.len() != theirs.len() {
        return false;
    }
    for i in 0..ours.len() {
        if !same_form(&ours[i], &theirs[i]) {
            return false;
        }
    }
    true
}

impl LeafClasses {
    /// No classes yet.
    pub fn new(alloc: Global) -> LeafClasses
        ensures { result.classes ≡ [] }
    {
        LeafClasses {
            classes: List::new(alloc),
            numbers: IndexMap::new(alloc),
        }
    }

    /// How many classes there are.
    pub(crate) fn len(&self) -> usize
        ensures { result ≡ length self.now.classes }
    {
        self.classes.len()
    }

    /// The class of a number.
    pub(crate) fn nth(&self, number: usize) -> Option<&LeafClass>
        ensures { option_copied result ≡ slice_get self.now.classes number }
    {
        self.classes.as_slice().get(number)
    }

    /// The number of the class that has this key.
    pub(crate) fn number(&self, key: &[u8]) -> Option<u32> {
        self.numbers.get(key).copied()
    }

    /// Adds the classes of a text behind the others. An error is want of memory; then a part of them may have been
    /// added.
    pub fn extend(&mut self, alloc: Global, added: List<LeafClass>) -> Result<(), AllocError>
        requires { AreMadeBehind self.old.classes added }
        ensures added { OnOk result (self.new.classes ≡ self.old.classes ++ added) }
        ensures kept { (number : ℕ) (leaves : Seq Leaf) → class_leaves self.old.classes number ≡ Some leaves
            → class_leaves self.new.classes number ≡ Some leaves }
    {
        for class in added.into_vec() {
            self.push(alloc, class)?;
        }
        Ok(())
    }

    /// Adds a class that is made of those before it.
    fn push(&mut self, alloc: Global, class: LeafClass) -> Result<(), AllocError>
        requires { IsClassMade (class_leaves self.old.classes) class }
        ensures added { OnOk result (self.new.classes ≡ self.old.classes ++ class ∷ []) }
        ensures kept { (number : ℕ) (leaves : Seq Leaf) → class_leaves self.old.classes number ≡ Some leaves
            → class_leaves self.new.classes number ≡ Some leaves }
    {
        let number = narrow(self.classes.len())?;
        let key = key_of(alloc, class.members.as_slice())?;
        self.numbers.insert(key, number)?;
        self.classes.push(class)
    }
}
