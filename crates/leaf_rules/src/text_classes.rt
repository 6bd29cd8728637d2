//! The classes of the structures of one text: those that earlier texts have are found, the others are added.
ghost use Rattle.std.specs.Prelude.{◌≡◌, ◌∷◌, ◌++◌, [], ℕ, Some, IfOk, IfSome, IsTrue, slice_get, slice_set};
ghost use Rattle.std.specs.Prelude.{List as Seq, option_copied};
ghost use Rattle.flow_model.specs.declared.graphs.Leaf.{Leaf};
ghost use Rattle.leaf_rules.specs.Classes.{AreMadeBehind, IsClassMade, class_leaves, forms_leaves};
ghost use Rattle.leaf_rules.specs.TableClasses.{text_classes};
ghost use Rattle.leaf_rules.specs.declared.leaf_classes.LeafClass.{LeafClass as OneClass};

use crate::leaf_classes::{LeafClass, LeafClasses, MemberForm, key_of, same_forms};
use crate::members::TextClasses;
use flow_model::{Leaves, List};
use indexmap::IndexMap;
use std::alloc::{AllocError, Global};
use text_graphs::narrow;

/// Whether a class, if there is one, is of such members.
fn is_of_members(class: Option<&LeafClass>, members: &[MemberForm]) -> bool
    ensures { IsTrue result → (c : OneClass) × (option_copied class.entry ≡ Some c) × (c.members ≡ members.now) }
{
    match class {
        None => false,
        Some(class) => same_forms(class.members.as_slice(), members),
    }
}

impl<'a> TextClasses<'a> {
    /// Those of earlier texts.
    pub(crate) fn new(alloc: Global, known: &'a LeafClasses) -> TextClasses<'a>
        ensures known { result.known ≡ known.entry }
        ensures added { result.added ≡ [] }
    {
        TextClasses {
            known,
            added: List::new(alloc),
            numbers: IndexMap::new(alloc),
        }
    }

    /// The class of a number.
    fn nth(&self, number: u32) -> Option<&LeafClass>
        ensures { option_copied result ≡ slice_get (text_classes self.now) number }
    {
        let number = number as usize;
        let before = self.known.len();
        if number < before {
            self.known.nth(number)
        } else {
            self.added.as_slice().get(number - before)
        }
    }

    /// The class of such members, if there is one.
    fn find(&self, key: &[u8], members: &[MemberForm]) -> Option<u32>
        ensures { IfSome result (λ number. (leaves : Seq Leaf)
            → forms_leaves (class_leaves (text_classes self.now)) members.now ≡ Some leaves
            → class_leaves (text_classes self.now) number ≡ Some leaves) }
    {
        let number = match self.known.number(key) {
            Some(number) => number,
            None => self.numbers.get(key).copied()?,
        };
        if is_of_members(self.nth(number), members) {
            Some(number)
        } else {
            None
        }
    }

    /// Adds a class behind the others; answers its number.
    fn add(&mut self, key: Vec<u8>, class: LeafClass) -> Result<u32, AllocError>
        requires { IsClassMade (class_leaves (text_classes self.old)) class }
        ensures known { self.new.known ≡ self.old.known }
        ensures added { IfOk result (λ number. text_classes self.new ≡ text_classes self.old ++ class ∷ []) }
        ensures leaves { IfOk result (λ number.
            class_leaves (text_classes self.new) number ≡ Some class.leaves.leaves) }
    {
        let before = narrow(self.known.len())?;
        let Some(number) = before.checked_add(narrow(self.added.len())?) else {
            return Err(AllocError);
        };
        self.numbers.insert(key, number)?;
        self.added.push(class)?;
        Ok(number)
    }

    /// The class of structures with such members, which make these leaves; it is added where it isn't there.
    pub(crate) fn class_of(
        &mut self,
        alloc: Global,
        members: List<MemberForm>,
        leaves: &Leaves,
    ) -> Result<u32, AllocError>
        requires { forms_leaves (class_leaves (text_classes self.old)) members ≡ Some leaves.now.leaves }
        ensures known { self.new.known ≡ self.old.known }
        ensures leaves { IfOk result (λ number.
            class_leaves (text_classes self.new) number ≡ Some leaves.now.leaves) }
        ensures kept { IfOk result (λ found. (number : ℕ) (there : Seq Leaf)
            → class_leaves (text_classes self.old) number ≡ Some there
            → class_leaves (text_classes self.new) number ≡ Some there) }
    {
        let key = key_of(alloc, members.as_slice())?;
        if let Some(number) = self.find(&key, members.as_slice()) {
            return Ok(number);
        }
        let leaves = leaves.copy()?;
        self.add(key, LeafClass { members, leaves })
    }

    /// The classes that the text adds.
    pub(crate) fn into_added(self) -> List<LeafClass>
        ensures added { result ≡ self.entry.added }
        ensures made { AreMadeBehind self.entry.known.now.classes result }
    {
        self.added
    }
}
