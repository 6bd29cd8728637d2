//! Which class each structure of a text is of: members that tell the same make the same leaves.
ghost use Rattle.std.specs.Prelude.{◌≡◌, ◌<◌, [], ℕ, length, map, IfOk, IfSome, OnOk, IsTrue, Some};
ghost use Rattle.std.specs.Prelude.{List as Seq, option_copied, slice_get};
ghost use Rattle.std.specs.List.{All};
ghost use Rattle.flow_model.specs.declared.graphs.Leaf.{Leaf};
ghost use Rattle.leaf_rules.specs.Classes.{Numbering, IsClassOf, AreClassed, HasKnownLeaves, class_leaves};
ghost use Rattle.leaf_rules.specs.Classes.{class_named, forms_leaves, kind_form, leaves_at, member_form, size_said};
ghost use Rattle.leaf_rules.specs.TableClasses.{text_classes};
ghost use Rattle.leaf_rules.specs.Runs.{IsKindMade, AreKindsMade};
ghost use Rattle.leaf_rules.specs.Structures.{behind};
ghost use Rattle.leaf_rules.specs.StructureLeaves.{member_leaves, members_leaves};
ghost use Rattle.leaf_rules.specs.declared.forms.StructureLeaves.{StructureLeaves as Forms};
ghost use Rattle.leaf_rules.specs.declared.leaf_classes.LeafClass.{LeafClass};

use crate::forms::StructureLeaves;
use crate::leaf_classes::{MemberForm, MemberKind};
use crate::members::TextClasses;
use crate::rows::Run;
use crate::structures::{Structures, element_count};
use flow_model::{KindTree, List, Member, NameAt, StructDef};
use std::alloc::{AllocError, Global};

/// No class is found yet.
fn no_classes(alloc: Global, structures: usize) -> Result<Vec<Option<u32>>, AllocError>
    ensures { IfOk result (λ found. (leaves : Numbering) (classes : Seq LeafClass)
        → AreClassed leaves classes found.items) }
{
    Ok(vec![in alloc; None; structures]?)
}

/// Notes the class of the structure of a number.
fn set_class(found: &mut Vec<Option<u32>>, number: u32, class: u32)
    ensures { (leaves : Numbering) (classes : Seq LeafClass) → IsClassOf classes class (leaves number)
        → AreClassed leaves classes found.old.items → AreClassed leaves classes found.new.items }
{
    if (number as usize) < found.len() {
        found[number as usize] = Some(class);
    }
}

/// The leaves that are made for the structure of a number.
fn leaves_of(made: &[StructureLeaves], number: u32) -> Option<&StructureLeaves>
    ensures { option_copied result ≡ slice_get made.now number }
{
    made.get(number as usize)
}

/// The size that a member says of an array.
fn size_said(member: &Member) -> Option<u64>
    ensures { result ≡ size_said member.now }
{
    match &member.count {
        None => None,
        Some(count) => Some(count.size),
    }
}

impl<'a> Structures<'a> {
    /// The class of the structure of this name, where it is found.
    pub(crate) fn class(&self, found: &[Option<u32>], name: &'a NameAt) -> Option<u32>
        ensures { result ≡ class_named (behind self.now.definitions.items) found.now name.now.name }
    {
        let number = self.number(name)?;
        let class = found.get(number as usize).copied()?;
        class
    }

    /// What a kind tells, where the class of its structure is found.
    fn kind_form(&self, found: &[Option<u32>], kind: &'a KindTree) -> Option<MemberKind>
        ensures { result ≡ kind_form (behind self.now.definitions.items) found.now kind.now }
    {
        match kind {
            KindTree::Long => Some(MemberKind::Long),
            KindTree::Str => Some(MemberKind::Str),
            KindTree::Struct(name) => match self.class(found, name) {
                None => None,
                Some(class) => Some(MemberKind::Class(class)),
            },
        }
    }

    /// What a member tells, where the class of its structure is found.
    fn member_form(
        &self,
        alloc: Global,
        found: &[Option<u32>],
        member: &'a Member,
    ) -> Result<Option<MemberForm>, AllocError>
        ensures { IfOk result (λ form. form
            ≡ member_form (behind self.now.definitions.items) found.now member.now) }
    {
        match self.kind_form(found, &member.kind) {
            None => Ok(None),
            Some(kind) => Ok(Some(MemberForm {
                name: member.name.name.copy(alloc)?,
                size: size_said(member),
                kind,
            })),
        }
    }

    /// What members tell, where the classes of all their structures are found.
    fn forms(
        &self,
        alloc: Global,
        found: &[Option<u32>],
        members: &[&'a Member],
    ) -> Result<Option<List<MemberForm>>, AllocError>
        ensures { IfOk result (λ made. IfSome made (λ forms. map (λ form. Some form) forms
            ≡ map (member_form (behind self.now.definitions.items) found.now) (behind members.now))) }
    {
        let mut forms = List::new(alloc);
        for member in members {
            match self.member_form(alloc, found, member)? {
                None => return Ok(None),
                Some(form) => forms.push(form)?,
            }
        }
        Ok(Some(forms))
    }

    /// Whether a member has no leaves.
    fn is_bare(&self, runs: &[Run], member: &'a Member) -> bool
        ensures { IsTrue result → (table : Seq Leaf) (inner : Seq ℕ → Seq Leaf)
            → IsKindMade (behind self.now.definitions.items) runs.now table inner member.now.kind
            → member_leaves inner member.now ≡ [] }
    {
        element_count(member) == 0 || !self.has_leaves(runs, &member.kind)
    }

    /// The members of a structure that have leaves: the others change none.
    fn leafy(
        &self,
        alloc: Global,
        runs: &[Run],
        structure: &'a StructDef,
    ) -> Result<Vec<&'a Member>, AllocError>
        ensures { IfOk result (λ found. (table : Seq Leaf) (inner : Seq ℕ → Seq Leaf)
            → AreKindsMade (behind self.now.definitions.items) runs.now table inner structure.now.members
            → members_leaves inner (behind found.items) ≡ members_leaves inner structure.now.members) }
    {
        let mut found = Vec::new(alloc);
        for member in structure.members.as_slice() {
            if !self.is_bare(runs, member) {
                found.push(member)?;
            }
        }
        Ok(found)
    }

    /// What the members of a structure tell that have leaves, where the classes of all their structures are found.
    fn leafy_forms(
        &self,
        alloc: Global,
        found: &[Option<u32>],
        runs: &[Run],
        number: u32,
    ) -> Result<Option<List<MemberForm>>, AllocError>
        requires { number < length (behind self.now.definitions.items) }
        ensures { IfOk result (λ made. IfSome made (λ forms. (made : Seq Forms) (classes : Seq LeafClass)
            → HasKnownLeaves (behind self.now.definitions.items) runs.now made
            → AreClassed (leaves_at made) classes found.now
            → forms_leaves (class_leaves classes) forms ≡ leaves_at made number)) }
    {
        let members = self.leafy(alloc, runs, self.structure(number))?;
        self.forms(alloc, found, &members)
    }

    /// Finds the class of the structure of a number, whose kinds come before it.
    fn add_class(
        &self,
        alloc: Global,
        text: &mut TextClasses<'a>,
        found: &mut Vec<Option<u32>>,
        runs: &[Run],
        made: &[StructureLeaves],
        number: u32,
    ) -> Result<(), AllocError>
        requires within { number < length (behind self.now.definitions.items) }
        requires made { HasKnownLeaves (behind self.now.definitions.items) runs.now made.now }
        requires classed { AreClassed (leaves_at made.now) (text_classes text.old) found.old.items }
        ensures known { text.new.known ≡ text.old.known }
        ensures classed { OnOk result (AreClassed (leaves_at made.now) (text_classes text.new) found.new.items) }
    {
        let Some(forms) = self.leafy_forms(alloc, found, runs, number)? else {
            return Ok(());
        };
        let Some(leaves) = leaves_of(made, number) else {
            return Ok(());
        };
        let class = text.class_of(alloc, forms, &leaves.plain)?;
        set_class(found, number, class);
        Ok(())
    }

    /// The class of each structure, found in an order in which each comes behind its kinds: then their classes are
    /// known.
    pub(crate) fn classes(
        &self,
        alloc: Global,
        text: &mut TextClasses<'a>,
        order: &[u32],
        runs: &[Run],
        made: &[StructureLeaves],
    ) -> Result<Vec<Option<u32>>, AllocError>
        requires order { All (λ a. a < length (behind self.now.definitions.items)) order.now }
        requires made { HasKnownLeaves (behind self.now.definitions.items) runs.now made.now }
        ensures known { text.new.known ≡ text.old.known }
        ensures classed { IfOk result (λ found. AreClassed (leaves_at made.now) (text_classes text.new) found.items) }
    {
        let mut found = no_classes(alloc, self.len())?;
        for number in order {
            self.add_class(alloc, text, &mut found, runs, made, *number)?;
        }
        Ok(found)
    }
}
