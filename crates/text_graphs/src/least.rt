//! The least of some places.
ghost use Rattle.std.specs.Prelude.{◌≡◌, List, [], ◌∷◌, ◌++◌, None, OnOk};
ghost use Rattle.flow_model.specs.declared.trees.NameAt.{NameAt};
ghost use Rattle.text_graphs.specs.Meeting.{AreMet};
ghost use Rattle.text_graphs.specs.Places.{lesser_of};

use flow_model::NameAt;
use indexmap::IndexSet;
use std::alloc::{AllocError, Global};

/// The lesser of two places, where there are any.
pub fn lesser(first: Option<u32>, second: Option<u32>) -> Option<u32>
    ensures none { result ≡ None → (first ≡ None) × (second ≡ None) }
    ensures least { result ≡ lesser_of first second }
{
    match (first, second) {
        (None, _) => second,
        (_, None) => first,
        (Some(a), Some(b)) => Some(a.min(b)),
    }
}

/// The names that were met, to find the least place of one that comes again.
#[derive(Drop)]
pub struct Repeats<'a> {
    met: IndexSet<&'a [u8]>,
    first: Option<u32>,
}

impl<'a> Repeats<'a> {
    pub fn new(alloc: Global) -> Repeats<'a>
        ensures { AreMet result [] }
    {
        Repeats {
            met: IndexSet::new(alloc),
            first: None,
        }
    }

    /// Meets a name.
    pub fn meet(&mut self, name: &'a NameAt) -> Result<(), AllocError>
        ensures { OnOk result ((names : List NameAt) → AreMet self.old names
            → AreMet self.new (names ++ name.now ∷ [])) }
    {
        let (_place, is_new) = self.met.insert_full(name.name.as_slice())?;
        if !is_new {
            self.first = lesser(self.first, Some(name.place));
        }
        Ok(())
    }

    /// The least place of a name that came again.
    pub fn first(&self) -> Option<u32>
        ensures { result ≡ self.now.first }
    {
        self.first
    }
}
