//! What a certificate is checked against.
ghost use Rattle.std.specs.Prelude.{◌≡◌, None, Some, IfOk, OnOk, option_map, if◌then◌else◌};
ghost use Rattle.std.specs.Option.{option_or};
ghost use Rattle.flow_model.specs.declared.instances.Path.{Path as PathOf};
ghost use Rattle.certificates.specs.Told.{accepted, same_path};
ghost use Rattle.certificates.specs.Kept.{accepted_by, IsGiven, IsReadied};

use flow_model::{Container, Fact, Library, Path, path_text};
use indexmap::IndexMap;
use std::alloc::{AllocError, Global};

/// What a certificate of a root is checked against: the library, the root's template and input, and its
/// accepted completions in order.
#[derive(Clone, Copy)]
pub struct Grounds<'a> {
    pub library: &'a Library,
    pub root: u64,
    pub template: u32,
    pub input: &'a Container,
    pub facts: &'a [Fact],
}

/// The first accepted output of each item, by the item's text.
pub type Given<'a> = IndexMap<Vec<u8>, &'a Container>;

/// What is looked up while lines are checked, and stays as it is.
#[derive(Drop)]
pub struct Checker<'a> {
    pub alloc: Global,
    pub grounds: Grounds<'a>,
    pub given: Given<'a>,
}

/// Adds a completion, unless there is one of the same item.
fn add_given<'a>(given: &mut Given<'a>, alloc: Global, fact: &'a Fact) -> Result<(), AllocError>
    ensures { OnOk result ((p : PathOf) → accepted_by given.new p
        ≡ option_or (accepted_by given.old p) (if same_path fact.now.item p then Some fact.now.output else None)) }
{
    let key = path_text(alloc, &fact.item)?;
    if !given.contains_key(key.as_slice()) {
        given.insert(key, &fact.output)?;
    }
    Ok(())
}

/// The first accepted outputs of these completions.
fn given_of<'a>(alloc: Global, facts: &'a [Fact]) -> Result<Given<'a>, AllocError>
    ensures { IfOk result (λ given. IsGiven given facts.now) }
{
    let mut given = IndexMap::new(alloc);
    for fact in facts {
        add_given(&mut given, alloc, fact)?;
    }
    Ok(given)
}

impl<'a> Checker<'a> {
    pub fn new(alloc: Global, grounds: &Grounds<'a>) -> Result<Checker<'a>, AllocError>
        ensures readied { IfOk result IsReadied }
        ensures grounds { IfOk result (λ c. c.grounds ≡ grounds.now) }
    {
        Ok(Checker {
            alloc,
            grounds: *grounds,
            given: given_of(alloc, grounds.facts)?,
        })
    }

    /// The first accepted output of an item.
    pub fn accepted(&self, item: &Path) -> Result<Option<&'a Container>, AllocError>
        requires { IsReadied self.now }
        ensures { IfOk result (λ found. option_map (λ out. out.now) found
            ≡ accepted self.now.grounds.facts.now item.now) }
    {
        let key = path_text(self.alloc, item)?;
        Ok(self.given.get(key.as_slice()).copied())
    }
}
