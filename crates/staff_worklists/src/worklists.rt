//! The open manual items of all roots, and the worklists over them.
ghost use Rattle.std.specs.Prelude.{◌≡◌, ℕ, ◌&&◌, List as Seq, false, true, None, Some, IfOk, OnOk, OnErr};
ghost use Rattle.std.specs.Prelude.{if◌then◌else◌, bytes_eq};
ghost use Rattle.staff_worklists.specs.SameShelf.{shelf_eq, shelf_name, shelf_writes};
ghost use Rattle.staff_worklists.specs.SameShelf.{shelf_equiv, shelf_partial_equiv, same_writes};
ghost use Rattle.staff_worklists.specs.Shelves.{claim_shelf as claim_shelf_of, is_held as is_held_test};
ghost use Rattle.staff_worklists.specs.Shelves.{shelf_for as shelf_of_line, shelves_of};
ghost use Rattle.std.specs.Prelude.{map};
ghost use Rattle.std.specs.Option.{option_or, IsSome};
ghost use Rattle.std.specs.Ordering.{nat_cmp};
ghost use Rattle.std.specs.Cmp.Lexicographic.{slice_cmp};
ghost use Rattle.std.specs.BTreeMap.{IsOrdered};
ghost use Rattle.staff_worklists.specs.Listing.{line_of as work_line, found_at, seen_on, IsWorklist};
ghost use Rattle.staff_worklists.specs.Standing.{shelf_at, at_rank, item_in, ArePlaced, listed_at, begins_with};
ghost use Rattle.staff_worklists.specs.Standing.{is_among};

use flow_model::{DoneBy, Hold, ItemLine, List, Name, Path, PersonDef, WorkLine};
use indexmap::IndexMap;
use std::alloc::{AllocError, Global};
use std::collections::BTreeMap;
use std::hash::{Hash, Hasher};

/// Where an item stands in show order: its root, then the place and the attempt of each part.
pub type Rank = Vec<u64>;

/// An open item as it is listed.
#[derive(Drop)]
struct Listed {
    item: Path,
    held: bool,
}

/// A shelf, by whom it is for.
#[derive(Drop)]
enum Shelf {
    /// For those with a role.
    Role(Name),
    /// For a person who may claim.
    Person(Name),
    /// For the person who holds it.
    Holder(Name),
}

impl Shelf {
    /// The role or the person for whom the shelf is.
    fn name(&self) -> &Name
        ensures { result.now ≡ shelf_name self.now }
    {
        match self {
            Shelf::Role(name) => name,
            Shelf::Person(name) => name,
            Shelf::Holder(name) => name,
        }
    }

    /// An equal shelf.
    fn copy(&self, alloc: Global) -> Result<Shelf, AllocError>
        ensures { IfOk result (λ shelf. shelf ≡ self.now) }
    {
        match self {
            Shelf::Role(name) => Ok(Shelf::Role(name.copy(alloc)?)),
            Shelf::Person(name) => Ok(Shelf::Person(name.copy(alloc)?)),
            Shelf::Holder(name) => Ok(Shelf::Holder(name.copy(alloc)?)),
        }
    }
}

impl PartialEq for Shelf {
    ghost eq = { shelf_eq };

    ghost laws = { shelf_partial_equiv };

    fn eq(&self, other: &Shelf) -> bool {
        match (self, other) {
            (Shelf::Role(own), Shelf::Role(name)) => own.as_slice() == name.as_slice(),
            (Shelf::Person(own), Shelf::Person(name)) => own.as_slice() == name.as_slice(),
            (Shelf::Holder(own), Shelf::Holder(name)) => own.as_slice() == name.as_slice(),
            _ => false,
        }
    }
}

impl Eq for Shelf {
    ghost laws = { shelf_equiv };
}

/// The name alone is hashed: at most three shelves have the same one.
impl Hash for Shelf {
    ghost hash_input = { shelf_writes };

    ghost respects_eq = { same_writes };

    fn hash<H: Hasher>(&self, state: &mut H) {
        state.write(self.name().as_slice());
    }
}

/// The items of one shelf, in show order.
type Items = BTreeMap<Rank, Listed>;

/// The shelves and what stands on each.
type Shelves = IndexMap<Shelf, Items>;

/// The open items by who may see them. Each item stands on one shelf: that of the person who holds it,
/// or that of the role or the person who may claim it.
#[derive(Drop)]
pub struct Worklists {
    alloc: Global,
    shelves: Shelves,
    /// For each item the shelf on which it stands.
    places: BTreeMap<Rank, Shelf>,
    ghost placed: { ArePlaced shelves places },
}

/// The shelf of those who may claim an item.
fn claim_shelf(alloc: Global, line: &ItemLine) -> Result<Shelf, AllocError>
    ensures { IfOk result (λ shelf. shelf ≡ claim_shelf_of line.now.program.by line.now.starter
        line.now.performer) }
{
    match &line.program.by {
        DoneBy::Role(role) => Ok(Shelf::Role(role.copy(alloc)?)),
        DoneBy::Person(name) => Ok(Shelf::Person(name.copy(alloc)?)),
        DoneBy::Starter => Ok(Shelf::Person(line.starter.copy(alloc)?)),
        DoneBy::PerformerOf(_) => {
            let performer = line.performer.as_ref().unwrap_or(&line.starter);
            Ok(Shelf::Person(performer.copy(alloc)?))
        }
    }
}

/// The shelf on which an item stands; None where nobody may see it.
fn shelf_for(alloc: Global, line: &ItemLine) -> Result<Option<Shelf>, AllocError>
    ensures { IfOk result (λ shelf. shelf ≡ shelf_of_line line.now) }
{
    match &line.hold {
        Hold::Person(holder) => Ok(Some(Shelf::Holder(holder.copy(alloc)?))),
        Hold::Agent(_) => Ok(None),
        Hold::Nobody => {
            if !line.program.manual {
                return Ok(None);
            }
            Ok(Some(claim_shelf(alloc, line)?))
        }
    }
}

/// Takes the item of a rank off a shelf.
fn take_off(shelves: &mut Shelves, shelf: &Shelf, rank: &Rank)
    ensures { (q : Shelf) → (r : Seq ℕ) → item_in shelves.new q r
        ≡ (if shelf_eq shelf.now q && bytes_eq rank.now.items r then None else item_in shelves.old q r) }
{
    if let Some(items) = shelves.get_mut(shelf) {
        let _ = items.remove(rank);
    }
}

/// Puts an item at a rank of a shelf that isn't there yet.
fn put_first(
    shelves: &mut Shelves,
    alloc: Global,
    shelf: Shelf,
    rank: Rank,
    listed: Listed,
) -> Result<(), AllocError>
    requires { shelf_at shelves.old shelf ≡ None }
    ensures ok { OnOk result ((q : Shelf) → (r : Seq ℕ)
        → item_in shelves.new q r ≡ (if shelf_eq shelf q
        && bytes_eq rank.items r then Some listed else item_in shelves.old q r)) }
    ensures err { OnErr result (shelves.new.entries ≡ shelves.old.entries) }
{
    let mut items = BTreeMap::new(alloc);
    items.insert(rank, listed)?;
    shelves.insert(shelf, items)?;
    Ok(())
}

/// Puts an item at a rank of a shelf.
fn put_on(
    shelves: &mut Shelves,
    alloc: Global,
    shelf: Shelf,
    rank: Rank,
    listed: Listed,
) -> Result<(), AllocError>
    ensures ok { OnOk result ((q : Shelf) → (r : Seq ℕ)
        → item_in shelves.new q r ≡ (if shelf_eq shelf q
        && bytes_eq rank.items r then Some listed else item_in shelves.old q r)) }
    ensures err { OnErr result ((q : Shelf) → (r : Seq ℕ) → item_in shelves.new q r ≡ item_in shelves.old q r) }
{
    if let Some(items) = shelves.get_mut(&shelf) {
        items.insert(rank, listed)?;
        return Ok(());
    }
    put_first(shelves, alloc, shelf, rank, listed)?;
    Ok(())
}

/// Whether a person holds an item.
fn is_held(hold: &Hold) -> bool
    ensures { result ≡ is_held_test hold.now }
{
    matches!(hold, Hold::Person(_))
}

/// An item as it is listed.
fn listed_of(alloc: Global, item: &Path, line: &ItemLine) -> Result<Listed, AllocError>
    ensures { IfOk result (λ listed. listed ≡ record { item = item.now; held = is_held_test line.now.hold }) }
{
    let item = item.copy(alloc)?;
    let held = is_held(&line.hold);
    Ok(Listed { item, held })
}

fn copied(alloc: Global, rank: &[u64]) -> Result<Rank, AllocError>
    ensures { IfOk result (λ copy. copy.items ≡ rank.now) }
{
    Vec::from_slice(alloc, rank)
}

/// Adds the items of a shelf.
fn add_items<'a>(
    items: &'a Items,
    found: &mut BTreeMap<&'a [u64], &'a Listed>,
) -> Result<(), AllocError>
    ensures { OnOk result ((r : Seq ℕ) → found_at found.new r
        ≡ option_or (at_rank items.now r) (found_at found.old r)) }
{
    for (rank, listed) in items.iter() {
        found.insert(rank.as_slice(), listed)?;
    }
    Ok(())
}

/// An item as a line of a worklist.
fn line_of(alloc: Global, listed: &Listed) -> Result<WorkLine, AllocError>
    ensures { IfOk result (λ line. line ≡ work_line listed.now) }
{
    Ok(WorkLine {
        item: listed.item.copy(alloc)?,
        held: listed.held,
    })
}

/// The lines of what was found, by rising rank.
fn lines_of(alloc: Global, found: &BTreeMap<&[u64], &Listed>) -> Result<List<WorkLine>, AllocError>
    ensures { IfOk result (λ lines. (lines ≡ map (λ e. work_line e.1.now) found.now.entries)
        × IsOrdered (λ k l. slice_cmp nat_cmp k.now l.now) found.now) }
{
    let mut lines = List::new(alloc);
    for (_rank, listed) in found.iter() {
        lines.push(line_of(alloc, listed)?)?;
    }
    Ok(lines)
}

/// Whether a rank is that of an item of this root.
fn begins(rank: &Rank, root: u64) -> bool
    ensures { result ≡ begins_with root rank.now.items }
{
    match rank.as_slice() {
        [] => false,
        [first, ..] => *first == root,
    }
}

impl Worklists {
    /// No items.
    pub fn new(alloc: Global) -> Worklists
        ensures { (q : Shelf) → (r : Seq ℕ) → item_in result.shelves q r ≡ None }
    {
        Worklists {
            alloc,
            shelves: IndexMap::new(alloc),
            places: BTreeMap::new(alloc),
        }
    }

    /// Puts an item on the shelf that its line asks for, in the place of where it stood. Without memory it may
    /// have been taken off only.
    pub fn set(&mut self, item: &Path, rank: &Rank, line: &ItemLine) -> Result<(), AllocError>
        ensures ok { OnOk result ((q : Shelf) → (r : Seq ℕ)
            → item_in self.new.shelves q r ≡ (if bytes_eq rank.now.items r then listed_at (shelf_of_line line.now) q
            (record { item = item.now; held = is_held_test line.now.hold }) else item_in self.old.shelves q r)) }
        ensures err { OnErr result ((q : Shelf) → (r : Seq ℕ)
            → item_in self.new.shelves q r ≡ (if bytes_eq rank.now.items r then None else item_in self.old.shelves q
            r)) }
    {
        self.drop_item(rank);
        let Some(shelf) = shelf_for(self.alloc, line)? else {
            return Ok(());
        };
        let listed = listed_of(self.alloc, item, line)?;
        self.put(shelf, rank, listed)?;
        Ok(())
    }

    /// Puts an item that stands nowhere on a shelf.
    fn put(&mut self, shelf: Shelf, rank: &Rank, listed: Listed) -> Result<(), AllocError>
        requires { (q : Shelf) → item_in self.old.shelves q rank.now.items ≡ None }
        ensures ok { OnOk result ((q : Shelf) → (r : Seq ℕ)
            → item_in self.new.shelves q r ≡ (if shelf_eq shelf q
            && bytes_eq rank.now.items r then Some listed else item_in self.old.shelves q r)) }
        ensures err { OnErr result ((q : Shelf) → (r : Seq ℕ)
            → item_in self.new.shelves q r ≡ item_in self.old.shelves q r) }
    {
        let key = copied(self.alloc, rank.as_slice())?;
        let other = copied(self.alloc, rank.as_slice())?;
        let place = shelf.copy(self.alloc)?;
        self.places.insert(key, place)?;
        put_on(&mut self.shelves, self.alloc, shelf, other, listed)?;
        Ok(())
    }

    /// Takes an item off its shelf; nothing happens where it stands on none.
    pub fn drop_item(&mut self, rank: &Rank)
        ensures { (q : Shelf) → (r : Seq ℕ) → item_in self.new.shelves q r
            ≡ (if bytes_eq rank.now.items r then None else item_in self.old.shelves q r) }
    {
        if let Some(shelf) = self.places.remove(rank) {
            take_off(&mut self.shelves, &shelf, rank);
        }
    }

    /// Takes all items of a root off their shelves. Without memory nothing is taken off.
    pub fn drop_root(&mut self, root: u64) -> Result<(), AllocError>
        ensures others { (q : Shelf) → (r : Seq ℕ) → begins_with root r ≡ false
            → item_in self.new.shelves q r ≡ item_in self.old.shelves q r }
        ensures gone { OnOk result ((q : Shelf) → (r : Seq ℕ) → begins_with root r ≡ true
            → item_in self.new.shelves q r ≡ None) }
        ensures err { OnErr result (self.new ≡ self.old) }
    {
        let ranks = self.ranks_of(root)?;
        self.drop_items(ranks.as_slice());
        Ok(())
    }

    /// The ranks of the items of a root that stand on a shelf.
    fn ranks_of(&self, root: u64) -> Result<Vec<Rank>, AllocError>
        ensures others { IfOk result (λ ranks. (r : Seq ℕ) → begins_with root r ≡ false
            → is_among ranks.items r ≡ false) }
        ensures all { IfOk result (λ ranks. (r : Seq ℕ) → begins_with root r ≡ true → IsSome (at_rank self.now.places r)
            → is_among ranks.items r ≡ true) }
    {
        let mut ranks = Vec::new(self.alloc);
        let from = vec![in self.alloc; root]?;
        for (rank, _shelf) in self.places.range(from..) {
            if !begins(rank, root) {
                return Ok(ranks);
            }
            ranks.push(copied(self.alloc, rank.as_slice())?)?;
        }
        Ok(ranks)
    }

    /// Takes items off their shelves.
    fn drop_items(&mut self, ranks: &[Rank])
        ensures { (q : Shelf) → (r : Seq ℕ) → item_in self.new.shelves q r
            ≡ (if is_among ranks.now r then None else item_in self.old.shelves q r) }
    {
        for rank in ranks {
            self.drop_item(rank);
        }
    }

    /// Adds the items of a shelf.
    fn add_shelf<'a>(
        &'a self,
        shelf: &Shelf,
        found: &mut BTreeMap<&'a [u64], &'a Listed>,
    ) -> Result<(), AllocError>
        ensures { OnOk result ((r : Seq ℕ) → found_at found.new r
            ≡ option_or (item_in self.now.shelves shelf.now r) (found_at found.old r)) }
    {
        match self.shelves.get(shelf) {
            None => Ok(()),
            Some(items) => add_items(items, found),
        }
    }

    /// Adds the items of the shelf of a role.
    fn add_role<'a>(
        &'a self,
        role: &Name,
        found: &mut BTreeMap<&'a [u64], &'a Listed>,
    ) -> Result<(), AllocError>
        ensures { OnOk result ((r : Seq ℕ) → found_at found.new r
            ≡ option_or (item_in self.now.shelves (Shelf.Role role.now) r) (found_at found.old r)) }
    {
        let shelf = Shelf::Role(role.copy(self.alloc)?);
        self.add_shelf(&shelf, found)?;
        Ok(())
    }

    /// Adds the items of the shelves of roles.
    fn add_roles<'a>(
        &'a self,
        roles: &[Name],
        found: &mut BTreeMap<&'a [u64], &'a Listed>,
    ) -> Result<(), AllocError>
        ensures { OnOk result ((r : Seq ℕ) → found_at found.new r
            ≡ seen_on self.now.shelves (map (λ role. Shelf.Role role) roles.now) (found_at found.old r) r) }
    {
        for role in roles {
            self.add_role(role, found)?;
        }
        Ok(())
    }

    /// Adds the items that a person sees.
    fn add_seen<'a>(
        &'a self,
        person: &PersonDef,
        found: &mut BTreeMap<&'a [u64], &'a Listed>,
    ) -> Result<(), AllocError>
        ensures { OnOk result ((r : Seq ℕ) → found_at found.new r
            ≡ seen_on self.now.shelves (shelves_of person.now) (found_at found.old r) r) }
    {
        let named = Shelf::Person(person.name.copy(self.alloc)?);
        self.add_shelf(&named, found)?;
        let held = Shelf::Holder(person.name.copy(self.alloc)?);
        self.add_shelf(&held, found)?;
        self.add_roles(person.roles.as_slice(), found)?;
        Ok(())
    }

    /// The worklist of a person, in show order.
    pub fn worklist(&self, person: &PersonDef) -> Result<List<WorkLine>, AllocError>
        ensures { IfOk result (IsWorklist self.now.shelves person.now) }
    {
        let mut found = BTreeMap::new(self.alloc);
        self.add_seen(person, &mut found)?;
        lines_of(self.alloc, &found)
    }
}
