//! The word `load`: a made script over a history in memory, and one line that sums it up.
ghost use Rattle.std.specs.Prelude.{◌≡◌, ◌+◌, ◌<◌, ◌∷◌, [], map, OnOk, IfOk, if◌then◌else◌};
ghost use Rattle.flow_session.specs.Inputs.{Line as LineOf};
ghost use Rattle.flow_words.specs.Loading.{next_number as number_behind, amount_by, is_above as above_test};
ghost use Rattle.flow_words.specs.Loading.{drained as drained_lines, force_line as force_of, force_with};
ghost use Rattle.flow_words.specs.Loading.{start_line as start_of, root_script, roots_script};
ghost use Rattle.flow_words.specs.Loading.{item_b as item_b_of, is_finished as finished_test, AreFinished};
ghost use Rattle.flow_words.specs.Loading.{import_script, lines as lines_of, turns_of, load_line};
ghost use Rattle.flow_words.specs.Loading.{Serves, IsSummary, IsLoaded};
ghost use Rattle.flow_words.specs.Scripts.{IsFresh};

use flow_core::Core;
use flow_model::{Fate, List, Name, NameFault, Part, Path};
use flow_session::{Input, NoJournal, Session};
use flow_text::decimal;
use live_history::History;
use std::alloc::{AllocError, Global};
use std::mem;

/// The text that the script imports: amounts above 100 take one way, the others another.
const TEXT: [&[u8]; 14] = [
    b"STRUCTURE 'Loan' 'Amount' : LONG ; 'Risk' : STRING ; END 'Loan'",
    b"PERSON 'ann' ROLES 'clerk' END 'ann'",
    b"PROCESS 'P' ('Loan','Loan')",
    b"PROGRAM_ACTIVITY 'A' ('Loan','Loan') END 'A'",
    b"PROGRAM_ACTIVITY 'B' ('Loan','Loan') END 'B'",
    b"PROGRAM_ACTIVITY 'C' ('Loan','Loan') END 'C'",
    b"PROGRAM_ACTIVITY 'D' ('Loan','Loan') WHEN AT_LEAST_ONE CONNECTOR TRUE END 'D'",
    b"CONTROL FROM 'A' TO 'B' WHEN ('Amount' > 100)",
    b"CONTROL FROM 'A' TO 'C' OTHERWISE",
    b"CONTROL FROM 'B' TO 'D'",
    b"CONTROL FROM 'C' TO 'D'",
    b"DATA FROM SOURCE TO 'A' MAP 'Amount' TO 'Amount'",
    b"DATA FROM 'D' TO SINK MAP 'Amount' TO 'Amount'",
    b"END 'P'",
];

const QUEUES: u8 = 4;

/// Room for the bytes of a line of the script.
const LINE_ROOM: usize = 64;

const LIMIT: u64 = 10_000_000;

/// A load while it is served: its session, and the bytes of the replies so far.
#[derive(Drop)]
struct Loading {
    alloc: Global,
    session: Session,
    journal: NoJournal,
    bytes: u64,
}

/// The next number of the generator.
fn next_number(x: u64) -> u64
    ensures { result ≡ number_behind x }
{
    ((u128::from(x) * 1_103_515_245 + 12_345) % 2_147_483_648) as u64
}

/// The amount that a number of the generator gives.
fn amount(x: u64) -> u64
    ensures { result ≡ amount_by x }
{
    x / 65_536 % 201
}

/// Whether an amount takes the way of those above 100.
fn is_above(amount: u64) -> bool
    ensures { result ≡ above_test amount }
{
    amount > 100
}

/// The letter of the activity on the way of an amount.
fn way(amount: u64) -> u8
    ensures { result ≡ (if above_test amount then 66 else 67) }
{
    if is_above(amount) { b'B' } else { b'C' }
}

/// A count with more; one of 2^64 or more has no memory.
fn with_more(count: u64, more: u64) -> Result<u64, AllocError>
    ensures { IfOk result (λ sum. sum ≡ count + more) }
{
    match count.checked_add(more) {
        Some(sum) => Ok(sum),
        None => Err(AllocError),
    }
}

/// Writes a START with this amount over what a buffer had.
fn write_start(line: &mut Vec<u8>, amount: u64) -> Result<(), AllocError>
    ensures { OnOk result (line.new.items ≡ start_of amount) }
{
    line.clear();
    line.extend_from_slice(b"START 'P' BY 'ann' WITH 'Amount' = ")?;
    decimal(line, amount)
}

/// Writes a FORCE of the first attempt of an activity of a root over what a buffer had.
fn write_force(line: &mut Vec<u8>, root: u64, activity: u8) -> Result<(), AllocError>
    ensures { OnOk result (line.new.items ≡ force_of root activity) }
{
    line.clear();
    line.extend_from_slice(b"FORCE '")?;
    decimal(line, root)?;
    line.push(b'/')?;
    line.push(activity)?;
    line.extend_from_slice(b"#1'")
}

/// Writes the FORCE of a root's first activity, with its amount, over what a buffer had.
fn write_first(line: &mut Vec<u8>, root: u64, amount: u64) -> Result<(), AllocError>
    ensures { OnOk result (line.new.items ≡ force_with root 65 amount) }
{
    write_force(line, root, b'A')?;
    line.extend_from_slice(b" WITH 'Amount' = ")?;
    decimal(line, amount)
}

impl Loading {
    /// A load of which nothing is served yet.
    fn new(alloc: Global) -> Result<Loading, AllocError>
        ensures fresh { IfOk result (λ load. IsFresh 4 10000000 load.session) }
        ensures none { IfOk result (λ load. load.bytes ≡ 0) }
    {
        Ok(Loading {
            alloc,
            session: Session::fresh(alloc, QUEUES, LIMIT)?,
            journal: NoJournal::new(alloc),
            bytes: 0,
        })
    }

    /// Serves a line.
    fn line(&mut self, line: &[u8]) -> Result<(), AllocError>
        ensures { OnOk result (Serves (LineOf line.now ∷ []) self.old self.new) }
    {
        match self.session.serve(&mut self.journal, Input::Text(line)) {
            Ok(reply) => {
                self.bytes = with_more(self.bytes, reply.len() as u64)?;
                Ok(())
            }
            Err(_) => Err(AllocError),
        }
    }

    /// Serves lines one after the other.
    fn lines(&mut self, lines: &[&[u8]]) -> Result<(), AllocError>
        ensures { OnOk result (Serves (lines_of (map (λ line. line.now) lines.now)) self.old self.new) }
    {
        for line in lines {
            self.line(line)?;
        }
        Ok(())
    }

    /// Serves a line, and a DRAIN behind it.
    fn drained(&mut self, line: &[u8]) -> Result<(), AllocError>
        ensures { OnOk result (Serves (drained_lines line.now) self.old self.new) }
    {
        self.line(line)?;
        self.line(b"DRAIN")?;
        Ok(())
    }

    /// Imports the text.
    fn import(&mut self) -> Result<(), AllocError>
        ensures { OnOk result (Serves import_script self.old self.new) }
    {
        self.line(b"IMPORT")?;
        self.lines(&TEXT)?;
        self.line(b".")?;
        Ok(())
    }

    /// Starts a root with an amount; the line is written into a buffer.
    fn start(&mut self, line: &mut Vec<u8>, amount: u64) -> Result<(), AllocError>
        ensures { OnOk result (Serves (drained_lines (start_of amount)) self.old self.new) }
    {
        write_start(line, amount)?;
        self.drained(line)
    }

    /// Forces the first activity of a root, with an amount; the line is written into a buffer.
    fn force_first(&mut self, line: &mut Vec<u8>, root: u64, amount: u64) -> Result<(), AllocError>
        ensures { OnOk result (Serves (drained_lines (force_with root 65 amount)) self.old self.new) }
    {
        write_first(line, root, amount)?;
        self.drained(line)
    }

    /// Forces an activity of a root; the line is written into a buffer.
    fn force(&mut self, line: &mut Vec<u8>, root: u64, activity: u8) -> Result<(), AllocError>
        ensures { OnOk result (Serves (drained_lines (force_of root activity)) self.old self.new) }
    {
        write_force(line, root, activity)?;
        self.drained(line)
    }

    /// A root with an amount, from its start to its end; each line is written into a buffer.
    fn root(&mut self, line: &mut Vec<u8>, root: u64, amount: u64) -> Result<(), AllocError>
        ensures { OnOk result (Serves (root_script root amount) self.old self.new) }
    {
        self.start(line, amount)?;
        self.force_first(line, root, amount)?;
        self.force(line, root, way(amount))?;
        self.force(line, root, b'D')?;
        Ok(())
    }

    /// This number of roots, one after the other.
    fn roots(&mut self, seed: u64, roots: u64) -> Result<(), AllocError>
        ensures { OnOk result (Serves (roots_script seed roots) self.old self.new) }
    {
        let mut line = Vec::with_capacity(self.alloc, LINE_ROOM)?;
        let mut x = seed;
        for before in 0..roots {
            x = next_number(x);
            self.root(&mut line, before + 1, amount(x))?;
        }
        Ok(())
    }
}

/// The Turns among the live transactions.
fn turns(history: &History) -> u64
    ensures { result ≡ turns_of history.now.items }
{
    history.turns() as u64
}

/// The item of the first attempt of a root's B.
fn item_b(alloc: Global, root: u64) -> Result<Path, AllocError>
    ensures { IfOk result (λ item. item ≡ item_b_of root) }
{
    let name = match Name::new(alloc, b"B") {
        Ok(name) => name,
        Err(NameFault::Bad) => unreachable!(),
        Err(NameFault::NoMemory) => return Err(AllocError),
    };
    let mut parts = List::new(alloc);
    parts.push(Part { name, attempt: 1 })?;
    Ok(Path { root, parts })
}

/// Whether a fate is Finished.
fn is_finished(fate: Fate) -> bool
    ensures { result ≡ finished_test fate }
{
    matches!(fate, Fate::Finished(_))
}

/// How many of this number of first roots have a finished B; one that isn't live has none.
fn finished_roots(alloc: Global, core: &Core, roots: u64) -> Result<u64, AllocError>
    ensures { IfOk result (AreFinished core.now roots) }
{
    let mut item = item_b(alloc, 0)?;
    let mut finished = 0u64;
    for before in 0..roots {
        item.root = before + 1;
        if is_finished(core.fate_of(&item)) {
            finished += 1;
        }
    }
    Ok(finished)
}

/// The line of a load with these numbers.
fn line_of(alloc: Global, numbers: &[u64]) -> Result<Vec<u8>, AllocError>
    ensures { IfOk result (λ text. text.items ≡ load_line numbers.now) }
{
    let mut text = Vec::from_slice(alloc, b"ok LOAD")?;
    for number in numbers {
        text.push(b' ')?;
        decimal(&mut text, *number)?;
    }
    text.push(b'\n')?;
    Ok(text)
}

/// The line that sums a load up: seed, roots, transactions, turns, roots that are done, roots whose B is finished,
/// bytes of replies.
fn summary(load: &Loading, seed: u64, roots: u64) -> Result<Vec<u8>, AllocError>
    ensures { IfOk result (λ text. IsSummary seed roots load.now text.items) }
{
    let core = load.session.core();
    let taken = turns(core.live());
    let finished = finished_roots(load.alloc, core, roots)?;
    let numbers = [
        seed,
        roots,
        core.number(),
        taken,
        core.done_count(),
        finished,
        load.bytes,
    ];
    line_of(load.alloc, &numbers)
}

/// What `load` prints.
pub fn load(alloc: Global, seed: u64, roots: u64) -> Result<Vec<u8>, AllocError>
    ensures { IfOk result (λ text. IsLoaded seed roots text.items) }
{
    let mut load = Loading::new(alloc)?;
    load.import()?;
    load.roots(seed, roots)?;
    let line = summary(&load, seed, roots)?;
    // Nothing follows but the end of the program: root by root it would take long to give the memory back.
    mem::forget(load);
    Ok(line)
}
