//! All graphs of a text: those of its processes, and of the blocks in them.
ghost use Rattle.std.specs.Prelude.{◌≡◌, ℕ, map, IfOk, OnOk};
ghost use Rattle.std.specs.List.{All};
ghost use Rattle.text_graphs.specs.Blocks.{lists_of, HasBlocks, IsListed, IsCovered, Grows};
ghost use Rattle.text_graphs.specs.Graphs.{graphs_in, AreAdded, AreGraphsOf, IsGraphIn, IsGraphInside};
ghost use Rattle.text_graphs.specs.Graphs.{IsGraphOfProcess};
ghost use Rattle.text_graphs.specs.Texts.{processes_in};

use crate::scopes::{Scope, narrow};
use flow_model::{ActivityTree, ElementTree, ItemTree, ProcessTree, Tree, WorkTree};
use std::alloc::{AllocError, Global};

/// Adds the graph of a block, and those inside it; nothing for another activity.
#[cycle(blocks)]
fn add_block<'a>(
    alloc: Global,
    scopes: &mut Vec<Scope<'a>>,
    process: u32,
    activity: &'a ActivityTree,
) -> Result<(), AllocError>
    ensures kept { OnOk result (Grows (lists_of scopes.old.items) (lists_of scopes.new.items)) }
    ensures listed { OnOk result (IsListed (lists_of scopes.new.items) activity.now) }
    ensures added { OnOk result (AreAdded (graphs_in scopes.old.items) (graphs_in scopes.new.items)
        (λ g. IsGraphIn process g activity.now)) }
{
    match &activity.work {
        WorkTree::Program => Ok(()),
        WorkTree::Process(_) => Ok(()),
        WorkTree::Block(elements) => {
            let elements = elements.as_slice();
            let (input, output) = (&activity.input, &activity.output);
            let scope = Scope::new(alloc, process, activity.place, input, output, elements)?;
            scopes.push(scope)?;
            add_blocks(alloc, scopes, process, elements)
        }
    }
}

/// Adds the graphs of the blocks among these elements, and of those in them, in the order of the text.
#[cycle(blocks)]
fn add_blocks<'a>(
    alloc: Global,
    scopes: &mut Vec<Scope<'a>>,
    process: u32,
    elements: &'a [ElementTree],
) -> Result<(), AllocError>
    ensures kept { OnOk result (Grows (lists_of scopes.old.items) (lists_of scopes.new.items)) }
    ensures blocks { OnOk result ((depth : ℕ) → HasBlocks (lists_of scopes.new.items) depth elements.now) }
    ensures added { OnOk result (AreAdded (graphs_in scopes.old.items) (graphs_in scopes.new.items)
        (IsGraphInside process elements.now)) }
{
    for element in elements {
        match element {
            ElementTree::Activity(activity) => add_block(alloc, scopes, process, activity)?,
            ElementTree::Control(_) => {}
            ElementTree::Line(_) => {}
        }
    }
    Ok(())
}

/// The processes of a text, in order.
pub fn processes<'a>(alloc: Global, tree: &'a Tree) -> Result<Vec<&'a ProcessTree>, AllocError>
    ensures { IfOk result (λ found. map (λ p. p.now) found.items ≡ processes_in tree.now.items) }
{
    let mut processes = Vec::new(alloc);
    for item in tree.items.as_slice() {
        match item {
            ItemTree::Process(process) => processes.push(process)?,
            ItemTree::Structure(_) => {}
            ItemTree::Person(_) => {}
        }
    }
    Ok(processes)
}

/// Adds the graph of a process, and those inside it.
fn add_process<'a>(
    alloc: Global,
    scopes: &mut Vec<Scope<'a>>,
    number: usize,
    process: &'a ProcessTree,
) -> Result<(), AllocError>
    ensures kept { OnOk result (Grows (lists_of scopes.old.items) (lists_of scopes.new.items)) }
    ensures covered { OnOk result (IsCovered (lists_of scopes.new.items) process.now.elements) }
    ensures added { OnOk result (AreAdded (graphs_in scopes.old.items) (graphs_in scopes.new.items)
        (IsGraphOfProcess number process.now)) }
{
    let number = narrow(number)?;
    let elements = process.elements.as_slice();
    let (input, output) = (&process.input, &process.output);
    let scope = Scope::new(alloc, number, process.place, input, output, elements)?;
    scopes.push(scope)?;
    add_blocks(alloc, scopes, number, elements)
}

/// All graphs of a text, each before those inside it, in the order of the text.
pub fn text_scopes<'a>(alloc: Global, tree: &'a Tree) -> Result<Vec<Scope<'a>>, AllocError>
    ensures covered { IfOk result (λ scopes. All (λ p. IsCovered (lists_of scopes.items) p.elements)
        (processes_in tree.now.items)) }
    ensures graphs { IfOk result (λ scopes. AreGraphsOf tree.now.items (graphs_in scopes.items)) }
{
    let mut scopes = Vec::new(alloc);
    let processes = processes(alloc, tree)?;
    for (i, process) in processes.iter().enumerate() {
        add_process(alloc, &mut scopes, i, process)?;
    }
    Ok(scopes)
}
