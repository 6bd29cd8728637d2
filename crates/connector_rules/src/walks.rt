//! From which activities of a graph walks lead to which, for very many questions.
//!
//! For 64 sources at a time, each activity has a word with a bit for each source from which a walk leads there.
//! Connectors are gone along once, in the order of the groups of their targets: then all is known of the start of a
//! connector before it is told to its end, or both are in one group, which has one word.
ghost use Rattle.std.specs.Prelude.{◌≡◌, ◌<◌, ◌↔◌, List, IfOk, IsTrue, length, slice_index};
ghost use Rattle.std.specs.List.{All};
ghost use Rattle.flow_model.specs.declared.trees.ElementTree.{ElementTree};
ghost use Rattle.graph_check.specs.Walks.{AreNodes};
ghost use Rattle.text_graphs.specs.Texts.{edges_in};
ghost use Rattle.connector_rules.specs.EdgesGrouped.{AreGroupsOf};
ghost use Rattle.connector_rules.specs.Walking.{AreInOrder, AreSourcesAlong, AreBlocksAlong, AreWalksOf, IsSet};
ghost use Rattle.connector_rules.specs.Walking.{IsWalkTold};
ghost use Rattle.connector_rules.specs.Walking.{bit_of, words_along, word_of};

use std::alloc::{AllocError, Global};
use text_graphs::Scope;

/// The number of each activity's group: two are in one where walks lead from each to the other.
pub fn groups(alloc: Global, scope: &Scope<'_>) -> Result<Vec<u32>, AllocError>
    ensures { IfOk result (λ groups. AreGroupsOf scope.now.elements.now groups.items) }
{
    let edges = scope.edges(alloc)?;
    let groups = edges.components(alloc)?;
    Ok(groups)
}

/// The group of an activity.
fn group(groups: &[u32], activity: u32) -> u32
    ensures { result ≡ slice_index groups.now activity }
{
    groups.get(activity as usize).copied().unwrap_or(0)
}

/// The connectors whose ends are known, as pairs of numbers.
fn pairs(alloc: Global, scope: &Scope<'_>) -> Result<Vec<(u32, u32)>, AllocError>
    ensures { IfOk result (λ pairs. pairs.items ≡ edges_in scope.now.elements.now) }
{
    let mut pairs = Vec::new(alloc);
    for control in &scope.controls {
        match scope.ends(&control.from, &control.to) {
            Some(ends) => pairs.push(ends)?,
            None => {}
        }
    }
    Ok(pairs)
}

/// The same in the order of the groups of their targets.
fn in_order(alloc: Global, scope: &Scope<'_>, groups: &[u32]) -> Result<Vec<(u32, u32)>, AllocError>
    requires { AreGroupsOf scope.now.elements.now groups.now }
    ensures { IfOk result (λ pairs. AreInOrder scope.now.elements.now groups.now pairs.items) }
{
    let mut pairs = pairs(alloc, scope)?;
    pairs.sort_unstable_by_key(|pair| group(groups, pair.1));
    Ok(pairs)
}

/// The bit of a source in the words of a block.
fn bit_of(block: usize, source: u32) -> u64
    ensures { result ≡ bit_of block source }
{
    if source as usize / 64 == block {
        1 << (source % 64)
    } else {
        0
    }
}

fn is_set(word: u64, bit: u32) -> bool
    requires { bit < 64 }
    ensures { IsTrue result ↔ IsSet word bit }
{
    (word >> bit) & 1 == 1
}

/// How many words are needed, so that each group has one.
fn width(groups: &[u32]) -> usize
    ensures { All (λ group. group < result) groups.now }
{
    let mut most = 0;
    for group in groups {
        if most <= *group as usize {
            most = *group as usize + 1;
        }
    }
    most
}

/// Goes along a connector: the sources of its start, and the start, are sources of its end.
fn pass(words: &mut Vec<u64>, groups: &[u32], block: usize, pair: (u32, u32))
    requires from { slice_index groups.now pair.0 < length words.old.items }
    requires to { slice_index groups.now pair.1 < length words.old.items }
    ensures { words.new.items ≡ words_along groups.now block words.old.items pair }
{
    let (from, to) = pair;
    let sources = bit_of(block, from) | words[group(groups, from) as usize];
    words[group(groups, to) as usize] |= sources;
}

/// The words of a block: for each group, from which of the block's sources walks lead to its activities.
fn sources(
    alloc: Global,
    groups: &[u32],
    pairs: &[(u32, u32)],
    block: usize,
) -> Result<Vec<u64>, AllocError>
    requires { AreNodes (length groups.now) pairs.now }
    ensures { IfOk result (λ words. AreSourcesAlong groups.now pairs.now block words.items) }
{
    let mut words = vec![in alloc; 0; width(groups)]?;
    for pair in pairs {
        pass(&mut words, groups, block, *pair);
    }
    Ok(words)
}

/// The word of an activity.
fn word(groups: &[u32], words: &[u64], activity: u32) -> u64
    ensures { result ≡ word_of groups.now words.now activity }
{
    words
        .get(group(groups, activity) as usize)
        .copied()
        .unwrap_or(0)
}

/// The words of each block of a graph.
fn blocks(alloc: Global, groups: &[u32], pairs: &[(u32, u32)]) -> Result<Vec<Vec<u64>>, AllocError>
    requires { AreNodes (length groups.now) pairs.now }
    ensures { IfOk result (λ blocks. AreBlocksAlong groups.now pairs.now blocks.items) }
{
    let count = groups.len() / 64 + 1;
    let mut blocks = Vec::new(alloc);
    for block in 0..count {
        let words = sources(alloc, groups, pairs, block)?;
        blocks.push(words)?;
    }
    Ok(blocks)
}

/// From which activities of a graph walks lead to which.
#[derive(Drop)]
pub struct Walks {
    groups: Vec<u32>,
    blocks: Vec<Vec<u64>>,
}

impl Walks {
    pub fn new(alloc: Global, scope: &Scope<'_>) -> Result<Walks, AllocError>
        ensures { IfOk result (AreWalksOf scope.now.elements.now) }
    {
        let groups = groups(alloc, scope)?;
        let pairs = in_order(alloc, scope, &groups)?;
        let blocks = blocks(alloc, &groups, &pairs)?;
        Ok(Walks { groups, blocks })
    }

    /// Whether a walk of at least one connector leads from one activity to another.
    pub fn lead(&self, from: u32, to: u32) -> bool
        ensures { (elements : List ElementTree) → AreWalksOf elements self.now → IsWalkTold elements from to result }
    {
        match self.blocks.get((from / 64) as usize) {
            None => false,
            Some(words) => is_set(word(&self.groups, words, to), from % 64),
        }
    }
}
