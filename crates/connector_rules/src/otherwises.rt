//! Rule 15: which connectors with OTHERWISE have a meaning.
ghost use Rattle.std.specs.Prelude.{◌≡◌, List, [], ◌∷◌, ◌++◌, IfOk, OnOk};
ghost use Rattle.flow_model.specs.declared.trees.ControlTree.{ControlTree};
ghost use Rattle.text_graphs.specs.Graphs.{graph_at};
ghost use Rattle.text_graphs.specs.Places.{IsLeastOf, AnyAt, PairAt};
ghost use Rattle.text_graphs.specs.Texts.{controls_in};
ghost use Rattle.connector_rules.specs.Connectors.{IsSameAgain, IsUntested, IsOtherwiseWrong, otherwise_source};
ghost use Rattle.connector_rules.specs.Connectors.{tested_source};
ghost use Rattle.connector_rules.specs.EdgesMet.{AreOtherwisesMet, AreTested};

use flow_model::{ControlTree, WhenTree};
use indexmap::IndexSet;
use std::alloc::{AllocError, Global};
use text_graphs::{Scope, lesser};

/// The activity from which a connector with OTHERWISE leads.
fn otherwise_source<'a>(scope: &Scope<'a>, control: &'a ControlTree) -> Option<u32>
    ensures { result ≡ otherwise_source scope.now.elements.now control.now }
{
    match &control.when {
        WhenTree::Always => None,
        WhenTree::Cond(_) => None,
        WhenTree::Otherwise => scope.number(&control.from),
    }
}

/// The activity from which a connector with WHEN leads.
fn tested_source<'a>(scope: &Scope<'a>, control: &'a ControlTree) -> Option<u32>
    ensures { result ≡ tested_source scope.now.elements.now control.now }
{
    match &control.when {
        WhenTree::Always => None,
        WhenTree::Cond(_) => scope.number(&control.from),
        WhenTree::Otherwise => None,
    }
}

/// The sources of the OTHERWISE connectors that were met, to find the least place of one that comes again.
#[derive(Drop)]
struct Sources {
    met: IndexSet<u32>,
    first: Option<u32>,
}

impl Sources {
    fn new<'a>(alloc: Global, scope: &Scope<'a>) -> Sources
        ensures { AreOtherwisesMet scope.now.elements.now result [] }
    {
        Sources {
            met: IndexSet::new(alloc),
            first: None,
        }
    }

    /// Meets a connector.
    fn meet<'a>(&mut self, scope: &Scope<'a>, control: &'a ControlTree) -> Result<(), AllocError>
        ensures { OnOk result ((controls : List ControlTree) → AreOtherwisesMet scope.now.elements.now self.old controls
            → AreOtherwisesMet scope.now.elements.now self.new (controls ++ control.now ∷ [])) }
    {
        match otherwise_source(scope, control) {
            None => Ok(()),
            Some(source) => {
                let (_place, is_new) = self.met.insert_full(source)?;
                if is_new {
                    return Ok(());
                }
                self.first = lesser(self.first, Some(control.place));
                Ok(())
            }
        }
    }
}

fn again_in_graph(alloc: Global, scope: &Scope<'_>) -> Result<Option<u32>, AllocError>
    ensures { IfOk result (IsLeastOf (PairAt (IsSameAgain (otherwise_source scope.now.elements.now))
        (controls_in scope.now.elements.now))) }
{
    let mut sources = Sources::new(alloc, scope);
    for control in &scope.controls {
        sources.meet(scope, control)?;
    }
    Ok(sources.first)
}

/// Notes the source of a connector with WHEN.
fn note<'a>(
    tested: &mut IndexSet<u32>,
    scope: &Scope<'a>,
    control: &'a ControlTree,
) -> Result<(), AllocError>
    ensures { OnOk result ((controls : List ControlTree) → AreTested scope.now.elements.now tested.old controls
        → AreTested scope.now.elements.now tested.new (controls ++ control.now ∷ [])) }
{
    match tested_source(scope, control) {
        None => Ok(()),
        Some(source) => {
            tested.insert_full(source)?;
            Ok(())
        }
    }
}

/// The activities that have a connector with WHEN.
fn tested_in_graph(alloc: Global, scope: &Scope<'_>) -> Result<IndexSet<u32>, AllocError>
    ensures { IfOk result (λ tested. AreTested scope.now.elements.now tested (controls_in scope.now.elements.now)) }
{
    let mut tested = IndexSet::new(alloc);
    for control in &scope.controls {
        note(&mut tested, scope, control)?;
    }
    Ok(tested)
}

/// The place of an OTHERWISE whose source has no connector with WHEN.
fn untested<'a>(tested: &IndexSet<u32>, scope: &Scope<'a>, control: &'a ControlTree) -> Option<u32>
    requires { AreTested scope.now.elements.now tested.now (controls_in scope.now.elements.now) }
    ensures { IsLeastOf (IsUntested scope.now.elements.now control.now) result }
{
    match otherwise_source(scope, control) {
        None => None,
        Some(source) => {
            if tested.contains(&source) {
                None
            } else {
                Some(control.place)
            }
        }
    }
}

fn untested_in_graph(alloc: Global, scope: &Scope<'_>) -> Result<Option<u32>, AllocError>
    ensures { IfOk result (IsLeastOf (AnyAt (IsUntested scope.now.elements.now) (controls_in scope.now.elements.now))) }
{
    let tested = tested_in_graph(alloc, scope)?;
    let mut least = None;
    for control in &scope.controls {
        least = lesser(least, untested(&tested, scope, control));
    }
    Ok(least)
}

fn otherwise_in_graph(alloc: Global, scope: &Scope<'_>) -> Result<Option<u32>, AllocError>
    ensures { IfOk result (IsLeastOf (IsOtherwiseWrong (graph_at scope.now))) }
{
    let again = again_in_graph(alloc, scope)?;
    let untested = untested_in_graph(alloc, scope)?;
    Ok(lesser(again, untested))
}

/// Rule 15: an OTHERWISE whose source has an earlier one, or no CONTROL with WHEN.
pub fn otherwise(alloc: Global, scopes: &[Scope<'_>]) -> Result<Option<u32>, AllocError>
    ensures { IfOk result (IsLeastOf (AnyAt (λ s. IsOtherwiseWrong (graph_at s)) scopes.now)) }
{
    let mut least = None;
    for scope in scopes {
        least = lesser(least, otherwise_in_graph(alloc, scope)?);
    }
    Ok(least)
}
