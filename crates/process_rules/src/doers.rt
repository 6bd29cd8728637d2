//! Rules 19 and 20: the people and the activities that DONE_BY and PERFORMER OF name.
ghost use Rattle.std.specs.Prelude.{◌≡◌, ◌<◌, List, IfOk, length};
ghost use Rattle.std.specs.Bool.{Decides};
ghost use Rattle.std.specs.List.{list_any};
ghost use Rattle.flow_model.specs.declared.trees.PersonTree.{PersonTree};
ghost use Rattle.connector_rules.specs.Walking.{AreWalksOf};
ghost use Rattle.process_rules.specs.Doers.{IsNoPerson, NamesNoPerson, is_person, Leads, IsManual, IsPerformer};
ghost use Rattle.process_rules.specs.Doers.{IsWrongName, IsNoPerformer, NamesNoPerformer, is_performer};
ghost use Rattle.process_rules.specs.Knowing.{ArePeople};
ghost use Rattle.text_graphs.specs.Attributes.{is_start_manual};
ghost use Rattle.text_graphs.specs.Graphs.{graph_at};
ghost use Rattle.text_graphs.specs.Places.{IsLeastOf, AnyAt};
ghost use Rattle.text_graphs.specs.Texts.{activities_in};

use crate::people::Known;
use connector_rules::Walks;
use flow_model::{ActivityTree, AttrTree, NameAt};
use std::alloc::{AllocError, Global};
use text_graphs::{Scope, lesser, narrow};

/// The place of the name of somebody who isn't known.
fn unknown_name<'a>(known: &Known<'a>, what: &'a AttrTree) -> Option<u32>
    ensures { (people : List PersonTree) → ArePeople known.now people
        → IsLeastOf (IsNoPerson (is_person known.now.catalog.now.library people) what.now) result }
{
    match what {
        AttrTree::When(_) => None,
        AttrTree::Exit(_) => None,
        AttrTree::Start(_) => None,
        AttrTree::Expires(_) => None,
        AttrTree::Role(_) => None,
        AttrTree::Person(name) => {
            if known.is_person(name) {
                None
            } else {
                Some(name.place)
            }
        }
        AttrTree::Starter => None,
        AttrTree::Performer(_) => None,
    }
}

fn unknown_in_activity<'a>(known: &Known<'a>, activity: &'a ActivityTree) -> Option<u32>
    ensures { (people : List PersonTree) → ArePeople known.now people
        → IsLeastOf (AnyAt (λ x. IsNoPerson (is_person known.now.catalog.now.library people) x.what) activity.now.attrs)
        result }
{
    let mut least = None;
    for attribute in activity.attrs.as_slice() {
        least = lesser(least, unknown_name(known, &attribute.what));
    }
    least
}

fn unknown_in_graph<'a>(known: &Known<'a>, scope: &Scope<'a>) -> Option<u32>
    ensures { (people : List PersonTree) → ArePeople known.now people
        → IsLeastOf (NamesNoPerson known.now.catalog.now.library people (graph_at scope.now)) result }
{
    let mut least = None;
    for activity in &scope.activities {
        least = lesser(least, unknown_in_activity(known, activity));
    }
    least
}

/// Rule 19: DONE_BY PERSON names no person.
pub fn unknown_people<'a>(known: &Known<'a>, scopes: &[Scope<'a>]) -> Option<u32>
    ensures { (people : List PersonTree) → ArePeople known.now people
        → IsLeastOf (AnyAt (λ s. NamesNoPerson known.now.catalog.now.library people (graph_at s)) scopes.now) result }
{
    let mut least = None;
    for scope in scopes {
        least = lesser(least, unknown_in_graph(known, scope));
    }
    least
}

/// Whether an activity is a program activity that a person starts.
pub fn is_manual(activity: &ActivityTree) -> bool
    ensures { result ≡ list_any (λ attribute. is_start_manual attribute.what) activity.now.attrs }
{
    for attribute in activity.attrs.as_slice() {
        if starts_manual(&attribute.what) {
            return true;
        }
    }
    false
}

fn starts_manual(what: &AttrTree) -> bool
    ensures { result ≡ is_start_manual what.now }
{
    match what {
        AttrTree::Start(manual) => *manual,
        AttrTree::When(_) => false,
        AttrTree::Exit(_) => false,
        AttrTree::Expires(_) => false,
        AttrTree::Role(_) => false,
        AttrTree::Person(_) => false,
        AttrTree::Starter => false,
        AttrTree::Performer(_) => false,
    }
}

/// Whether a walk leads from the activity of a name to that of a number.
fn leads<'a>(scope: &Scope<'a>, walks: &Walks, name: &'a NameAt, to: u32) -> bool
    requires walks { AreWalksOf scope.now.elements.now walks.now }
    requires within { to < length (activities_in scope.now.elements.now) }
    ensures { Decides result (Leads scope.now.elements.now name.now.name to) }
{
    match scope.number(name) {
        None => false,
        Some(number) => walks.lead(number, to),
    }
}

/// Whether a name is a manual activity's.
fn names_manual<'a>(scope: &Scope<'a>, name: &'a NameAt) -> bool
    ensures { Decides result (IsManual scope.now.elements.now name.now.name) }
{
    match scope.activity(name) {
        None => false,
        Some(activity) => is_manual(activity),
    }
}

/// Whether a name is a manual activity's that leads to the one of a number.
fn performs<'a>(scope: &Scope<'a>, walks: &Walks, name: &'a NameAt, to: u32) -> bool
    requires walks { AreWalksOf scope.now.elements.now walks.now }
    requires within { to < length (activities_in scope.now.elements.now) }
    ensures { Decides result (IsPerformer scope.now.elements.now name.now.name to) }
{
    leads(scope, walks, name, to) && names_manual(scope, name)
}

/// The place of the name of no such activity.
fn wrong_name<'a>(scope: &Scope<'a>, walks: &Walks, name: &'a NameAt, to: u32) -> Option<u32>
    requires walks { AreWalksOf scope.now.elements.now walks.now }
    requires within { to < length (activities_in scope.now.elements.now) }
    ensures { IsLeastOf (IsWrongName scope.now.elements.now to name.now) result }
{
    if performs(scope, walks, name, to) {
        None
    } else {
        Some(name.place)
    }
}

fn wrong_in_attribute<'a>(
    scope: &Scope<'a>,
    walks: &Walks,
    what: &'a AttrTree,
    to: u32,
) -> Option<u32>
    requires walks { AreWalksOf scope.now.elements.now walks.now }
    requires within { to < length (activities_in scope.now.elements.now) }
    ensures { IsLeastOf (IsNoPerformer scope.now.elements.now to what.now) result }
{
    match what {
        AttrTree::When(_) => None,
        AttrTree::Exit(_) => None,
        AttrTree::Start(_) => None,
        AttrTree::Expires(_) => None,
        AttrTree::Role(_) => None,
        AttrTree::Person(_) => None,
        AttrTree::Starter => None,
        AttrTree::Performer(name) => wrong_name(scope, walks, name, to),
    }
}

/// The wrong names of the activity of a number.
fn wrong_in_activity<'a>(
    scope: &Scope<'a>,
    walks: &Walks,
    activity: &'a ActivityTree,
    to: u32,
) -> Option<u32>
    requires walks { AreWalksOf scope.now.elements.now walks.now }
    requires within { to < length (activities_in scope.now.elements.now) }
    ensures { IsLeastOf (AnyAt (λ x. IsNoPerformer scope.now.elements.now to x.what) activity.now.attrs) result }
{
    let mut least = None;
    for attribute in activity.attrs.as_slice() {
        least = lesser(least, wrong_in_attribute(scope, walks, &attribute.what, to));
    }
    least
}

fn is_performer(what: &AttrTree) -> bool
    ensures { result ≡ is_performer what.now }
{
    match what {
        AttrTree::When(_) => false,
        AttrTree::Exit(_) => false,
        AttrTree::Start(_) => false,
        AttrTree::Expires(_) => false,
        AttrTree::Role(_) => false,
        AttrTree::Person(_) => false,
        AttrTree::Starter => false,
        AttrTree::Performer(_) => true,
    }
}

fn names_performer(activity: &ActivityTree) -> bool
    ensures { result ≡ list_any (λ attribute. is_performer attribute.what) activity.now.attrs }
{
    for attribute in activity.attrs.as_slice() {
        if is_performer(&attribute.what) {
            return true;
        }
    }
    false
}

fn asks_performer(scope: &Scope<'_>) -> bool
    ensures { result ≡ list_any (λ a. list_any (λ x. is_performer x.what) a.now.attrs) scope.now.activities.items }
{
    for activity in &scope.activities {
        if names_performer(activity) {
            return true;
        }
    }
    false
}

/// The wrong names of a graph, by the walks in it.
fn wrong_by_walks<'a>(alloc: Global, scope: &Scope<'a>) -> Result<Option<u32>, AllocError>
    ensures { IfOk result (IsLeastOf (NamesNoPerformer (graph_at scope.now))) }
{
    let walks = Walks::new(alloc, scope)?;
    let mut least = None;
    for (i, activity) in scope.activities.iter().enumerate() {
        least = lesser(
            least,
            wrong_in_activity(scope, &walks, activity, narrow(i)?),
        );
    }
    Ok(least)
}

/// The wrong names of a graph; walks are looked for only where one is named.
fn wrong_in_graph<'a>(alloc: Global, scope: &Scope<'a>) -> Result<Option<u32>, AllocError>
    ensures { IfOk result (IsLeastOf (NamesNoPerformer (graph_at scope.now))) }
{
    if asks_performer(scope) {
        wrong_by_walks(alloc, scope)
    } else {
        Ok(None)
    }
}

/// Rule 20: PERFORMER OF names no manual program activity of the graph from which this one is reachable.
pub fn wrong_performers(alloc: Global, scopes: &[Scope<'_>]) -> Result<Option<u32>, AllocError>
    ensures { IfOk result (IsLeastOf (AnyAt (λ s. NamesNoPerformer (graph_at s)) scopes.now)) }
{
    let mut least = None;
    for scope in scopes {
        least = lesser(least, wrong_in_graph(alloc, scope)?);
    }
    Ok(least)
}
