//! Attempts.
ghost use Rattle.std.specs.Prelude.{◌≡◌, ◌+◌, ◌-◌, ◌^◌, min, true, false, slice_get};
ghost use Rattle.std.specs.Option.{option_copied, option_map};
ghost use Rattle.flow_model.specs.Conditions.{holds as is_held};
ghost use Rattle.flow_model.specs.ScopeContainers.{graph_in};
ghost use Rattle.blocks_subprocs.specs.declared.attempts.Next.TheVariants.{Finish, Again};

use conditions::holds;
use flow_model::{Container, Expr, Graph, Library, Work};

/// What follows a completed attempt.
#[derive(Clone, Copy, Debug, PartialEq, Eq)]
pub enum Next {
    Finish,
    Again(u64),
}

/// What follows attempt `attempt` with this output: the end where the exit condition is true, else one more.
pub fn next_attempt(exit: &Option<Expr>, output: &Container, attempt: u64) -> Next
    ensures finish { is_held exit.now output.now ≡ true → result ≡ Finish }
    ensures again { is_held exit.now output.now ≡ false → result ≡ Again (min (attempt + 1) (2 ^ 64 - 1)) }
{
    if holds(exit, output) {
        Next::Finish
    } else {
        Next::Again(attempt.saturating_add(1))
    }
}

/// The graph of the template at a place.
fn graph_at(library: &Library, place: u32) -> Option<&Graph>
    ensures { option_copied result ≡ option_map (λ t. t.graph) (slice_get library.now.templates place) }
{
    match library.templates.as_slice().get(place as usize) {
        Some(template) => Some(&template.graph),
        None => None,
    }
}

/// The graph that an activity runs, if it is a block or a process activity.
#[tactic(auto, using(crate::proofs::Library::template_graph))]
pub fn graph_of<'a>(library: &'a Library, work: &'a Work) -> Option<&'a Graph>
    ensures { option_copied result ≡ graph_in library.now.templates work.now }
{
    match work {
        Work::Program(_) => None,
        Work::Block(graph) => Some(graph),
        Work::Process(place) => graph_at(library, *place),
    }
}
