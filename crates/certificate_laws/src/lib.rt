//! Which laws hold of certificates?
//!
//! Each function here is a law: it takes nothing, does nothing, and its `ensures` is a statement about the
//! definitions of `certificates` and `flow_model`, which is proved. Begin with `specs/Right.antt`.
#![tactic(auto)]

ghost use Rattle.certificate_laws.specs.Right.{JustifiedIsRight};

/// Each line of a certificate whose lines are justified is right: what it says is so by the completions
/// alone, in every process that is well formed.
pub fn justified_is_right()
    ensures { JustifiedIsRight }
{}
