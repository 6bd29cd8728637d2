//! Which lines of a certificate are justified over the facts of a root.
ghost use Rattle.std.specs.Prelude.{◌≡◌, ◌≤◌, length, IfOk};
ghost use Rattle.certificates.specs.Justified.{AreJustified};
ghost use Rattle.certificates.specs.Kept.{AreLaidTemplates};
ghost use Rattle.flow_core.specs.Driving.{templates};
ghost use Rattle.explain.specs.Verified.{basis_in, AreGood};

use certificates::{AcceptFault, CertLine, Grounds, accept};
use flow_core::{Core, RootFacts};
use flow_model::List;
use std::alloc::{AllocError, Global};

/// How many of the lines, from the first on, are justified.
pub fn justified(
    alloc: Global,
    core: &Core,
    facts: &RootFacts,
    lines: &[CertLine],
) -> Result<u64, AllocError>
    ensures good { IfOk result (λ count. AreLaidTemplates (templates core.now)
        → AreGood (basis_in core.now facts.now) lines.now count) }
    ensures within { IfOk result (λ count. count ≤ length lines.now) }
{
    let grounds = Grounds {
        library: core.library(),
        root: facts.root,
        template: facts.template,
        input: &facts.input,
        facts: facts.facts.as_slice(),
    };
    match accept(alloc, &grounds, lines) {
        Ok(()) => Ok(lines.len() as u64),
        Err(AcceptFault::Line(number)) => Ok(number),
        Err(AcceptFault::NoMemory) => Err(AllocError),
    }
}

/// These lines, which are all justified.
///
/// One that isn't is answered as want of memory: nothing that the accepted completions don't prove leaves the
/// engine. That never happens; this is tested, and not proved.
pub fn checked(
    alloc: Global,
    core: &Core,
    facts: &RootFacts,
    lines: List<CertLine>,
) -> Result<List<CertLine>, AllocError>
    ensures same { IfOk result (λ checked. checked ≡ lines) }
    ensures justified { IfOk result (λ checked. AreLaidTemplates (templates core.now)
        → AreJustified (basis_in core.now facts.now) checked (length checked)) }
{
    let good = justified(alloc, core, facts, lines.as_slice())?;
    if good == lines.len() as u64 {
        Ok(lines)
    } else {
        Err(AllocError)
    }
}
