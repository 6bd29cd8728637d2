//! The leaves of a structure, as containers have them: an output has `_RC` besides.
ghost use Rattle.std.specs.Prelude.{◌≡◌, ◌<◌, ◌^◌, ◌∷◌, length, map, IfOk};
ghost use Rattle.leaf_rules.specs.ReturnCodes.{return_code};
ghost use Rattle.leaf_rules.specs.Runs.{leaves_in_run, IsOutputRun, AreOutputRuns};

use crate::rows::Run;
use flow_model::{LeafRows, Leaves};
use std::alloc::{AllocError, Global};
use std::rc::Rc;
use text_graphs::narrow;

/// The leaves of a structure, with `_RC` before them and without.
#[derive(Drop)]
pub struct StructureLeaves {
    pub plain: Leaves,
    pub coded: Leaves,
    ghost begun: { coded.leaves ≡ return_code ∷ plain.leaves },
    ghost few: { length coded.leaves < 2 ^ 32 },
}

/// The leaves of a structure in both forms, by their run of a table.
fn both_forms(table: &Rc<LeafRows>, run: Run) -> Result<StructureLeaves, AllocError>
    requires { IsOutputRun table.now.value run }
    ensures { IfOk result (λ made. made.coded.leaves ≡ leaves_in_run table.now.value run) }
{
    let coded = Leaves::new(table.clone()?, run.first, run.count);
    let behind = narrow(run.first as usize + 1)?;
    let plain = Leaves::new(table.clone()?, behind, run.count.saturating_sub(1));
    let _few = coded.len();
    Ok(StructureLeaves { plain, coded })
}

/// The leaves of structures in both forms, by their runs of a table.
pub(crate) fn all_forms(
    alloc: Global,
    table: &Rc<LeafRows>,
    runs: &[Run],
) -> Result<Vec<StructureLeaves>, AllocError>
    requires { AreOutputRuns table.now.value runs.now }
    ensures { IfOk result (λ made. map (λ forms. forms.coded.leaves) made.items
        ≡ map (leaves_in_run table.now.value) runs.now) }
{
    let mut made = Vec::new(alloc);
    for run in runs {
        made.push(both_forms(table, *run)?)?;
    }
    Ok(made)
}
