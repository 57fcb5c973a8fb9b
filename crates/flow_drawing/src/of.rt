//! The drawing of a plan.

use crate::drawing::{Drawing, Remarks};
use crate::edges::all_edges;
use crate::folding::{folded_edges, folded_givens, folded_rows};
use crate::givens::all_givens;
use crate::rows::rows_of;
use flow_plan::{KindSpec, Plan};
use std::alloc::{AllocError, Global};

impl Drawing {
    ghost use Rattle.std.specs.Prelude.{◌≡◌, IfOk};
    ghost use Rattle.flow_drawing.specs.Drawings.{drawing_of};
    ghost use Rattle.flow_drawing.specs.Folding.{folded_of};

    /// The drawing of a plan over these kinds, with what is said besides.
    pub fn of(
        alloc: Global,
        kinds: &[KindSpec],
        plan: &Plan,
        remarks: &Remarks,
    ) -> Result<Drawing, AllocError>
        ensures { IfOk result (λ drawing. drawing ≡ drawing_of kinds.now remarks.now plan.now) }
    {
        Ok(Drawing {
            rows: rows_of(alloc, kinds, remarks.processes.as_slice(), plan.processes())?,
            givens: all_givens(alloc, kinds, plan)?,
            edges: all_edges(alloc, remarks.connections.as_slice(), plan)?,
        })
    }

    /// The same, with each subnet process as one box, and nothing of what stands inside.
    pub fn folded(
        alloc: Global,
        kinds: &[KindSpec],
        plan: &Plan,
        remarks: &Remarks,
    ) -> Result<Drawing, AllocError>
        ensures { IfOk result (λ drawing. drawing ≡ folded_of kinds.now remarks.now plan.now) }
    {
        let processes = plan.processes();
        let givens = all_givens(alloc, kinds, plan)?;
        let edges = all_edges(alloc, remarks.connections.as_slice(), plan)?;
        Ok(Drawing {
            rows: folded_rows(alloc, kinds, remarks.processes.as_slice(), processes)?,
            givens: folded_givens(alloc, processes, givens.as_slice())?,
            edges: folded_edges(alloc, processes, edges.as_slice())?,
        })
    }
}
