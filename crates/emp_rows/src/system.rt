//! Systems of affine quantities: each is to be 0, or at least 0, and of some pairs of them one is to be 0.
ghost use Rattle.std.specs.Prelude.{◌≡◌, IfOk};
ghost use Rattle.emp_rows.specs.Systems.{IsSystem};

use crate::affine::Affine;
use emp_list::memory::NoMemory;
use emp_list::seq::Seq;
use std::alloc::Global;

/// What a quantity is to be at a row point.
#[derive(Clone, Copy, Debug, PartialEq, Eq)]
pub enum Kind {
    /// It is to be 0.
    Zero,
    /// It is to be at least 0.
    Nonneg,
}

/// Affine quantities of free base variables with a kind for each, pairs of which one member is to be 0, and an objective
/// that is to be made least, where there is one.
///
/// Base variables, quantities and pairs are numbered from 1. A pair has the numbers of two different quantities that are to
/// be at least 0, and no quantity is in two pairs. There are at most 256 base variables and 512 quantities. What the type
/// keeps is `IsSystem` of `specs/Systems.antt`, and what a system's points are is `Solves` of `specs/RowPoints.antt`.
#[derive(Drop)]
pub struct RowSystem {
    /// How many base variables there are.
    pub base: u32,
    pub quantities: Seq<Affine>,
    pub kinds: Seq<Kind>,
    pub pairs: Seq<(u32, u32)>,
    pub objective: Option<Affine>,
    pub ghost sound: { IsSystem base quantities kinds pairs objective },
}

/// The same quantities once more.
#[tactic(auto, using(crate::proofs::Systems::copying))]
fn copy_all(alloc: Global, rows: &[Affine]) -> Result<Seq<Affine>, NoMemory>
    ensures { IfOk result (λ r. r ≡ rows.now) }
{
    let mut out = Seq::new(alloc);
    for at in 0..rows.len() {
        let row = rows[at].copy(alloc)?;
        out.push(row)?;
    }
    Ok(out)
}

/// The same objective once more, where there is one.
fn copy_objective(alloc: Global, objective: &Option<Affine>) -> Result<Option<Affine>, NoMemory>
    ensures { IfOk result (λ o. o ≡ objective.now) }
{
    match objective {
        Some(row) => {
            let row = row.copy(alloc)?;
            Ok(Some(row))
        }
        None => Ok(None),
    }
}

impl RowSystem {
    /// The same system once more.
    pub fn copy(&self, alloc: Global) -> Result<RowSystem, NoMemory>
        ensures { IfOk result (λ s. s ≡ self.now) }
    {
        let quantities = copy_all(alloc, self.quantities.as_slice())?;
        let kinds = self.kinds.copy(alloc)?;
        let pairs = self.pairs.copy(alloc)?;
        let objective = copy_objective(alloc, &self.objective)?;
        Ok(RowSystem {
            base: self.base,
            quantities,
            kinds,
            pairs,
            objective,
        })
    }
}
