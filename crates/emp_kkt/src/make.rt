//! The row system of a problem.
ghost use Rattle.std.specs.Prelude.{◌≡◌};
ghost use Rattle.emp_kkt.specs.Gives.{IsFit, KktGives};
ghost use Rattle.emp_kkt.specs.Items.{asked};
ghost use Rattle.emp_kkt.specs.Making.{IsLayout, LayoutGives};

use crate::asked::{Asked, asked_of, items_of, kinds_of, pairs_of};
use crate::extras::{Extra, extras_of};
use crate::rows::{objective_of, rows_of};
use emp_list::seq::Seq;
use emp_problem::problem::AgentProblem;
use emp_rows::system::RowSystem;
use std::alloc::{AllocError, Global};

/// Why there is no row system.
#[derive(Clone, Copy, Debug, PartialEq, Eq)]
pub enum KktFault {
    /// There would be more than 256 base variables or more than 512 quantities.
    TooLarge,
    /// A number that is formed for the quantity of this number has an absolute value of 2^126 or more, and none of an earlier
    /// one. Quantities are numbered from 1; the leader's objective comes behind them.
    WideRow(u32),
    /// No memory is left.
    NoMemory,
}

impl From<AllocError> for KktFault {
    ghost use Rattle.std.specs.Prelude.{◌≡◌};
    ghost use Rattle.emp_kkt.specs.declared.make.KktFault.TheVariants.{NoMemory as no_memory};

    ghost from_gives = { λ _ e. e ≡ no_memory };

    fn from(_refused: AllocError) -> KktFault {
        KktFault::NoMemory
    }
}

/// The base variables behind those of the file. `TooLarge` where there would be more than 256 in all.
fn layout(alloc: Global, problem: &AgentProblem) -> Result<Seq<Extra>, KktFault>
    ensures { LayoutGives problem.now result }
{
    let extras = extras_of(alloc, problem)?;
    if problem.variables.len() > 256 || extras.len() > 256 {
        return Err(KktFault::TooLarge);
    }
    if problem.variables.len() + extras.len() > 256 {
        return Err(KktFault::TooLarge);
    }
    Ok(extras)
}

/// The row system of what is asked. `TooLarge` where there would be more than 512 quantities.
fn system_of(
    alloc: Global,
    problem: &AgentProblem,
    extras: &[Extra],
    conditions: &[Asked],
) -> Result<RowSystem, KktFault>
    requires fit { IsFit problem.now }
    requires layout { IsLayout problem.now extras.now }
    requires conditions { conditions.now ≡ asked problem.now }
    ensures { KktGives problem.now result }
{
    let items = items_of(alloc, conditions)?;
    if items.len() > 512 {
        return Err(KktFault::TooLarge);
    }
    let kinds = kinds_of(alloc, conditions)?;
    let pairs = pairs_of(alloc, conditions)?;
    let base = problem.variables.len() + extras.len();
    let quantities = rows_of(alloc, problem, extras, base, items.as_slice())?;
    let objective = objective_of(alloc, problem, extras, base, items.len() as u32 + 1)?;
    Ok(RowSystem {
        base: base as u32,
        quantities,
        kinds,
        pairs,
        objective,
    })
}

/// The row system of a problem: its row points are the points of the problem's game together with its multipliers and the
/// numbers of its ranges, as `IsSystemOver` of `specs/Over.antt` of `emp_quantities` says it.
///
/// `TooLarge` exactly where there would be more than 256 base variables or 512 quantities. `WideRow` exactly where there are
/// not, and names the first quantity in which a number that is formed is wide, as `IsFirstWide` of `specs/Gives.antt` says it.
pub fn make(alloc: Global, problem: &AgentProblem) -> Result<RowSystem, KktFault>
    requires fit { IsFit problem.now }
    ensures { KktGives problem.now result }
{
    let extras = layout(alloc, problem)?;
    let conditions = asked_of(alloc, problem, extras.as_slice())?;
    system_of(alloc, problem, extras.as_slice(), conditions.as_slice())
}
