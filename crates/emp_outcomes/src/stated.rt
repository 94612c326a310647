//! A file with its owners and its rows, or the refusal of a file without.
ghost use Rattle.std.specs.Prelude.{◌≡◌, ◌≢◌, ◌<◌, length, Err, IfOk};
ghost use Rattle.emp_command.specs.Course.{refusal};
ghost use Rattle.emp_owner.specs.declared.owned.OwnFault.TheVariants as own_words;
ghost use Rattle.emp_owner.specs.Settled.{IsKept, IsFirstBroken};
ghost use Rattle.emp_problem.specs.Class.{AnnotFits, GoalFits};
ghost use Rattle.emp_solution.specs.Stated.{StateGives};
ghost use Rattle.emp_report.specs.TextLines.{own_line};
ghost use Rattle.emp_outcomes.specs.Outcomes.{state_status, state_line, IsNamedFault, Refuses};
ghost use Rattle.emp_outcomes.specs.Steps.{outcome_of, ReadyGives};

use crate::said::{Answer, refused};
use emp_ast::annot::Annot;
use emp_ast::model::Model;
use emp_list::memory::NoMemory;
use emp_owner::owned::{OwnFault, Owned};
use emp_owner::settle::settle;
use emp_report::{classes, texts};
use emp_solution::state::{StateFault, Stated, state};
use std::alloc::Global;

/// A file that breaks no rule of ownership, with its problem and its row system.
#[derive(Drop)]
pub struct Ready {
    pub owned: Owned,
    pub stated: Stated,
}

/// Why a file is not ready.
#[derive(Clone, Copy, Debug)]
pub enum Unstated {
    Owner(OwnFault),
    Rows(StateFault),
}

/// The file with its owners and its rows.
pub fn prepare(alloc: Global, model: &Model, annot: &Annot) -> Result<Ready, Unstated>
    requires variables { length model.now.variables < 4294967296 }
    requires equations { length model.now.equations < 4294967296 }
    requires blocks { length annot.now.blocks < 4294967296 }
    requires fits { AnnotFits model.now annot.now }
    requires goal { GoalFits model.now }
    ensures { ReadyGives model.now annot.now result }
{
    match settle(alloc, model, annot) {
        Ok(owned) => match state(alloc, model, annot, &owned) {
            Ok(stated) => Ok(Ready { owned, stated }),
            Err(fault) => Err(Unstated::Rows(fault)),
        },
        Err(fault) => Err(Unstated::Owner(fault)),
    }
}

/// The refusal of a file that breaks a rule of ownership.
fn own_refusal(model: &Model, fault: OwnFault) -> Result<Answer, NoMemory>
    ensures { IfOk result (λ a. (fault ≢ own_words.NoMemory) × (outcome_of a ≡ refusal 16 (own_line model.now fault))) }
{
    refused(16, texts::own_line(model, fault))
}

/// The refusal of a file that has no row system.
fn state_refusal(model: &Model, fault: StateFault) -> Result<Answer, NoMemory>
    ensures { IfOk result (λ a. IsNamedFault fault × (outcome_of a ≡ refusal (state_status fault) (state_line model.now fault))) }
{
    match fault {
        StateFault::Poly(fault) => refused(classes::poly_status(fault), classes::poly_line(fault)),
        StateFault::Quadratic(e, u, v) => {
            Ok(Answer::Refusal(17, classes::quadratic_line(model, e, u, v)))
        }
        StateFault::LeaderNotLinear(u, v) => {
            Ok(Answer::Refusal(17, classes::leader_line(model, u, v)))
        }
        StateFault::NotConvex(block, k) => Ok(Answer::Refusal(18, classes::convex_line(block, k))),
        StateFault::WideCurve(block, k) => {
            Ok(Answer::Refusal(19, classes::curvature_line(block, k)))
        }
        StateFault::TooLarge => Ok(Answer::Refusal(24, classes::rows_line())),
        StateFault::WideRow(row) => Ok(Answer::Refusal(19, classes::row_line(row))),
        StateFault::NoMemory => Err(NoMemory),
    }
}

/// The refusal of a file that is not ready.
pub fn refusal_of(model: &Model, fault: Unstated) -> Result<Answer, NoMemory>
    ensures { (a : Annot) → ReadyGives model.now a (Err fault) → IfOk result (λ o. Refuses model.now a (outcome_of o)) }
{
    match fault {
        Unstated::Owner(fault) => own_refusal(model, fault),
        Unstated::Rows(fault) => state_refusal(model, fault),
    }
}
