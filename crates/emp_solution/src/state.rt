//! The row system of a file.
ghost use Rattle.std.specs.Prelude.{◌≡◌, ◌<◌, ◌≤◌, length, Ok, Err, IfOk};
ghost use Rattle.emp_ast.specs.declared.model.Model.{Model as File};
ghost use Rattle.emp_ast.specs.declared.annot.Annot.{Annot as Note};
ghost use Rattle.emp_owner.specs.Settled.{IsKept, AreOwned};
ghost use Rattle.emp_problem.specs.Class.{AnnotFits, GoalFits, IsClassFile};
ghost use Rattle.emp_problem.specs.ProblemOf.{IsProblemOf};
ghost use Rattle.emp_problem.specs.declared.problem.AgentProblem.{AgentProblem as Problem};
ghost use Rattle.emp_subst.specs.Subst.{AllExpand, SubstGives};
ghost use Rattle.emp_share.specs.Share.{ShareGives};
ghost use Rattle.emp_kkt.specs.Gives.{IsFit, KktGives};
ghost use Rattle.emp_solution.specs.Stated.{StateGives};

use emp_ast::annot::Annot;
use emp_ast::model::Model;
use emp_ast::tree::{EquId, VarId};
use emp_kkt::make::KktFault;
use emp_owner::owned::Owned;
use emp_poly::tree::PolyFault;
use emp_problem::problem::AgentProblem;
use emp_rows::system::RowSystem;
use emp_share::share::{ShareFault, convex_agents};
use emp_subst::fault::SubstFault;
use std::alloc::Global;

/// Why a file has no row system. Each cause stands in `specs/Stated.antt`.
#[derive(Clone, Copy, Debug, PartialEq, Eq)]
pub enum StateFault {
    /// A tree has no polynomial of degree at most 2, or a coefficient is wide.
    Poly(PolyFault),
    /// The equation is a constraint or a function and has a quadratic coefficient; the first pair of variables that has one.
    Quadratic(EquId, VarId, VarId),
    /// The leader's objective has a quadratic coefficient; the first pair of variables that has one.
    LeaderNotLinear(VarId, VarId),
    /// The block's agent is not convex in its first own variables, as many as the second number says. Both count from 1.
    NotConvex(u32, u32),
    /// A number formed in the test of the block's agent, in the row of this own variable, is wide. Both count from 1.
    WideCurve(u32, u32),
    /// There are more than 256 base variables or 512 quantities.
    TooLarge,
    /// A number formed in the row of the quantity of this number, from 1, is wide.
    WideRow(u32),
    NoMemory,
}

/// The problem of a file and its row system.
#[derive(Drop)]
pub struct Stated {
    pub problem: AgentProblem,
    pub system: RowSystem,
}

/// A fault of the problem as one of the file.
fn of_subst(fault: SubstFault) -> StateFault
    ensures { (m : File) (a : Note) → SubstGives m a (Err fault) → StateGives m a (Err result) }
{
    match fault {
        SubstFault::Poly(fault) => StateFault::Poly(fault),
        SubstFault::Quadratic(equation, first, second) => {
            StateFault::Quadratic(equation, first, second)
        }
        SubstFault::LeaderNotLinear(first, second) => StateFault::LeaderNotLinear(first, second),
        SubstFault::NoMemory => StateFault::NoMemory,
    }
}

/// A fault of an agent as one of the file.
fn of_share(fault: ShareFault) -> StateFault
    ensures { (m : File) (a : Note) (pr : Problem) → AllExpand m → IsClassFile m a → IsProblemOf m a pr → ShareGives pr (Err fault) → StateGives m a (Err result) }
{
    match fault {
        ShareFault::NotConvex(block, k) => StateFault::NotConvex(block, k),
        ShareFault::WideCurve(block, k) => StateFault::WideCurve(block, k),
        ShareFault::NoMemory => StateFault::NoMemory,
    }
}

/// A fault of the rows as one of the file.
fn of_kkt(fault: KktFault) -> StateFault
    ensures { (m : File) (a : Note) (pr : Problem) → AllExpand m → IsClassFile m a → IsProblemOf m a pr → ShareGives pr (Ok tt) → KktGives pr (Err fault) → StateGives m a (Err result) }
{
    match fault {
        KktFault::TooLarge => StateFault::TooLarge,
        KktFault::WideRow(row) => StateFault::WideRow(row),
        KktFault::NoMemory => StateFault::NoMemory,
    }
}

/// The row system of a problem whose agents are convex.
fn with_rows(alloc: Global, problem: AgentProblem) -> Result<Stated, StateFault>
    requires fit { IsFit problem }
    ensures gives { (m : File) (a : Note) → AllExpand m → IsClassFile m a → IsProblemOf m a problem → ShareGives problem (Ok tt) → StateGives m a result }
    ensures base { IfOk result (λ s. length s.problem.variables ≤ s.system.base) }
{
    match emp_kkt::make::make(alloc, &problem) {
        Ok(system) => Ok(Stated { problem, system }),
        Err(fault) => Err(of_kkt(fault)),
    }
}

/// The row system of a problem, once its agents are tested.
fn tested(alloc: Global, problem: AgentProblem) -> Result<Stated, StateFault>
    requires fit { IsFit problem }
    ensures gives { (m : File) (a : Note) → AllExpand m → IsClassFile m a → IsProblemOf m a problem → StateGives m a result }
    ensures base { IfOk result (λ s. length s.problem.variables ≤ s.system.base) }
{
    match convex_agents(alloc, &problem) {
        Ok(()) => with_rows(alloc, problem),
        Err(fault) => Err(of_share(fault)),
    }
}

/// The problem of a file that breaks no rule of ownership, and its row system.
///
/// The faults come in the order of the expansion of all equations, the test of constraints, functions and the leader's objective,
/// the test of the agents, and the rows.
pub fn state(
    alloc: Global,
    model: &Model,
    annot: &Annot,
    owned: &Owned,
) -> Result<Stated, StateFault>
    requires kept { IsKept model.now annot.now }
    requires owned { AreOwned model.now annot.now owned.now }
    requires fits { AnnotFits model.now annot.now }
    requires goal { GoalFits model.now }
    requires variables { length model.now.variables < 4294967296 }
    requires equations { length model.now.equations < 4294967296 }
    ensures gives { StateGives model.now annot.now result }
    ensures base { IfOk result (λ s. length s.problem.variables ≤ s.system.base) }
{
    match emp_subst::make::make(alloc, model, annot, owned) {
        Ok(problem) => tested(alloc, problem),
        Err(fault) => Err(of_subst(fault)),
    }
}
