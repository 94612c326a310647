//! The way from a file to its rows, and back.
ghost use Rattle.std.specs.Prelude.{◌≡◌, ◌<◌, length};
ghost use Rattle.emp_num.specs.Point.{Point};
ghost use Rattle.emp_reform.specs.Back.{FitsAt, BackGives, first_some};
ghost use Rattle.emp_owner.specs.Settled.{AreOwned};
ghost use Rattle.emp_solution.specs.Stated.{IsStated};
ghost use Rattle.emp_chain.specs.Members.{ValuesGive};

use crate::file::{FilePoint, FileProblem};
use crate::kkt::Kkt;
use crate::left::{ConvexProblem, LeftProblem};
use crate::rows::RowProblem;
use crate::share::Share;
use crate::subst::Subst;
use emp_ast::annot::Annot;
use emp_ast::model::Model;
use emp_owner::owned::Owned;
use emp_reform::fault::BackFault;
use emp_reform::problem::Problem;
use emp_reform::reform::Reform;
use emp_reform::then::Then;
use emp_rows::point::RowPoint;
use emp_solution::state::Stated;
use std::alloc::Global;

/// The point of the first problem that a point of the last stands for, by three rewritings as one.
///
/// `Wide` names the first coordinate whose fold is wide in the last rewriting, else in the one before it, else in the first.
fn back_through<A: Reform + Drop, B: Reform<Src = A::Dst> + Drop, C: Reform<Src = B::Dst> + Drop>(
    alloc: Global,
    first: A,
    second: B,
    third: C,
    point: &<C::Dst as Problem>::Point,
) -> Result<<A::Src as Problem>::Point, BackFault>
    requires second { B.source second ≡ A.target_of first }
    requires third { C.source third ≡ B.target_of second }
    requires first_whole { A.whole first }
    requires second_whole { B.whole second }
    requires third_whole { C.whole third }
    requires fits { FitsAt C.Dst.stands (C.Dst.fits (C.target_of third)) point.now }
    ensures { (p : Point) → C.Dst.stands point.now p → BackGives A.Src.stands (A.image first (B.image second (C.image third p))) (first_some (C.wide third p) (first_some (B.wide second (C.image third p)) (A.wide first (B.image second (C.image third p))))) result }
{
    Then::join(Then::join(first, second), third).back(alloc, point)
}

/// The values of a file's variables at a point of its rows, by the way back of the three rewritings as one.
///
/// Each variable that is left has its coordinate, and each defined objective what its definition gives. `Wide` names the first
/// defined objective in order of declaration whose fold has a wide call.
pub fn values_at(
    alloc: Global,
    model: &Model,
    annot: &Annot,
    owned: &Owned,
    stated: &Stated,
    point: &RowPoint,
) -> Result<FilePoint, BackFault>
    requires variables { length model.now.variables < 4294967296 }
    requires owned { AreOwned model.now annot.now owned.now }
    requires stated { IsStated model.now annot.now stated.now }
    requires point { length point.now ≡ stated.now.system.base }
    ensures { ValuesGive model.now annot.now stated.now point.now result }
{
    let problem = &stated.problem;
    let subst = Subst {
        source: FileProblem {
            model,
            annot,
            owned,
        },
        target: LeftProblem { problem },
    };
    let share = Share {
        source: LeftProblem { problem },
        target: ConvexProblem { problem },
    };
    let kkt = Kkt {
        source: ConvexProblem { problem },
        target: RowProblem {
            system: &stated.system,
        },
    };
    back_through(alloc, subst, share, kkt, point)
}
