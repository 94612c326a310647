//! The search of a row system.
ghost use Rattle.std.specs.Prelude.{◌≡◌, ◌≤◌, length, IfOk};
ghost use Rattle.emp_face.specs.Budgets.{units_left};
ghost use Rattle.emp_cert.specs.Certs.{VerdictFits};
ghost use Rattle.emp_cert.specs.Nodes.{AreTrees};
ghost use Rattle.emp_search.specs.Search.{closed};
ghost use Rattle.emp_walk.specs.Courses.{CourseFits, EndFits, ending_of, state_of};
ghost use Rattle.emp_walk.specs.declared.course.End.TheVariants.{Point, Ray};
ghost use Rattle.emp_walk.specs.Runs.{EndWhole, RunGives};
ghost use Rattle.emp_walk.specs.Searches.{SearchFromGives, SearchGives, VerdictGives};

use crate::course::{Course, End};
use crate::fault::WalkFault;
use crate::kept::{FaceSteps, Steps};
use emp_cert::cert::Verdict;
use emp_cert::tree::Tree;
use emp_decide::point::{point_of, step_of};
use emp_face::budget::Budget;
use emp_list::memory::NoMemory;
use emp_list::seq::Seq;
use emp_rows::system::RowSystem;
use std::alloc::Global;

/// What a search found, and the units of work and the nodes that it took.
#[derive(Drop)]
pub struct Answer {
    pub verdict: Verdict,
    pub work: u64,
    pub nodes: u64,
}

/// Opens nodes until the search ends.
fn run<S: Steps>(
    course: &mut Course,
    steps: &mut S,
    alloc: Global,
    system: &RowSystem,
) -> Result<End, WalkFault>
    requires { CourseFits system.now course.old }
    ensures { RunGives system.now course.old course.new result }
{
    loop {
        match course.turn(steps, alloc, system) {
            Ok(Some(end)) => return Ok(end),
            Ok(None) => {}
            Err(fault) => return Err(fault),
        }
    }
}

/// The verdict where no node is left. What was written is taken out of the course.
fn closed(course: &mut Course, alloc: Global) -> Result<Verdict, NoMemory>
    requires { AreTrees 1 course.old.written }
    ensures { IfOk result (VerdictGives (closed (state_of course.old)) (state_of course.old)) }
{
    let mut nodes = Seq::new(alloc);
    std::mem::swap(&mut course.written, &mut nodes);
    let tree = Tree { nodes };
    match &course.best {
        Some(best) => Ok(Verdict::Best(point_of(alloc, best.dictionary())?, tree)),
        None => Ok(Verdict::Missing(tree)),
    }
}

/// The verdict where the node's point is a row point.
fn at_point(course: &Course, alloc: Global) -> Result<Verdict, NoMemory>
    ensures { IfOk result (VerdictGives (ending_of course.now Point) (state_of course.now)) }
{
    Ok(Verdict::Point(point_of(alloc, course.dict.dictionary())?))
}

/// The verdict where the objective falls without end along a column.
fn along(course: &Course, alloc: Global, column: usize, up: bool) -> Result<Verdict, NoMemory>
    requires { EndFits course.now (Ray column up) }
    ensures { IfOk result (VerdictGives (ending_of course.now (Ray column up)) (state_of course.now)) }
{
    let point = point_of(alloc, course.dict.dictionary())?;
    let step = step_of(alloc, course.dict.dictionary(), column, up)?;
    Ok(Verdict::Unbounded(point, step))
}

/// The verdict of a search that ends so.
fn verdict(course: &mut Course, alloc: Global, end: End) -> Result<Verdict, NoMemory>
    requires whole { EndWhole course.old end }
    requires fits { EndFits course.old end }
    ensures { IfOk result (VerdictGives (ending_of course.old end) (state_of course.old)) }
{
    match end {
        End::Closed => closed(course, alloc),
        End::Point => at_point(course, alloc),
        End::Ray(column, up) => along(course, alloc, column, up),
    }
}

/// The same as `search_from`, by the steps that are given. It moves dictionaries by them alone.
pub fn search_on<S: Steps>(
    steps: &mut S,
    alloc: Global,
    system: &RowSystem,
    budget: Budget,
    nodes: u64,
) -> Result<Answer, WalkFault>
    requires { nodes ≤ budget.used }
    ensures search { SearchFromGives system.now budget.limit (units_left budget) nodes result }
    ensures fits { IfOk result (λ a. VerdictFits system.now.base (length system.now.quantities) (length system.now.pairs) a.verdict) }
{
    let Ok(mut course) = Course::start(alloc, system, budget, nodes) else {
        return Err(WalkFault::NoMemory);
    };
    let end = match run(&mut course, steps, alloc, system) {
        Ok(end) => end,
        Err(fault) => return Err(fault),
    };
    let (work, nodes) = (course.budget.used, course.nodes);
    match verdict(&mut course, alloc, end) {
        Ok(verdict) => Ok(Answer {
            verdict,
            work,
            nodes,
        }),
        Err(NoMemory) => Err(WalkFault::NoMemory),
    }
}

/// The same as `search`, by the steps that are given. It moves dictionaries by them alone.
pub fn search_by<S: Steps>(
    steps: &mut S,
    alloc: Global,
    system: &RowSystem,
    work: u64,
) -> Result<Answer, WalkFault>
    ensures search { SearchGives system.now work result }
    ensures fits { IfOk result (λ a. VerdictFits system.now.base (length system.now.quantities) (length system.now.pairs) a.verdict) }
{
    search_on(steps, alloc, system, Budget::new(work), 0)
}

/// Searches a row system as `search` does, on a budget of which others may have taken units, after so many nodes. The answer's
/// work and nodes, and the numbers of a fault, count those of the others too.
pub fn search_from(
    alloc: Global,
    system: &RowSystem,
    budget: Budget,
    nodes: u64,
) -> Result<Answer, WalkFault>
    requires { nodes ≤ budget.used }
    ensures search { SearchFromGives system.now budget.limit (units_left budget) nodes result }
    ensures fits { IfOk result (λ a. VerdictFits system.now.base (length system.now.quantities) (length system.now.pairs) a.verdict) }
{
    search_on(&mut FaceSteps, alloc, system, budget, nodes)
}

/// Searches a row system by branching on its pairs, with so many units of work. A node takes one unit when it is opened, and each pivot one.
///
/// Without an objective the verdict is the first point that is found, or a tree that leaves none. With one it is the best point with a tree that bounds
/// the objective, or a ray, or a tree that leaves no point. Each outcome is exactly that of `search_of` in the layer below, as `SearchGives` of
/// `specs/Searches.antt` says; what it shows of the system is a law there.
///
/// `Wide` exactly where a pivot of the search forms a number with absolute value 2^126 or more, `Spent` exactly where it asks for more units. Want of
/// memory is free.
pub fn search(alloc: Global, system: &RowSystem, work: u64) -> Result<Answer, WalkFault>
    ensures search { SearchGives system.now work result }
    ensures fits { IfOk result (λ a. VerdictFits system.now.base (length system.now.quantities) (length system.now.pairs) a.verdict) }
{
    search_by(&mut FaceSteps, alloc, system, work)
}
