//! The test that each agent is convex.
ghost use Rattle.std.specs.Prelude.{◌≡◌, ◌<◌, ◌≤◌, ◌*◌, length, IfOk, MatchResult};
ghost use Rattle.emp_num.specs.FracSpec.{IsQuotient};
ghost use Rattle.emp_poly.specs.Quads.{square_at};
ghost use Rattle.emp_poly.specs.Gradient.{DoubleIsWide};
ghost use Rattle.emp_share.specs.Share.{variable_at, IsSecond, GoalGives, BlockGives, ShareGives};
ghost use Rattle.emp_share.specs.Steps.{IsDoubleOf, AreDoubles, AreCells, FaultIs};

use emp_ast::tree::VarId;
use emp_expand::coefficients::zero;
use emp_ldl::convex::convex;
use emp_ldl::matrix::Matrix;
use emp_ldl::squares::Curve;
use emp_list::seq::Seq;
use emp_num::exact::Wide;
use emp_num::frac::Frac;
use emp_poly::quad::Quad;
use emp_problem::problem::{AgentProblem, BlockPart, Purpose};
use std::alloc::{AllocError, Global};

/// Why not every agent of a problem is shown to be convex. Blocks are counted from 1, and so are the own variables of a block.
#[derive(Clone, Copy, Debug, PartialEq, Eq)]
pub enum ShareFault {
    /// The agent of this block is not convex in its first so many own variables, and it is in fewer.
    NotConvex(u32, u32),
    /// In the test of this block the row of this own variable forms a wide number, and nothing ended it before.
    WideCurve(u32, u32),
    /// There was no memory for a matrix; a block's number or a matrix' side from 2^32 on counts as such.
    NoMemory,
}

/// The coefficient of a product of two variables, 0 where there is none.
fn product_of(terms: &[(VarId, VarId, Frac)], u: VarId, v: VarId) -> Frac
    ensures { result ≡ square_at terms.now u.at v.at }
{
    for k in 0..terms.len() {
        if terms[k].0.at == u.at && terms[k].1.at == v.at {
            return terms[k].2;
        }
    }
    zero()
}

/// Twice the coefficient of a variable's square.
fn double(quad: &Quad, v: VarId) -> Result<Frac, Wide>
    ensures { MatchResult result (λ d. IsDoubleOf quad.now v.at d) (λ _. DoubleIsWide quad.now v.at) }
{
    let own = product_of(quad.square.as_slice(), v, v);
    Frac::mul(Frac::reduced(2, 1), own)
}

/// The doubles of the own variables before the first one whose double is wide.
fn doubles(alloc: Global, quad: &Quad, own: &[VarId]) -> Result<Seq<Frac>, AllocError>
    ensures { IfOk result (λ list. AreDoubles quad.now own.now list) }
{
    let mut list = Seq::new(alloc);
    for at in 0..own.len() {
        let Ok(d) = double(quad, own[at]) else {
            return Ok(list);
        };
        list.push(d)?;
    }
    Ok(list)
}

/// The second derivative by the own variables at two places.
fn second(quad: &Quad, own: &[VarId], doubles: &[Frac], i: usize, j: usize) -> Frac
    requires doubles { AreDoubles quad.now own.now doubles.now }
    requires row { i < length doubles.now }
    requires column { j < length doubles.now }
    ensures { IsSecond quad.now (variable_at own.now i) (variable_at own.now j) result }
{
    let u = own[i];
    let v = own[j];
    if u.at == v.at {
        return doubles[i];
    }
    if v.at < u.at {
        return product_of(quad.square.as_slice(), v, u);
    }
    product_of(quad.square.as_slice(), u, v)
}

/// The second derivatives by the own variables that have doubles, row by row.
fn cells_of(
    alloc: Global,
    quad: &Quad,
    own: &[VarId],
    doubles: &[Frac],
) -> Result<Seq<Frac>, AllocError>
    requires doubles { AreDoubles quad.now own.now doubles.now }
    requires few { length doubles.now < 4294967296 }
    ensures { IfOk result (λ cells. AreCells quad.now own.now (length doubles.now) cells) }
{
    let side = doubles.len();
    let mut cells = Seq::new(alloc);
    for k in 0..side * side {
        cells.push(second(quad, own, doubles, k / side, k % side))?;
    }
    Ok(cells)
}

/// The fold of the second derivatives of a polynomial by some variables.
fn fold(alloc: Global, quad: &Quad, own: &[VarId]) -> Result<(), Curve>
    ensures { GoalGives quad.now own.now result }
{
    let Ok(list) = doubles(alloc, quad, own) else {
        return Err(Curve::NoMemory);
    };
    let side = list.len();
    if side >= 4294967295 {
        return Err(Curve::NoMemory);
    }
    let Ok(cells) = cells_of(alloc, quad, own, list.as_slice()) else {
        return Err(Curve::NoMemory);
    };
    let matrix = Matrix {
        side: side as u32,
        cells,
    };
    if let Err(end) = convex(alloc, &matrix) {
        return Err(end);
    }
    if side < own.len() {
        return Err(Curve::Wide(side as u32 + 1));
    }
    Ok(())
}

/// The test of one block; a variational inequality passes.
fn test(alloc: Global, part: &BlockPart) -> Result<(), Curve>
    ensures { BlockGives part.now result }
{
    match &part.purpose {
        Purpose::Goal(quad) => fold(alloc, quad, part.own.as_slice()),
        Purpose::Flow(_) => Ok(()),
    }
}

/// The end of a block's test as a fault. The block is counted from 0.
fn fault(at: usize, end: Curve) -> ShareFault
    ensures { FaultIs at end result }
{
    if at >= 4294967295 {
        return ShareFault::NoMemory;
    }
    let number = at as u32 + 1;
    match end {
        Curve::Not(k) => ShareFault::NotConvex(number, k),
        Curve::Wide(k) => ShareFault::WideCurve(number, k),
        Curve::NoMemory => ShareFault::NoMemory,
    }
}

/// Whether each agent is convex in its own variables that are left.
///
/// Block by block the matrix of the second derivatives of the goal by the block's own variables is folded by
/// `emp_ldl::convex`, whose end is the fault: `NotConvex` exactly where it is `Not`, `WideCurve` exactly where it is `Wide` or
/// the double on the diagonal of the next row is wide. `ShareGives` of `specs/Share.antt` says this, and the laws what it means.
pub fn convex_agents(alloc: Global, problem: &AgentProblem) -> Result<(), ShareFault>
    ensures { ShareGives problem.now result }
{
    for at in 0..problem.blocks.len() {
        if let Err(end) = test(alloc, problem.blocks.get(at)) {
            return Err(fault(at, end));
        }
    }
    Ok(())
}
