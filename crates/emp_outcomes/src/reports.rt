//! The reports of what was found.
ghost use Rattle.std.specs.Prelude.{◌≡◌, ◌<◌, length, IfOk, IfErr};
ghost use Rattle.emp_ast.specs.Names.{variable_names};
ghost use Rattle.emp_subst.specs.declared.fault.FillFault.TheVariants.{NoMemory as NoMemoryLeft};
ghost use Rattle.emp_subst.specs.Fill.{spread};
ghost use Rattle.emp_report.specs.Report.{equilibrium_report, best_report, unbounded_report, missing_report};
ghost use Rattle.emp_outcomes.specs.Outcomes.{Fills};
ghost use Rattle.emp_outcomes.specs.Steps.{IsReady, PointReportGives, ReportGives, report_of};

use crate::stated::Ready;
use emp_ast::annot::Annot;
use emp_ast::model::Model;
use emp_ast::tree::VarId;
use emp_cert::cert::{Found, Verdict};
use emp_cert::tree::Tree;
use emp_chain::chain::values_at;
use emp_list::seq::Seq;
use emp_num::frac::Frac;
use emp_reform::fault::BackFault;
use emp_report::report;
use emp_rows::point::RowPoint;
use emp_subst::fault::FillFault;
use emp_subst::fill::spread;
use std::alloc::Global;

/// A status and a report.
#[derive(Drop)]
pub struct Report {
    pub status: u8,
    pub text: Vec<u8>,
}

/// The values of the model's variables at a row point, by the way back of the rewritings from the file to its rows.
pub fn values(
    alloc: Global,
    model: &Model,
    annot: &Annot,
    ready: &Ready,
    point: &[Frac],
) -> Result<Seq<Frac>, FillFault>
    requires variables { length model.now.variables < 4294967296 }
    requires ready { IsReady model.now annot.now ready.now }
    requires point { length point.now ≡ ready.now.stated.system.base }
    ensures { Fills model.now annot.now ready.now.stated point.now result }
{
    let point = RowPoint::of(Seq::of_slice(alloc, point)?);
    match values_at(alloc, model, annot, &ready.owned, &ready.stated, &point) {
        Ok(found) => Ok(found.values),
        Err(BackFault::Wide(at)) => Err(FillFault::Wide(VarId { at })),
        Err(BackFault::NoMemory) => Err(FillFault::NoMemory),
    }
}

/// The report of an equilibrium.
fn equilibrium_of(
    alloc: Global,
    model: &Model,
    annot: &Annot,
    ready: &Ready,
    work: u64,
    point: &[Frac],
) -> Result<Report, FillFault>
    requires variables { length model.now.variables < 4294967296 }
    requires ready { IsReady model.now annot.now ready.now }
    requires point { length point.now ≡ ready.now.stated.system.base }
    ensures { PointReportGives model.now annot.now ready.now.stated point.now 0 (λ vs. equilibrium_report work (variable_names model.now) vs) result }
{
    let values = values(alloc, model, annot, ready, point)?;
    let Ok(text) = report::equilibrium(alloc, work, model, values.as_slice()) else {
        return Err(FillFault::NoMemory);
    };
    Ok(Report { status: 0, text })
}

/// The report of a best point.
fn best_of(
    alloc: Global,
    model: &Model,
    annot: &Annot,
    ready: &Ready,
    work: u64,
    point: &[Frac],
) -> Result<Report, FillFault>
    requires variables { length model.now.variables < 4294967296 }
    requires ready { IsReady model.now annot.now ready.now }
    requires point { length point.now ≡ ready.now.stated.system.base }
    ensures { PointReportGives model.now annot.now ready.now.stated point.now 0 (λ vs. best_report work (variable_names model.now) vs) result }
{
    let values = values(alloc, model, annot, ready, point)?;
    let Ok(text) = report::best(alloc, work, model, values.as_slice()) else {
        return Err(FillFault::NoMemory);
    };
    Ok(Report { status: 0, text })
}

/// The report of a ray: a defined objective has no step of its own.
fn ray_of(
    alloc: Global,
    model: &Model,
    annot: &Annot,
    ready: &Ready,
    work: u64,
    point: &[Frac],
    step: &[Frac],
) -> Result<Report, FillFault>
    requires variables { length model.now.variables < 4294967296 }
    requires ready { IsReady model.now annot.now ready.now }
    requires point { length point.now ≡ ready.now.stated.system.base }
    ensures { PointReportGives model.now annot.now ready.now.stated point.now 2 (λ vs. unbounded_report work (variable_names model.now) vs (spread model.now annot.now step.now)) result }
{
    let values = values(alloc, model, annot, ready, point)?;
    let Ok(steps) = spread(alloc, model, annot, &ready.owned, step) else {
        return Err(FillFault::NoMemory);
    };
    let Ok(text) = report::unbounded(alloc, work, model, values.as_slice(), steps.as_slice()) else {
        return Err(FillFault::NoMemory);
    };
    Ok(Report { status: 2, text })
}

/// The report that there is none.
fn missing_of(
    alloc: Global,
    bilevel: bool,
    work: u64,
    nodes: u64,
    tree: &Tree,
) -> Result<Report, FillFault>
    ensures report { IfOk result (λ t. report_of t ≡ (1, missing_report bilevel work nodes tree.now.nodes)) }
    ensures fault { IfErr result (λ f. f ≡ NoMemoryLeft) }
{
    let Ok(text) = report::missing(alloc, bilevel, work, nodes, tree.nodes.as_slice()) else {
        return Err(FillFault::NoMemory);
    };
    Ok(Report { status: 1, text })
}

/// The status and the report of what the search found.
///
/// `Wide` names a defined objective whose value at the point is wide.
pub fn report_of(
    alloc: Global,
    model: &Model,
    annot: &Annot,
    ready: &Ready,
    found: &Found,
) -> Result<Report, FillFault>
    requires variables { length model.now.variables < 4294967296 }
    requires ready { IsReady model.now annot.now ready.now }
    requires base { found.now.cert.base ≡ ready.now.stated.system.base }
    ensures { ReportGives model.now annot.now ready.now.stated found.now result }
{
    let work = found.work;
    match &found.cert.verdict {
        Verdict::Point(point) => {
            equilibrium_of(alloc, model, annot, ready, work, point.as_slice())
        }
        Verdict::Missing(tree) => missing_of(alloc, annot.bilevel, work, found.nodes, tree),
        Verdict::Best(point, _) => best_of(alloc, model, annot, ready, work, point.as_slice()),
        Verdict::Unbounded(point, step) => ray_of(
            alloc,
            model,
            annot,
            ready,
            work,
            point.as_slice(),
            step.as_slice(),
        ),
    }
}
