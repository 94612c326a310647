//! What `make` answers.
ghost use Rattle.std.specs.Prelude.{◌≡◌, IfOk, Ok};
ghost use Rattle.emp_command.specs.declared.words.Verb.TheVariants.{Make};
ghost use Rattle.emp_command.specs.Words.{default_work};
ghost use Rattle.emp_command.specs.Course.{AreFirmsInRange};
ghost use Rattle.emp_command.specs.Requests.{asked_of};
ghost use Rattle.emp_walk.specs.Founds.{FoundGives};
ghost use Rattle.emp_cert.specs.declared.cert.Verdict.TheVariants.{Point};
ghost use Rattle.emp_make.specs.Markets.{IsMarket};
ghost use Rattle.emp_outcomes.specs.Steps.{outcome_of, IsReady};
ghost use Rattle.emp_makes.specs.Makes.{HasValues, SumsUp, Makes};
ghost use Rattle.emp_makes.specs.Making.{SaysSums};

use crate::saves::saves;
use crate::summary::summary;
use crate::sums::{Totals, total};
use emp_ast::annot::Annot;
use emp_ast::model::Model;
use emp_cert::cert::{Found, Verdict};
use emp_command::words::{DEFAULT_WORK, Request};
use emp_list::memory::NoMemory;
use emp_make::fault::MakeFault;
use emp_make::market::make;
use emp_num::frac::Frac;
use emp_outcomes::reports::values;
use emp_outcomes::said::Answer;
use emp_outcomes::solve::{fill_refusal, search, walk_refusal};
use emp_outcomes::stated::{Ready, prepare, refusal_of};
use emp_report::classes;
use std::alloc::Global;

/// The summary, with the files where the words name them.
fn sum_up(
    alloc: Global,
    request: &Request,
    model: &Model,
    annot: &Annot,
    totals: &Totals,
) -> Result<Answer, NoMemory>
    requires firms { AreFirmsInRange request.now.firms }
    requires market { IsMarket request.now.seed request.now.firms model.now annot.now }
    ensures { IfOk result (λ a. SaysSums model.now annot.now (asked_of request.now) totals.now (outcome_of a)) }
{
    let files = saves(alloc, request, model, annot)?;
    let text = summary(alloc, request.firms, totals)?;
    Ok(Answer::Said(0, files, text))
}

/// What is answered with the values of the variables at the equilibrium.
fn over_values(
    alloc: Global,
    request: &Request,
    model: &Model,
    annot: &Annot,
    values: &[Frac],
) -> Result<Answer, NoMemory>
    requires firms { AreFirmsInRange request.now.firms }
    requires market { IsMarket request.now.seed request.now.firms model.now annot.now }
    requires values { HasValues model.now annot.now values.now }
    ensures { IfOk result (λ a. SumsUp model.now annot.now (asked_of request.now) (outcome_of a)) }
{
    match total(values, request.firms as usize) {
        Ok(totals) => sum_up(alloc, request, model, annot, &totals),
        Err(variable) => Ok(Answer::Refusal(19, classes::value_line(model, variable))),
    }
}

/// What is answered with the row point of the equilibrium.
fn over_point(
    alloc: Global,
    request: &Request,
    model: &Model,
    annot: &Annot,
    ready: &Ready,
    found: &Found,
    point: &[Frac],
) -> Result<Answer, NoMemory>
    requires firms { AreFirmsInRange request.now.firms }
    requires market { IsMarket request.now.seed request.now.firms model.now annot.now }
    requires ready { IsReady model.now annot.now ready.now }
    requires found { FoundGives ready.now.stated.system default_work found.now }
    requires point { found.now.cert.verdict ≡ Point point.now }
    ensures { IfOk result (λ a. SumsUp model.now annot.now (asked_of request.now) (outcome_of a)) }
{
    match values(alloc, model, annot, ready, point) {
        Ok(values) => over_values(alloc, request, model, annot, values.as_slice()),
        Err(fault) => fill_refusal(model, fault),
    }
}

/// What is answered where the search has ended: it comes to an equilibrium, since the market has one.
fn over_found(
    alloc: Global,
    request: &Request,
    model: &Model,
    annot: &Annot,
    ready: &Ready,
    found: &Found,
) -> Result<Answer, NoMemory>
    requires firms { AreFirmsInRange request.now.firms }
    requires market { IsMarket request.now.seed request.now.firms model.now annot.now }
    requires ready { IsReady model.now annot.now ready.now }
    requires found { FoundGives ready.now.stated.system default_work found.now }
    ensures { IfOk result (λ a. SumsUp model.now annot.now (asked_of request.now) (outcome_of a)) }
{
    match &found.cert.verdict {
        Verdict::Point(point) => {
            over_point(alloc, request, model, annot, ready, found, point.as_slice())
        }
        Verdict::Missing(_) => unreachable!(),
        Verdict::Best(_, _) => unreachable!(),
        Verdict::Unbounded(_, _) => unreachable!(),
    }
}

/// What is answered over the market's row system.
fn over_ready(
    alloc: Global,
    request: &Request,
    model: &Model,
    annot: &Annot,
    ready: &Ready,
) -> Result<Answer, NoMemory>
    requires firms { AreFirmsInRange request.now.firms }
    requires market { IsMarket request.now.seed request.now.firms model.now annot.now }
    requires ready { IsReady model.now annot.now ready.now }
    ensures { IfOk result (λ a. SumsUp model.now annot.now (asked_of request.now) (outcome_of a)) }
{
    match search(alloc, &ready.stated.system, DEFAULT_WORK) {
        Ok(found) => over_found(alloc, request, model, annot, ready, &found),
        Err(fault) => walk_refusal(fault),
    }
}

/// What is answered over a market.
fn over_market(
    alloc: Global,
    request: &Request,
    model: &Model,
    annot: &Annot,
) -> Result<Answer, NoMemory>
    requires firms { AreFirmsInRange request.now.firms }
    requires market { IsMarket request.now.seed request.now.firms model.now annot.now }
    ensures { IfOk result (λ a. SumsUp model.now annot.now (asked_of request.now) (outcome_of a)) }
{
    match prepare(alloc, model, annot) {
        Ok(ready) => over_ready(alloc, request, model, annot, &ready),
        Err(fault) => refusal_of(model, fault),
    }
}

/// What `make` answers: it makes a market of the seed with so many firms, solves it with the default work, and sums its
/// equilibrium up; where the words name files for them, it stores the canonical texts of the market.
///
/// `NoMemory` alone has no cause in `Makes`.
pub fn answer_market(alloc: Global, request: &Request) -> Result<Answer, NoMemory>
    requires verb { request.now.verb ≡ Make }
    requires firms { AreFirmsInRange request.now.firms }
    ensures { IfOk result (λ a. Makes (asked_of request.now) (outcome_of a)) }
{
    match make(alloc, request.seed, request.firms) {
        Ok((model, annot)) => over_market(alloc, request, &model, &annot),
        Err(MakeFault::Firms) => unreachable!(),
        Err(MakeFault::NoMemory) => Err(NoMemory),
    }
}
