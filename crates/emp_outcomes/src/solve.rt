//! What `solve` answers.
ghost use Rattle.std.specs.Prelude.{◌≡◌, ◌≢◌, ◌<◌, map, length, IfOk, IfErr, Some};
ghost use Rattle.emp_command.specs.Deliveries.{stored_of};
ghost use Rattle.emp_command.specs.Course.{refusal};
ghost use Rattle.emp_command.specs.Requests.{asked_of, word_of};
ghost use Rattle.emp_problem.specs.Class.{AnnotFits, GoalFits};
ghost use Rattle.emp_walk.specs.Founds.{CertGives, FoundGives};
ghost use Rattle.emp_walk.specs.declared.fault.WalkFault.TheVariants as walk_words;
ghost use Rattle.emp_outcomes.specs.Outcomes.{Solves, walk_status, walk_line, cert_stores, CertFits};
ghost use Rattle.emp_outcomes.specs.Steps.{outcome_of, report_of, Delivered, IsReady, StoresFail, ValueRefused};

use crate::reports::{Report, report_of};
use crate::said::Answer;
use crate::stated::{Ready, prepare, refusal_of};
use emp_ast::annot::Annot;
use emp_ast::model::Model;
use emp_cert::cert::{Cert, Found};
use emp_cert_text::write::{WriteFault, write};
use emp_command::delivery::Stored;
use emp_command::words::Request;
use emp_list::memory::NoMemory;
use emp_report::{certificates, classes};
use emp_rows::system::RowSystem;
use emp_subst::fault::FillFault;
use emp_walk::fault::WalkFault;
use emp_walk::walk::{bisearch, walk};
use std::alloc::Global;

/// The search of a row system with so many units of work, by whether it has an objective.
pub fn search(alloc: Global, system: &RowSystem, work: u64) -> Result<Found, WalkFault>
    ensures { CertGives system.now work result }
{
    if system.objective.is_none() {
        walk(alloc, system, work)
    } else {
        bisearch(alloc, system, work)
    }
}

/// The refusal of a search that did not end.
pub fn walk_refusal(fault: WalkFault) -> Result<Answer, NoMemory>
    ensures { IfOk result (λ a. (fault ≢ walk_words.NoMemory) × (outcome_of a ≡ refusal (walk_status fault) (walk_line fault))) }
{
    match fault {
        WalkFault::Wide(node, pivot) => Ok(Answer::Refusal(19, classes::pivot_line(node, pivot))),
        WalkFault::Spent(limit) => Ok(Answer::Refusal(20, classes::spent_line(limit))),
        WalkFault::NoMemory => Err(NoMemory),
    }
}

/// A file of this name with the text of the certificate.
pub fn stored(alloc: Global, name: &str, cert: &Cert) -> Result<Vec<Stored>, WriteFault>
    ensures files { IfOk result (λ v. map stored_of v.items ≡ cert_stores (Some name.now) cert.now) }
    ensures fits { IfOk result (λ v. CertFits (Some name.now) cert.now) }
    ensures fault { IfErr result (StoresFail (Some name.now) cert.now) }
{
    let bytes = write(alloc, cert)?;
    let name = String::from_str(alloc, name)?;
    let mut files = Vec::new(alloc);
    match files.push(Stored { name, bytes }) {
        Ok(()) => Ok(files),
        Err(_) => Err(WriteFault::NoMemory),
    }
}

/// The certificate's file, where the words name one.
fn stores(alloc: Global, request: &Request, cert: &Cert) -> Result<Vec<Stored>, WriteFault>
    ensures files { IfOk result (λ v. map stored_of v.items ≡ cert_stores (word_of request.now.output) cert.now) }
    ensures fits { IfOk result (λ v. CertFits (word_of request.now.output) cert.now) }
    ensures fault { IfErr result (StoresFail (word_of request.now.output) cert.now) }
{
    match request.output {
        Some(name) => stored(alloc, name, cert),
        None => Ok(Vec::new(alloc)),
    }
}

/// What is answered with a report, and with the certificate where the words name a file for it.
fn deliver(
    alloc: Global,
    request: &Request,
    found: &Found,
    report: Report,
) -> Result<Answer, NoMemory>
    ensures { IfOk result (λ a. Delivered (word_of request.now.output) found.now.cert (report_of report) (outcome_of a)) }
{
    match stores(alloc, request, &found.cert) {
        Ok(files) => Ok(Answer::Said(report.status, files, report.text)),
        Err(WriteFault::TooLong) => Ok(Answer::Refusal(24, certificates::long_line())),
        Err(WriteFault::NoMemory) => Err(NoMemory),
    }
}

/// The refusal of a point one of whose values is wide.
pub fn fill_refusal(model: &Model, fault: FillFault) -> Result<Answer, NoMemory>
    ensures { IfOk result (λ a. ValueRefused model.now fault (outcome_of a)) }
{
    match fault {
        FillFault::Wide(variable) => Ok(Answer::Refusal(19, classes::value_line(model, variable))),
        FillFault::NoMemory => Err(NoMemory),
    }
}

/// What is answered where the search has ended.
fn solve_found(
    alloc: Global,
    request: &Request,
    model: &Model,
    annot: &Annot,
    ready: &Ready,
    found: &Found,
) -> Result<Answer, NoMemory>
    requires variables { length model.now.variables < 4294967296 }
    requires ready { IsReady model.now annot.now ready.now }
    requires found { FoundGives ready.now.stated.system request.now.work found.now }
    ensures { IfOk result (λ a. Solves model.now annot.now (asked_of request.now) (outcome_of a)) }
{
    match report_of(alloc, model, annot, ready, found) {
        Ok(report) => deliver(alloc, request, found, report),
        Err(fault) => fill_refusal(model, fault),
    }
}

/// What is answered over a file that has a row system.
fn solve_ready(
    alloc: Global,
    request: &Request,
    model: &Model,
    annot: &Annot,
    ready: &Ready,
) -> Result<Answer, NoMemory>
    requires variables { length model.now.variables < 4294967296 }
    requires ready { IsReady model.now annot.now ready.now }
    ensures { IfOk result (λ a. Solves model.now annot.now (asked_of request.now) (outcome_of a)) }
{
    match search(alloc, &ready.stated.system, request.work) {
        Ok(found) => solve_found(alloc, request, model, annot, ready, &found),
        Err(fault) => walk_refusal(fault),
    }
}

/// What `solve` answers over a model and an annotation of it.
pub fn solve(
    alloc: Global,
    request: &Request,
    model: &Model,
    annot: &Annot,
) -> Result<Answer, NoMemory>
    requires variables { length model.now.variables < 4294967296 }
    requires equations { length model.now.equations < 4294967296 }
    requires blocks { length annot.now.blocks < 4294967296 }
    requires fits { AnnotFits model.now annot.now }
    requires goal { GoalFits model.now }
    ensures { IfOk result (λ a. Solves model.now annot.now (asked_of request.now) (outcome_of a)) }
{
    match prepare(alloc, model, annot) {
        Ok(ready) => solve_ready(alloc, request, model, annot, &ready),
        Err(fault) => refusal_of(model, fault),
    }
}
