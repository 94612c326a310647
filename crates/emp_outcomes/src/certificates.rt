//! What `check` and `migrate` answer.
ghost use Rattle.std.specs.Prelude.{◌≡◌, ◌≢◌, ◌<◌, ◌≤◌, List, ℕ, length, map, IfOk};
ghost use Rattle.emp_command.specs.Course.{refusal};
ghost use Rattle.emp_cert_text.specs.declared.read.CertFault.TheVariants as cert_words;
ghost use Rattle.emp_report.specs.CertLines.{cert_line};
ghost use Rattle.emp_command.specs.Requests.{asked_of};
ghost use Rattle.emp_problem.specs.Class.{AnnotFits, GoalFits};
ghost use Rattle.emp_cert_text.specs.Text.{cert_text};
ghost use Rattle.emp_check.specs.Checks.{SizesAre};
ghost use Rattle.emp_command.specs.Deliveries.{stored_of};
ghost use Rattle.emp_outcomes.specs.Outcomes.{Checks, Migrates};
ghost use Rattle.emp_outcomes.specs.Steps.{outcome_of, IsReady, AcceptGives, StoredAnew};

use crate::said::{Answer, refused};
use crate::solve::stored;
use crate::stated::{Ready, prepare, refusal_of};
use emp_ast::annot::Annot;
use emp_ast::model::Model;
use emp_cert::cert::Cert;
use emp_cert_text::read::{CertFault, read};
use emp_cert_text::upgrade::upgrade;
use emp_cert_text::write::WriteFault;
use emp_check::check::check as tested;
use emp_check::outcome::Checked;
use emp_command::delivery::Stored;
use emp_command::line::Line;
use emp_list::memory::NoMemory;
use emp_report::certificates;
use std::alloc::Global;

/// An accepted certificate of a file, or what is answered where there is none.
#[derive(Drop)]
pub enum Tried {
    Accepted(Ready, Cert),
    Refused(Answer),
}

/// The certificate of the file's rows, where it is accepted.
fn test(model: &Model, annot: &Annot, ready: Ready, cert: Cert) -> Tried
    requires ready { IsReady model.now annot.now ready }
    ensures { (ct : List ℕ) → ct ≡ cert_text cert → AcceptGives model.now annot.now ct result }
{
    match tested(&ready.stated.system, &cert) {
        Checked::Accepted => Tried::Accepted(ready, cert),
        Checked::Rejected(node, why) => {
            Tried::Refused(Answer::Refusal(23, certificates::rejected_line(node, why)))
        }
        Checked::Wide(node) => Tried::Refused(Answer::Refusal(19, certificates::sum_line(node))),
    }
}

/// The refusal of a text that is no certificate's.
fn text_refusal(fault: CertFault) -> Result<Answer, NoMemory>
    ensures { IfOk result (λ a. (fault ≢ cert_words.NoMemory) × (outcome_of a ≡ refusal 22 (cert_line fault))) }
{
    refused(22, certificates::cert_line(fault))
}

/// The certificate of this text, where it is one of the file's rows and is accepted.
fn of_text(
    alloc: Global,
    model: &Model,
    annot: &Annot,
    ready: Ready,
    text: &[u8],
) -> Result<Tried, NoMemory>
    requires ready { IsReady model.now annot.now ready }
    requires text { length text.now ≤ 16777216 }
    ensures { IfOk result (AcceptGives model.now annot.now text.now) }
{
    match read(alloc, text) {
        Ok(cert) => Ok(test(model, annot, ready, cert)),
        Err(fault) => {
            let answer = text_refusal(fault)?;
            Ok(Tried::Refused(answer))
        }
    }
}

/// The accepted certificate of this text.
fn certificate_of(
    alloc: Global,
    model: &Model,
    annot: &Annot,
    text: &[u8],
) -> Result<Tried, NoMemory>
    requires variables { length model.now.variables < 4294967296 }
    requires equations { length model.now.equations < 4294967296 }
    requires blocks { length annot.now.blocks < 4294967296 }
    requires fits { AnnotFits model.now annot.now }
    requires goal { GoalFits model.now }
    requires text { length text.now ≤ 16777216 }
    ensures { IfOk result (AcceptGives model.now annot.now text.now) }
{
    match prepare(alloc, model, annot) {
        Ok(ready) => of_text(alloc, model, annot, ready, text),
        Err(fault) => {
            let answer = refusal_of(model, fault)?;
            Ok(Tried::Refused(answer))
        }
    }
}

/// A line that is said with status 0, and files that are stored.
fn said(alloc: Global, files: Vec<Stored>, line: &Line) -> Result<Answer, NoMemory>
    ensures { IfOk result (λ a. outcome_of a ≡ record { status = 0; stores = map stored_of files.items; says = line.now.items }) }
{
    let mut text = Vec::new(alloc);
    text.extend_from_slice(line.as_slice())?;
    Ok(Answer::Said(0, files, text))
}

/// What `check` answers over a model, an annotation of it and the text of a certificate.
pub fn check(alloc: Global, model: &Model, annot: &Annot, text: &[u8]) -> Result<Answer, NoMemory>
    requires variables { length model.now.variables < 4294967296 }
    requires equations { length model.now.equations < 4294967296 }
    requires blocks { length annot.now.blocks < 4294967296 }
    requires fits { AnnotFits model.now annot.now }
    requires goal { GoalFits model.now }
    requires text { length text.now ≤ 16777216 }
    ensures { IfOk result (λ a. Checks model.now annot.now text.now (outcome_of a)) }
{
    match certificate_of(alloc, model, annot, text)? {
        Tried::Accepted(_, cert) => said(
            alloc,
            Vec::new(alloc),
            &certificates::accepted_line(&cert.verdict),
        ),
        Tried::Refused(answer) => Ok(answer),
    }
}

/// What is answered where the certificate is accepted: it is stored with the pairs named.
fn stored_anew(alloc: Global, ready: &Ready, cert: Cert, name: &str) -> Result<Answer, NoMemory>
    requires sizes { SizesAre ready.now.stated.system cert }
    ensures { IfOk result (λ a. StoredAnew ready.now.stated.system cert name.now (outcome_of a)) }
{
    let cert = upgrade(alloc, cert, ready.stated.system.pairs.as_slice())?;
    match stored(alloc, name, &cert) {
        Ok(files) => said(alloc, files, &certificates::migrated_line(&cert.verdict)),
        Err(WriteFault::TooLong) => Ok(Answer::Refusal(24, certificates::long_line())),
        Err(WriteFault::NoMemory) => Err(NoMemory),
    }
}

/// What `migrate` answers over a model, an annotation of it and the text of a certificate, which is stored under the name.
pub fn migrate(
    alloc: Global,
    model: &Model,
    annot: &Annot,
    text: &[u8],
    name: &str,
) -> Result<Answer, NoMemory>
    requires variables { length model.now.variables < 4294967296 }
    requires equations { length model.now.equations < 4294967296 }
    requires blocks { length annot.now.blocks < 4294967296 }
    requires fits { AnnotFits model.now annot.now }
    requires goal { GoalFits model.now }
    requires text { length text.now ≤ 16777216 }
    ensures { IfOk result (λ a. Migrates model.now annot.now text.now name.now (outcome_of a)) }
{
    match certificate_of(alloc, model, annot, text)? {
        Tried::Accepted(ready, cert) => stored_anew(alloc, &ready, cert, name),
        Tried::Refused(answer) => Ok(answer),
    }
}
