//! What is answered over the texts of a request.
ghost use Rattle.std.specs.Prelude.{◌≡◌, ◌≢◌, ◌<◌, ◌≤◌, ◌∷◌, true, false, length, IfOk};
ghost use Rattle.emp_command.specs.Course.{refusal};
ghost use Rattle.emp_command.specs.Requests.{asked_of, word_of};
ghost use Rattle.gms_print.specs.ReadsBack.{HasText};
ghost use Rattle.gms_grammar.specs.declared.fault.ModelFault.TheVariants as model_words;
ghost use Rattle.info_read.specs.declared.fault.InfoFault.TheVariants as info_words;
ghost use Rattle.emp_problem.specs.Class.{AnnotFits, GoalFits};
ghost use Rattle.emp_report.specs.TextLines.{not_yet_line, model_line, info_line};
ghost use Rattle.emp_answers.specs.Answers.{Answers, Does, is_built};
ghost use Rattle.emp_outcomes.specs.Steps.{outcome_of};
ghost use Rattle.emp_answers.specs.Steps.{Prints, OverInfo, AreTexts, RestFits, OutputFits};

use emp_ast::annot::Annot;
use emp_ast::model::Model;
use emp_command::words::{Request, Verb};
use emp_list::memory::NoMemory;
use emp_list::seq::Seq;
use emp_outcomes::certificates::{check, migrate};
use emp_outcomes::said::{Answer, refused};
use emp_outcomes::solve::solve;
use emp_report::texts;
use gms_grammar::fault::ModelFault;
use gms_print::print::print_model;
use gms_read::read::read_model;
use info_print::print::print_info;
use info_read::fault::InfoFault;
use info_read::read::read_info;
use std::alloc::Global;

/// What stands for a verb that is not built.
fn not_yet() -> Answer
    ensures { outcome_of result ≡ refusal 30 not_yet_line }
{
    Answer::Refusal(30, texts::not_yet())
}

/// Whether what is asked is built.
fn is_built(request: &Request) -> bool
    ensures { result ≡ is_built (asked_of request.now) }
{
    match request.verb {
        Verb::Solve | Verb::Check | Verb::Print | Verb::Migrate | Verb::Make => true,
        Verb::Pieces => false,
    }
}

/// The canonical texts of a model and of an annotation of it.
fn print(alloc: Global, model: &Model, annot: &Annot) -> Result<Answer, NoMemory>
    requires { HasText model.now }
    ensures { IfOk result (λ a. Prints model.now annot.now (outcome_of a)) }
{
    let mut text = print_model(alloc, model)?;
    let info = print_info(alloc, model, annot)?;
    text.extend_from_slice(info.as_slice())?;
    Ok(Answer::Said(0, Vec::new(alloc), text))
}

/// What a verb answers over a model, an annotation of it, and the texts behind them.
fn over_model(
    alloc: Global,
    request: &Request,
    model: &Model,
    annot: &Annot,
    rest: &[Seq<u8>],
) -> Result<Answer, NoMemory>
    requires text { HasText model.now }
    requires variables { length model.now.variables < 4294967296 }
    requires equations { length model.now.equations < 4294967296 }
    requires blocks { length annot.now.blocks < 4294967296 }
    requires fits { AnnotFits model.now annot.now }
    requires goal { GoalFits model.now }
    requires built { is_built (asked_of request.now) ≡ true }
    requires rest { RestFits request.now.verb rest.now }
    requires output { OutputFits request.now.verb (word_of request.now.output) }
    ensures { IfOk result (λ a. Does model.now annot.now (asked_of request.now) rest.now (outcome_of a)) }
{
    match request.verb {
        Verb::Print => print(alloc, model, annot),
        Verb::Solve => solve(alloc, request, model, annot),
        Verb::Check => check(alloc, model, annot, rest[0].as_slice()),
        Verb::Migrate => match request.output {
            Some(name) => migrate(alloc, model, annot, rest[0].as_slice(), name),
            None => unreachable!(),
        },
        Verb::Make | Verb::Pieces => unreachable!(),
    }
}

/// The refusal of a text that stands for no model.
fn model_refusal(fault: &ModelFault) -> Result<Answer, NoMemory>
    ensures { IfOk result (λ a. (fault.now ≢ model_words.NoMemory) × (outcome_of a ≡ refusal 14 (model_line fault.now))) }
{
    refused(14, texts::model_line(fault))
}

/// The refusal of a text that stands for no annotation of the model.
fn info_refusal(fault: InfoFault) -> Result<Answer, NoMemory>
    ensures { IfOk result (λ a. (fault ≢ info_words.NoMemory) × (outcome_of a ≡ refusal 15 (info_line fault))) }
{
    refused(15, texts::info_line(fault))
}

/// What is answered over a model, the text of an annotation, and the texts behind it.
#[tactic(auto, using(crate::proofs::Answering::answering))]
fn over_info(
    alloc: Global,
    request: &Request,
    model: &Model,
    info: &[u8],
    rest: &[Seq<u8>],
) -> Result<Answer, NoMemory>
    requires text { HasText model.now }
    requires variables { length model.now.variables < 4294967296 }
    requires equations { length model.now.equations < 4294967296 }
    requires goal { GoalFits model.now }
    requires info { length info.now ≤ 1048576 }
    requires built { is_built (asked_of request.now) ≡ true }
    requires rest { RestFits request.now.verb rest.now }
    requires output { OutputFits request.now.verb (word_of request.now.output) }
    ensures { IfOk result (λ a. OverInfo (asked_of request.now) model.now info.now rest.now (outcome_of a)) }
{
    match read_info(alloc, info, model) {
        Ok(annot) => over_model(alloc, request, model, &annot, rest),
        Err(fault) => info_refusal(fault),
    }
}

/// What is answered over a model text, an annotation text, and the texts behind them.
#[tactic(auto, using(crate::proofs::Answering::answering))]
fn over_texts(
    alloc: Global,
    request: &Request,
    model: &[u8],
    info: &[u8],
    rest: &[Seq<u8>],
) -> Result<Answer, NoMemory>
    requires model { length model.now ≤ 1048576 }
    requires info { length info.now ≤ 1048576 }
    requires built { is_built (asked_of request.now) ≡ true }
    requires rest { RestFits request.now.verb rest.now }
    requires output { OutputFits request.now.verb (word_of request.now.output) }
    ensures { IfOk result (λ a. Answers (asked_of request.now) (model.now ∷ info.now ∷ rest.now) (outcome_of a)) }
{
    match read_model(alloc, model) {
        Ok(model) => over_info(alloc, request, &model, info, rest),
        Err(fault) => model_refusal(&fault),
    }
}

/// What stands for a request that is not built.
fn unbuilt(request: &Request, texts: &[Seq<u8>]) -> Answer
    requires { is_built (asked_of request.now) ≡ false }
    ensures { Answers (asked_of request.now) texts.now (outcome_of result) }
{
    not_yet()
}

/// What is answered over the texts of a request.
///
/// `NoMemory` alone has no cause in `Answers`.
pub fn answer_texts(alloc: Global, request: &Request, texts: &[Seq<u8>]) -> Result<Answer, NoMemory>
    requires texts { is_built (asked_of request.now) ≡ true → AreTexts request.now.verb texts.now }
    requires output { OutputFits request.now.verb (word_of request.now.output) }
    ensures { IfOk result (λ a. Answers (asked_of request.now) texts.now (outcome_of a)) }
{
    if is_built(request) {
        over_texts(
            alloc,
            request,
            texts[0].as_slice(),
            texts[1].as_slice(),
            &texts[2..],
        )
    } else {
        Ok(unbuilt(request, texts))
    }
}
