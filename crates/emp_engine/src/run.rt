//! The top call.
ghost use Rattle.std.specs.Prelude.{◌≡◌, ◌≢◌, ◌⊎◌, ℕ, List, map, string_bytes, true, MatchOption};
ghost use Rattle.emp_command.specs.declared.words.Verb.TheVariants.{Make};
ghost use Rattle.emp_desk.specs.Desk.{Told, Rose, NoneFalls, output};
ghost use Rattle.emp_command.specs.Words.{IsPlain, Asks};
ghost use Rattle.emp_command.specs.Course.{Runs, Delivers, IsInRange, refusal as refused};
ghost use Rattle.emp_command.specs.Refusals.{line_of, status_of};
ghost use Rattle.emp_command.specs.Requests.{asked_of};
ghost use Rattle.emp_outcomes.specs.Steps.{outcome_of};
ghost use Rattle.emp_engine.specs.Run.{IsAnswer, IsSolve, IsPrint, IsCheck, IsMigrate, IsMake, SaysPoint, ShowsNone, SaysRay, ShowsAccepted, ShowsMigrated, SaysCanonical, ShowsModelFault, ShowsInfoFault, ShowsOwnFault, ShowsNotConvex, ShowsMarket, is_market_status, ShowsCause, is_caused, Completes, IsComplete, MakesWhole, DoesWhole, DecidesWhole, TestsWhole, MovesWhole, OwnWhole, is_refusal, SaysRefusal, KeepsOthers, SomeLoadRose, SomeWriteRose, NothingRose, IsOutside, IsStatus};
ghost use Rattle.emp_engine.specs.Ends.{Ends, SayCause, IsOutOfRange, IsRequest};

use emp_answers::answer::answer_texts;
use emp_command::delivery::{deliver, refuse};
use emp_command::files::load_all;
use emp_command::refusal::Refusal;
use emp_command::words::{Request, Verb, asked};
use emp_desk::desk::Desk;
use emp_list::memory::NoMemory;
use emp_makes::answer::answer_market;
use emp_outcomes::said::Answer;
use std::alloc::Global;

/// Why a number of the request is out of its range, where one is.
fn out_of_range(request: &Request) -> Option<Refusal>
    ensures { MatchOption result (IsInRange (asked_of request.now)) (IsOutOfRange (asked_of request.now)) }
{
    if request.work < 1 || request.work > 1_000_000_000 {
        return Some(Refusal::BadWork);
    }
    match request.verb {
        Verb::Make => {
            if request.firms < 2 || request.firms > 40 {
                Some(Refusal::BadFirms)
            } else {
                None
            }
        }
        Verb::Solve | Verb::Check | Verb::Print | Verb::Migrate | Verb::Pieces => None,
    }
}

/// Stores and says an answer over the texts.
fn say<D: Desk>(answer: &Answer, desk: &mut D) -> u8
    ensures told { Told (λ before after. Delivers (outcome_of answer.now) (D.faults desk.old) (D.faults desk.new) before after result) (D.tells desk.old) (D.tells desk.new) }
    ensures cause { SayCause (outcome_of answer.now) result (D.faults desk.old) (D.faults desk.new) }
    ensures none_falls { NoneFalls (D.faults desk.old) (D.faults desk.new) }
{
    match answer {
        Answer::Said(status, files, text) => {
            deliver(files.as_slice(), text.as_slice(), *status, desk)
        }
        Answer::Refusal(status, line) => deliver(&[], line.as_slice(), *status, desk),
    }
}

/// Says the line of a refusal.
fn say_refusal<D: Desk>(refusal: Refusal, desk: &mut D) -> u8
    ensures told { Told (λ before after. Delivers (refused (status_of refusal) (line_of refusal)) (D.faults desk.old) (D.faults desk.new) before after result) (D.tells desk.old) (D.tells desk.new) }
    ensures cause { SayCause (refused (status_of refusal) (line_of refusal)) result (D.faults desk.old) (D.faults desk.new) }
    ensures none_falls { NoneFalls (D.faults desk.old) (D.faults desk.new) }
{
    deliver(&[], refusal.line().as_slice(), refusal.status(), desk)
}

/// Loads the files of the request, answers over their texts, and says the answer.
fn over_files<D: Desk>(alloc: Global, request: &Request, desk: &mut D) -> u8
    requires verb { request.now.verb ≢ Make }
    requires range { IsInRange (asked_of request.now) }
    requires plain { IsRequest (asked_of request.now) }
    ensures { (words : List (List ℕ)) → Asks words (asked_of request.now) → Ends words (D.faults desk.old) (D.faults desk.new) (D.tells desk.old) (D.tells desk.new) result }
{
    match load_all(alloc, request.files, desk) {
        Ok(texts) => match answer_texts(alloc, request, texts.as_slice()) {
            Ok(answer) => say(&answer, desk),
            Err(NoMemory) => say_refusal(Refusal::NoMemory, desk),
        },
        Err(refusal) => say_refusal(refusal, desk),
    }
}

/// Answers with a market, and says the answer.
fn over_market<D: Desk>(alloc: Global, request: &Request, desk: &mut D) -> u8
    requires verb { request.now.verb ≡ Make }
    requires range { IsInRange (asked_of request.now) }
    ensures { (words : List (List ℕ)) → Asks words (asked_of request.now) → Ends words (D.faults desk.old) (D.faults desk.new) (D.tells desk.old) (D.tells desk.new) result }
{
    match answer_market(alloc, request) {
        Ok(answer) => say(&answer, desk),
        Err(NoMemory) => say_refusal(Refusal::NoMemory, desk),
    }
}

/// Does what a request with numbers in their ranges asks.
fn carry_out<D: Desk>(alloc: Global, request: &Request, desk: &mut D) -> u8
    requires range { IsInRange (asked_of request.now) }
    requires plain { IsRequest (asked_of request.now) }
    ensures { (words : List (List ℕ)) → Asks words (asked_of request.now) → Ends words (D.faults desk.old) (D.faults desk.new) (D.tells desk.old) (D.tells desk.new) result }
{
    match request.verb {
        Verb::Make => over_market(alloc, request, desk),
        Verb::Solve | Verb::Check | Verb::Print | Verb::Migrate | Verb::Pieces => {
            over_files(alloc, request, desk)
        }
    }
}

/// Carries out the request, unless one of its numbers is out of range.
fn fulfil<D: Desk>(alloc: Global, request: &Request, desk: &mut D) -> u8
    requires { IsRequest (asked_of request.now) }
    ensures ends { (words : List (List ℕ)) → Asks words (asked_of request.now) → Ends words (D.faults desk.old) (D.faults desk.new) (D.tells desk.old) (D.tells desk.new) result }
    ensures range { (IsInRange (asked_of request.now) → ⊥) → (result ≡ 12) ⊎ (result ≡ 24) }
{
    match out_of_range(request) {
        Some(refusal) => refuse(refusal, desk),
        None => carry_out(alloc, request, desk),
    }
}

/// Fulfils what the words ask, or says that they are not plain.
fn obey<D: Desk>(alloc: Global, words: &[String], desk: &mut D) -> u8
    ensures ends { Ends (map string_bytes words.now) (D.faults desk.old) (D.faults desk.new) (D.tells desk.old) (D.tells desk.new) result }
    ensures words { (IsPlain (map string_bytes words.now) → ⊥) → (result ≡ 10) ⊎ (result ≡ 12) }
    ensures range { IsOutside (map string_bytes words.now) → (result ≡ 12) ⊎ (result ≡ 24) }
{
    match asked(words) {
        Some(request) => fulfil(alloc, &request, desk),
        None => refuse(Refusal::BadWords, desk),
    }
}

/// Does what the words ask, over a desk, and answers the exit status.
///
/// `solve MODEL INFO` decides what the two files state, stores a certificate where `--cert` names a file, and says the report;
/// `check MODEL INFO CERT` tests a certificate, `migrate MODEL INFO CERT OUT` stores it in version 2, `print MODEL INFO` says the
/// canonical texts, and `make SEED FIRMS` solves a generated market, stores its texts where `--save` names files, and sums it up. The
/// statuses and the lines that go with them stand in `docs/FORMATS.md`; the words of the clauses in
/// `specs/Run.antt` and `docs/DEFINITIONS.md`. After a refusal only its line was said, or a prefix of it where the say failed, and no file
/// has changed, but that a store that failed leaves a prefix in its file.
pub fn run<D: Desk>(alloc: Global, words: &[String], desk: &mut D) -> u8
    ensures course { Told (λ before after. Runs IsAnswer (map string_bytes words.now) (D.faults desk.old) (D.faults desk.new) before after result) (D.tells desk.old) (D.tells desk.new) }
    ensures solved { IsSolve (map string_bytes words.now) → result ≡ 0 → Told (SaysPoint (map string_bytes words.now)) (D.tells desk.old) (D.tells desk.new) }
    ensures none { result ≡ 1 → Told (ShowsNone (map string_bytes words.now)) (D.tells desk.old) (D.tells desk.new) }
    ensures ray { result ≡ 2 → Told (SaysRay (map string_bytes words.now)) (D.tells desk.old) (D.tells desk.new) }
    ensures accepted { IsCheck (map string_bytes words.now) → result ≡ 0 → Told (ShowsAccepted (map string_bytes words.now)) (D.tells desk.old) (D.tells desk.new) }
    ensures migrated { IsMigrate (map string_bytes words.now) → result ≡ 0 → Told (ShowsMigrated (map string_bytes words.now)) (D.tells desk.old) (D.tells desk.new) }
    ensures canonical { IsPrint (map string_bytes words.now) → result ≡ 0 → Told (SaysCanonical (map string_bytes words.now)) (D.tells desk.old) (D.tells desk.new) }
    ensures model_fault { result ≡ 14 → Told (ShowsModelFault (map string_bytes words.now)) (D.tells desk.old) (D.tells desk.new) }
    ensures info_fault { result ≡ 15 → Told (ShowsInfoFault (map string_bytes words.now)) (D.tells desk.old) (D.tells desk.new) }
    ensures own_fault { result ≡ 16 → Told (ShowsOwnFault (map string_bytes words.now)) (D.tells desk.old) (D.tells desk.new) }
    ensures convex { result ≡ 18 → Told (ShowsNotConvex (map string_bytes words.now)) (D.tells desk.old) (D.tells desk.new) }
    ensures market { IsMake (map string_bytes words.now) → result ≡ 0 → Told (ShowsMarket (map string_bytes words.now)) (D.tells desk.old) (D.tells desk.new) }
    ensures market_ends { IsMake (map string_bytes words.now) → is_market_status result ≡ true }
    ensures cause { is_caused result ≡ true → Told (ShowsCause result (map string_bytes words.now)) (D.tells desk.old) (D.tells desk.new) }
    ensures refused { is_refusal result ≡ true → Told (SaysRefusal result (map string_bytes words.now)) (D.tells desk.old) (D.tells desk.new) }
    ensures unread { result ≡ 11 → SomeLoadRose (map string_bytes words.now) (D.faults desk.old) (D.faults desk.new) }
    ensures unwritten { result ≡ 12 → SomeWriteRose (map string_bytes words.now) (D.faults desk.old) (D.faults desk.new) }
    ensures words { (IsPlain (map string_bytes words.now) → ⊥) → (result ≡ 10) ⊎ (result ≡ 12) }
    ensures plain { result ≡ 10 → IsPlain (map string_bytes words.now) → ⊥ }
    ensures range { IsOutside (map string_bytes words.now) → (result ≡ 12) ⊎ (result ≡ 24) }
    ensures files { Told (KeepsOthers (map string_bytes words.now)) (D.tells desk.old) (D.tells desk.new) }
    ensures answers { IsStatus result }
    ensures ended { Told (Completes (map string_bytes words.now) result) (D.tells desk.old) (D.tells desk.new) }
    ensures tested { Told (TestsWhole (map string_bytes words.now) result) (D.tells desk.old) (D.tells desk.new) }
    ensures moved { Told (MovesWhole (map string_bytes words.now) result) (D.tells desk.old) (D.tells desk.new) }
    ensures whole { NothingRose (map string_bytes words.now) (D.faults desk.old) (D.faults desk.new) → Told (IsComplete (map string_bytes words.now) result) (D.tells desk.old) (D.tells desk.new) }
    ensures made { NothingRose (map string_bytes words.now) (D.faults desk.old) (D.faults desk.new) → Told (MakesWhole (map string_bytes words.now) result) (D.tells desk.old) (D.tells desk.new) }
    ensures done { NothingRose (map string_bytes words.now) (D.faults desk.old) (D.faults desk.new) → Told (DoesWhole (map string_bytes words.now) result) (D.tells desk.old) (D.tells desk.new) }
    ensures decided { NothingRose (map string_bytes words.now) (D.faults desk.old) (D.faults desk.new) → Told (DecidesWhole (map string_bytes words.now) result) (D.tells desk.old) (D.tells desk.new) }
    ensures own { NothingRose (map string_bytes words.now) (D.faults desk.old) (D.faults desk.new) → Told (OwnWhole (map string_bytes words.now) result) (D.tells desk.old) (D.tells desk.new) }
    ensures complete { NothingRose (map string_bytes words.now) (D.faults desk.old) (D.faults desk.new) → (result ≢ 11) × (result ≢ 12) }
{
    obey(alloc, words, desk)
}
