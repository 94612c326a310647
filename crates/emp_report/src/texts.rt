//! The lines of texts that stand for nothing, and of broken rules of ownership.
ghost use Rattle.std.specs.Prelude.{◌≡◌, ◌≢◌, ◌≤◌, codes, length, MatchOption};
ghost use Rattle.emp_report.specs.TextLines.{lex_line, model_line, info_line, own_line, not_yet_line, own_start, named_line};
ghost use Rattle.gms_grammar.specs.declared.fault.ModelFault.TheVariants as model_words;
ghost use Rattle.info_read.specs.declared.fault.InfoFault.TheVariants as info_words;
ghost use Rattle.emp_owner.specs.declared.owned.OwnFault.TheVariants as own_words;

use crate::parts::{equation_name, named, placed, variable_name};
use emp_ast::model::Model;
use emp_command::line::{Line, plain};
use emp_lex::fault::LexFault;
use emp_owner::owned::OwnFault;
use gms_grammar::fault::ModelFault;
use info_read::fault::InfoFault;

/// The line of a verb, an option or a form of file that is not built.
pub fn not_yet() -> Line
    ensures { result.items ≡ not_yet_line }
{
    plain(b"error 30: not yet\n")
}

/// The line of a text without tokens.
fn lex_line(start: &[u8], fault: LexFault) -> Line
    requires { length start.now ≤ 60 }
    ensures { result.items ≡ lex_line start.now fault }
{
    match fault {
        LexFault::BadByte(place) => placed(start, place, b"bad byte"),
        LexFault::LongName(place) => placed(start, place, b"long name"),
        LexFault::OpenBlock(place) => placed(start, place, b"open block"),
        LexFault::Dollar(place) => placed(start, place, b"dollar line"),
        LexFault::Number(place) => placed(start, place, b"number"),
        LexFault::NoMemory => plain(b"error 21: no memory\n"),
    }
}

/// The line of a text that stands for no model; none for a want of memory.
pub fn model_line(fault: &ModelFault) -> Option<Line>
    ensures { MatchOption result (fault.now ≡ model_words.NoMemory) (λ l. (fault.now ≢ model_words.NoMemory) × (l.items ≡ model_line fault.now)) }
{
    let start = b"error 14: model ";
    match fault {
        ModelFault::Lex(fault) => Some(lex_line(start, *fault)),
        ModelFault::Syntax(place) => Some(placed(start, *place, b"syntax")),
        ModelFault::Undeclared(place) => Some(placed(start, *place, b"undeclared")),
        ModelFault::Twice(place) => Some(placed(start, *place, b"twice")),
        ModelFault::Discrete(place) => Some(placed(start, *place, b"discrete")),
        ModelFault::Attribute(place) => Some(placed(start, *place, b"attribute")),
        ModelFault::Function(place) => Some(placed(start, *place, b"function")),
        ModelFault::TooLarge(place) => Some(placed(start, *place, b"too large")),
        ModelFault::Undefined(_, name) => Some(named(start, b"undefined", name.as_bytes())),
        ModelFault::BoundsCross(_, name) => Some(named(start, b"bounds cross", name.as_bytes())),
        ModelFault::NoMemory => None,
    }
}

/// The line of a text that stands for no annotation of the model; none for a want of memory.
pub fn info_line(fault: InfoFault) -> Option<Line>
    ensures { MatchOption result (fault ≡ info_words.NoMemory) (λ l. (fault ≢ info_words.NoMemory) × (l.items ≡ info_line fault)) }
{
    let start = b"error 15: info ";
    match fault {
        InfoFault::Lex(fault) => Some(lex_line(start, fault)),
        InfoFault::Syntax(place) => Some(placed(start, place, b"syntax")),
        InfoFault::Unknown(place) => Some(placed(start, place, b"unknown")),
        InfoFault::WrongKind(place) => Some(placed(start, place, b"wrong kind")),
        InfoFault::NoMemory => None,
    }
}

/// The line of the first rule of ownership that is broken; none for a want of memory.
pub fn own_line(model: &Model, fault: OwnFault) -> Option<Line>
    ensures { MatchOption result (fault ≡ own_words.NoMemory) (λ l. (fault ≢ own_words.NoMemory) × (l.items ≡ own_line model.now fault)) }
{
    let (word, name): (&[u8], &[u8]) = match fault {
        OwnFault::LeaderMissing => return Some(plain(b"error 16: leader missing\n")),
        OwnFault::Unowned(v) => (b"unowned", variable_name(model, v)),
        OwnFault::OwnedTwice(v) => (b"owned twice", variable_name(model, v)),
        OwnFault::EquationTwice(e) => (b"equation twice", equation_name(model, e)),
        OwnFault::EquationLeft(e) => (b"equation left", equation_name(model, e)),
        OwnFault::ViRelation(e) => (b"vi relation", equation_name(model, e)),
        OwnFault::NotConstraint(e) => (b"not a constraint", equation_name(model, e)),
        OwnFault::DualShared(e) => (b"dual shared", equation_name(model, e)),
        OwnFault::DualTwice(e) => (b"dual twice", equation_name(model, e)),
        OwnFault::DualBound(v) => (b"dual bound", variable_name(model, v)),
        OwnFault::ImplicitUse(v) => (b"implicit use", variable_name(model, v)),
        OwnFault::ImplicitRelation(e) => (b"implicit relation", equation_name(model, e)),
        OwnFault::NoMemory => return None,
    };
    Some(named(b"error 16: ", word, name))
}
