//! What a stage does at a lexeme.
ghost use Rattle.std.specs.Prelude.{◌≡◌};
ghost use Rattle.info_read.specs.Machine.{variable_move, equation_move, head_move, move as move_of, item_stage, ends_item, takes_name, named_fault, fault_at};

use crate::fault::InfoFault;
use crate::lexeme::{Lexeme, Sort};
use crate::stage::{Move, Note, Stage};
use emp_ast::tree::{EquId, Place, VarId};

fn variable_move(stage: Stage, v: VarId) -> Move
    ensures { result ≡ variable_move stage v }
{
    match stage {
        Stage::Leader => Move::Take(Stage::Leader, Note::Leader(v)),
        Stage::Objective(sense) => Move::Take(Stage::AgentVariables(sense, v), Note::Nothing),
        Stage::AgentVariables(_, _) => Move::Take(stage, Note::Variable(v)),
        Stage::ViStart | Stage::Zeros => Move::Take(Stage::Zeros, Note::Variable(v)),
        Stage::Function(e) => Move::Take(Stage::Pairs, Note::Pair(e, v)),
        Stage::DualStart | Stage::Duals => Move::Take(Stage::DualEquation(v), Note::Nothing),
        Stage::ImplicitStart | Stage::Implicits => {
            Move::Take(Stage::ImplicitEquation(v), Note::Nothing)
        }
        _ => Move::Fail,
    }
}

fn equation_move(stage: Stage, e: EquId) -> Move
    ensures { result ≡ equation_move stage e }
{
    match stage {
        Stage::AgentVariables(sense, objective) | Stage::AgentEquations(sense, objective) => {
            Move::Take(Stage::AgentEquations(sense, objective), Note::Equation(e))
        }
        Stage::ViStart | Stage::Zeros | Stage::Pairs => {
            Move::Take(Stage::Function(e), Note::Nothing)
        }
        Stage::Function(first) => Move::Take(Stage::Constraints, Note::Equations(first, e)),
        Stage::Constraints => Move::Take(Stage::Constraints, Note::Equation(e)),
        Stage::DualEquation(v) => Move::Take(Stage::Duals, Note::Dual(v, e)),
        Stage::VisolStart | Stage::Visols => Move::Take(Stage::Visols, Note::Visol(e)),
        Stage::ImplicitEquation(v) => Move::Take(Stage::Implicits, Note::Implicit(v, e)),
        _ => Move::Fail,
    }
}

fn head_move(stage: Stage, next: Stage, note: Note) -> Move
    ensures { result ≡ head_move stage next note }
{
    match stage {
        Stage::Start => Move::Take(next, note),
        _ => Move::Fail,
    }
}

/// What a stage does at a lexeme that begins no item.
pub fn move_at(stage: Stage, sort: Sort) -> Move
    ensures { result ≡ move_of stage sort }
{
    match sort {
        Sort::Equilibrium => head_move(stage, Stage::Head, Note::Nothing),
        Sort::Bilevel => head_move(stage, Stage::Leader, Note::Bilevel),
        Sort::Variable(v) => variable_move(stage, v),
        Sort::Equation(e) => equation_move(stage, e),
        _ => Move::Fail,
    }
}

/// The stage behind the keyword of an item.
pub fn item_stage(sort: Sort) -> Option<Stage>
    ensures { result ≡ item_stage sort }
{
    match sort {
        Sort::Agent(sense) => Some(Stage::Objective(sense)),
        Sort::Vi => Some(Stage::ViStart),
        Sort::Dualvar => Some(Stage::DualStart),
        Sort::Visol => Some(Stage::VisolStart),
        Sort::Implicit => Some(Stage::ImplicitStart),
        _ => None,
    }
}

/// Whether an item may come, or the text end.
pub fn ends_item(stage: Stage) -> bool
    ensures { result ≡ ends_item stage }
{
    match stage {
        Stage::Head | Stage::Leader => true,
        Stage::AgentVariables(_, _) | Stage::AgentEquations(_, _) => true,
        Stage::Zeros | Stage::Function(_) | Stage::Pairs | Stage::Constraints => true,
        Stage::Duals | Stage::Visols | Stage::Implicits => true,
        _ => false,
    }
}

/// Whether some name may come.
pub fn takes_name(stage: Stage) -> bool
    ensures { result ≡ takes_name stage }
{
    !matches!(stage, Stage::Start | Stage::Head)
}

fn named_fault(takes: bool, fault: InfoFault, place: Place) -> InfoFault
    ensures { result ≡ named_fault takes fault place }
{
    if takes {
        fault
    } else {
        InfoFault::Syntax(place)
    }
}

/// The fault at a lexeme that cannot come.
pub fn fault_at(stage: Stage, t: Lexeme) -> InfoFault
    ensures { result ≡ fault_at stage t }
{
    let takes = takes_name(stage);
    match t.sort {
        Sort::Variable(_) | Sort::Equation(_) => {
            named_fault(takes, InfoFault::WrongKind(t.place), t.place)
        }
        Sort::Unknown => named_fault(takes, InfoFault::Unknown(t.place), t.place),
        _ => InfoFault::Syntax(t.place),
    }
}
