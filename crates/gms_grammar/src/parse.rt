//! From lexemes to items.
ghost use Rattle.std.specs.Prelude.{◌≡◌, ◌++◌, IfOk, OnOk, MatchResult, reverse};
ghost use Rattle.gms_grammar.specs.Machine.{symbols, step, is_over, add, Steps};
ghost use Rattle.gms_grammar.specs.Steps.{AreItems, RefusesLexemes};

use crate::fault::ModelFault;
use crate::item::Item;
use crate::kind::Kind;
use crate::lexeme::Lexeme;
use crate::moves::move_at;
use crate::symbol::{Move, Next, Symbol};
use emp_ast::tree::Place;
use std::alloc::{AllocError, Global};

fn write(out: &mut Vec<Item>, item: Option<Item>) -> Result<(), AllocError>
    ensures { OnOk result (out.new.items ≡ add out.old.items item) }
{
    if let Some(item) = item {
        out.push(item)?;
    }
    Ok(())
}

#[tactic(auto, using(crate::proofs::Stacks::stacking))]
fn expand(stack: &mut Vec<Symbol>, next: Next) -> Result<(), AllocError>
    ensures { OnOk result (reverse stack.new.items ≡ symbols next ++ reverse stack.old.items) }
{
    match next {
        Next::Nothing => {}
        Next::One(first) => stack.push(first)?,
        Next::Two(first, second) => {
            stack.push(second)?;
            stack.push(first)?;
        }
        Next::Three(first, second, third) => {
            stack.push(third)?;
            stack.push(second)?;
            stack.push(first)?;
        }
        Next::Four(first, second, third, fourth) => {
            stack.push(fourth)?;
            stack.push(third)?;
            stack.push(second)?;
            stack.push(first)?;
        }
    }
    Ok(())
}

/// Takes one lexeme, where it can come.
#[tactic(auto, using(crate::proofs::Stacks::stacking))]
fn advance(stack: &mut Vec<Symbol>, out: &mut Vec<Item>, t: Lexeme) -> Result<bool, AllocError>
    ensures { IfOk result (Steps (step (reverse stack.old.items) out.old.items t) (reverse stack.new.items) out.new.items) }
{
    while let Some(top) = stack.pop() {
        match move_at(top, t) {
            Move::Fail => return Ok(false),
            Move::Skip(item) => write(out, item)?,
            Move::Take(item, next) => {
                write(out, item)?;
                expand(stack, next)?;
                return Ok(true);
            }
        }
    }
    Ok(false)
}

/// Whether a text may end.
#[tactic(auto, using(crate::proofs::Stacks::stacking))]
fn is_over(stack: &[Symbol]) -> bool
    ensures { result ≡ is_over (reverse stack.now) }
{
    stack.len() == 1 && matches!(stack[0], Symbol::Semicolons)
}

/// The items of the statements for which the lexemes stand.
///
/// Where they stand for none the fault is `Syntax`, at the first lexeme with which those up to it begin no grammatical text,
/// or at `end`, the place behind the text, where all of them begin one.
#[tactic(auto, using(crate::proofs::Places::parsing))]
pub fn parse(
    alloc: Global,
    kind: Kind,
    lexemes: &[Lexeme],
    end: Place,
) -> Result<Vec<Item>, ModelFault>
    ensures { MatchResult result (λ v. AreItems kind lexemes.now v.items) (RefusesLexemes kind lexemes.now end) }
{
    let mut stack = Vec::new(alloc);
    let mut out = Vec::new(alloc);
    stack.push(Symbol::File(kind))?;
    for t in lexemes {
        if !advance(&mut stack, &mut out, *t)? {
            return Err(ModelFault::Syntax(t.place));
        }
    }
    if is_over(stack.as_slice()) {
        Ok(out)
    } else {
        Err(ModelFault::Syntax(end))
    }
}
