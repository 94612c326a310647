//! The lines of an annotation.
ghost use Rattle.std.specs.Prelude.{◌≡◌, ◌++◌, OnOk, flat_map};
ghost use Rattle.info_print.specs.Canonical.{head_line, sense_word, block_line, tie_line, visol_line};

use crate::names::{write_equation, write_equations, write_pairs, write_variable, write_variables};
use emp_ast::annot::{Annot, Block};
use emp_ast::model::{Model, Sense};
use emp_ast::tree::{EquId, VarId};
use std::alloc::AllocError;

/// Writes the first line.
#[tactic(auto, using(crate::proofs::Flat::flat))]
pub fn write_head(out: &mut Vec<u8>, model: &Model, annot: &Annot) -> Result<(), AllocError>
    ensures { OnOk result (out.new.items ≡ out.old.items ++ head_line model.now annot.now.bilevel annot.now.leader) }
{
    if annot.bilevel {
        out.extend_from_slice(b"bilevel")?;
        write_variables(out, model, annot.leader.as_slice())?;
        out.extend_from_slice(b"\n")
    } else {
        out.extend_from_slice(b"equilibrium\n")
    }
}

fn sense_word(sense: Sense) -> &'static [u8]
    ensures { result.now ≡ sense_word sense }
{
    match sense {
        Sense::Min => b"min",
        Sense::Max => b"max",
    }
}

#[tactic(auto, using(crate::proofs::Flat::flat))]
fn write_block(out: &mut Vec<u8>, model: &Model, block: &Block) -> Result<(), AllocError>
    ensures { OnOk result (out.new.items ≡ out.old.items ++ block_line model.now block.now) }
{
    match block {
        Block::Agent {
            sense,
            objective,
            vars,
            equs,
        } => {
            out.extend_from_slice(sense_word(*sense))?;
            write_variable(out, model, *objective)?;
            write_variables(out, model, vars.as_slice())?;
            write_equations(out, model, equs.as_slice())?;
        }
        Block::Vi { zeros, pairs, equs } => {
            out.extend_from_slice(b"vi")?;
            write_variables(out, model, zeros.as_slice())?;
            write_pairs(out, model, pairs.as_slice())?;
            write_equations(out, model, equs.as_slice())?;
        }
    }
    out.extend_from_slice(b"\n")
}

/// Writes a line for each block.
#[tactic(auto, using(crate::proofs::Flat::flat))]
pub fn write_blocks(out: &mut Vec<u8>, model: &Model, blocks: &[Block]) -> Result<(), AllocError>
    ensures { OnOk result (out.new.items ≡ out.old.items ++ flat_map (block_line model.now) blocks.now) }
{
    for block in blocks {
        write_block(out, model, block)?;
    }
    Ok(())
}

#[tactic(auto, using(crate::proofs::Flat::flat))]
fn write_tie(
    out: &mut Vec<u8>,
    word: &[u8],
    model: &Model,
    tie: (VarId, EquId),
) -> Result<(), AllocError>
    ensures { OnOk result (out.new.items ≡ out.old.items ++ tie_line word.now model.now tie) }
{
    out.extend_from_slice(word)?;
    write_variable(out, model, tie.0)?;
    write_equation(out, model, tie.1)?;
    out.extend_from_slice(b"\n")
}

/// Writes a line for each pair of a variable and an equation, behind the word.
#[tactic(auto, using(crate::proofs::Flat::flat))]
pub fn write_ties(
    out: &mut Vec<u8>,
    word: &[u8],
    model: &Model,
    ties: &[(VarId, EquId)],
) -> Result<(), AllocError>
    ensures { OnOk result (out.new.items ≡ out.old.items ++ flat_map (tie_line word.now model.now) ties.now) }
{
    for tie in ties {
        write_tie(out, word, model, *tie)?;
    }
    Ok(())
}

#[tactic(auto, using(crate::proofs::Flat::flat))]
fn write_visol(out: &mut Vec<u8>, model: &Model, equation: EquId) -> Result<(), AllocError>
    ensures { OnOk result (out.new.items ≡ out.old.items ++ visol_line model.now equation) }
{
    out.extend_from_slice(b"visol")?;
    write_equation(out, model, equation)?;
    out.extend_from_slice(b"\n")
}

/// Writes a line for each equation with one multiplier.
#[tactic(auto, using(crate::proofs::Flat::flat))]
pub fn write_visols(out: &mut Vec<u8>, model: &Model, equations: &[EquId]) -> Result<(), AllocError>
    ensures { OnOk result (out.new.items ≡ out.old.items ++ flat_map (visol_line model.now) equations.now) }
{
    for equation in equations {
        write_visol(out, model, *equation)?;
    }
    Ok(())
}
