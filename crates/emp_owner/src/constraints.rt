//! In which blocks an equation is a constraint.
ghost use Rattle.std.specs.Prelude.{◌≡◌, ◌≤◌, cond, length};
ghost use Rattle.emp_ast.specs.declared.model.Model.{Model};
ghost use Rattle.emp_owner.specs.Rules.{constrained, not_constraint, dual_shared};
ghost use Rattle.emp_owner.specs.Finding.{is_entry, block_constrains, TellsTied};
ghost use Rattle.emp_owner.specs.Settled.{AreDefinitions};

use crate::blocks::{has, has_function};
use crate::listed::{names_equation, pairs_equation};
use crate::tied::{Tied, tied_variables};
use emp_ast::annot::{Annot, Block};
use emp_ast::tree::EquId;
use emp_list::seq::Seq;

/// Whether the entry is the equation.
fn is_entry(entry: Option<EquId>, e: EquId) -> bool
    ensures { result ≡ is_entry entry e.at }
{
    match entry {
        Some(d) => d.at == e.at,
        None => false,
    }
}

/// Whether the equation is a constraint of the block with this definition.
#[tactic(auto, using(crate::proofs::Tying::having))]
pub fn constrains(
    annot: &Annot,
    block: &Block,
    definition: Option<EquId>,
    e: EquId,
    tied: Tied,
) -> bool
    requires tied { TellsTied annot.now.implicits e.at tied }
    ensures { result ≡ block_constrains annot.now block.now definition e.at }
{
    has(annot, block, e, tied) && !is_entry(definition, e) && !has_function(block, e)
}

/// 1 where it is so, and else 0.
fn one_if(is_so: bool) -> usize
    ensures value { result ≡ cond is_so 1 0 }
    ensures most { result ≤ 1 }
{
    if is_so { 1 } else { 0 }
}

/// How many blocks have the equation as a constraint, by their definitions.
fn times_constrained(annot: &Annot, defined: &Seq<Option<EquId>>, e: EquId) -> usize
    requires entries { length defined.now ≡ length annot.now.blocks }
    ensures { (m : Model) → AreDefinitions m annot.now defined.now → result ≡ constrained m annot.now e.at }
{
    let tied = tied_variables(annot, e);
    let mut times = 0;
    for at in 0..annot.blocks.len() {
        times += one_if(constrains(annot, annot.blocks.get(at), *defined.get(at), e, tied));
    }
    times
}

/// Whether the equation has a dual variable or stands under `visol`, and is a constraint of no block.
pub fn is_no_constraint(annot: &Annot, defined: &Seq<Option<EquId>>, e: EquId) -> bool
    requires entries { length defined.now ≡ length annot.now.blocks }
    ensures { (m : Model) → AreDefinitions m annot.now defined.now → result ≡ not_constraint m annot.now e.at }
{
    (pairs_equation(&annot.duals, e) || names_equation(&annot.visols, e))
        && times_constrained(annot, defined, e) == 0
}

/// Whether the equation has a dual variable, is a constraint of two blocks and does not stand under `visol`.
pub fn is_shared(annot: &Annot, defined: &Seq<Option<EquId>>, e: EquId) -> bool
    requires entries { length defined.now ≡ length annot.now.blocks }
    ensures { (m : Model) → AreDefinitions m annot.now defined.now → result ≡ dual_shared m annot.now e.at }
{
    pairs_equation(&annot.duals, e)
        && times_constrained(annot, defined, e) >= 2
        && !names_equation(&annot.visols, e)
}
