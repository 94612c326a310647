//! The owner of each variable.
ghost use Rattle.std.specs.Prelude.{◌≡◌, ◌<◌, false, length, IfOk};
ghost use Rattle.emp_owner.specs.Rules.{unowned};
ghost use Rattle.emp_owner.specs.Finding.{FindsPair, FindsBlock};
ghost use Rattle.emp_owner.specs.Settled.{NoVariable, IsOwner, AreOwners};

use crate::blocks::owns;
use crate::owned::Owner;
use emp_ast::annot::Annot;
use emp_ast::model::Model;
use emp_ast::tree::{EquId, VarId};
use emp_list::memory::NoMemory;
use emp_list::seq::Seq;
use std::alloc::Global;

/// The equation of a dual or an implicit variable.
#[tactic(auto, using(crate::proofs::Owning::pairing))]
fn pair_of(pairs: &Seq<(VarId, EquId)>, v: VarId) -> Option<EquId>
    ensures { FindsPair pairs.now v.at result }
{
    for at in 0..pairs.len() {
        let pair = *pairs.get(at);
        if pair.0.at == v.at {
            return Some(pair.1);
        }
    }
    None
}

/// The number of a block that owns the variable, from 1.
#[tactic(auto, using(crate::proofs::Owning::owning))]
fn block_of(annot: &Annot, v: VarId) -> Option<u32>
    requires blocks { length annot.now.blocks < 4294967296 }
    ensures { FindsBlock annot.now v.at result }
{
    for at in 0..annot.blocks.len() {
        if owns(annot.blocks.get(at), v) {
            return Some(at as u32 + 1);
        }
    }
    None
}

/// The owner of a variable that has one.
#[tactic(auto, using(crate::proofs::Owning::leading))]
fn owner(model: &Model, annot: &Annot, v: VarId) -> Owner
    requires blocks { length annot.now.blocks < 4294967296 }
    requires owned { unowned annot.now v.at ≡ false }
    ensures { IsOwner model.now annot.now v.at result }
{
    if let Some(e) = pair_of(&annot.implicits, v) {
        return Owner::Implicit(e);
    }
    if let Some(e) = pair_of(&annot.duals, v) {
        return Owner::Dual(e);
    }
    match block_of(annot, v) {
        Some(number) => Owner::Block(number),
        None => Owner::Leader,
    }
}

/// The owners of all variables, where each has one.
pub fn owners(alloc: Global, model: &Model, annot: &Annot) -> Result<Seq<Owner>, NoMemory>
    requires variables { length model.now.variables < 4294967296 }
    requires blocks { length annot.now.blocks < 4294967296 }
    requires owned { NoVariable model.now (unowned annot.now) }
    ensures { IfOk result (λ list. AreOwners model.now annot.now list) }
{
    let mut list = Seq::new(alloc);
    for at in 0..model.variables.len() {
        list.push(owner(model, annot, VarId { at: at as u32 }))?;
    }
    Ok(list)
}
