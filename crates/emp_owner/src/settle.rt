//! The twelve rules in their order, and then owners and definitions.
ghost use Rattle.std.specs.Prelude.{◌<◌, length, MatchResult};
ghost use Rattle.emp_owner.specs.Settled.{Kept6, IsKept, IsFirstBroken, AreDefinitions, SettleGives};

use crate::definitions::{block_definitions, leader_definition};
use crate::leaves::count_leaves;
use crate::owned::{OwnFault, Owned};
use crate::owners::owners;
use crate::rules::leader_missing;
use crate::search::{ConstraintRule, EquationRule, VariableRule};
use emp_ast::annot::Annot;
use emp_ast::model::Model;
use emp_ast::tree::EquId;
use emp_list::seq::Seq;
use std::alloc::Global;

/// The first six rules, which ask for no definition.
fn keep_names(model: &Model, annot: &Annot) -> Result<(), OwnFault>
    requires variables { length model.now.variables < 4294967296 }
    requires equations { length model.now.equations < 4294967296 }
    ensures { MatchResult result (λ _. Kept6 model.now annot.now) (λ f. IsFirstBroken model.now annot.now f) }
{
    if leader_missing(model, annot) {
        return Err(OwnFault::LeaderMissing);
    }
    if let Some(v) = VariableRule::NeedsOwner.first(model, annot) {
        return Err(OwnFault::Unowned(v));
    }
    if let Some(v) = VariableRule::NeedsOneOwner.first(model, annot) {
        return Err(OwnFault::OwnedTwice(v));
    }
    if let Some(e) = EquationRule::NeedsOneListing.first(model, annot) {
        return Err(OwnFault::EquationTwice(e));
    }
    if let Some(e) = EquationRule::NeedsListing.first(model, annot) {
        return Err(OwnFault::EquationLeft(e));
    }
    if let Some(e) = EquationRule::NeedsFunctionRelation.first(model, annot) {
        return Err(OwnFault::ViRelation(e));
    }
    Ok(())
}

/// The other six rules, where these are the definitions of the blocks.
fn keep_uses(model: &Model, annot: &Annot, defined: &Seq<Option<EquId>>) -> Result<(), OwnFault>
    requires variables { length model.now.variables < 4294967296 }
    requires equations { length model.now.equations < 4294967296 }
    requires names { Kept6 model.now annot.now }
    requires defined { AreDefinitions model.now annot.now defined.now }
    ensures { MatchResult result (λ _. IsKept model.now annot.now) (λ f. IsFirstBroken model.now annot.now f) }
{
    if let Some(e) = ConstraintRule::NeedsConstraint.first(model, annot, defined) {
        return Err(OwnFault::NotConstraint(e));
    }
    if let Some(e) = ConstraintRule::NeedsOneBlock.first(model, annot, defined) {
        return Err(OwnFault::DualShared(e));
    }
    if let Some(e) = EquationRule::NeedsOneDual.first(model, annot) {
        return Err(OwnFault::DualTwice(e));
    }
    if let Some(v) = VariableRule::NeedsImpliedBounds.first(model, annot) {
        return Err(OwnFault::DualBound(v));
    }
    if let Some(v) = VariableRule::NeedsPlainUse.first(model, annot) {
        return Err(OwnFault::ImplicitUse(v));
    }
    if let Some(e) = EquationRule::NeedsEquality.first(model, annot) {
        return Err(OwnFault::ImplicitRelation(e));
    }
    Ok(())
}

/// Who owns each variable of the model under the annotation, and which equations define objectives.
///
/// The answer is Ok exactly where no rule of ownership is broken. Else it names the first rule that is broken, with the
/// first variable or equation in order of declaration that breaks it; `NoMemory` can come in place of any answer. What
/// owners and definitions are stands in `specs/Settled.antt`, the rules in `specs/Rules.antt`.
pub fn settle(alloc: Global, model: &Model, annot: &Annot) -> Result<Owned, OwnFault>
    requires variables { length model.now.variables < 4294967296 }
    requires equations { length model.now.equations < 4294967296 }
    requires blocks { length annot.now.blocks < 4294967296 }
    ensures { SettleGives model.now annot.now result }
{
    keep_names(model, annot)?;
    let counts = count_leaves(alloc, model)?;
    let defined = block_definitions(alloc, model, annot, &counts)?;
    keep_uses(model, annot, &defined)?;
    let leader = leader_definition(alloc, model, annot, &counts)?;
    let owners = owners(alloc, model, annot)?;
    Ok(Owned {
        owners,
        defined,
        leader,
    })
}
