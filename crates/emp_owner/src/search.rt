//! The first variable or equation that breaks a rule, in order of declaration.
ghost use Rattle.std.specs.Prelude.{◌≡◌, ◌<◌, length};

use crate::constraints::{is_no_constraint, is_shared};
use crate::rules::{
    has_two_duals, has_wrong_bound, has_wrong_function, is_equation_left, is_equation_twice,
    is_misused, is_no_tie, is_owned_twice, is_unowned,
};
use emp_ast::annot::Annot;
use emp_ast::model::Model;
use emp_ast::tree::{EquId, VarId};
use emp_list::seq::Seq;

/// A rule on each variable.
#[derive(Clone, Copy)]
pub enum VariableRule {
    NeedsOwner,
    NeedsOneOwner,
    NeedsImpliedBounds,
    NeedsPlainUse,
}

/// A rule on each equation that asks for no constraint.
#[derive(Clone, Copy)]
pub enum EquationRule {
    NeedsOneListing,
    NeedsListing,
    NeedsFunctionRelation,
    NeedsOneDual,
    NeedsEquality,
}

/// A rule on each equation that asks in which blocks it is a constraint.
#[derive(Clone, Copy)]
pub enum ConstraintRule {
    NeedsConstraint,
    NeedsOneBlock,
}

impl VariableRule {
    ghost use Rattle.emp_owner.specs.Finding.{variable_test, FindsVariable};

    /// Whether the variable breaks the rule.
    fn is_broken(self, model: &Model, annot: &Annot, v: VarId) -> bool
        ensures { result ≡ variable_test self model.now annot.now v.at }
    {
        match self {
            VariableRule::NeedsOwner => is_unowned(annot, v),
            VariableRule::NeedsOneOwner => is_owned_twice(model, annot, v),
            VariableRule::NeedsImpliedBounds => has_wrong_bound(model, annot, v),
            VariableRule::NeedsPlainUse => is_misused(model, annot, v),
        }
    }

    /// The first variable that breaks the rule.
    pub fn first(self, model: &Model, annot: &Annot) -> Option<VarId>
        requires variables { length model.now.variables < 4294967296 }
        ensures { FindsVariable model.now (variable_test self model.now annot.now) result }
    {
        for at in 0..model.variables.len() {
            let v = VarId { at: at as u32 };
            if self.is_broken(model, annot, v) {
                return Some(v);
            }
        }
        None
    }
}

impl EquationRule {
    ghost use Rattle.emp_owner.specs.Finding.{equation_test, FindsEquation};

    /// Whether the equation breaks the rule.
    fn is_broken(self, model: &Model, annot: &Annot, e: EquId) -> bool
        ensures { result ≡ equation_test self model.now annot.now e.at }
    {
        match self {
            EquationRule::NeedsOneListing => is_equation_twice(annot, e),
            EquationRule::NeedsListing => is_equation_left(annot, e),
            EquationRule::NeedsFunctionRelation => has_wrong_function(model, annot, e),
            EquationRule::NeedsOneDual => has_two_duals(annot, e),
            EquationRule::NeedsEquality => is_no_tie(model, annot, e),
        }
    }

    /// The first equation that breaks the rule.
    pub fn first(self, model: &Model, annot: &Annot) -> Option<EquId>
        requires equations { length model.now.equations < 4294967296 }
        ensures { FindsEquation model.now (equation_test self model.now annot.now) result }
    {
        for at in 0..model.equations.len() {
            let e = EquId { at: at as u32 };
            if self.is_broken(model, annot, e) {
                return Some(e);
            }
        }
        None
    }
}

impl ConstraintRule {
    ghost use Rattle.emp_owner.specs.Finding.{constraint_test, FindsEquation};
    ghost use Rattle.emp_owner.specs.Settled.{AreDefinitions};
    ghost use Rattle.emp_ast.specs.declared.model.Model.{Model};

    /// Whether the equation breaks the rule, where these are the definitions of the blocks.
    fn is_broken(self, annot: &Annot, defined: &Seq<Option<EquId>>, e: EquId) -> bool
        requires entries { length defined.now ≡ length annot.now.blocks }
        ensures { (m : Model) → AreDefinitions m annot.now defined.now → result ≡ constraint_test self m annot.now e.at }
    {
        match self {
            ConstraintRule::NeedsConstraint => is_no_constraint(annot, defined, e),
            ConstraintRule::NeedsOneBlock => is_shared(annot, defined, e),
        }
    }

    /// The first equation that breaks the rule.
    pub fn first(self, model: &Model, annot: &Annot, defined: &Seq<Option<EquId>>) -> Option<EquId>
        requires equations { length model.now.equations < 4294967296 }
        requires defined { AreDefinitions model.now annot.now defined.now }
        ensures { FindsEquation model.now (constraint_test self model.now annot.now) result }
    {
        for at in 0..model.equations.len() {
            let e = EquId { at: at as u32 };
            if self.is_broken(annot, defined, e) {
                return Some(e);
            }
        }
        None
    }
}
