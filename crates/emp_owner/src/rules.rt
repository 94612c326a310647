//! The rules of ownership, each as a test of one variable or equation.
ghost use Rattle.std.specs.Prelude.{◌≡◌, ◌+◌, ◌&&◌, ◌||◌, min, nat_eq, length, slice_get, Some};
ghost use Rattle.emp_ast.specs.Parties.{is_goal, is_dual, has_dual};
ghost use Rattle.emp_owner.specs.Rules.{is_twice, leader_namings, own_namings, dual_namings, relation_of, is_at_least_zero, is_at_most_zero, implies_low, implies_high, implies_bounds, is_leaders, leader_missing, unowned, owned_twice, equation_twice, equation_left, is_upper, vi_relation, dual_twice, dual_bound, implicit_use, is_tie, implicit_relation};

use crate::blocks::{
    capped_sum, has_role, is_function, owners, some_lists, some_lists_twice, some_owns,
    some_owns_twice, times_listed_in_all,
};
use crate::listed::{
    equation_pairs, names_variable, pairs_equation, pairs_variable, variable_pairs, variable_times,
};
use emp_ast::annot::Annot;
use emp_ast::model::{End, Model, Relation};
use emp_ast::tree::{EquId, VarId};

/// Whether the file is bilevel and the solve statement names no objective.
pub fn leader_missing(model: &Model, annot: &Annot) -> bool
    ensures { result ≡ leader_missing model.now annot.now }
{
    annot.bilevel && model.goal.is_none()
}

/// Whether the variable is the objective of the solve statement.
fn is_goal(model: &Model, v: VarId) -> bool
    ensures { result ≡ is_goal model.now v.at }
{
    match model.goal {
        Some((_, w)) => w.at == v.at,
        None => false,
    }
}

/// Whether in an equilibrium file the variable is in no block and is no dual variable.
pub fn is_unowned(annot: &Annot, v: VarId) -> bool
    ensures { result ≡ unowned annot.now v.at }
{
    !annot.bilevel && !some_owns(annot, v) && !pairs_variable(&annot.duals, v)
}

/// How often the leader's names are this variable, 2 standing for more.
fn leader_namings(model: &Model, annot: &Annot, v: VarId) -> usize
    ensures { min result 2 ≡ min (leader_namings model.now annot.now v.at) 2 }
{
    if !annot.bilevel {
        return 0;
    }
    let listed = variable_times(&annot.leader, v);
    if is_goal(model, v) {
        listed.max(1)
    } else {
        listed
    }
}

/// How often the blocks' names are this variable: those that list an implicit variable count as one.
fn own_namings(annot: &Annot, v: VarId) -> usize
    ensures { result ≡ own_namings annot.now v.at }
{
    if !pairs_variable(&annot.implicits, v) {
        return owners(annot, v);
    }
    if some_owns(annot, v) { 1 } else { 0 }
}

/// Whether the variable is named twice as a leader's variable, own variable or dual variable.
#[tactic(auto, using(crate::proofs::Ruling::naming))]
fn is_named_twice(model: &Model, annot: &Annot, v: VarId) -> bool
    ensures { result ≡ is_twice (leader_namings model.now annot.now v.at + own_namings annot.now v.at + dual_namings annot.now v.at) }
{
    let leader_and_own = capped_sum(leader_namings(model, annot, v), own_namings(annot, v));
    capped_sum(leader_and_own, variable_pairs(&annot.duals, v)) == 2
}

/// Whether the variable is owned twice.
pub fn is_owned_twice(model: &Model, annot: &Annot, v: VarId) -> bool
    ensures { result ≡ owned_twice model.now annot.now v.at }
{
    is_named_twice(model, annot, v)
        || some_owns_twice(annot, v)
        || variable_pairs(&annot.implicits, v) >= 2
}

/// Whether the equation is listed twice, or is an implicit one and listed.
#[tactic(auto, using(crate::proofs::Ruling::naming))]
pub fn is_equation_twice(annot: &Annot, e: EquId) -> bool
    ensures { result ≡ equation_twice annot.now e.at }
{
    some_lists_twice(annot, e)
        || (is_function(annot, e) && times_listed_in_all(annot, e) == 2)
        || (pairs_equation(&annot.implicits, e) && some_lists(annot, e))
        || equation_pairs(&annot.implicits, e) >= 2
}

/// Whether in an equilibrium file the equation is in no block and in no implicit pair.
pub fn is_equation_left(annot: &Annot, e: EquId) -> bool
    ensures { result ≡ equation_left annot.now e.at }
{
    !annot.bilevel && !some_lists(annot, e) && !pairs_equation(&annot.implicits, e)
}

/// The relation of the equation, where it is there.
fn relation_of(model: &Model, e: EquId) -> Option<Relation>
    ensures { result ≡ relation_of model.now e.at }
{
    match model.equations.as_slice().get(e.at as usize) {
        Some(equation) => Some(equation.relation),
        None => None,
    }
}

/// Whether the equation is the function of a pair and has relation `=L=`.
pub fn has_wrong_function(model: &Model, annot: &Annot, e: EquId) -> bool
    ensures { result ≡ vi_relation model.now annot.now e.at }
{
    is_function(annot, e) && matches!(relation_of(model, e), Some(Relation::AtMost))
}

/// Whether the equation has two dual variables.
pub fn has_two_duals(annot: &Annot, e: EquId) -> bool
    ensures { result ≡ dual_twice annot.now e.at }
{
    equation_pairs(&annot.duals, e) >= 2
}

/// Whether the sign of a multiplier of the relation implies the lower bound.
fn implies_low(relation: Option<Relation>, low: End) -> bool
    ensures { result ≡ implies_low relation low }
{
    match low {
        End::Open => true,
        End::At(bound) => {
            matches!(relation, Some(Relation::AtLeast | Relation::Nothing)) && bound.num <= 0
        }
    }
}

/// Whether the sign of a multiplier of the relation implies the upper bound.
fn implies_high(relation: Option<Relation>, high: End) -> bool
    ensures { result ≡ implies_high relation high }
{
    match high {
        End::Open => true,
        End::At(bound) => {
            matches!(relation, Some(Relation::AtMost | Relation::Nothing)) && 0 <= bound.num
        }
    }
}

/// Whether the sign of a multiplier of the equation implies both bounds of the variable.
fn implies_bounds(model: &Model, e: EquId, v: VarId) -> bool
    ensures { result ≡ implies_bounds (relation_of model.now e.at) (slice_get model.now.variables v.at) }
{
    match model.variables.as_slice().get(v.at as usize) {
        Some(variable) => {
            let relation = relation_of(model, e);
            implies_low(relation, variable.low) && implies_high(relation, variable.high)
        }
        None => true,
    }
}

/// Whether the variable is a dual one with a bound that the sign of its multiplier does not imply.
pub fn has_wrong_bound(model: &Model, annot: &Annot, v: VarId) -> bool
    ensures { result ≡ dual_bound model.now annot.now v.at }
{
    annot.duals.as_slice().iter().any(|pair| pair.0.at == v.at && !implies_bounds(model, pair.1, v))
}

/// Whether the variable is the solve objective of a bilevel file or listed after `bilevel`.
fn is_leaders(model: &Model, annot: &Annot, v: VarId) -> bool
    ensures { result ≡ is_leaders model.now annot.now v.at }
{
    annot.bilevel && (is_goal(model, v) || names_variable(&annot.leader, v))
}

/// Whether the variable is in an implicit pair and has another use, or none.
pub fn is_misused(model: &Model, annot: &Annot, v: VarId) -> bool
    ensures { result ≡ implicit_use model.now annot.now v.at }
{
    pairs_variable(&annot.implicits, v)
        && (!some_owns(annot, v)
            || has_role(annot, v)
            || is_leaders(model, annot, v)
            || pairs_variable(&annot.duals, v))
}

/// Whether the equation is in an implicit pair and its relation is not `=E=`.
pub fn is_no_tie(model: &Model, annot: &Annot, e: EquId) -> bool
    ensures { result ≡ implicit_relation model.now annot.now e.at }
{
    pairs_equation(&annot.implicits, e) && !matches!(relation_of(model, e), Some(Relation::Equal))
}
