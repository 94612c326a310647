//! The first constraint or function that is quadratic.
ghost use Rattle.std.specs.Prelude.{◌≡◌, ◌<◌, ◌&&◌, ◌||◌, true, length, IfSome, IfNone};
ghost use Rattle.emp_ast.specs.Parties.{leader, is_constraint};
ghost use Rattle.emp_form.specs.Form.{Form, IsLinear};
ghost use Rattle.emp_poly.specs.Quads.{HasForm};
ghost use Rattle.emp_owner.specs.Settled.{AreDefinitions, IsLeaderDefinition, AreOwned};
ghost use Rattle.emp_problem.specs.Class.{some_block_constrains, is_affine};
ghost use Rattle.emp_subst.specs.Subst.{AllExpand, IsFirstSquare};
ghost use Rattle.emp_subst.specs.Stages.{AreDifferences, QuadraticGives};

use crate::rules::leader_constrains;
use emp_ast::annot::Annot;
use emp_ast::model::Model;
use emp_ast::tree::{EquId, VarId};
use emp_list::seq::Seq;
use emp_owner::blocks::is_function;
use emp_owner::constraints::constrains;
use emp_owner::owned::Owned;
use emp_owner::tied::tied_variables;
use emp_poly::quad::Quad;

/// Whether the equation is a constraint of some block, by the definitions of the blocks.
#[tactic(auto, using(crate::proofs::Defined::constraining))]
fn some_constrains(model: &Model, annot: &Annot, defined: &Seq<Option<EquId>>, e: EquId) -> bool
    requires defined { AreDefinitions model.now annot.now defined.now }
    ensures { result ≡ some_block_constrains model.now annot.now e.at (length annot.now.blocks) }
{
    let tied = tied_variables(annot, e);
    for at in 0..annot.blocks.len() {
        if constrains(annot, annot.blocks.get(at), *defined.get(at), e, tied) {
            return true;
        }
    }
    false
}

/// Whether the equation is a constraint of the leader of a bilevel file.
fn leads(model: &Model, annot: &Annot, definition: Option<EquId>, e: EquId) -> bool
    requires within { e.at < length model.now.equations }
    requires definition { IsLeaderDefinition model.now annot.now annot.now.bilevel definition }
    ensures { result ≡ (annot.now.bilevel && is_constraint model.now annot.now leader e.at) }
{
    annot.bilevel && leader_constrains(model, annot, definition, e)
}

/// Whether the equation is a constraint or the function of a pair.
fn is_affine(model: &Model, annot: &Annot, owned: &Owned, e: EquId) -> bool
    requires within { e.at < length model.now.equations }
    requires owned { AreOwned model.now annot.now owned.now }
    ensures { result ≡ is_affine model.now annot.now e.at }
{
    some_constrains(model, annot, &owned.defined, e)
        || leads(model, annot, owned.leader, e)
        || is_function(annot, e)
}

/// The first pair of variables with a quadratic coefficient. `None` exactly where none has one.
pub fn first_square(quad: &Quad) -> Option<(VarId, VarId)>
    ensures some { IfSome result (λ t. (f : Form) → HasForm quad.now f → IsFirstSquare f t.0.at t.1.at) }
    ensures none { IfNone result ((f : Form) → HasForm quad.now f → IsLinear f) }
{
    if quad.square.len() == 0 {
        return None;
    }
    let term = *quad.square.get(0);
    Some((term.0, term.1))
}

/// The first pair of variables with a quadratic coefficient in a constraint or a function. `None` exactly where the equation is
/// neither, or none has one.
fn square_of_affine(
    model: &Model,
    annot: &Annot,
    owned: &Owned,
    e: EquId,
    difference: &Quad,
) -> Option<(VarId, VarId)>
    requires within { e.at < length model.now.equations }
    requires owned { AreOwned model.now annot.now owned.now }
    ensures some { IfSome result (λ t. (is_affine model.now annot.now e.at ≡ true) × ((f : Form) → HasForm difference.now f → IsFirstSquare f t.0.at t.1.at)) }
    ensures none { IfNone result (is_affine model.now annot.now e.at ≡ true → (f : Form) → HasForm difference.now f → IsLinear f) }
{
    let Some(pair) = first_square(difference) else {
        return None;
    };
    if is_affine(model, annot, owned, e) {
        Some(pair)
    } else {
        None
    }
}

/// The first equation in order of declaration that is a constraint or a function and whose difference has a quadratic
/// coefficient, with the first pair of variables that has one.
pub fn first_quadratic(
    model: &Model,
    annot: &Annot,
    owned: &Owned,
    differences: &[Quad],
) -> Option<(EquId, VarId, VarId)>
    requires equations { length model.now.equations < 4294967296 }
    requires owned { AreOwned model.now annot.now owned.now }
    requires expand { AllExpand model.now }
    requires differences { AreDifferences model.now differences.now }
    ensures { QuadraticGives model.now annot.now result }
{
    for at in 0..model.equations.len() {
        let e = EquId { at: at as u32 };
        if let Some((u, v)) = square_of_affine(model, annot, owned, e, &differences[at]) {
            return Some((e, u, v));
        }
    }
    None
}
