//! What a block owns and lists, and what the blocks do together.
ghost use Rattle.std.specs.Prelude.{◌≡◌, ◌+◌, ◌&&◌, ◌||◌, min, nat_eq, [], ◌∷◌};
ghost use Rattle.std.specs.List.{list_any, count_by};
ghost use Rattle.emp_ast.specs.Parties.{names_variable, names_equation, block_variables, listed_equations, functions, block_equations, some_block_owns, some_block_has, holders};
ghost use Rattle.emp_owner.specs.Rules.{variable_times, equation_times, is_twice, owners_of, is_listed, is_function, listings, objective_is, pair_names, has_role};
ghost use Rattle.emp_owner.specs.Finding.{tied_by, has_by};

use crate::listed::{
    equation_times, function_times, is_function_of, is_paired, names_equation, names_variable,
    paired_times, variable_times,
};
use crate::tied::{Tied, tied_variables};
use emp_ast::annot::{Annot, Block};
use emp_ast::tree::{EquId, VarId};

/// The sum of two counts, 2 standing for more.
pub fn capped_sum(first: usize, second: usize) -> usize
    ensures { result ≡ min (first + second) 2 }
{
    (first.min(2) + second.min(2)).min(2)
}

/// Whether two counts are 2 or more together.
#[tactic(auto, using(crate::proofs::Lists::capping))]
pub fn is_twice(first: usize, second: usize) -> bool
    ensures { result ≡ is_twice (first + second) }
{
    capped_sum(first, second) == 2
}

/// Whether the block owns the variable.
#[tactic(auto, using(crate::proofs::Lists::listing))]
pub fn owns(block: &Block, v: VarId) -> bool
    ensures { result ≡ names_variable (block_variables block.now) v.at }
{
    match block {
        Block::Agent {
            objective,
            vars,
            ..
        } => objective.at == v.at || names_variable(vars, v),
        Block::Vi { zeros, pairs, .. } => names_variable(zeros, v) || is_paired(pairs, v),
    }
}

/// 1 where the two variables are one, and else 0.
fn once(w: VarId, v: VarId) -> usize
    ensures { result ≡ variable_times v.at (w ∷ []) }
{
    if w.at == v.at { 1 } else { 0 }
}

/// Whether the block names the variable twice as its own.
#[tactic(auto, using(crate::proofs::Lists::listing))]
pub fn owns_twice(block: &Block, v: VarId) -> bool
    ensures { result ≡ is_twice (variable_times v.at (block_variables block.now)) }
{
    match block {
        Block::Agent {
            objective,
            vars,
            ..
        } => is_twice(once(*objective, v), variable_times(vars, v)),
        Block::Vi { zeros, pairs, .. } => {
            is_twice(variable_times(zeros, v), paired_times(pairs, v))
        }
    }
}

/// Whether the block lists the equation.
#[tactic(auto, using(crate::proofs::Lists::listing))]
pub fn lists(block: &Block, e: EquId) -> bool
    ensures { result ≡ names_equation (listed_equations block.now) e.at }
{
    match block {
        Block::Agent { equs, .. } => names_equation(equs, e),
        Block::Vi { pairs, equs, .. } => is_function_of(pairs, e) || names_equation(equs, e),
    }
}

/// How often the block lists the equation, 2 standing for more.
#[tactic(auto, using(crate::proofs::Lists::listing))]
pub fn times_listed(block: &Block, e: EquId) -> usize
    ensures { result ≡ min (equation_times e.at (listed_equations block.now)) 2 }
{
    match block {
        Block::Agent { equs, .. } => equation_times(equs, e).min(2),
        Block::Vi { pairs, equs, .. } => {
            capped_sum(function_times(pairs, e), equation_times(equs, e))
        }
    }
}

/// Whether the equation is the function of a pair of the block.
#[tactic(auto, using(crate::proofs::Lists::listing))]
pub fn has_function(block: &Block, e: EquId) -> bool
    ensures { result ≡ names_equation (functions block.now) e.at }
{
    match block {
        Block::Agent { .. } => false,
        Block::Vi { pairs, .. } => is_function_of(pairs, e),
    }
}

/// Whether the equation is that of an implicit variable which the block owns.
fn ties(annot: &Annot, block: &Block, e: EquId) -> bool
    ensures { result ≡ list_any (λ i. nat_eq i.1.at e.at && names_variable (block_variables block.now) i.0.at) annot.now.implicits }
{
    annot
        .implicits
        .as_slice()
        .iter()
        .any(|pair| pair.1.at == e.at && owns(block, pair.0))
}

/// Whether the block owns one of these variables, which are those in an implicit pair with the equation.
fn owns_tied(annot: &Annot, block: &Block, e: EquId, tied: Tied) -> bool
    ensures { result ≡ tied_by tied annot.now.implicits e.at (names_variable (block_variables block.now)) }
{
    match tied {
        Tied::Nothing => false,
        Tied::One(v) => owns(block, v),
        Tied::More => ties(annot, block, e),
    }
}

/// Whether the equation is one of the block's: listed, or that of an implicit variable that it owns. The variables are those
/// in an implicit pair with the equation: they are looked up once for all blocks.
pub fn has(annot: &Annot, block: &Block, e: EquId, tied: Tied) -> bool
    ensures { result ≡ has_by tied annot.now block.now e.at }
{
    lists(block, e) || owns_tied(annot, block, e, tied)
}

/// Whether the variable is the block's objective or in one of its pairs.
pub fn gives_role(block: &Block, v: VarId) -> bool
    ensures { result ≡ (objective_is block.now v.at || pair_names block.now v.at) }
{
    match block {
        Block::Agent { objective, .. } => objective.at == v.at,
        Block::Vi { pairs, .. } => is_paired(pairs, v),
    }
}

/// Whether a block owns the variable.
pub fn some_owns(annot: &Annot, v: VarId) -> bool
    ensures { result ≡ some_block_owns annot.now v.at }
{
    annot.blocks.as_slice().iter().any(|block| owns(block, v))
}

/// How many blocks own the variable.
pub fn owners(annot: &Annot, v: VarId) -> usize
    ensures { result ≡ owners_of annot.now v.at }
{
    annot
        .blocks
        .as_slice()
        .iter()
        .filter(|block| owns(*block, v))
        .count()
}

/// Whether a block names the variable twice as its own.
pub fn some_owns_twice(annot: &Annot, v: VarId) -> bool
    ensures { result ≡ list_any (λ b. is_twice (variable_times v.at (block_variables b))) annot.now.blocks }
{
    annot
        .blocks
        .as_slice()
        .iter()
        .any(|block| owns_twice(block, v))
}

/// Whether a block lists the equation.
pub fn some_lists(annot: &Annot, e: EquId) -> bool
    ensures { result ≡ is_listed annot.now e.at }
{
    annot.blocks.as_slice().iter().any(|block| lists(block, e))
}

/// Whether a block lists the equation twice.
pub fn some_lists_twice(annot: &Annot, e: EquId) -> bool
    ensures { result ≡ list_any (λ b. is_twice (equation_times e.at (listed_equations b))) annot.now.blocks }
{
    annot
        .blocks
        .as_slice()
        .iter()
        .any(|block| times_listed(block, e) >= 2)
}

/// Whether the equation is the function of a pair.
pub fn is_function(annot: &Annot, e: EquId) -> bool
    ensures { result ≡ is_function annot.now e.at }
{
    annot
        .blocks
        .as_slice()
        .iter()
        .any(|block| has_function(block, e))
}

/// How often the blocks list the equation, 2 standing for more.
#[tactic(auto, using(crate::proofs::Lists::adding))]
pub fn times_listed_in_all(annot: &Annot, e: EquId) -> usize
    ensures { result ≡ min (listings annot.now e.at) 2 }
{
    let mut times = 0;
    for block in annot.blocks.as_slice() {
        times = capped_sum(times, times_listed(block, e));
    }
    times
}

/// Whether the variable is the objective of a block or in a pair.
pub fn has_role(annot: &Annot, v: VarId) -> bool
    ensures { result ≡ has_role annot.now v.at }
{
    annot
        .blocks
        .as_slice()
        .iter()
        .any(|block| gives_role(block, v))
}

/// Whether the equation is one of a block's, by the variables that are in an implicit pair with it.
fn some_has_by(annot: &Annot, e: EquId, tied: Tied) -> bool
    ensures { result ≡ list_any (λ b. has_by tied annot.now b e.at) annot.now.blocks }
{
    annot
        .blocks
        .as_slice()
        .iter()
        .any(|block| has(annot, block, e, tied))
}

/// Whether the equation is one of a block's.
pub fn some_has(annot: &Annot, e: EquId) -> bool
    ensures { result ≡ some_block_has annot.now e.at }
{
    some_has_by(annot, e, tied_variables(annot, e))
}

/// How many blocks have the equation, by the variables that are in an implicit pair with it.
fn holders_by(annot: &Annot, e: EquId, tied: Tied) -> usize
    ensures { result ≡ count_by (λ b. has_by tied annot.now b e.at) annot.now.blocks }
{
    annot
        .blocks
        .as_slice()
        .iter()
        .filter(|block| has(annot, *block, e, tied))
        .count()
}

/// Whether the equation is one of exactly one block's.
pub fn one_has(annot: &Annot, e: EquId) -> bool
    ensures { result ≡ nat_eq (holders annot.now e.at) 1 }
{
    holders_by(annot, e, tied_variables(annot, e)) == 1
}
