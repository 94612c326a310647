//! Which names a list has, and how often.
ghost use Rattle.std.specs.Prelude.{◌≡◌, nat_eq};
ghost use Rattle.std.specs.List.{list_any, count_by};
ghost use Rattle.emp_ast.specs.Parties.{names_variable, names_equation};
ghost use Rattle.emp_owner.specs.Rules.{variable_times, equation_times};

use emp_ast::tree::{EquId, VarId};
use emp_list::seq::Seq;

/// Whether the list names the variable.
pub fn names_variable(list: &Seq<VarId>, v: VarId) -> bool
    ensures { result ≡ names_variable list.now v.at }
{
    list.as_slice().iter().any(|x| x.at == v.at)
}

/// Whether the list names the equation.
pub fn names_equation(list: &Seq<EquId>, e: EquId) -> bool
    ensures { result ≡ names_equation list.now e.at }
{
    list.as_slice().iter().any(|x| x.at == e.at)
}

/// How often the list names the variable.
pub fn variable_times(list: &Seq<VarId>, v: VarId) -> usize
    ensures { result ≡ variable_times v.at list.now }
{
    list.as_slice().iter().filter(|x| x.at == v.at).count()
}

/// How often the list names the equation.
pub fn equation_times(list: &Seq<EquId>, e: EquId) -> usize
    ensures { result ≡ equation_times e.at list.now }
{
    list.as_slice().iter().filter(|x| x.at == e.at).count()
}

/// Whether a dual or an implicit variable is this one.
pub fn pairs_variable(pairs: &Seq<(VarId, EquId)>, v: VarId) -> bool
    ensures { result ≡ list_any (λ d. nat_eq d.0.at v.at) pairs.now }
{
    pairs.as_slice().iter().any(|pair| pair.0.at == v.at)
}

/// Whether the equation of a dual or an implicit variable is this one.
pub fn pairs_equation(pairs: &Seq<(VarId, EquId)>, e: EquId) -> bool
    ensures { result ≡ list_any (λ d. nat_eq d.1.at e.at) pairs.now }
{
    pairs.as_slice().iter().any(|pair| pair.1.at == e.at)
}

/// How many dual or implicit variables are this one.
pub fn variable_pairs(pairs: &Seq<(VarId, EquId)>, v: VarId) -> usize
    ensures { result ≡ count_by (λ d. nat_eq d.0.at v.at) pairs.now }
{
    pairs
        .as_slice()
        .iter()
        .filter(|pair| pair.0.at == v.at)
        .count()
}

/// How many dual or implicit variables have this equation.
pub fn equation_pairs(pairs: &Seq<(VarId, EquId)>, e: EquId) -> usize
    ensures { result ≡ count_by (λ d. nat_eq d.1.at e.at) pairs.now }
{
    pairs
        .as_slice()
        .iter()
        .filter(|pair| pair.1.at == e.at)
        .count()
}

/// Whether the function of a pair of a variational inequality is this equation.
pub fn is_function_of(pairs: &Seq<(EquId, VarId)>, e: EquId) -> bool
    ensures { result ≡ list_any (λ q. nat_eq q.0.at e.at) pairs.now }
{
    pairs.as_slice().iter().any(|pair| pair.0.at == e.at)
}

/// Whether the variable of a pair of a variational inequality is this one.
pub fn is_paired(pairs: &Seq<(EquId, VarId)>, v: VarId) -> bool
    ensures { result ≡ list_any (λ q. nat_eq q.1.at v.at) pairs.now }
{
    pairs.as_slice().iter().any(|pair| pair.1.at == v.at)
}

/// How many pairs of a variational inequality have this function.
pub fn function_times(pairs: &Seq<(EquId, VarId)>, e: EquId) -> usize
    ensures { result ≡ count_by (λ q. nat_eq q.0.at e.at) pairs.now }
{
    pairs
        .as_slice()
        .iter()
        .filter(|pair| pair.0.at == e.at)
        .count()
}

/// How many pairs of a variational inequality have this variable.
pub fn paired_times(pairs: &Seq<(EquId, VarId)>, v: VarId) -> usize
    ensures { result ≡ count_by (λ q. nat_eq q.1.at v.at) pairs.now }
{
    pairs
        .as_slice()
        .iter()
        .filter(|pair| pair.1.at == v.at)
        .count()
}
