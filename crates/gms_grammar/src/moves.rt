//! The reader's table.
ghost use Rattle.std.specs.Prelude.{◌≡◌, Some, None};
ghost use Rattle.gms_grammar.specs.Grammar.{sum_operator, product_operator, signed_limit};
ghost use Rattle.gms_grammar.specs.declared.item.Item.TheVariants.{Sets};
ghost use Rattle.gms_grammar.specs.declared.symbol.Declares.TheVariants.{Variables as ForVariables};
ghost use Rattle.gms_grammar.specs.declared.symbol.Want.TheVariants.{Semicolon as WantSemicolon};
ghost use Rattle.gms_grammar.specs.declared.symbol.Symbol.TheVariants.{Single, Write, Names, Aim, Factor, MoreFactors, MoreTerms};
ghost use Rattle.gms_grammar.specs.declared.symbol.Next.TheVariants.{One, Two, Four};
ghost use Rattle.gms_grammar.specs.declared.symbol.Move.TheVariants.{Take};
ghost use Rattle.gms_grammar.specs.Machine.{declared, is_wanted, single_move, file_move, semicolons_move, names_move, optional_text_move, more_names_move, after_name_move, attribute_move, value_move, signed_value_move, comparison_move, model_name_move, everything_move, match_equation_move, match_variable_move, more_matches_move, parts_of, solver_of, ending_of, solve_name_move, goal_move, aim_move, sum_move, factor_move, after_leaf_move, more_power_move, exponent_move, more_factors_move, more_terms_move, more_arguments_move, closing_move, move as move_of};

use crate::item::Item;
use crate::kind::Kind;
use crate::lexeme::{Domain, Lexeme, Scale, Sign, Sort, Word};
use crate::limit::Limit;
use crate::symbol::{Declares, Move, Next, Symbol, Want};
use emp_ast::model::Sense;
use emp_ast::tree::Operator;
use emp_num::frac::Frac;

// ---- statements

fn declared(how: Declares, t: Lexeme) -> Item
    ensures { result ≡ declared how t }
{
    match how {
        Declares::Variables(domain) => Item::Variable(domain, t),
        Declares::Equations => Item::Equation(t),
    }
}

fn is_wanted(want: Want, sort: Sort) -> bool
    ensures { result ≡ is_wanted want sort }
{
    match (want, sort) {
        (Want::Variables, Sort::Variables)
        | (Want::Equals, Sort::Equals)
        | (Want::Slash, Sort::Scale(Scale::Over))
        | (Want::Using, Sort::Name(Word::Using))
        | (Want::Emp, Sort::Name(Word::Emp))
        | (Want::Mcp, Sort::Name(Word::Mcp))
        | (Want::Dot, Sort::Dot)
        | (Want::Semicolon, Sort::Semicolon) => true,
        _ => false,
    }
}

fn single_move(want: Want, sort: Sort) -> Move
    ensures { result ≡ single_move want sort }
{
    if is_wanted(want, sort) {
        Move::Take(None, Next::Nothing)
    } else {
        Move::Fail
    }
}

fn names_of(domain: Domain) -> Symbol
    ensures { result ≡ Names (ForVariables domain) }
{
    Symbol::Names(Declares::Variables(domain))
}

/// Where a statement begins.
fn file_move(kind: Kind, t: Lexeme) -> Move
    ensures { result ≡ file_move kind t.sort t }
{
    match t.sort {
        Sort::Semicolon => Move::Take(None, Next::One(Symbol::File(kind))),
        Sort::Domain(domain) => Move::Take(
            Some(Item::Begins(domain, t)),
            Next::Three(
                Symbol::Single(Want::Variables),
                names_of(domain),
                Symbol::File(kind),
            ),
        ),
        Sort::Variables => Move::Take(
            Some(Item::Begins(Domain::Free, t)),
            Next::Two(names_of(Domain::Free), Symbol::File(kind)),
        ),
        Sort::Equations => Move::Take(
            None,
            Next::Two(Symbol::Names(Declares::Equations), Symbol::File(kind)),
        ),
        Sort::Model => Move::Take(None, Next::Two(Symbol::ModelName(kind), Symbol::File(kind))),
        Sort::Solve => Move::Take(None, Next::Two(Symbol::SolveName(kind), Symbol::Semicolons)),
        Sort::Name(_) => Move::Take(None, Next::Two(Symbol::AfterName(t), Symbol::File(kind))),
        _ => Move::Fail,
    }
}

fn semicolons_move(sort: Sort) -> Move
    ensures { result ≡ semicolons_move sort }
{
    match sort {
        Sort::Semicolon => Move::Take(None, Next::One(Symbol::Semicolons)),
        _ => Move::Fail,
    }
}

// ---- lists of names

fn names_move(how: Declares, t: Lexeme) -> Move
    ensures { result ≡ names_move how t.sort t }
{
    match t.sort {
        Sort::Name(_) => Move::Take(
            Some(declared(how, t)),
            Next::Two(Symbol::OptionalText, Symbol::MoreNames(how)),
        ),
        _ => Move::Fail,
    }
}

fn optional_text_move(sort: Sort) -> Move
    ensures { result ≡ optional_text_move sort }
{
    match sort {
        Sort::Text => Move::Take(None, Next::Nothing),
        _ => Move::Skip(None),
    }
}

fn more_names_move(how: Declares, t: Lexeme) -> Move
    ensures { result ≡ more_names_move how t.sort t }
{
    match t.sort {
        Sort::Name(_) => Move::Take(
            Some(declared(how, t)),
            Next::Two(Symbol::OptionalText, Symbol::MoreNames(how)),
        ),
        Sort::Comma => Move::Take(None, Next::One(Symbol::Names(how))),
        Sort::Semicolon => Move::Take(None, Next::Nothing),
        _ => Move::Fail,
    }
}

// ---- definitions and settings

fn after_name_move(name: Lexeme, sort: Sort) -> Move
    ensures { result ≡ after_name_move name sort }
{
    match sort {
        Sort::Dots => Move::Take(
            Some(Item::Defines(name)),
            Next::Two(Symbol::Sum, Symbol::Comparison),
        ),
        Sort::Dot => Move::Take(None, Next::One(Symbol::Attribute(name))),
        _ => Move::Fail,
    }
}

fn attribute_move(name: Lexeme, t: Lexeme) -> Move
    ensures { result ≡ attribute_move name t.sort t }
{
    match t.sort {
        Sort::Name(_) => Move::Take(
            None,
            Next::Two(Symbol::Single(Want::Equals), Symbol::Value(name, t)),
        ),
        _ => Move::Fail,
    }
}

fn sets(name: Lexeme, attribute: Lexeme, limit: Limit) -> Move
    ensures { result ≡ Take (Some (Sets name attribute limit)) (One (Single WantSemicolon)) }
{
    Move::Take(
        Some(Item::Sets(name, attribute, limit)),
        Next::One(Symbol::Single(Want::Semicolon)),
    )
}

fn value_move(name: Lexeme, attribute: Lexeme, sort: Sort) -> Move
    ensures { result ≡ value_move name attribute sort }
{
    match sort {
        Sort::Numeral(f) => sets(name, attribute, Limit::At(f)),
        Sort::Name(Word::Infinity) => sets(name, attribute, Limit::Above),
        Sort::Sign(sign) => Move::Take(None, Next::One(Symbol::SignedValue(name, attribute, sign))),
        _ => Move::Fail,
    }
}

/// A limit behind a sign.
fn signed_limit(sign: Sign, limit: Limit) -> Limit
    ensures { result ≡ signed_limit sign limit }
{
    match (sign, limit) {
        (Sign::Plus, _) => limit,
        (Sign::Minus, Limit::Below) => Limit::Above,
        (Sign::Minus, Limit::At(f)) => Limit::At(Frac::neg(f)),
        (Sign::Minus, Limit::Above) => Limit::Below,
    }
}

fn signed_value_move(name: Lexeme, attribute: Lexeme, sign: Sign, sort: Sort) -> Move
    ensures { result ≡ signed_value_move name attribute sign sort }
{
    match sort {
        Sort::Numeral(f) => sets(name, attribute, signed_limit(sign, Limit::At(f))),
        Sort::Name(Word::Infinity) => sets(name, attribute, signed_limit(sign, Limit::Above)),
        _ => Move::Fail,
    }
}

fn comparison_move(sort: Sort) -> Move
    ensures { result ≡ comparison_move sort }
{
    match sort {
        Sort::Relation(relation) => Move::Take(
            Some(Item::Relates(relation)),
            Next::Three(
                Symbol::Sum,
                Symbol::Single(Want::Semicolon),
                Symbol::Write(Item::Ends),
            ),
        ),
        _ => Move::Fail,
    }
}

// ---- the model and solve statements

/// What the model statement names.
fn parts_of(kind: Kind) -> Symbol
    ensures { result ≡ parts_of kind }
{
    match kind {
        Kind::Agents => Symbol::Everything,
        Kind::Matches => Symbol::MatchEquation,
    }
}

fn model_name_move(kind: Kind, t: Lexeme) -> Move
    ensures { result ≡ model_name_move kind t.sort t }
{
    match t.sort {
        Sort::Name(_) => Move::Take(
            Some(Item::Model(t)),
            Next::Three(
                Symbol::OptionalText,
                Symbol::Single(Want::Slash),
                parts_of(kind),
            ),
        ),
        _ => Move::Fail,
    }
}

fn everything_move(sort: Sort) -> Move
    ensures { result ≡ everything_move sort }
{
    match sort {
        Sort::Name(Word::All) => Move::Take(
            None,
            Next::Two(Symbol::Single(Want::Slash), Symbol::Single(Want::Semicolon)),
        ),
        _ => Move::Fail,
    }
}

fn match_equation_move(t: Lexeme) -> Move
    ensures { result ≡ match_equation_move t.sort t }
{
    match t.sort {
        Sort::Name(_) => Move::Take(
            None,
            Next::Two(Symbol::Single(Want::Dot), Symbol::MatchVariable(t)),
        ),
        _ => Move::Fail,
    }
}

fn match_variable_move(equation: Lexeme, t: Lexeme) -> Move
    ensures { result ≡ match_variable_move equation t.sort t }
{
    match t.sort {
        Sort::Name(_) => Move::Take(
            Some(Item::Match(equation, t)),
            Next::One(Symbol::MoreMatches),
        ),
        _ => Move::Fail,
    }
}

fn more_matches_move(sort: Sort) -> Move
    ensures { result ≡ more_matches_move sort }
{
    match sort {
        Sort::Comma => Move::Take(None, Next::One(Symbol::MatchEquation)),
        Sort::Scale(Scale::Over) => Move::Take(None, Next::One(Symbol::Single(Want::Semicolon))),
        _ => Move::Fail,
    }
}

fn solver_of(kind: Kind) -> Want
    ensures { result ≡ solver_of kind }
{
    match kind {
        Kind::Agents => Want::Emp,
        Kind::Matches => Want::Mcp,
    }
}

/// What ends the solve statement.
fn ending_of(kind: Kind) -> Symbol
    ensures { result ≡ ending_of kind }
{
    match kind {
        Kind::Agents => Symbol::Goal,
        Kind::Matches => Symbol::Single(Want::Semicolon),
    }
}

fn solve_name_move(kind: Kind, t: Lexeme) -> Move
    ensures { result ≡ solve_name_move kind t.sort t }
{
    match t.sort {
        Sort::Name(_) => Move::Take(
            Some(Item::Solves(t)),
            Next::Three(
                Symbol::Single(Want::Using),
                Symbol::Single(solver_of(kind)),
                ending_of(kind),
            ),
        ),
        _ => Move::Fail,
    }
}

fn aims(sense: Sense) -> Move
    ensures { result ≡ Take None (Two (Aim sense) (Single WantSemicolon)) }
{
    Move::Take(
        None,
        Next::Two(Symbol::Aim(sense), Symbol::Single(Want::Semicolon)),
    )
}

fn goal_move(sort: Sort) -> Move
    ensures { result ≡ goal_move sort }
{
    match sort {
        Sort::Name(Word::Minimizing) => aims(Sense::Min),
        Sort::Name(Word::Maximizing) => aims(Sense::Max),
        Sort::Semicolon => Move::Take(None, Next::Nothing),
        _ => Move::Fail,
    }
}

fn aim_move(sense: Sense, t: Lexeme) -> Move
    ensures { result ≡ aim_move sense t.sort t }
{
    match t.sort {
        Sort::Name(_) => Move::Take(Some(Item::Aims(sense, t)), Next::Nothing),
        _ => Move::Fail,
    }
}

// ---- expressions

fn sum_move(t: Lexeme) -> Move
    ensures { result ≡ sum_move t.sort t }
{
    match t.sort {
        Sort::Name(_) => Move::Take(
            None,
            Next::Four(
                Symbol::AfterLeaf(t),
                Symbol::MorePower,
                Symbol::MoreFactors,
                Symbol::MoreTerms,
            ),
        ),
        Sort::Numeral(f) => Move::Take(
            Some(Item::Number(t, f)),
            Next::Three(Symbol::MorePower, Symbol::MoreFactors, Symbol::MoreTerms),
        ),
        Sort::Open => Move::Take(
            None,
            Next::Four(
                Symbol::Sum,
                Symbol::Closing,
                Symbol::MoreFactors,
                Symbol::MoreTerms,
            ),
        ),
        Sort::Sign(sign) => one_term_more(Item::Signs(sign, t)),
        _ => Move::Fail,
    }
}

/// A term, then the item, and perhaps more terms.
fn one_term_more(item: Item) -> Move
    ensures { result ≡ Take None (Four Factor MoreFactors (Write item) MoreTerms) }
{
    Move::Take(
        None,
        Next::Four(
            Symbol::Factor,
            Symbol::MoreFactors,
            Symbol::Write(item),
            Symbol::MoreTerms,
        ),
    )
}

fn factor_move(t: Lexeme) -> Move
    ensures { result ≡ factor_move t.sort t }
{
    match t.sort {
        Sort::Name(_) => Move::Take(None, Next::Two(Symbol::AfterLeaf(t), Symbol::MorePower)),
        Sort::Numeral(f) => Move::Take(Some(Item::Number(t, f)), Next::One(Symbol::MorePower)),
        Sort::Open => Move::Take(None, Next::Two(Symbol::Sum, Symbol::Closing)),
        _ => Move::Fail,
    }
}

fn after_leaf_move(name: Lexeme, sort: Sort) -> Move
    ensures { result ≡ after_leaf_move name sort }
{
    match sort {
        Sort::Open => Move::Take(
            Some(Item::Enters(name)),
            Next::Two(Symbol::Sum, Symbol::MoreArguments(name)),
        ),
        _ => Move::Skip(Some(Item::Name(name))),
    }
}

fn more_power_move(t: Lexeme) -> Move
    ensures { result ≡ more_power_move t.sort t }
{
    match t.sort {
        Sort::Raise => Move::Take(None, Next::One(Symbol::Exponent(t))),
        _ => Move::Skip(None),
    }
}

fn exponent_move(raise: Lexeme, sort: Sort) -> Move
    ensures { result ≡ exponent_move raise sort }
{
    match sort {
        Sort::Numeral(f) => Move::Take(Some(Item::Raises(raise, f)), Next::Nothing),
        _ => Move::Fail,
    }
}

fn product_operator(scale: Scale) -> Operator
    ensures { result ≡ product_operator scale }
{
    match scale {
        Scale::Times => Operator::Times,
        Scale::Over => Operator::Over,
    }
}

fn more_factors_move(t: Lexeme) -> Move
    ensures { result ≡ more_factors_move t.sort t }
{
    match t.sort {
        Sort::Scale(scale) => Move::Take(
            None,
            Next::Three(
                Symbol::Factor,
                Symbol::Write(Item::Joins(product_operator(scale), t)),
                Symbol::MoreFactors,
            ),
        ),
        _ => Move::Skip(None),
    }
}

fn sum_operator(sign: Sign) -> Operator
    ensures { result ≡ sum_operator sign }
{
    match sign {
        Sign::Plus => Operator::Plus,
        Sign::Minus => Operator::Minus,
    }
}

fn more_terms_move(t: Lexeme) -> Move
    ensures { result ≡ more_terms_move t.sort t }
{
    match t.sort {
        Sort::Sign(sign) => one_term_more(Item::Joins(sum_operator(sign), t)),
        _ => Move::Skip(None),
    }
}

fn more_arguments_move(name: Lexeme, sort: Sort) -> Move
    ensures { result ≡ more_arguments_move name sort }
{
    match sort {
        Sort::Comma => Move::Take(
            Some(Item::Lists),
            Next::Two(Symbol::Sum, Symbol::MoreArguments(name)),
        ),
        Sort::Close => Move::Take(Some(Item::Applies(name)), Next::Nothing),
        _ => Move::Fail,
    }
}

fn closing_move(sort: Sort) -> Move
    ensures { result ≡ closing_move sort }
{
    match sort {
        Sort::Close => Move::Take(Some(Item::Groups), Next::One(Symbol::MorePower)),
        _ => Move::Fail,
    }
}

/// What the symbol on top does at the lexeme.
pub fn move_at(top: Symbol, t: Lexeme) -> Move
    ensures { result ≡ move_of top t.sort t }
{
    match top {
        Symbol::File(kind) => file_move(kind, t),
        Symbol::Semicolons => semicolons_move(t.sort),
        Symbol::Single(want) => single_move(want, t.sort),
        Symbol::Write(item) => Move::Skip(Some(item)),
        Symbol::Names(how) => names_move(how, t),
        Symbol::OptionalText => optional_text_move(t.sort),
        Symbol::MoreNames(how) => more_names_move(how, t),
        Symbol::AfterName(name) => after_name_move(name, t.sort),
        Symbol::Attribute(name) => attribute_move(name, t),
        Symbol::Value(name, attribute) => value_move(name, attribute, t.sort),
        Symbol::SignedValue(name, attribute, sign) => {
            signed_value_move(name, attribute, sign, t.sort)
        }
        Symbol::Comparison => comparison_move(t.sort),
        Symbol::ModelName(kind) => model_name_move(kind, t),
        Symbol::Everything => everything_move(t.sort),
        Symbol::MatchEquation => match_equation_move(t),
        Symbol::MatchVariable(equation) => match_variable_move(equation, t),
        Symbol::MoreMatches => more_matches_move(t.sort),
        Symbol::SolveName(kind) => solve_name_move(kind, t),
        Symbol::Goal => goal_move(t.sort),
        Symbol::Aim(sense) => aim_move(sense, t),
        Symbol::Sum => sum_move(t),
        Symbol::Factor => factor_move(t),
        Symbol::AfterLeaf(name) => after_leaf_move(name, t.sort),
        Symbol::MorePower => more_power_move(t),
        Symbol::Exponent(raise) => exponent_move(raise, t.sort),
        Symbol::MoreFactors => more_factors_move(t),
        Symbol::MoreTerms => more_terms_move(t),
        Symbol::MoreArguments(name) => more_arguments_move(name, t.sort),
        Symbol::Closing => closing_move(t.sort),
    }
}
