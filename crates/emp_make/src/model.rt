//! The model of a market: its variables `pi1`, `pi2`, .. and `q1`, `q2`, .., and its equations `d1`, `d2`, ..
ghost use Rattle.std.specs.Prelude.{◌≡◌, ◌<◌, ◌≤◌, ◌++◌, true, IfOk, OnOk};
ghost use Rattle.emp_num.specs.Whole.{whole};
ghost use Rattle.emp_ast.specs.Expression.{number, is_postorder, expression_of};
ghost use Rattle.emp_make.specs.Markets.{first_of_market, quantity, profit, numbered, profit_variable, quantity_variable, IsProfitEquation, IsMarketModel};
ghost use Rattle.emp_make.specs.Parts.{less, earned, profit_variables, quantity_variables, AreProfitEquations};

use crate::draws::{cap, cost, demand};
use emp_ast::model::{End, Equation, Model, Relation, Variable};
use emp_ast::tree::{Node, Place, Tree, VarId};
use emp_list::memory::NoMemory;
use emp_list::name::Name;
use emp_list::seq::Seq;
use emp_num::frac::Frac;
use itoa::Buffer;
use std::alloc::Global;

// ---- names and numbers
/// The name with the firm's number, from 1.
fn numbered(alloc: Global, name: &[u8], firm: u32) -> Result<Name, NoMemory>
    requires { firm < 40 }
    ensures { IfOk result (λ n. n ≡ numbered name.now firm) }
{
    let mut buffer = Buffer::new();
    let mut text = Vec::from_slice(alloc, name)?;
    text.extend_from_slice(buffer.format(firm + 1).as_bytes())?;
    Ok(Name::of(alloc, text.as_slice())?)
}

/// The fraction of a whole number.
#[tactic(auto, using(crate::proofs::Wholes::is_whole))]
fn whole(number: u32) -> Frac
    ensures { result ≡ whole number }
{
    Frac::reduced(i128::from(number), 1)
}

/// The number of the variable of the firm's quantity.
pub fn quantity(firms: u32, firm: u32) -> VarId
    requires few { firms ≤ 40 }
    requires within { firm < firms }
    ensures { result.at ≡ quantity firms firm }
{
    VarId { at: firms + firm }
}

/// The number of the first firm of the firm's market.
fn first_of_market(firm: u32) -> u32
    ensures value { result ≡ first_of_market firm }
    ensures before { result ≤ firm }
{
    2 * (firm / 2)
}

// ---- sides
/// The tree of these nodes. No text has it, so that all its places are the first.
fn tree(alloc: Global, nodes: &[Node]) -> Result<Tree, NoMemory>
    requires { is_postorder nodes.now ≡ true }
    ensures { IfOk result (λ t. t.nodes ≡ nodes.now) }
{
    let nodes = Seq::of_slice(alloc, nodes)?;
    let place = Place { line: 1, column: 1 };
    let places = Seq::of(vec![in alloc; place; nodes.len()]?);
    Ok(Tree { nodes, places })
}

/// The tree of `(demand - first - second)*own - cost*own`.
fn shared_profit(
    alloc: Global,
    demand: Frac,
    first: VarId,
    second: VarId,
    cost: Frac,
    own: VarId,
) -> Result<Tree, NoMemory>
    ensures { IfOk result (λ t. expression_of t.nodes ≡ earned (less (less (number demand) first.at) second.at) cost own.at) }
{
    let demand = Node::Number(demand);
    let first = Node::Var(first);
    let second = Node::Var(second);
    let cost = Node::Number(cost);
    let own = Node::Var(own);
    tree(
        alloc,
        &[
            demand,
            first,
            Node::Sub(0, 1),
            second,
            Node::Sub(2, 3),
            own,
            Node::Mul(4, 5),
            cost,
            own,
            Node::Mul(7, 8),
            Node::Sub(6, 9),
        ],
    )
}

/// The tree of `(demand - own)*own - cost*own`.
fn lone_profit(alloc: Global, demand: Frac, cost: Frac, own: VarId) -> Result<Tree, NoMemory>
    ensures { IfOk result (λ t. expression_of t.nodes ≡ earned (less (number demand) own.at) cost own.at) }
{
    let demand = Node::Number(demand);
    let cost = Node::Number(cost);
    let own = Node::Var(own);
    tree(
        alloc,
        &[
            demand,
            own,
            Node::Sub(0, 1),
            own,
            Node::Mul(2, 3),
            cost,
            own,
            Node::Mul(5, 6),
            Node::Sub(4, 7),
        ],
    )
}

/// What the firm earns: the price times its quantity, less the cost of the quantity.
fn profit(alloc: Global, seed: u64, firms: u32, firm: u32) -> Result<Tree, NoMemory>
    requires few { firms ≤ 40 }
    requires within { firm < firms }
    ensures { IfOk result (λ t. expression_of t.nodes ≡ profit seed firms firm) }
{
    let demand = whole(demand(seed, firm));
    let cost = whole(cost(seed, firm));
    let own = quantity(firms, firm);
    let first = first_of_market(firm);
    if first + 1 < firms {
        shared_profit(
            alloc,
            demand,
            quantity(firms, first),
            quantity(firms, first + 1),
            cost,
            own,
        )
    } else {
        lone_profit(alloc, demand, cost, own)
    }
}

// ---- equations
/// The equation of the firm.
fn equation(alloc: Global, seed: u64, firms: u32, firm: u32) -> Result<Equation, NoMemory>
    requires few { firms ≤ 40 }
    requires within { firm < firms }
    ensures { IfOk result (IsProfitEquation seed firms firm) }
{
    let name = numbered(alloc, b"d", firm)?;
    let left = tree(alloc, &[Node::Var(VarId { at: firm })])?;
    let right = profit(alloc, seed, firms, firm)?;
    Ok(Equation {
        name,
        left,
        right,
        relation: Relation::Equal,
    })
}

/// The equations of all firms.
fn equations(alloc: Global, seed: u64, firms: u32) -> Result<Seq<Equation>, NoMemory>
    requires few { firms ≤ 40 }
    ensures { IfOk result (AreProfitEquations seed firms firms) }
{
    let mut equations = Seq::new(alloc);
    for firm in 0..firms {
        equations.push(equation(alloc, seed, firms, firm)?)?;
    }
    Ok(equations)
}

// ---- variables
/// The variable of the firm's profit.
fn profit_variable(alloc: Global, firm: u32) -> Result<Variable, NoMemory>
    requires { firm < 40 }
    ensures { IfOk result (λ v. v ≡ profit_variable firm) }
{
    let name = numbered(alloc, b"pi", firm)?;
    Ok(Variable {
        name,
        low: End::Open,
        high: End::Open,
    })
}

/// The variable of the firm's quantity, from 0 to its cap.
fn quantity_variable(alloc: Global, seed: u64, firm: u32) -> Result<Variable, NoMemory>
    requires { firm < 40 }
    ensures { IfOk result (λ v. v ≡ quantity_variable seed firm) }
{
    let name = numbered(alloc, b"q", firm)?;
    let low = whole(0);
    let high = whole(cap(seed, firm));
    Ok(Variable {
        name,
        low: End::At(low),
        high: End::At(high),
    })
}

/// Puts the variables of all profits at the end.
#[tactic(auto, using(crate::proofs::Lists::made_more_behind))]
fn push_profits(alloc: Global, variables: &mut Seq<Variable>, firms: u32) -> Result<(), NoMemory>
    requires few { firms ≤ 40 }
    ensures { OnOk result (variables.new ≡ variables.old ++ profit_variables firms) }
{
    for firm in 0..firms {
        variables.push(profit_variable(alloc, firm)?)?;
    }
    Ok(())
}

/// Puts the variables of all quantities at the end.
#[tactic(auto, using(crate::proofs::Lists::made_more_behind))]
fn push_quantities(
    alloc: Global,
    variables: &mut Seq<Variable>,
    seed: u64,
    firms: u32,
) -> Result<(), NoMemory>
    requires few { firms ≤ 40 }
    ensures { OnOk result (variables.new ≡ variables.old ++ quantity_variables seed firms) }
{
    for firm in 0..firms {
        variables.push(quantity_variable(alloc, seed, firm)?)?;
    }
    Ok(())
}

// ---- the model
/// The model of the market of a seed with so many firms.
pub fn market_model(alloc: Global, seed: u64, firms: u32) -> Result<Model, NoMemory>
    requires few { firms ≤ 40 }
    ensures { IfOk result (IsMarketModel seed firms) }
{
    let name = Name::of(alloc, b"m")?;
    let mut variables = Seq::new(alloc);
    push_profits(alloc, &mut variables, firms)?;
    push_quantities(alloc, &mut variables, seed, firms)?;
    let equations = equations(alloc, seed, firms)?;
    Ok(Model {
        name,
        variables,
        equations,
        goal: None,
    })
}
