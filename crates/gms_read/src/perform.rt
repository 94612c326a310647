//! From items to a draft, rule by rule.
ghost use Rattle.std.specs.Prelude.{◌≡◌, Ok};
ghost use Rattle.gms_grammar.specs.declared.kind.Kind.{Kind};
ghost use Rattle.gms_read.specs.Steps.{DraftsAll};
ghost use Rattle.gms_read.specs.Rules.{nothing_yet};
ghost use Rattle.gms_read.specs.Performing.{Does, idle, item_step, begun, begun_variables, related, ended};

use crate::declare::{equation_in, variable_in};
use crate::draft::Draft;
use crate::progress::{Progress, Second, Side};
use emp_ast::model::Relation;
use gms_grammar::fault::ModelFault;
use gms_grammar::item::Item;
use gms_grammar::lexeme::{Domain, Lexeme};
use std::alloc::Global;

impl Progress {
    ghost use Rattle.gms_read.specs.Rules.{discrete_fault, match_fault};

    fn new(alloc: Global) -> Progress
        ensures { result ≡ idle nothing_yet }
    {
        Progress {
            draft: Draft::new(alloc),
            equation: 0,
            left: Side::new(alloc),
            relation: Relation::Nothing,
            side: Side::new(alloc),
        }
    }

    /// A declaration of variables begins; none of discrete ones may.
    fn begin_variables(&mut self, domain: Domain, lexeme: Lexeme) -> Result<(), ModelFault>
        ensures { Does result self.new (begun_variables self.old (discrete_fault domain lexeme)) }
    {
        match domain {
            Domain::Discrete => Err(ModelFault::Discrete(lexeme.place)),
            Domain::Free => Ok(()),
            Domain::Positive => Ok(()),
            Domain::Negative => Ok(()),
        }
    }

    /// A match, whose equation and variable are declared before.
    fn pair(
        &mut self,
        alloc: Global,
        text: &[u8],
        equation: Lexeme,
        variable: Lexeme,
    ) -> Result<(), ModelFault>
        ensures { Does result self.new (begun_variables self.old (match_fault text.now self.old.draft (equation, variable))) }
    {
        match equation_in(self.draft.declared_as(alloc, text, equation)?) {
            Some(_) => match variable_in(self.draft.declared_as(alloc, text, variable)?) {
                Some(_) => Ok(()),
                None => Err(ModelFault::Undeclared(variable.place)),
            },
            None => Err(ModelFault::Undeclared(equation.place)),
        }
    }

    /// A definition begins.
    fn begin(&mut self, alloc: Global, text: &[u8], lexeme: Lexeme) -> Result<(), ModelFault>
        ensures { Does result self.new (begun text.now self.old lexeme) }
    {
        match equation_in(self.draft.declared_as(alloc, text, lexeme)?) {
            Some(number) => {
                if self.draft.is_defined(number) {
                    return Err(ModelFault::Twice(lexeme.place));
                }
                self.equation = number;
                Ok(())
            }
            None => Err(ModelFault::Undeclared(lexeme.place)),
        }
    }

    /// The left side ends.
    fn relate(&mut self, alloc: Global, relation: Relation)
        ensures { self.new ≡ related self.old relation }
    {
        self.left = std::mem::replace(&mut self.side, Side::new(alloc));
        self.relation = relation;
    }

    /// The right side ends.
    fn end(&mut self, alloc: Global) -> Result<(), ModelFault>
        ensures { Does result self.new (Ok (ended self.old)) }
    {
        let left = std::mem::replace(&mut self.left, Side::new(alloc)).tree(alloc)?;
        let right = std::mem::replace(&mut self.side, Side::new(alloc)).tree(alloc)?;
        self.draft
            .define_by(self.equation, left, self.relation, right);
        self.equation = 0;
        self.relation = Relation::Nothing;
        Ok(())
    }

    /// Performs an item; `rest` are the items behind it.
    fn perform_item(
        &mut self,
        alloc: Global,
        text: &[u8],
        item: Item,
        rest: &[Item],
    ) -> Result<(), ModelFault>
        ensures { Does result self.new (item_step text.now self.old item rest.now) }
    {
        match item {
            Item::Begins(domain, lexeme) => self.begin_variables(domain, lexeme),
            Item::Variable(domain, lexeme) => {
                self.draft.declare_variable(alloc, text, domain, lexeme)
            }
            Item::Equation(lexeme) => self.draft.declare_equation(alloc, text, lexeme),
            Item::Defines(lexeme) => self.begin(alloc, text, lexeme),
            Item::Relates(relation) => {
                self.relate(alloc, relation);
                Ok(())
            }
            Item::Ends => self.end(alloc),
            Item::Number(lexeme, value) => self.side.number(lexeme, value),
            Item::Name(lexeme) => {
                let found = variable_in(self.draft.declared_as(alloc, text, lexeme)?);
                self.side.name(lexeme, found)
            }
            Item::Enters(lexeme) => self.side.enter(lexeme, rest),
            Item::Lists => {
                self.side.second = Second::Awaited;
                Ok(())
            }
            Item::Applies(lexeme) => self.side.apply(lexeme),
            Item::Groups => Ok(()),
            Item::Raises(lexeme, value) => self.side.raise(lexeme, value),
            Item::Signs(sign, lexeme) => self.side.sign(lexeme, sign),
            Item::Joins(operator, lexeme) => self.side.join(lexeme, operator),
            Item::Sets(lexeme, attribute, limit) => {
                let found = self.draft.declared_as(alloc, text, lexeme)?;
                self.draft.set(lexeme, attribute, limit, found)
            }
            Item::Model(lexeme) => self.draft.declare_model(alloc, text, lexeme),
            Item::Match(equation, variable) => { self.pair(alloc, text, equation, variable) }
            Item::Solves(lexeme) => self.draft.solve(alloc, text, lexeme),
            Item::Aims(sense, lexeme) => self.draft.aim(alloc, text, sense, lexeme),
        }
    }
}

/// What the statements of the items declare, define and set, or the first rule that they break.
#[tactic(auto, using(crate::proofs::Performed::performing))]
pub fn perform(alloc: Global, text: &[u8], items: &[Item]) -> Result<Draft, ModelFault>
    ensures { (k : Kind) → DraftsAll k text.now items.now result }
{
    let mut progress = Progress::new(alloc);
    for i in 0..items.len() {
        progress.perform_item(alloc, text, items[i], &items[i + 1..])?;
    }
    Ok(progress.draft)
}
