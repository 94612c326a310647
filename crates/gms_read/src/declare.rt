//! What declarations, definitions and settings do to a draft.
ghost use Rattle.std.specs.Prelude.{◌≡◌, ◌<◌, length, None, Ok, MatchResult};
ghost use Rattle.emp_num.specs.Whole.{whole};
ghost use Rattle.gms_read.specs.Rules.{first_low, first_high, has_sign, is_infinite, variable_in, equation_in, is_model_entry};

use crate::draft::{Definition, Draft, DraftEquation, DraftVariable};
use crate::table::{Named, Table};
use emp_ast::model::{Relation, Sense};
use emp_ast::tree::{Place, Tree, VarId};
use emp_list::name::Name;
use emp_list::seq::Seq;
use emp_num::frac::Frac;
use gms_grammar::fault::ModelFault;
use gms_grammar::lexeme::{Domain, Lexeme, Sort, Word};
use gms_grammar::limit::Limit;
use std::alloc::Global;

/// The most variables, and the most equations, of a model.
const MOST: usize = 512;

#[tactic(auto, using(crate::proofs::Declaring::zeros))]
fn zero() -> Frac
    ensures { result ≡ whole 0 }
{
    Frac::reduced(0, 1)
}

fn first_low(domain: Domain) -> Limit
    ensures { result ≡ first_low domain }
{
    match domain {
        Domain::Positive => Limit::At(zero()),
        Domain::Free | Domain::Negative | Domain::Discrete => Limit::Below,
    }
}

fn first_high(domain: Domain) -> Limit
    ensures { result ≡ first_high domain }
{
    match domain {
        Domain::Negative => Limit::At(zero()),
        Domain::Free | Domain::Positive | Domain::Discrete => Limit::Above,
    }
}

fn has_sign(domain: Domain) -> bool
    ensures { result ≡ has_sign domain }
{
    match domain {
        Domain::Positive | Domain::Negative => true,
        Domain::Free | Domain::Discrete => false,
    }
}

fn is_infinite(limit: Limit) -> bool
    ensures { result ≡ is_infinite limit }
{
    match limit {
        Limit::At(_) => false,
        Limit::Below | Limit::Above => true,
    }
}

/// The number of the variable that a name is declared as.
pub fn variable_in(found: Option<Named>) -> Option<u32>
    ensures { result ≡ variable_in found }
{
    match found {
        Some(Named::Variable(number)) => Some(number),
        Some(Named::Equation(_)) => None,
        Some(Named::Model) => None,
        None => None,
    }
}

/// The number of the equation that a name is declared as.
pub fn equation_in(found: Option<Named>) -> Option<u32>
    ensures { result ≡ equation_in found }
{
    match found {
        Some(Named::Variable(_)) => None,
        Some(Named::Equation(number)) => Some(number),
        Some(Named::Model) => None,
        None => None,
    }
}

fn is_model(found: Option<Named>) -> bool
    ensures { result ≡ is_model_entry found }
{
    match found {
        Some(Named::Model) => true,
        Some(Named::Variable(_)) => false,
        Some(Named::Equation(_)) => false,
        None => false,
    }
}

#[tactic(auto, using(crate::proofs::Declaring::declaring))]
impl Draft {
    ghost use Rattle.gms_grammar.specs.declared.fault.ModelFault.TheVariants.{NoMemory};
    ghost use Rattle.gms_read.specs.Rules.{nothing_yet, declared_as, add_variable, restrict, declare_variable, add_equation, declare_equation, declare_model, is_defined, with_sides, with_low, with_high, set_variable, set_by, aim_at, variable_of};
    ghost use Rattle.gms_read.specs.Performing.{Does, define_by, solved};

    /// Nothing is declared yet.
    pub fn new(alloc: Global) -> Draft
        ensures { result ≡ nothing_yet }
    {
        Draft {
            names: Table::new(alloc),
            variables: Seq::new(alloc),
            equations: Seq::new(alloc),
            model: None,
            goal: None,
        }
    }

    /// What the name of a lexeme is declared as.
    pub fn declared_as(
        &self,
        alloc: Global,
        text: &[u8],
        lexeme: Lexeme,
    ) -> Result<Option<Named>, ModelFault>
        ensures { MatchResult result (λ found. found ≡ declared_as text.now self.now lexeme) (λ f. f ≡ NoMemory) }
    {
        let found = self.names.find(alloc, lexeme.spelling(text))?;
        Ok(found)
    }

    fn add_variable(
        &mut self,
        alloc: Global,
        text: &[u8],
        domain: Domain,
        lexeme: Lexeme,
    ) -> Result<(), ModelFault>
        requires new { declared_as text.now self.old lexeme ≡ None }
        requires few { length self.old.variables < 512 }
        ensures { Does result self.new (Ok (add_variable text.now domain self.old lexeme)) }
    {
        let number = self.variables.len() as u32;
        let name = Name::of(alloc, lexeme.spelling(text))?;
        self.names
            .add(alloc, lexeme.spelling(text), Named::Variable(number))?;
        self.variables.push(DraftVariable {
            name,
            low: first_low(domain),
            high: first_high(domain),
            signed: has_sign(domain),
        })?;
        Ok(())
    }

    fn restrict(&mut self, domain: Domain, lexeme: Lexeme, number: u32) -> Result<(), ModelFault>
        ensures { Does result self.new (restrict domain self.old lexeme number) }
    {
        if !has_sign(domain) {
            return Err(ModelFault::Twice(lexeme.place));
        }
        let at = number as usize;
        if at < self.variables.len() {
            let variable = self.variables.get_mut(at);
            if variable.signed {
                return Err(ModelFault::Twice(lexeme.place));
            }
            variable.low = first_low(domain);
            variable.high = first_high(domain);
            variable.signed = true;
        }
        Ok(())
    }

    /// Declares a variable, or gives a sign to one that was declared without.
    pub fn declare_variable(
        &mut self,
        alloc: Global,
        text: &[u8],
        domain: Domain,
        lexeme: Lexeme,
    ) -> Result<(), ModelFault>
        ensures { Does result self.new (declare_variable text.now domain self.old lexeme) }
    {
        match self.declared_as(alloc, text, lexeme)? {
            Some(Named::Variable(number)) => self.restrict(domain, lexeme, number),
            Some(Named::Equation(_)) => Err(ModelFault::Twice(lexeme.place)),
            Some(Named::Model) => Err(ModelFault::Twice(lexeme.place)),
            None => {
                if self.variables.len() < MOST {
                    self.add_variable(alloc, text, domain, lexeme)
                } else {
                    Err(ModelFault::TooLarge(lexeme.place))
                }
            }
        }
    }

    fn add_equation(&mut self, alloc: Global, text: &[u8], lexeme: Lexeme) -> Result<(), ModelFault>
        requires new { declared_as text.now self.old lexeme ≡ None }
        requires few { length self.old.equations < 512 }
        ensures { Does result self.new (Ok (add_equation text.now self.old lexeme)) }
    {
        let number = self.equations.len() as u32;
        let name = Name::of(alloc, lexeme.spelling(text))?;
        self.names
            .add(alloc, lexeme.spelling(text), Named::Equation(number))?;
        self.equations.push(DraftEquation {
            name,
            definition: None,
        })?;
        Ok(())
    }

    /// Declares an equation.
    pub fn declare_equation(
        &mut self,
        alloc: Global,
        text: &[u8],
        lexeme: Lexeme,
    ) -> Result<(), ModelFault>
        ensures { Does result self.new (declare_equation text.now self.old lexeme) }
    {
        match self.declared_as(alloc, text, lexeme)? {
            Some(_) => Err(ModelFault::Twice(lexeme.place)),
            None => {
                if self.equations.len() < MOST {
                    self.add_equation(alloc, text, lexeme)
                } else {
                    Err(ModelFault::TooLarge(lexeme.place))
                }
            }
        }
    }

    /// Declares the model.
    pub fn declare_model(
        &mut self,
        alloc: Global,
        text: &[u8],
        lexeme: Lexeme,
    ) -> Result<(), ModelFault>
        ensures { Does result self.new (declare_model text.now self.old lexeme) }
    {
        if self.model.is_some() {
            return Err(ModelFault::Twice(lexeme.place));
        }
        if self.declared_as(alloc, text, lexeme)?.is_some() {
            return Err(ModelFault::Twice(lexeme.place));
        }
        let name = Name::of(alloc, lexeme.spelling(text))?;
        self.names.add(alloc, lexeme.spelling(text), Named::Model)?;
        self.model = Some(name);
        Ok(())
    }

    /// Whether the equation is defined.
    pub fn is_defined(&self, number: u32) -> bool
        ensures { result ≡ is_defined self.now number }
    {
        let at = number as usize;
        at < self.equations.len() && self.equations.get(at).definition.is_some()
    }

    /// Defines the equation of that number.
    fn define(&mut self, number: u32, definition: Definition)
        ensures { self.new ≡ with_sides self.old number definition }
    {
        let at = number as usize;
        if at < self.equations.len() {
            let equation = self.equations.get_mut(at);
            equation.definition = Some(definition);
        }
    }

    /// Defines the equation of that number, where both sides are expressions.
    pub fn define_by(
        &mut self,
        number: u32,
        left: Option<Tree>,
        relation: Relation,
        right: Option<Tree>,
    )
        ensures { self.new ≡ define_by self.old number left relation right }
    {
        let Some(left) = left else {
            return;
        };
        let Some(right) = right else {
            return;
        };
        self.define(
            number,
            Definition {
                left,
                relation,
                right,
            },
        );
    }

    fn set_low(&mut self, number: u32, limit: Limit)
        ensures { self.new ≡ with_low self.old number limit }
    {
        let at = number as usize;
        if at < self.variables.len() {
            let variable = self.variables.get_mut(at);
            variable.low = limit;
        }
    }

    fn set_high(&mut self, number: u32, limit: Limit)
        ensures { self.new ≡ with_high self.old number limit }
    {
        let at = number as usize;
        if at < self.variables.len() {
            let variable = self.variables.get_mut(at);
            variable.high = limit;
        }
    }

    fn set_variable(
        &mut self,
        number: u32,
        place: Place,
        sort: Sort,
        limit: Limit,
    ) -> Result<(), ModelFault>
        ensures { Does result self.new (set_variable self.old number place sort limit) }
    {
        match sort {
            Sort::Name(Word::Low) => self.set_low(number, limit),
            Sort::Name(Word::High) => self.set_high(number, limit),
            Sort::Name(Word::Fixed) => {
                if is_infinite(limit) {
                    return Err(ModelFault::Attribute(place));
                }
                self.set_low(number, limit);
                self.set_high(number, limit);
            }
            Sort::Name(Word::Level) => {}
            Sort::Name(Word::Marginal) => {}
            _ => return Err(ModelFault::Attribute(place)),
        }
        Ok(())
    }

    /// A setting; `found` is what the name is declared as.
    pub fn set(
        &mut self,
        lexeme: Lexeme,
        attribute: Lexeme,
        limit: Limit,
        found: Option<Named>,
    ) -> Result<(), ModelFault>
        ensures { Does result self.new (set_by self.old lexeme attribute limit found) }
    {
        match found {
            Some(Named::Variable(number)) => {
                self.set_variable(number, attribute.place, attribute.sort, limit)
            }
            Some(Named::Equation(_)) => match attribute.sort {
                Sort::Name(Word::Level) => Ok(()),
                Sort::Name(Word::Marginal) => Ok(()),
                _ => Err(ModelFault::Attribute(attribute.place)),
            },
            Some(Named::Model) => Ok(()),
            None => Err(ModelFault::Undeclared(lexeme.place)),
        }
    }

    /// The solve statement, which names the model.
    pub fn solve(&mut self, alloc: Global, text: &[u8], lexeme: Lexeme) -> Result<(), ModelFault>
        ensures { Does result self.new (solved text.now self.old lexeme) }
    {
        if is_model(self.declared_as(alloc, text, lexeme)?) {
            self.goal = None;
            Ok(())
        } else {
            Err(ModelFault::Undeclared(lexeme.place))
        }
    }

    /// The objective of the solve statement.
    pub fn aim(
        &mut self,
        alloc: Global,
        text: &[u8],
        sense: Sense,
        lexeme: Lexeme,
    ) -> Result<(), ModelFault>
        ensures { Does result self.new (aim_at self.old sense lexeme (variable_of text.now self.old lexeme)) }
    {
        match variable_in(self.declared_as(alloc, text, lexeme)?) {
            Some(at) => {
                self.goal = Some((sense, VarId { at }));
                Ok(())
            }
            None => Err(ModelFault::Undeclared(lexeme.place)),
        }
    }
}
