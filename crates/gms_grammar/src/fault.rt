//! Why a text stands for no model.
ghost use Rattle.std.specs.Prelude.{◌≡◌};
ghost use Rattle.gms_grammar.specs.declared.fault.ModelFault.TheVariants.{NoMemory};

use emp_ast::tree::{EquId, Place, VarId};
use emp_lex::fault::LexFault;
use emp_list::memory;
use emp_list::name::Name;
use std::alloc::{AllocError, AllocFailed};

/// The first fault of a model text. A place is that of the name or the operator at fault.
#[derive(Drop)]
pub enum ModelFault {
    /// The text has no tokens.
    Lex(LexFault),
    /// The tokens are no grammatical text: the first with which those up to it begin none, or the place behind the text.
    Syntax(Place),
    /// A name that is not declared before.
    Undeclared(Place),
    /// A name that is declared a second time, an equation that is defined a second time, or a second model.
    Twice(Place),
    /// A declaration of discrete variables.
    Discrete(Place),
    /// A setting that a variable or an equation does not have.
    Attribute(Place),
    /// A function other than a square or a power, or an exponent that is not whole from 0 to 9.
    Function(Place),
    /// The 65th level of parentheses, or the 513th variable or equation.
    TooLarge(Place),
    /// The first equation that is declared and not defined.
    Undefined(EquId, Name),
    /// The first variable whose bounds leave it no value.
    BoundsCross(VarId, Name),
    /// There was no memory; this says nothing of the text.
    NoMemory,
}

impl From<AllocError> for ModelFault {
    ghost from_gives = { λ _ e. e ≡ NoMemory };

    fn from(_error: AllocError) -> Self {
        ModelFault::NoMemory
    }
}

impl<T: Drop> From<AllocFailed<T>> for ModelFault {
    ghost from_gives = { λ _ e. e ≡ NoMemory };

    fn from(_error: AllocFailed<T>) -> Self {
        ModelFault::NoMemory
    }
}

impl From<memory::NoMemory> for ModelFault {
    ghost from_gives = { λ _ e. e ≡ NoMemory };

    fn from(_error: memory::NoMemory) -> Self {
        ModelFault::NoMemory
    }
}

impl From<LexFault> for ModelFault {
    ghost use Rattle.gms_grammar.specs.Steps.{of_lexer};

    ghost from_gives = { λ f e. e ≡ of_lexer f };

    fn from(fault: LexFault) -> Self {
        match fault {
            LexFault::NoMemory => ModelFault::NoMemory,
            _ => ModelFault::Lex(fault),
        }
    }
}
