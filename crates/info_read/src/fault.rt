//! Why a text stands for no annotation.
ghost use Rattle.std.specs.Prelude.{◌≡◌};
ghost use Rattle.info_read.specs.declared.fault.InfoFault.TheVariants.{NoMemory};

use emp_ast::tree::Place;
use emp_lex::fault::LexFault;
use std::alloc::{AllocError, AllocFailed};
use thiserror::Error;

/// The first fault of an annotation, at the first token with which the tokens so far begin no annotation, or behind the
/// text. `specs/Faults.antt` defines it.
#[derive(Clone, Copy, Debug, Error)]
pub enum InfoFault {
    /// The text has no tokens.
    #[error("no tokens")]
    Lex(LexFault),
    /// Another token must stand there, or the text ends too early.
    #[error("syntax")]
    Syntax(Place),
    /// A name must stand there, and this one is neither a variable nor an equation of the model.
    #[error("unknown name")]
    Unknown(Place),
    /// A name of the other kind must stand there.
    #[error("a name of the wrong kind")]
    WrongKind(Place),
    #[error("no memory")]
    NoMemory,
}

impl From<AllocError> for InfoFault {
    ghost from_gives = { λ _ e. e ≡ NoMemory };

    fn from(_error: AllocError) -> Self {
        InfoFault::NoMemory
    }
}

impl<T: Drop> From<AllocFailed<T>> for InfoFault {
    ghost from_gives = { λ _ e. e ≡ NoMemory };

    fn from(_error: AllocFailed<T>) -> Self {
        InfoFault::NoMemory
    }
}

impl From<LexFault> for InfoFault {
    ghost use Rattle.info_read.specs.Texts.{of_lexer};

    ghost from_gives = { λ f e. e ≡ of_lexer f };

    fn from(fault: LexFault) -> Self {
        match fault {
            LexFault::NoMemory => InfoFault::NoMemory,
            _ => InfoFault::Lex(fault),
        }
    }
}
