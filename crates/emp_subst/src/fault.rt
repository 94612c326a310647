//! Why a file has no problem, and why a point has no way back.
use emp_ast::tree::{EquId, VarId};
use emp_list::memory::NoMemory;
use emp_poly::tree::PolyFault;
use std::alloc::AllocError;

/// Why a file has no problem. `Poly`: the first side of an equation that is no polynomial, or whose expansion is wide, in order
/// of declaration, left before right, has this fault. `Quadratic`: all sides are expanded, and this is the first equation that
/// is a constraint or a function and has a quadratic coefficient, with the first pair of variables that has one.
/// `LeaderNotLinear`: none of these has, and the objective of the leader of a bilevel file has one, first at this pair.
#[derive(Clone, Copy, Debug, PartialEq, Eq)]
pub enum SubstFault {
    Poly(PolyFault),
    Quadratic(EquId, VarId, VarId),
    LeaderNotLinear(VarId, VarId),
    NoMemory,
}

/// Why a point has no way back. `Wide`: this is the first defined objective, in order of declaration, for whose value a wide
/// number is formed.
#[derive(Clone, Copy, Debug, PartialEq, Eq)]
pub enum FillFault {
    Wide(VarId),
    NoMemory,
}

impl From<PolyFault> for SubstFault {
    ghost use Rattle.std.specs.Prelude.{◌≡◌};
    ghost use Rattle.emp_subst.specs.Stages.{of_poly};

    ghost from_gives = { λ e f. f ≡ of_poly e };

    fn from(error: PolyFault) -> SubstFault {
        match error {
            PolyFault::NoMemory => SubstFault::NoMemory,
            PolyFault::Degree(_)
            | PolyFault::DivideByVariable(_)
            | PolyFault::DivideByZero(_)
            | PolyFault::Wide(_) => SubstFault::Poly(error),
        }
    }
}

impl From<NoMemory> for SubstFault {
    ghost use Rattle.std.specs.Prelude.{◌≡◌};
    ghost use Rattle.emp_subst.specs.declared.fault.SubstFault.TheVariants.{NoMemory as NoMemoryFault};

    ghost from_gives = { λ _ f. f ≡ NoMemoryFault };

    fn from(_error: NoMemory) -> SubstFault {
        SubstFault::NoMemory
    }
}

impl From<AllocError> for SubstFault {
    ghost use Rattle.std.specs.Prelude.{◌≡◌};
    ghost use Rattle.emp_subst.specs.declared.fault.SubstFault.TheVariants.{NoMemory as NoMemoryFault};

    ghost from_gives = { λ _ f. f ≡ NoMemoryFault };

    fn from(_error: AllocError) -> SubstFault {
        SubstFault::NoMemory
    }
}

impl From<NoMemory> for FillFault {
    ghost use Rattle.std.specs.Prelude.{◌≡◌};
    ghost use Rattle.emp_subst.specs.declared.fault.FillFault.TheVariants.{NoMemory as NoMemoryFault};

    ghost from_gives = { λ _ f. f ≡ NoMemoryFault };

    fn from(_error: NoMemory) -> FillFault {
        FillFault::NoMemory
    }
}

impl From<AllocError> for FillFault {
    ghost use Rattle.std.specs.Prelude.{◌≡◌};
    ghost use Rattle.emp_subst.specs.declared.fault.FillFault.TheVariants.{NoMemory as NoMemoryFault};

    ghost from_gives = { λ _ f. f ≡ NoMemoryFault };

    fn from(_error: AllocError) -> FillFault {
        FillFault::NoMemory
    }
}
