//! Owners, and why there are none.
ghost use Rattle.std.specs.Prelude.{◌≡◌, IfOk};

use emp_ast::tree::{EquId, VarId};
use emp_list::memory::NoMemory;
use emp_list::seq::Seq;
use std::alloc::{AllocError, Global};
use thiserror::Error;

/// The owner of a variable.
#[derive(Clone, Copy, Debug, PartialEq, Eq)]
pub enum Owner {
    /// The leader of a bilevel file.
    Leader,
    /// A block, by its number from 1.
    Block(u32),
    /// The variable is the dual variable of this equation.
    Dual(EquId),
    /// The variable is an implicit one: each block that lists it owns it, and this equation ties it.
    Implicit(EquId),
}

/// Owners and definitions, for which no rule of ownership is broken.
#[derive(Drop)]
pub struct Owned {
    /// One owner for each variable, in order of declaration.
    pub owners: Seq<Owner>,
    /// One entry for each block: the equation that defines the agent's objective, if there is one.
    pub defined: Seq<Option<EquId>>,
    /// The equation that defines the leader's objective in a bilevel file, if there is one.
    pub leader: Option<EquId>,
}

impl Owned {
    /// The same once more.
    pub fn copy(&self, alloc: Global) -> Result<Owned, NoMemory>
        ensures { IfOk result (λ o. o ≡ self.now) }
    {
        let owners = self.owners.copy(alloc)?;
        let defined = self.defined.copy(alloc)?;
        Ok(Owned {
            owners,
            defined,
            leader: self.leader,
        })
    }
}

/// The first rule of ownership that is broken, with the first variable or equation that breaks it. The rules are tried in
/// this order; each is a test in `specs/Rules.antt`.
#[derive(Clone, Copy, Debug, PartialEq, Eq, Drop, Error)]
pub enum OwnFault {
    /// The file is bilevel and the solve statement names no objective.
    #[error("leader missing")]
    LeaderMissing,
    /// In an equilibrium file the variable is in no block and is no dual variable.
    #[error("unowned")]
    Unowned(VarId),
    /// The variable is named twice as a leader's variable, own variable or dual variable, where the blocks that list an
    /// implicit variable count as one; or it is listed twice in one block; or it is in two implicit pairs.
    #[error("owned twice")]
    OwnedTwice(VarId),
    /// The equation is listed twice in one block; or it is the function of a pair and is listed in any other place; or it
    /// is in an implicit pair and is listed, or is in two implicit pairs.
    #[error("equation twice")]
    EquationTwice(EquId),
    /// In an equilibrium file the equation is in no block and in no implicit pair.
    #[error("equation left")]
    EquationLeft(EquId),
    /// The function of a pair has relation `=L=`.
    #[error("vi relation")]
    ViRelation(EquId),
    /// The equation is named by `dualvar` or `visol` and is a constraint of no block.
    #[error("not a constraint")]
    NotConstraint(EquId),
    /// The equation has a dual variable, is a constraint of two or more blocks and is not under `visol`.
    #[error("dual shared")]
    DualShared(EquId),
    /// The equation has two dual variables.
    #[error("dual twice")]
    DualTwice(EquId),
    /// The dual variable has a bound that the sign of its multiplier does not imply.
    #[error("dual bound")]
    DualBound(VarId),
    /// The variable of an implicit pair is listed by no block, or is an objective, the variable of a pair, a leader's
    /// variable or a dual variable.
    #[error("implicit use")]
    ImplicitUse(VarId),
    /// The equation of an implicit pair has a relation other than `=E=`.
    #[error("implicit relation")]
    ImplicitRelation(EquId),
    /// There was no memory.
    #[error("no memory")]
    NoMemory,
}

impl From<NoMemory> for OwnFault {
    ghost use Rattle.emp_owner.specs.declared.owned.OwnFault.TheVariants.{NoMemory as NoMemoryFault};

    ghost from_gives = { λ _ f. f ≡ NoMemoryFault };

    fn from(_error: NoMemory) -> OwnFault {
        OwnFault::NoMemory
    }
}

impl From<AllocError> for OwnFault {
    ghost use Rattle.emp_owner.specs.declared.owned.OwnFault.TheVariants.{NoMemory as NoMemoryFault};

    ghost from_gives = { λ _ f. f ≡ NoMemoryFault };

    fn from(_error: AllocError) -> OwnFault {
        OwnFault::NoMemory
    }
}
