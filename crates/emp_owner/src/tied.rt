//! Which variables the implicit pairs of an equation name.
ghost use Rattle.emp_owner.specs.Finding.{tied_with, TellsTied};

use emp_ast::annot::Annot;
use emp_ast::tree::{EquId, VarId};

/// The variables that are in an implicit pair with an equation. No rule of ownership is broken only where there is at most
/// one.
#[derive(Clone, Copy)]
pub enum Tied {
    /// There is none.
    Nothing,
    /// There is this one.
    One(VarId),
    /// There are two or more.
    More,
}

impl Tied {
    ghost use Rattle.std.specs.Prelude.{◌≡◌};

    /// The same with one more variable.
    fn with(self, v: VarId) -> Tied
        ensures { result ≡ tied_with self v }
    {
        match self {
            Tied::Nothing => Tied::One(v),
            Tied::One(_) | Tied::More => Tied::More,
        }
    }
}

/// The variables that are in an implicit pair with the equation.
#[tactic(auto, using(crate::proofs::Tying::tying))]
pub fn tied_variables(annot: &Annot, e: EquId) -> Tied
    ensures { TellsTied annot.now.implicits e.at result }
{
    let mut tied = Tied::Nothing;
    for at in 0..annot.implicits.len() {
        let pair = *annot.implicits.get(at);
        if pair.1.at == e.at {
            tied = tied.with(pair.0);
        }
    }
    tied
}
