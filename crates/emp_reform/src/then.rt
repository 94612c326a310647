//! Two rewritings as one.
ghost use Rattle.std.specs.Prelude.{◌≡◌, ◌↔◌};
ghost use Rattle.emp_reform.specs.Back.{first_some};

use crate::fault::BackFault;
use crate::problem::Problem;
use crate::reform::Reform;
use std::alloc::Global;

/// One rewriting after another: the target of the first is the source of the second.
#[derive(Drop)]
pub struct Then<A: Reform + Drop, B: Reform<Src = A::Dst> + Drop> {
    first: A,
    second: B,
}

impl<A: Reform + Drop, B: Reform<Src = A::Dst> + Drop> Then<A, B> {
    /// The two as one. The source of the second is the target of the first.
    pub fn join(first: A, second: B) -> Then<A, B>
        requires { B.source second ≡ A.target_of first }
        ensures first { result.first ≡ first }
        ensures second { result.second ≡ second }
    {
        Then { first, second }
    }
}

impl<A: Reform + Drop, B: Reform<Src = A::Dst> + Drop> Reform for Then<A, B> {
    type Src = A::Src;

    type Dst = B::Dst;

    ghost use Rattle.std.proofs.Common.{subst, sym};
    ghost use Rattle.emp_reform.specs.Chain.{same_on, both_ways};

    ghost source = { λ s. A.source s.first };

    ghost target_of = { λ s. B.target_of s.second };

    ghost image = { λ s p. A.image s.first (B.image s.second p) };

    ghost wide = { λ s p. first_some (B.wide s.second p) (A.wide s.first (B.image s.second p)) };

    ghost whole = { λ s. (B.source s.second ≡ A.target_of s.first) × A.whole s.first × B.whole s.second };

    ghost keeps = { λ s p w h. A.keeps s.first (B.image s.second p) w.1 (subst (λ t. A.Dst.fits t (B.image s.second p)) w.0 (B.keeps s.second p w.2 h)) };

    ghost sound = { λ s p w h. A.sound s.first (B.image s.second p) w.1 (subst (λ t. A.Dst.solves t (B.image s.second p)) w.0 (B.sound s.second p w.2 h)) };

    ghost order = { λ s p q w h k. both_ways (subst (λ t. B.Dst.better (B.target_of s.second) p q ↔ A.Dst.better t (B.image s.second p) (B.image s.second q)) w.0 (B.order s.second p q w.2 h k)) (A.order s.first (B.image s.second p) (B.image s.second q) w.1 (subst (λ t. A.Dst.solves t (B.image s.second p)) w.0 (B.sound s.second p w.2 h)) (subst (λ t. A.Dst.solves t (B.image s.second q)) w.0 (B.sound s.second q w.2 k))) };

    ghost same = { λ s p q w h k e. A.same s.first (B.image s.second p) (B.image s.second q) w.1 (subst (λ t. A.Dst.fits t (B.image s.second p)) w.0 (B.keeps s.second p w.2 h)) (subst (λ t. A.Dst.fits t (B.image s.second q)) w.0 (B.keeps s.second q w.2 k)) (B.same s.second p q w.2 h k e) };

    ghost lifts = { λ s q w h. let m = A.lifts s.first q w.1 h in let k = B.lifts s.second m.0 w.2 (subst (λ t. A.Dst.solves t m.0) (sym w.0) m.1) in (k.0, k.1, same_on (A.same s.first (B.image s.second k.0) m.0 w.1 (subst (λ t. A.Dst.fits t (B.image s.second k.0)) w.0 (B.keeps s.second k.0 w.2 (B.Dst.solving_fits (B.target_of s.second) k.0 k.1))) (A.Dst.solving_fits (A.target_of s.first) m.0 m.1) k.2) m.2) };

    fn target(&self) -> &B::Dst {
        self.second.target()
    }

    fn back(
        &self,
        alloc: Global,
        point: &<B::Dst as Problem>::Point,
    ) -> Result<<A::Src as Problem>::Point, BackFault> {
        let middle = self.second.back(alloc, point)?;
        self.first.back(alloc, &middle)
    }
}
