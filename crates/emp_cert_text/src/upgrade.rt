//! Certificates that come to name their pairs.
ghost use Rattle.std.specs.Prelude.{◌≡◌, ℕ, length, All, IfOk};
ghost use Rattle.emp_rows.specs.Points.{IsNumber};
ghost use Rattle.emp_cert_text.specs.Upgrading.{IsUpgrade};

use emp_cert::cert::Cert;
use emp_list::memory::NoMemory;
use emp_list::seq::Seq;
use std::alloc::Global;

/// The same certificate with these pairs named, so that its text is of version 2.
#[tactic(auto, using(crate::proofs::Upgrading::upgrading))]
pub fn upgrade(alloc: Global, cert: Cert, pairs: &[(u32, u32)]) -> Result<Cert, NoMemory>
    requires count { cert.pairs ≡ length pairs.now }
    requires first { All (λ (p : ℕ × ℕ). IsNumber cert.quantities p.0) pairs.now }
    requires second { All (λ (p : ℕ × ℕ). IsNumber cert.quantities p.1) pairs.now }
    ensures { IfOk result (IsUpgrade cert pairs.now) }
{
    let links = Seq::of_slice(alloc, pairs)?;
    Ok(Cert {
        base: cert.base,
        quantities: cert.quantities,
        pairs: cert.pairs,
        links: Some(links),
        verdict: cert.verdict,
    })
}
