//! The two searches as calls that give certificates: for a row system without an objective, and for one with an objective.
ghost use Rattle.std.specs.Prelude.{◌≡◌, length, IfOk, IfErr, None, Some};
ghost use Rattle.emp_rows.specs.declared.affine.Affine.{Affine};
ghost use Rattle.emp_cert.specs.Certs.{VerdictFits};
ghost use Rattle.emp_walk.specs.Searches.{HasUnits, IsNotSpent};
ghost use Rattle.emp_walk.specs.Founds.{CertGives, IsBestVerdict, IsWalkVerdict, NamesSystem, answer_of};

use crate::fault::WalkFault;
use crate::search::{Answer, search};
use emp_cert::cert::{Cert, Found};
use emp_list::memory::NoMemory;
use emp_rows::system::RowSystem;
use std::alloc::Global;

/// The answer as a certificate of the system.
fn certified(alloc: Global, system: &RowSystem, answer: Answer) -> Result<Found, NoMemory>
    requires { VerdictFits system.now.base (length system.now.quantities) (length system.now.pairs) answer.verdict }
    ensures names { IfOk result (NamesSystem system.now) }
    ensures answer { IfOk result (λ f. answer_of f ≡ answer) }
{
    let links = system.pairs.copy(alloc)?;
    let Answer {
        verdict,
        work,
        nodes,
    } = answer;
    let cert = Cert {
        base: system.base,
        quantities: system.quantities.len() as u32,
        pairs: system.pairs.len() as u32,
        links: Some(links),
        verdict,
    };
    Ok(Found { cert, work, nodes })
}

/// The certificate for what the search finds.
fn found(alloc: Global, system: &RowSystem, work: u64) -> Result<Found, WalkFault>
    ensures { CertGives system.now work result }
{
    let answer = match search(alloc, system, work) {
        Ok(answer) => answer,
        Err(fault) => return Err(fault),
    };
    match certified(alloc, system, answer) {
        Ok(found) => Ok(found),
        Err(NoMemory) => Err(WalkFault::NoMemory),
    }
}

/// Searches a row system without an objective, with so many units of work.
///
/// The verdict is a row point, or a tree that leaves none. The certificate names the system and shows its verdict. The faults are those of `search`;
/// with as many units as `HasUnits` says none is `Spent`.
pub fn walk(alloc: Global, system: &RowSystem, work: u64) -> Result<Found, WalkFault>
    requires { system.now.objective ≡ None }
    ensures gives { CertGives system.now work result }
    ensures kind { IfOk result (λ f. IsWalkVerdict f.cert.verdict) }
    ensures ends { HasUnits system.now work → IfErr result IsNotSpent }
{
    found(alloc, system, work)
}

/// Searches a row system with an objective that is to be least, with so many units of work.
///
/// The verdict is a best row point with a tree that bounds the objective, a row ray along which the objective falls, or a tree that leaves no row
/// point. The certificate names the system and shows its verdict. The faults are those of `search`; with as many
/// units as `HasUnits` says none is `Spent`.
pub fn bisearch(alloc: Global, system: &RowSystem, work: u64) -> Result<Found, WalkFault>
    requires { (o : Affine) × (system.now.objective ≡ Some o) }
    ensures gives { CertGives system.now work result }
    ensures kind { IfOk result (λ f. IsBestVerdict f.cert.verdict) }
    ensures ends { HasUnits system.now work → IfErr result IsNotSpent }
{
    found(alloc, system, work)
}
